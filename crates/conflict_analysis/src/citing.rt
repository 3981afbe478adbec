//! Which literals of the trail a lemma cites, in place of their reasons. Any answer is right.
use crate::entry::{Entry, Reason, Source};
use crate::graph::ImplicationGraph;
use crate::reading::{denial_place, numbers_of};
use refute_tree::Earlier;
use search_guide::Guide;

// Whether the cube's literal stands at the place, if there is one.
fn is_given(entries: &[Entry], place: Option<usize>) -> bool {
    match place {
        Some(k) => k < entries.len() && matches!(&entries[k].reason, Reason::Given),
        None => false,
    }
}

// Whether the clause's literals but the one at the place are negations of the cube's.
fn are_given(guide: &Guide, entries: &[Entry], source: Source, count: usize, place: usize) -> bool {
    let numbers = numbers_of(guide, source);
    for q in 0..count {
        if q != place && !is_given(entries, denial_place(guide, numbers, q)) {
            return false;
        }
    }
    true
}

// How many literals the clause has.
fn count_of<E: Earlier>(graph: &ImplicationGraph<'_, E>, source: Source) -> usize {
    if graph.is_known(source) {
        graph.clause(source).len()
    } else {
        0
    }
}

/// Whether the literal at the place follows from none, from the cube's literals by one clause, or from a
/// tighter one, which has a lemma of its own.
pub fn is_cited<E: Earlier>(graph: &ImplicationGraph<'_, E>, guide: &Guide, k: usize) -> bool {
    if k >= graph.count() {
        return true;
    }
    match graph.reason(k) {
        Reason::Given => true,
        Reason::Decision => true,
        Reason::Clause(source, place) => {
            let count = count_of(graph, *source);
            are_given(guide, graph.trail(), *source, count, *place)
        }
        Reason::Pair(_) => true,
        Reason::Cycle(_) => false,
    }
}
