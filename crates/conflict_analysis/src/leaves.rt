//! Which resolved literals need no steps of their own: where the negation of one is assumed, the clause of the
//! problem that it follows from is denied, which is a leaf.
ghost use Rattle.std.specs.Prelude.{◌≡◌, ◌≢◌, ◌<◌, ◌≤◌, ◌+◌, ◌⊎◌, ℕ, length, slice_index, true, false};
ghost use Rattle.stn_core.specs.Literal.{negation_of, literal_at};
ghost use Rattle.conflict_analysis.specs.declared.entry.Role.TheVariants.{Resolved};
ghost use Rattle.conflict_analysis.specs.code.Trails.{on_trail, role_at, IsUsed, StandsUsed, IsClosed, IsUsedConflict};
ghost use Rattle.conflict_analysis.specs.code.Places.{ArePassed};
ghost use Rattle.conflict_analysis.specs.code.Leaves.{at_leaves, IsFewer, StandsAssumed, IsChosen, IsAssumedConflict};

use crate::entry::{Conflict, Reason, Role, Source};
use crate::graph::ImplicationGraph;
use crate::reading::{denial_guess, is_same, literal_place, numbers_of};
use refute_tree::Earlier;
use search_guide::Guide;
use stn_core::{Literal, negate};

/// The most literals of a clause at leaves. Where the leaves are written out, each has a step for each of them.
const LONGEST: usize = 4;

fn is_used(role: Role) -> bool
    ensures used { result ≡ true → IsUsed role }
    ensures unused { IsUsed role → result ≡ true }
{
    match role {
        Role::Unused => false,
        Role::Kept => true,
        Role::Resolved => true,
    }
}

// Whether the literal stands at this place, used.
fn is_used_at<E: Earlier>(
    graph: &ImplicationGraph<'_, E>,
    roles: &[Role],
    literal: Literal,
    k: usize,
) -> bool
    requires trail { k < length graph.now.trail }
    requires roles { k < length roles.now }
    ensures used { result ≡ true → IsUsed (role_at roles.now k) }
    ensures is { result ≡ true → on_trail graph.now.trail k ≡ literal }
    ensures other { IsUsed (role_at roles.now k) → on_trail graph.now.trail k ≡ literal → result ≡ true }
{
    is_used(roles[k]) && is_same(graph.literal(k), literal)
}

/// A place below another one at which the literal stands, used: the last one, or the one that was guessed, or else
/// the first.
pub fn used_place<E: Earlier>(
    graph: &ImplicationGraph<'_, E>,
    roles: &[Role],
    literal: Literal,
    below: usize,
    guess: Option<usize>,
) -> usize
    requires within { below ≤ length graph.now.trail }
    requires roles { length graph.now.trail ≤ length roles.now }
    requires stands { StandsUsed graph.now.trail roles.now below literal }
    ensures below { result < below }
    ensures is { on_trail graph.now.trail result ≡ literal }
    ensures used { IsUsed (role_at roles.now result) }
{
    let last = below.wrapping_sub(1);
    if last < below && is_used_at(graph, roles, literal, last) {
        return last;
    }
    if let Some(k) = guess {
        if k < below && is_used_at(graph, roles, literal, k) {
            return k;
        }
    }
    for k in 0..below {
        if is_used_at(graph, roles, literal, k) {
            return k;
        }
    }
    unreachable!()
}

// Whether the guess says where the literal stands, assumed.
fn is_assumed<E: Earlier>(
    graph: &ImplicationGraph<'_, E>,
    roles: &[Role],
    leaves: &[bool],
    literal: Literal,
    below: usize,
    guess: Option<usize>,
) -> bool
    requires within { below ≤ length graph.now.trail }
    requires roles { length graph.now.trail ≤ length roles.now }
    requires leaves { length graph.now.trail ≤ length leaves.now }
    ensures { result ≡ true → StandsAssumed graph.now.trail roles.now leaves.now below literal }
{
    match guess {
        Some(k) => k < below && !leaves[k] && is_used_at(graph, roles, literal, k),
        None => false,
    }
}

// Whether the negations of the clause's literals but the one at the place are assumed.
fn are_denied<E: Earlier>(
    graph: &ImplicationGraph<'_, E>,
    roles: &[Role],
    leaves: &[bool],
    guide: &Guide,
    source: Source,
    clause: &[Literal],
    place: usize,
    below: usize,
) -> bool
    requires within { below ≤ length graph.now.trail }
    requires roles { length graph.now.trail ≤ length roles.now }
    requires leaves { length graph.now.trail ≤ length leaves.now }
    ensures { result ≡ true → (q : ℕ) → q < length clause.now → q ≢ place
        → StandsAssumed graph.now.trail roles.now leaves.now below (negation_of (literal_at clause.now q)) }
{
    let numbers = numbers_of(guide, source);
    for q in 0..clause.len() {
        if q != place {
            let guess = denial_guess(guide, numbers, q, clause[q]);
            if !is_assumed(graph, roles, leaves, negate(clause[q]), below, guess) {
                return false;
            }
        }
    }
    true
}

// The literal's reason is in the steps.
fn assume<E: Earlier>(
    graph: &ImplicationGraph<'_, E>,
    roles: &[Role],
    leaves: &mut Vec<bool>,
    literal: Literal,
    below: usize,
    guess: Option<usize>,
)
    requires within { below ≤ length graph.now.trail }
    requires roles { length graph.now.trail ≤ length roles.now }
    requires leaves { length graph.now.trail ≤ length leaves.old.items }
    requires stands { StandsUsed graph.now.trail roles.now below literal }
    ensures fewer { IsFewer leaves.old.items leaves.new.items }
    ensures assumed { StandsAssumed graph.now.trail roles.now leaves.new.items below literal }
{
    let k = used_place(graph, roles, literal, below, guess);
    leaves[k] = false;
}

// So are those of the cycle's literals but the negation of this one.
fn assume_others<E: Earlier>(
    graph: &ImplicationGraph<'_, E>,
    roles: &[Role],
    leaves: &mut Vec<bool>,
    guide: &Guide,
    cycle: &[Literal],
    literal: Literal,
    below: usize,
)
    requires within { below ≤ length graph.now.trail }
    requires roles { length graph.now.trail ≤ length roles.now }
    requires leaves { length graph.now.trail ≤ length leaves.old.items }
    requires stand { (q : ℕ) → q < length cycle.now → (literal_at cycle.now q ≡ negation_of literal)
        ⊎ StandsUsed graph.now.trail roles.now below (literal_at cycle.now q) }
    ensures fewer { IsFewer leaves.old.items leaves.new.items }
    ensures assumed { (q : ℕ) → q < length cycle.now → (literal_at cycle.now q ≡ negation_of literal)
        ⊎ StandsAssumed graph.now.trail roles.now leaves.new.items below (literal_at cycle.now q) }
{
    let denied = negate(literal);
    for q in 0..cycle.len() {
        if !is_same(cycle[q], denied) {
            let guess = literal_place(guide, cycle[q]);
            assume(graph, roles, leaves, cycle[q], below, guess);
        }
    }
}

// So are those of all of the cycle's literals.
fn assume_all<E: Earlier>(
    graph: &ImplicationGraph<'_, E>,
    roles: &[Role],
    leaves: &mut Vec<bool>,
    guide: &Guide,
    cycle: &[Literal],
    below: usize,
)
    requires within { below ≤ length graph.now.trail }
    requires roles { length graph.now.trail ≤ length roles.now }
    requires leaves { length graph.now.trail ≤ length leaves.old.items }
    requires stand { (q : ℕ) → q < length cycle.now
        → StandsUsed graph.now.trail roles.now below (literal_at cycle.now q) }
    ensures fewer { IsFewer leaves.old.items leaves.new.items }
    ensures assumed { (q : ℕ) → q < length cycle.now
        → StandsAssumed graph.now.trail roles.now leaves.new.items below (literal_at cycle.now q) }
{
    for q in 0..cycle.len() {
        let guess = literal_place(guide, cycle[q]);
        assume(graph, roles, leaves, cycle[q], below, guess);
    }
}

// What becomes of the resolved literal at the place that was passed behind so many others.
fn choose<E: Earlier>(
    graph: &ImplicationGraph<'_, E>,
    roles: &[Role],
    passed: &[usize],
    guide: &Guide,
    i: usize,
    leaves: &mut Vec<bool>,
)
    requires index { i < length passed.now }
    requires roles { length graph.now.trail ≤ length roles.now }
    requires passed { ArePassed 0 (length graph.now.trail) roles.now passed.now }
    requires closed { IsClosed graph.now.inputs graph.now.lemmas graph.now.trail roles.now }
    requires resolved { role_at roles.now (slice_index passed.now i) ≡ Resolved }
    requires chosen { IsChosen graph.now.inputs graph.now.lemmas graph.now.trail roles.now passed.now
        (i + 1) leaves.old.items }
    ensures chosen { IsChosen graph.now.inputs graph.now.lemmas graph.now.trail roles.now passed.now
        i leaves.new.items }
{
    let k = passed[i];
    let literal = graph.literal(k);
    match graph.reason(k) {
        Reason::Given => {}
        Reason::Decision => {}
        Reason::Clause(source, place) => match *source {
            Source::Lemma(_) => {}
            Source::Input(_) => {
                let clause = graph.clause(*source);
                let chosen = leaves.as_slice();
                if clause.len() <= LONGEST
                    && are_denied(graph, roles, chosen, guide, *source, clause, *place, k)
                {
                    leaves[k] = true;
                }
            }
        },
        Reason::Pair(tighter) => {
            let cycle = [*tighter, negate(literal)];
            let others = cycle.as_slice();
            assume_others(graph, roles, leaves, guide, others, literal, k);
        }
        Reason::Cycle(cycle) => {
            let others = cycle.as_slice();
            assume_others(graph, roles, leaves, guide, others, literal, k);
        }
    }
}

/// Which literals stand at leaves alone, the first place first. No literal of a cycle does, and none that the
/// clause of another one at leaves has.
pub fn choose_leaves<E: Earlier>(
    graph: &ImplicationGraph<'_, E>,
    roles: &[Role],
    passed: &[usize],
    guide: &Guide,
    conflict: &Conflict,
    leaves: &mut Vec<bool>,
)
    requires roles { length graph.now.trail ≤ length roles.now }
    requires passed { ArePassed 0 (length graph.now.trail) roles.now passed.now }
    requires closed { IsClosed graph.now.inputs graph.now.lemmas graph.now.trail roles.now }
    requires conflict { IsUsedConflict graph.now roles.now conflict.now }
    requires count { length graph.now.trail ≤ length leaves.old.items }
    requires clean { (k : ℕ) → at_leaves leaves.old.items k ≡ false }
    ensures chosen { IsChosen graph.now.inputs graph.now.lemmas graph.now.trail roles.now passed.now
        0 leaves.new.items }
    ensures conflict { IsAssumedConflict graph.now.trail roles.now leaves.new.items conflict.now }
{
    let mut left = passed.len();
    'forth: while 0 < left {
        left -= 1;
        if let Role::Resolved = roles[passed[left]] {
            choose(graph, roles, passed, guide, left, leaves);
        }
    }
    if let Conflict::Cycle(cycle) = conflict {
        assume_all(graph, roles, leaves, guide, cycle.as_slice(), graph.count());
    }
}
