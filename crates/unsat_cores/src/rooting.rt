//! Which asserted formulas a refutation rests on.
ghost use Rattle.std.specs.Prelude.{◌≡◌, length, false, slice_index_or, ℕ, IfOk};
ghost use Rattle.idl_node.specs.Tables.{IsTableOver};
ghost use Rattle.unsat_cores.specs.Cores.{some_source, is_cited_root};
ghost use Rattle.unsat_cores.specs.code.Sweeping.{MarksWithin, comes_from};

use crate::citing::cited_marks;
use clause_form::{sources, sources_law};
use idl_node::Nodes;
use refute_tree::Refutation;
use std::alloc::{AllocError, Global};

fn is_marked(marks: &[bool], number: usize) -> bool
    ensures { result ≡ slice_index_or marks.now number false }
{
    number < marks.len() && marks[number]
}

// Marks the root that a clause comes from, where the clause is cited.
fn mark_source(marks: &mut [bool], source: Option<usize>, is_cited: bool)
    ensures { MarksWithin (comes_from source is_cited) marks.old marks.new }
{
    if let Some(root) = source {
        if is_cited && root < marks.len() {
            marks[root] = true;
        }
    }
}

// Marks the roots that cited clauses come from.
fn mark_sources(marks: &mut [bool], sources: &[Option<usize>], cited: &[bool])
    ensures { MarksWithin (λ r. some_source (λ i. slice_index_or cited.now i false) r 0 sources.now) marks.old marks.new }
{
    for (i, source) in sources.iter().enumerate() {
        mark_source(marks, *source, is_marked(cited, i));
    }
}

/// For each root whether a clause that the refutation cites comes from it: of a refutation of the roots' clause form
/// (`clause_form::problem_of`) these roots are true together on no schedule ([`core_law`](crate::core_law)).
///
/// It takes time and memory of the order of the table, the members of its nodes, the roots, and the refutation's needed lemmas.
pub fn cited_roots(
    alloc: Global,
    nodes: &Nodes,
    roots: &[u32],
    refutation: &Refutation,
) -> Result<Vec<bool>, AllocError>
    requires table { (points : ℕ) × IsTableOver points nodes.now }
    ensures count { IfOk result (λ marks. length marks.items ≡ length roots.now) }
    ensures each { IfOk result (λ marks. (r : ℕ)
        → slice_index_or marks.items r false ≡ is_cited_root nodes.now roots.now refutation.now r) }
{
    sources_law();
    let sources = sources(alloc, nodes, roots)?;
    let cited = cited_marks(alloc, refutation.as_slice())?;
    let mut marks = vec![in alloc; false; roots.len()]?;
    mark_sources(marks.as_mut_slice(), sources.as_slice(), cited.as_slice());
    Ok(marks)
}
