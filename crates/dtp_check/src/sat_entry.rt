//! What is wrong with the values of names.
ghost use Rattle.std.specs.Prelude.{◌≡◌, ◌<◌, ◌+◌, ℕ, IfOk, length, false, slice_index_or};
ghost use Rattle.std.specs.List.{AllByRecursion};
ghost use Rattle.idl_node.specs.Tables.{IsTableOver};
ghost use Rattle.idl_node.specs.Truth.{point_values, truth};
ghost use Rattle.smt_script.specs.States.{State as Meaning};
ghost use Rattle.script_walk.specs.code.Standing.{Stands};
ghost use Rattle.dtp_check.specs.Judged.{is_of_sort, first_of_wrong_sort, values_flaw};
ghost use Rattle.dtp_check.specs.code.Roots.{first_unmarked};

use crate::judgement::EntryFlaw;
use idl_node::{Nodes, Sort, eval};
use smt_script::State;
use std::alloc::{AllocError, Global};
use stn_core::{NamedValue, NamedValues};

fn is_of_sort(sort: Sort, value: NamedValue) -> bool
    ensures { result ≡ is_of_sort sort value }
{
    match (sort, value) {
        (Sort::Int, NamedValue::Int(_)) => true,
        (Sort::Bool, NamedValue::Truth(_)) => true,
        _ => false,
    }
}

/// The number of the first value of another sort than its name's.
fn wrong_sort(sorts: &[Sort], values: &[NamedValue]) -> Option<usize>
    requires { length values.now ≡ length sorts.now }
    ensures { result ≡ first_of_wrong_sort 1 sorts.now values.now }
{
    for (k, value) in values.iter().enumerate() {
        if !is_of_sort(sorts[k], *value) {
            return Some(k + 1);
        }
    }
    None
}

/// The number, from 1, of the first root whose node isn't marked as true.
fn first_unmarked(marks: &[bool], roots: &[u32]) -> Option<usize>
    requires { AllByRecursion (λ r. r < length marks.now) roots.now }
    ensures { result ≡ first_unmarked marks.now 1 roots.now }
{
    for (k, root) in roots.iter().enumerate() {
        if !marks[*root as usize] {
            return Some(k + 1);
        }
    }
    None
}

/// The truth of all nodes, where the names have these values: `eval` of the last one tells that of those before it.
fn truths(alloc: Global, nodes: &Nodes, values: &NamedValues) -> Result<Vec<bool>, AllocError>
    requires { IsTableOver (length values.now + 1) nodes.now }
    ensures room { IfOk result (λ marks. length marks.items ≡ length nodes.now) }
    ensures each { IfOk result (λ marks. (k : ℕ) → k < length nodes.now
        → slice_index_or marks.items k false ≡ truth nodes.now (point_values values.now) k) }
{
    let mut marks = vec![in alloc; false; nodes.len()]?;
    if let Some(last) = nodes.len().checked_sub(1) {
        eval(nodes, last as u32, values, &mut marks);
    }
    Ok(marks)
}

/// What is wrong with the values of a sat entry, or of a best one.
pub fn values_flaw(
    alloc: Global,
    state: &State,
    values: &NamedValues,
) -> Result<Option<EntryFlaw>, AllocError>
    requires { (s : Meaning) × Stands state.now s }
    ensures { IfOk result (λ flaw. (s : Meaning) → Stands state.now s
        → flaw ≡ values_flaw s.context values.now) }
{
    idl_term::context_law();
    let names = state.names();
    let given = values.as_slice();
    if given.len() != names.len() {
        return Ok(Some(EntryFlaw::WrongCount));
    }
    match wrong_sort(names.sorts(), given) {
        Some(k) => return Ok(Some(EntryFlaw::WrongSort(k))),
        None => {}
    }
    let marks = truths(alloc, state.nodes(), values)?;
    match first_unmarked(&marks, state.roots()) {
        Some(k) => Ok(Some(EntryFlaw::FalseAssertion(k))),
        None => Ok(None),
    }
}
