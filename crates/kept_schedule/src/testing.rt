//! Whether formulas are true on a schedule.
ghost use Rattle.std.specs.Prelude.{◌≡◌, ◌+◌, length, true, false, slice_index_or};
ghost use Rattle.std.specs.List.{AllByRecursion};
ghost use Rattle.idl_node.specs.Tables.{IsTableOver};
ghost use Rattle.idl_node.specs.Truth.{truth, point_values};

use idl_node::{Nodes, eval};
use stn_core::NamedValues;

/// Whether all of the roots are marked.
fn all_marked(marks: &[bool], roots: &[u32]) -> bool
    ensures { result ≡ true → AllByRecursion (λ r. slice_index_or marks.now r false ≡ true) roots.now }
{
    for root in roots {
        if marks.get(*root as usize).copied() != Some(true) {
            return false;
        }
    }
    true
}

/// Whether all of the roots are true; the marks then tell the truth of each node.
pub fn are_true(nodes: &Nodes, roots: &[u32], named: &NamedValues, marks: &mut [bool]) -> bool
    requires table { IsTableOver (length named.now + 1) nodes.now }
    requires room { length marks.old ≡ length nodes.now }
    ensures truth { result ≡ true → AllByRecursion (λ r. truth nodes.now (point_values named.now) r ≡ true) roots.now }
    ensures room { length marks.new ≡ length nodes.now }
{
    let count = nodes.as_slice().len();
    if count > 0 {
        eval(nodes, count as u32 - 1, named, marks);
    }
    all_marked(marks, roots)
}
