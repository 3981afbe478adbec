//! The clause form of asserted nodes.
ghost use Rattle.std.specs.Prelude.{◌≡◌, ◌≤◌, IfOk};
ghost use Rattle.idl_node.specs.Tables.{IsTableOver};
ghost use Rattle.clause_form.specs.ClauseForm.{clauses_of, points_of};

use crate::form::Form;
use crate::marks::node_marks;
use crate::numbering::number_points;
use idl_node::Nodes;
use std::alloc::{AllocError, Global};
use stn_core::{Clauses, Problem};

/// The problem of the asserted nodes. `points` counts the zero point and the names' points. `roots` are the asserted nodes'
/// numbers, in any order, doubles among them; one beyond the table is left out. It takes time and memory of the order of the
/// table, the members of its nodes and the roots. The one error is want of memory.
pub fn problem_of(
    alloc: Global,
    points: u32,
    nodes: &Nodes,
    roots: &[u32],
) -> Result<Problem, AllocError>
    requires some { 1 ≤ points }
    requires few { points ≤ 65537 }
    requires table { IsTableOver points nodes.now }
    ensures points { IfOk result (λ problem. problem.points ≡ points_of points nodes.now roots.now) }
    ensures clauses { IfOk result (λ problem. problem.clauses ≡ clauses_of points nodes.now roots.now) }
{
    let table = nodes.as_slice();
    let marks = node_marks(alloc, table, roots)?;
    let numbering = number_points(alloc, points, &marks.inner)?;
    let form = Form {
        nodes: table,
        fresh: &numbering.fresh,
    };
    let clauses = form.clauses(alloc, &marks.polarity, &marks.inner)?;
    Ok(Problem {
        points: numbering.points,
        clauses: Clauses::new(clauses),
    })
}
