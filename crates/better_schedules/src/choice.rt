//! Of each clause a literal that holds.
ghost use Rattle.std.specs.Prelude.{◌≡◌, length, All, Contains, IfOk, IfSome, IfNone};
ghost use Rattle.stn_core.specs.Literal.{Holds, IsOver};
ghost use Rattle.stn_core.specs.Problem.{ClauseHolds, ProblemHolds};
ghost use Rattle.better_schedules.specs.code.Choices.{IsTrueOf, IsChoice};

use std::alloc::{AllocError, Global};
use stn_core::{Clause, Literal, Value, holds};

fn true_literal(clause: &[Literal], values: &[Value]) -> Option<Literal>
    requires { All (IsOver (length values.now)) clause.now }
    ensures some { IfSome result (IsTrueOf values.now clause.now) }
    ensures none { IfNone result (ClauseHolds values.now clause.now → ⊥) }
{
    for literal in clause {
        if holds(*literal, values) {
            return Some(*literal);
        }
    }
    None
}

/// The first literal of each clause that holds.
pub(crate) fn choice(
    alloc: Global,
    clauses: &[Clause],
    values: &[Value],
) -> Result<Vec<Literal>, AllocError>
    requires over { All (λ clause. All (IsOver (length values.now)) clause) clauses.now }
    requires holds { ProblemHolds values.now clauses.now }
    ensures { IfOk result (λ chosen. IsChoice values.now clauses.now chosen.items) }
{
    let mut chosen = Vec::new(alloc);
    for clause in clauses {
        match true_literal(clause.as_slice(), values) {
            Some(literal) => chosen.push(literal)?,
            None => unreachable!(),
        }
    }
    Ok(chosen)
}
