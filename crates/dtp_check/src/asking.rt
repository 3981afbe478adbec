//! The problem in which an objective is to be less than a value, made from the problem without a copy of its clauses.
ghost use Rattle.std.specs.Prelude.{◌≡◌, ◌<◌, [], ◌∷◌, ◌++◌, List, IfOk};
ghost use Rattle.stn_core.specs.declared.literal.Literal.{Literal as Bound};
ghost use Rattle.best_values.specs.Questions.{Asks};
ghost use Rattle.best_values.specs.Widths.{IsWithinLimit};

use best_values::below;
use std::alloc::{AllocError, Global};
use stn_core::{Clause, Clauses, Problem, Value};

/// The problem with one more clause, the last: x - y is less than the value. The other clauses are taken as they are.
pub fn with_question(
    alloc: Global,
    problem: Problem,
    x: u32,
    y: u32,
    value: Value,
) -> Result<Problem, AllocError>
    requires x_in { x < problem.points }
    requires y_in { y < problem.points }
    requires value { IsWithinLimit value }
    ensures { IfOk result (Asks problem x y value) }
{
    let clause = Clause::from_slice(alloc, &[below(x, y, value)])?;
    let points = problem.points;
    let mut clauses = problem.into_clauses().into_vec();
    clauses.push(clause)?;
    Ok(Problem {
        points,
        clauses: Clauses::new(clauses),
    })
}

/// The problem without its last clause.
pub fn without_question(problem: Problem) -> Problem
    ensures points { result.points ≡ problem.points }
    ensures clauses { (clauses : List (List Bound)) (last : List Bound)
        → problem.clauses ≡ clauses ++ last ∷ [] → result.clauses ≡ clauses }
{
    let points = problem.points;
    let mut clauses = problem.into_clauses().into_vec();
    clauses.pop();
    Problem {
        points,
        clauses: Clauses::new(clauses),
    }
}
