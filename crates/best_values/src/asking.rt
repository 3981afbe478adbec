//! The problem in which an objective is to be less than a value.
ghost use Rattle.std.specs.Prelude.{◌≡◌, ◌<◌, IfOk};
ghost use Rattle.best_values.specs.Questions.{below, Asks};
ghost use Rattle.best_values.specs.Widths.{IsWithinLimit};

use std::alloc::{AllocError, Global};
use stn_core::{Clause, Clauses, Literal, Problem, Value};

/// The literal that holds where x - y is less than the value.
pub fn below(x: u32, y: u32, value: Value) -> Literal
    requires { IsWithinLimit value }
    ensures { result ≡ below x y value }
{
    let c = (value - 1) as i64;
    Literal { x, y, c }
}

/// The problem with one more clause, the last: x - y is less than the value. The one error is want of memory.
pub fn question(
    alloc: Global,
    problem: &Problem,
    x: u32,
    y: u32,
    value: Value,
) -> Result<Problem, AllocError>
    requires x_in { x < problem.now.points }
    requires y_in { y < problem.now.points }
    requires value { IsWithinLimit value }
    ensures { IfOk result (Asks problem.now x y value) }
{
    let literal = below(x, y, value);
    let clause = Clause::new(vec![in alloc; literal]?);
    let mut clauses = problem.clauses.copy()?.into_vec();
    clauses.push(clause)?;
    Ok(Problem {
        points: problem.points,
        clauses: Clauses::new(clauses),
    })
}
