//! Two operations of three units of time each on one machine, points 1 and 2, which start at 0 at the earliest.
ghost use Rattle.std.specs.Prelude.{◌≡◌, All, IfOk};
ghost use Rattle.stn_core.specs.Literal.{IsOver};

use std::alloc::{AllocError, Global};
use stn_core::{Clause, Clauses, Literal, Problem};

const FIRST_BEFORE_SECOND: Literal = Literal { x: 1, y: 2, c: -3 };

const SECOND_BEFORE_FIRST: Literal = Literal { x: 2, y: 1, c: -3 };

pub const FIRST_STARTS: Literal = Literal { x: 0, y: 1, c: 0 };

pub const SECOND_STARTS: Literal = Literal { x: 0, y: 2, c: 0 };

/// The operation starts at that time at the latest.
pub const FIRST_BY_1: Literal = Literal { x: 1, y: 0, c: 1 };

pub const FIRST_BY_2: Literal = Literal { x: 1, y: 0, c: 2 };

pub const FIRST_BY_3: Literal = Literal { x: 1, y: 0, c: 3 };

pub const SECOND_BY_0: Literal = Literal { x: 2, y: 0, c: 0 };

pub const SECOND_BY_2: Literal = Literal { x: 2, y: 0, c: 2 };

pub const SECOND_BY_3: Literal = Literal { x: 2, y: 0, c: 3 };

/// The problem of the two operations and these times.
pub fn problem_of(alloc: Global, times: &[Literal]) -> Result<Problem, AllocError>
    requires { All (IsOver 3) times.now }
    ensures { IfOk result (λ problem. problem.points ≡ 3) }
{
    let orders = [FIRST_BEFORE_SECOND, SECOND_BEFORE_FIRST];
    let mut all = Vec::new(alloc);
    all.push(Clause::from_slice(alloc, orders.as_slice())?)?;
    for time in times {
        let unit = [*time];
        all.push(Clause::from_slice(alloc, unit.as_slice())?)?;
    }
    Ok(Problem {
        points: 3,
        clauses: Clauses::new(all),
    })
}
