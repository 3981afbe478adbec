//! Which problems have objectives of which each best value is within the limit.
ghost use Rattle.std.specs.Prelude.{◌≡◌, ◌↔◌, ◌≤◌, IsTrue};
ghost use Rattle.best_values.specs.Widths.{clause_width, width_of, Fits};

use stn_core::{Clause, Problem};

/// The greatest product of the count of a problem's points and one more than the greatest absolute value of its bounds.
pub const OBJECTIVE_LIMIT: u64 = 1 << 60;

fn width_of_clause(clause: &Clause) -> u64
    ensures { result ≡ clause_width clause.now }
{
    let mut width = 0;
    for literal in clause.as_slice() {
        width = literal.c.unsigned_abs().max(width);
    }
    width
}

/// The greatest absolute value of a bound, and 0 without literals. It takes no memory.
pub fn width(problem: &Problem) -> u64
    ensures { result ≡ width_of problem.now.clauses }
{
    let mut width = 0;
    for clause in problem.clauses.as_slice() {
        width = width_of_clause(clause).max(width);
    }
    width
}

/// Whether the problem is small enough that each best value of a difference of two of its points is within
/// `OBJECTIVE_LIMIT`. It takes no memory.
pub fn fits(problem: &Problem) -> bool
    ensures { IsTrue result ↔ Fits problem.now }
{
    u128::from(problem.points) * (u128::from(width(problem)) + 1) <= u128::from(OBJECTIVE_LIMIT)
}
