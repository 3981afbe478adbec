ghost use Rattle.std.specs.Prelude.{◌≡◌, ◌↔◌, ◌<◌, length, All, IsOk, IfErr, IsTrue};
ghost use Rattle.stn_core.specs.Problem.{ClauseHolds, ProblemHolds};
ghost use Rattle.stn_core.specs.Literal.{IsOver};
ghost use Rattle.cert_check.specs.Schedules.{IsFirstFalse};

use stn_core::{Literal, Problem, Schedule, Value, holds};

/// Whether some literal of the clause holds on the values.
fn clause_holds(clause: &[Literal], values: &[Value]) -> bool
    requires { All (IsOver (length values.now)) clause.now }
    ensures { IsTrue result ↔ ClauseHolds values.now clause.now }
{
    for literal in clause {
        if holds(*literal, values) {
            return true;
        }
    }
    false
}

/// Whether the problem holds on the schedule, or the number of the first clause that doesn't, from 0.
///
/// The schedule has one value for each time point. It takes no memory, and time in proportion to the literals.
pub fn check_schedule(problem: &Problem, schedule: &Schedule) -> Result<(), usize>
    requires { length schedule.now ≡ problem.now.points }
    ensures holds { IsOk result ↔ ProblemHolds schedule.now problem.now.clauses }
    ensures first { IfErr result (IsFirstFalse schedule.now problem.now.clauses) }
{
    for (number, clause) in problem.clauses.as_slice().iter().enumerate() {
        if !clause_holds(clause.as_slice(), schedule.as_slice()) {
            return Err(number);
        }
    }
    Ok(())
}
