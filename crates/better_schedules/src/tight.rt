//! Schedules made better by the literals that hold on them.
ghost use Rattle.std.specs.Prelude.{◌≡◌, ◌<◌, length, All, IfOk, IfSome};
ghost use Rattle.stn_core.specs.Literal.{IsOver};
ghost use Rattle.stn_core.specs.Problem.{ProblemHolds};
ghost use Rattle.stn_core.specs.Solution.{IsSolution};
ghost use Rattle.better_schedules.specs.code.Choices.{IsFlat};

use crate::choice::choice;
use std::alloc::{AllocError, Global};
use stn_core::{Clause, Greatest, Literal, POINTS_LIMIT, Problem, Schedule, Value, greatest};

/// No best value is further below 0 than this.
const FAR: i64 = -(1 << 60);

/// Values on which the problem holds, of which none is below 0 by more than the widest bound for each point.
pub(crate) fn flattened(
    alloc: Global,
    problem: &Problem,
    values: &[Value],
) -> Result<Schedule, AllocError>
    requires count { length values.now ≡ problem.now.points }
    requires holds { ProblemHolds values.now problem.now.clauses }
    ensures { IfOk result (IsFlat problem.now) }
{
    stn_core::cycle_law();
    crate::laws::near_law();
    crate::laws::width_law();
    let literals = choice(alloc, problem.clauses.as_slice(), values)?;
    match greatest(alloc, problem.points, &literals)? {
        Greatest::Greatest(schedule) => Ok(schedule),
        Greatest::Negative(_) => unreachable!(),
    }
}

/// Values on which the same literals hold, with x as far below the other points as these allow: a hint, since nothing is
/// said of how good they are. Two more points hold x down: the last one is at 0, and x is by twice `FAR` below it.
pub(crate) fn tightened(
    alloc: Global,
    problem: &Problem,
    values: &[Value],
    x: u32,
) -> Result<Option<Schedule>, AllocError>
    requires count { length values.now ≡ problem.now.points }
    requires holds { ProblemHolds values.now problem.now.clauses }
    requires x_in { x < problem.now.points }
    ensures { IfOk result (λ o. IfSome o (IsSolution problem.now)) }
{
    let points = problem.points;
    if POINTS_LIMIT < points + 2 {
        return Ok(None);
    }
    let mut literals = choice(alloc, problem.clauses.as_slice(), values)?;
    literals.push(Literal {
        x,
        y: points,
        c: FAR,
    })?;
    literals.push(Literal {
        x: points,
        y: points + 1,
        c: FAR,
    })?;
    match greatest(alloc, points + 2, &literals)? {
        Greatest::Greatest(schedule) => {
            let mut values = schedule.into_vec();
            values.truncate(points as usize);
            Ok(Some(Schedule::new(values)))
        }
        Greatest::Negative(_) => Ok(None),
    }
}

// The literals of the clauses with one literal.
fn units(alloc: Global, clauses: &[Clause], points: u32) -> Result<Vec<Literal>, AllocError>
    requires over { All (λ clause. All (IsOver points) clause) clauses.now }
    ensures { IfOk result (λ units. All (IsOver points) units.items) }
{
    let mut units = Vec::new(alloc);
    for clause in clauses {
        if let [literal] = clause.as_slice() {
            units.push(*literal)?;
        }
    }
    Ok(units)
}

/// How low the objective may be by the clauses with one literal: a hint, of which nothing is said.
pub(crate) fn low_hint(
    alloc: Global,
    problem: &Problem,
    x: u32,
    y: u32,
) -> Result<Value, AllocError>
    requires x_in { x < problem.now.points }
{
    let points = problem.points;
    if POINTS_LIMIT < points + 2 {
        return Ok(0);
    }
    let mut literals = units(alloc, problem.clauses.as_slice(), points)?;
    literals.push(Literal {
        x,
        y: points,
        c: FAR,
    })?;
    literals.push(Literal {
        x: points,
        y: points + 1,
        c: FAR,
    })?;
    match greatest(alloc, points + 2, &literals)? {
        Greatest::Greatest(schedule) => {
            let values = schedule.as_slice();
            match (values.get(x as usize), values.get(y as usize)) {
                (Some(x), Some(y)) => Ok(x.saturating_sub(*y).saturating_sub(1)),
                _ => Ok(0),
            }
        }
        Greatest::Negative(_) => Ok(0),
    }
}
