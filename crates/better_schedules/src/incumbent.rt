//! The best schedule so far.
ghost use Rattle.std.specs.Prelude.{◌≡◌, ◌<◌, IfOk, length, All};
ghost use Rattle.stn_core.specs.Schedule.{IsInRange};
ghost use Rattle.stn_core.specs.Solution.{IsSolution};
ghost use Rattle.best_values.specs.Bests.{objective};
ghost use Rattle.better_schedules.specs.code.Incumbents.{IsIncumbent, IsOpening, IsNoWorse};

use crate::tight::{flattened, tightened};
use std::alloc::{AllocError, Global};
use stn_core::{Problem, Schedule, Value};

/// A schedule and the objective's value on it.
#[derive(Drop)]
pub struct Incumbent {
    pub schedule: Schedule,
    pub value: Value,
}

fn objective_of(values: &[Value], x: u32, y: u32) -> Value
    requires range { All IsInRange values.now }
    requires x_in { x < length values.now }
    requires y_in { y < length values.now }
    ensures { result ≡ objective x y values.now }
{
    values[x as usize] - values[y as usize]
}

fn valued(problem: &Problem, schedule: Schedule, x: u32, y: u32) -> Incumbent
    requires solution { IsSolution problem.now schedule }
    requires x_in { x < problem.now.points }
    requires y_in { y < problem.now.points }
    ensures schedule { result.schedule ≡ schedule }
    ensures value { result.value ≡ objective x y schedule }
{
    let value = objective_of(schedule.as_slice(), x, y);
    Incumbent { schedule, value }
}

/// The schedule, or a better one on which the same literals hold.
pub(crate) fn improved(
    alloc: Global,
    problem: &Problem,
    schedule: Schedule,
    x: u32,
    y: u32,
) -> Result<Incumbent, AllocError>
    requires solution { IsSolution problem.now schedule }
    requires x_in { x < problem.now.points }
    requires y_in { y < problem.now.points }
    ensures { IfOk result (IsNoWorse problem.now x y (objective x y schedule)) }
{
    let tight = tightened(alloc, problem, schedule.as_slice(), x)?;
    let found = valued(problem, schedule, x, y);
    if let Some(other) = tight {
        let better = valued(problem, other, x, y);
        if better.value < found.value {
            return Ok(better);
        }
    }
    Ok(found)
}

/// The first schedule, brought near 0, and made better.
pub(crate) fn opened(
    alloc: Global,
    problem: &Problem,
    schedule: Schedule,
    x: u32,
    y: u32,
) -> Result<Incumbent, AllocError>
    requires solution { IsSolution problem.now schedule }
    requires x_in { x < problem.now.points }
    requires y_in { y < problem.now.points }
    ensures { IfOk result (IsOpening problem.now x y) }
{
    let flat = flattened(alloc, problem, schedule.as_slice())?;
    let incumbent = improved(alloc, problem, flat, x, y)?;
    Ok(incumbent)
}
