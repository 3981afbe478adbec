//! What is known of a problem's schedule before a search.
ghost use Rattle.std.specs.Prelude.{IfOk, IfSome};
ghost use Rattle.stn_core.specs.Solution.{IsSolution};

use dispatch_schedules::{dispatched, schedule_by};
use kept_schedule::KeptSchedule;
use std::alloc::{AllocError, Global};
use stn_core::{Problem, Schedule, Value};

/// A search of fewer points decides as quickly by its own choice as by values that miss a deadline: where few disjunctions are left they
/// mislead it.
const LEAST_POINTS: u32 = 200;

/// What a search may begin with.
#[derive(Drop)]
pub struct Guess {
    /// A schedule, where one was found without a search.
    pub schedule: Option<Schedule>,
    /// Values by which the search may decide its literals; none of some points or of all.
    pub phases: Vec<Value>,
}

/// The values that are kept, as those of time points: the names' points come first.
fn phases_of(alloc: Global, kept: &KeptSchedule) -> Result<Vec<Value>, AllocError> {
    let values = kept.values();
    let mut phases = Vec::with_capacity(alloc, values.len())?;
    for value in values {
        phases.push(Value::from(*value))?;
    }
    Ok(phases)
}

/// The values that are kept, or where there are none those of dispatching.
pub fn phases_for(
    alloc: Global,
    problem: &Problem,
    kept: &KeptSchedule,
) -> Result<Vec<Value>, AllocError> {
    if kept.is_empty() {
        if let Some(values) = dispatched(alloc, problem)? {
            return Ok(values);
        }
    }
    phases_of(alloc, kept)
}

/// The same, and where they are by dispatching the schedule that they may be.
pub fn guessed(alloc: Global, problem: &Problem, kept: &KeptSchedule) -> Result<Guess, AllocError>
    ensures { IfOk result (λ guess. IfSome guess.schedule (IsSolution problem.now)) }
{
    let mut phases = phases_for(alloc, problem, kept)?;
    let mut schedule = None;
    if kept.is_empty() && !phases.is_empty() {
        schedule = schedule_by(alloc, problem, &phases)?;
        if problem.points < LEAST_POINTS {
            phases.clear();
        }
    }
    Ok(Guess { schedule, phases })
}
