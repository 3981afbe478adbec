//! Values that are a schedule.
ghost use Rattle.std.specs.Prelude.{IfOk, IfSome};
ghost use Rattle.stn_core.specs.Solution.{IsSolution};

use book_core::Outcome;
use book_judge::{Fault, judge};
use refute_tree::Batch;
use std::alloc::{AllocError, Global};
use stn_core::{Problem, Schedule, Value};

/// The values as a schedule of the problem, if they are one. It takes time in the literals of the problem.
pub fn schedule_by(
    alloc: Global,
    problem: &Problem,
    values: &[Value],
) -> Result<Option<Schedule>, AllocError>
    ensures { IfOk result (λ found. IfSome found (IsSolution problem.now)) }
{
    let copy = Vec::from_slice(alloc, values)?;
    let outcome = Outcome::Found(Schedule::new(copy));
    let nothing = Batch::new(0, Vec::new(alloc));
    match judge(alloc, problem, &[], &[], &nothing, &outcome) {
        Ok(()) => match outcome {
            Outcome::Found(schedule) => Ok(Some(schedule)),
            _ => unreachable!(),
        },
        Err(Fault::OutOfMemory) => Err(AllocError),
        Err(_) => Ok(None),
    }
}
