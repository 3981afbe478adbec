//! What is tested before anything rests on it.
ghost use Rattle.std.specs.Prelude.{◌≡◌, true, IfOk, IfSome};
ghost use Rattle.stn_core.specs.Solution.{IsSolution};
ghost use Rattle.book_core.specs.Books.{IsOpening};

use book_core::Outcome;
use book_judge::{Fault, judge};
use refute_tree::Batch;
use std::alloc::{AllocError, Global};
use stn_core::{Problem, Schedule};

/// Whether a book of the problem may open with the lemmas, which are made over no others.
pub(crate) fn may_open(alloc: Global, problem: &Problem, batch: &Batch) -> Result<bool, AllocError>
    ensures { IfOk result (λ yes. yes ≡ true → IsOpening problem.now batch.now.lemmas) }
{
    match judge(alloc, problem, &[], &[], batch, &Outcome::Open) {
        Ok(()) => Ok(true),
        Err(Fault::OutOfMemory) => Err(AllocError),
        Err(_) => Ok(false),
    }
}

/// The schedule, if it is one of the problem.
pub(crate) fn tested(
    alloc: Global,
    problem: &Problem,
    schedule: Schedule,
) -> Result<Option<Schedule>, AllocError>
    ensures { IfOk result (λ found. IfSome found (IsSolution problem.now)) }
{
    let outcome = Outcome::Found(schedule);
    let nothing = Batch::new(0, Vec::new(alloc));
    match judge(alloc, problem, &[], &[], &nothing, &outcome) {
        Ok(()) => match outcome {
            Outcome::Found(schedule) => Ok(Some(schedule)),
            _ => unreachable!(),
        },
        Err(Fault::OutOfMemory) => Err(AllocError),
        Err(_) => Ok(None),
    }
}
