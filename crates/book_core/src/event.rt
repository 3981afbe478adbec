ghost use Rattle.std.specs.Prelude.{◌≡◌, IfOk};
ghost use Rattle.book_core.specs.code.Prepared.{given_schedule};

use crate::handed::HandedBatch;
use std::alloc::AllocError;
use stn_core::{Literal, Schedule};

/// What a `take` was answered: the cube by its number.
#[derive(Clone, Copy, Debug, PartialEq, Eq)]
pub enum Taken {
    Done,
    Idle,
    Cube(usize),
}

/// What a delivery says of its cube.
#[derive(Drop)]
pub enum Outcome {
    /// The problem holds on this schedule.
    Found(Schedule),
    /// The clause of the lemma with this number, which is like a reference of the batch, excludes the cube.
    Shut(usize),
    /// The cube is to be divided by this literal.
    Split(Literal),
    /// Nothing is said of the cube, which is free again.
    Open,
}

impl Outcome {
    /// An equal outcome in memory of its own.
    pub fn copy(&self) -> Result<Self, AllocError>
        ensures { IfOk result (λ outcome. outcome ≡ self.now) }
    {
        match self {
            Outcome::Found(schedule) => Ok(Outcome::Found(schedule.copy()?)),
            Outcome::Shut(j) => Ok(Outcome::Shut(*j)),
            Outcome::Split(literal) => Ok(Outcome::Split(*literal)),
            Outcome::Open => Ok(Outcome::Open),
        }
    }

    /// The schedule that was found, in memory of its own.
    pub(crate) fn schedule(&self) -> Result<Option<Schedule>, AllocError>
        ensures { IfOk result (λ schedule. schedule ≡ given_schedule self.now) }
    {
        match self {
            Outcome::Found(schedule) => Ok(Some(schedule.copy()?)),
            _ => Ok(None),
        }
    }
}

/// One call on a book: who made it, what was handed in, and what was answered. A batch stands here as it was
/// before its move.
#[derive(Drop)]
pub enum Event {
    Take(u32, Taken),
    Deliver(u32, usize, HandedBatch, Outcome),
    Release(u32, usize),
}
