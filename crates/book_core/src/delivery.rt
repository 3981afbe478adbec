//! What is handed in of a cube, with the memory that it takes.
ghost use Rattle.std.specs.Prelude.{◌≡◌, IfOk};
ghost use Rattle.book_core.specs.Deliveries.{handing};

use crate::event::Outcome;
use refute_tree::Batch;
use std::alloc::AllocError;
use std::marker::Model;
use stn_core::Schedule;

/// A delivery for which there was no memory: what was handed in comes back.
#[derive(Drop)]
pub struct Refused {
    pub batch: Batch,
    pub outcome: Outcome,
}

/// What is handed in of a cube, to be put into a book. The schedule that the book needs for itself is copied before the book
/// is at hand, so that whoever shares a book with others keeps them waiting for less.
#[derive(Drop)]
pub struct Delivery {
    pub(crate) batch: Batch,
    pub(crate) outcome: Outcome,
    pub(crate) schedule: Option<Schedule>,
}

impl Model for Delivery {
    ghost use Rattle.std.specs.Prelude.{◌≡◌};
    ghost use Rattle.book_core.specs.code.Prepared.{given_schedule};
    ghost use Rattle.book_core.specs.Deliveries.{Handing, handing};

    ghost Value = { Handing };

    ghost view = { λ d. handing d.batch d.outcome };

    ghost invariant = { λ d. d.schedule ≡ given_schedule d.outcome };
}

impl Delivery {
    /// A delivery of these, which go into the book without a copy. Without memory for the schedule they are gone.
    pub fn new(batch: Batch, outcome: Outcome) -> Result<Self, AllocError>
        ensures { IfOk result (λ delivery. delivery ≡ handing batch outcome) }
    {
        let schedule = outcome.schedule()?;
        Ok(Delivery {
            batch,
            outcome,
            schedule,
        })
    }

    /// A delivery of copies, so that these are there still where the book refuses it.
    pub fn of_copies(batch: &Batch, outcome: &Outcome) -> Result<Self, AllocError>
        ensures { IfOk result (λ delivery. delivery ≡ handing batch.now outcome.now) }
    {
        let batch_copy = batch.copy()?;
        let outcome_copy = outcome.copy()?;
        Delivery::new(batch_copy, outcome_copy)
    }
}
