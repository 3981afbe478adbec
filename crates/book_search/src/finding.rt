//! What a slice found, as a delivery.
ghost use Rattle.std.specs.Prelude.{◌≡◌, IfOk};
ghost use Rattle.book_core.specs.Ends.{said_by};
ghost use Rattle.book_search.specs.code.Deliveries.{Delivers, DeliversPart, FindsIt, FindsInstead};

use book_core::Outcome;
use branch_search::{Part, Slice};
use refute_tree::Batch;
use std::alloc::{AllocError, Global};
use stn_core::Schedule;

/// What is to be delivered of a cube.
#[derive(Drop)]
pub struct Finding {
    pub batch: Batch,
    pub outcome: Outcome,
    /// Whether the outcome divides the cube.
    pub divides: bool,
}

/// The lemma of a refuted cube gets the number behind those that the slice was handed.
pub fn finding_of(slice: Slice) -> Result<Finding, AllocError>
    ensures delivers { IfOk result (λ d. Delivers slice d.batch d.outcome) }
    ensures said { IfOk result (λ d. said_by d.outcome ≡ 1) }
{
    stn_core::negation_law();
    match slice {
        Slice::Model(schedule, batch) => Ok(Finding {
            batch,
            outcome: Outcome::Found(schedule),
            divides: false,
        }),
        Slice::Refuted(batch, j) => {
            let Some(number) = batch.seen().checked_add(j) else {
                return Err(AllocError);
            };
            Ok(Finding {
                batch,
                outcome: Outcome::Shut(number),
                divides: false,
            })
        }
        Slice::Split(literal, batch) => Ok(Finding {
            batch,
            outcome: Outcome::Split(literal),
            divides: true,
        }),
    }
}

/// As `finding_of`, of a part of a slice: where the search paused, nothing is said of the cube.
pub fn finding_of_part(part: Part) -> Result<Finding, AllocError>
    ensures { IfOk result (λ d. DeliversPart part d.batch d.outcome) }
{
    match part {
        Part::Ended(slice) => {
            let finding = finding_of(slice)?;
            Ok(finding)
        }
        Part::Paused(batch) => Ok(Finding {
            batch,
            outcome: Outcome::Open,
            divides: false,
        }),
    }
}

/// A schedule that was found without a lemma.
pub(crate) fn found_alone(alloc: Global, schedule: Schedule) -> Finding
    ensures finds { FindsIt schedule result.batch result.outcome }
    ensures said { said_by result.outcome ≡ 1 }
{
    Finding {
        batch: Batch::new(0, Vec::new(alloc)),
        outcome: Outcome::Found(schedule),
        divides: false,
    }
}

/// A schedule in the place of what was found, with the lemmas.
pub(crate) fn found_instead(finding: Finding, schedule: Schedule) -> Finding
    ensures finds { FindsInstead finding.batch finding.outcome schedule result.batch result.outcome }
    ensures said { said_by result.outcome ≡ 1 }
{
    Finding {
        batch: finding.batch,
        outcome: Outcome::Found(schedule),
        divides: false,
    }
}
