//! The parts of a delivery: what takes memory comes first, and what changes the book takes none.
ghost use Rattle.std.specs.Prelude.{◌≡◌, ◌+◌, ◌<◌, ◌≤◌, ◌^◌, ◌++◌, ℕ, length, vec_len, vec_capacity, IfOk, OnOk, OnErr, All, Some};
ghost use Rattle.refute_tree.specs.Limits.{lemmas_limit};
ghost use Rattle.refute_tree.specs.Moves.{moved_number};
ghost use Rattle.refute_tree.specs.Batches.{moved, LemmaRefersBelow};
ghost use Rattle.cover_tree.specs.declared.node.Node.TheVariants.{Held};
ghost use Rattle.cover_tree.specs.Covers.{node_at};
ghost use Rattle.book_core.specs.declared.event.Outcome.TheVariants.{Shut};
ghost use Rattle.book_core.specs.Books.{cover_delivered, found_delivered};
ghost use Rattle.book_core.specs.Shared.{lemmas_of};
ghost use Rattle.book_core.specs.code.Prepared.{given_schedule, IsClosingNumber};
ghost use Rattle.book_core.specs.Halves.{halves_made};

use crate::event::Outcome;
use crate::handed::HandedBatch;
use cover_tree::Cover;
use refute_tree::{Batch, LEMMAS_LIMIT, Lemma};
use std::alloc::{AllocError, Global};
use std::sync::Arc;
use stn_core::Schedule;

/// A batch as it stands in the book.
#[derive(Drop)]
pub(crate) struct Prepared {
    pub(crate) shared: Vec<Arc<Lemma>>,
    pub(crate) handed: HandedBatch,
}

/// Whether a book may have the batch's lemmas behind the first `base` ones: more than the limit are want of memory.
pub(crate) fn check_room(base: usize, batch: &Batch) -> Result<(), AllocError>
    ensures { OnOk result (base + length batch.now.lemmas ≤ lemmas_limit) }
{
    if base.saturating_add(batch.lemmas().len()) > LEMMAS_LIMIT {
        return Err(AllocError);
    }
    Ok(())
}

/// The batch's lemmas as they stand behind the first `base` ones.
pub(crate) fn prepare(alloc: Global, base: usize, batch: Batch) -> Result<Prepared, AllocError>
    requires seen { batch.seen ≤ base }
    requires below { All (LemmaRefersBelow (batch.seen + length batch.lemmas)) batch.lemmas }
    requires fits { base + length batch.lemmas ≤ lemmas_limit }
    ensures lemmas { IfOk result (λ p. lemmas_of p.shared.items ≡ (moved base batch).lemmas) }
    ensures handed { IfOk result (λ p. p.handed ≡ batch) }
{
    let seen = batch.seen();
    let mut moved = batch;
    moved.move_to(base);
    let shared = share(alloc, moved.into_lemmas())?;
    let handed = HandedBatch::new(seen, base, share_again(alloc, shared.as_slice())?);
    Ok(Prepared { shared, handed })
}

pub(crate) fn share(alloc: Global, lemmas: Vec<Lemma>) -> Result<Vec<Arc<Lemma>>, AllocError>
    ensures { IfOk result (λ shared. lemmas_of shared.items ≡ lemmas.items) }
{
    let mut shared = Vec::with_capacity(alloc, lemmas.len())?;
    for lemma in lemmas {
        match Arc::new(alloc, lemma) {
            Ok(arc) => shared.push(arc)?,
            Err(_) => return Err(AllocError),
        }
    }
    Ok(shared)
}

fn share_again(alloc: Global, shared: &[Arc<Lemma>]) -> Result<Vec<Arc<Lemma>>, AllocError>
    ensures { IfOk result (λ again. lemmas_of again.items ≡ lemmas_of shared.now) }
{
    let mut again = Vec::with_capacity(alloc, shared.len())?;
    for lemma in shared {
        again.push(Arc::try_clone(lemma)?)?;
    }
    Ok(again)
}

/// The lemmas go behind the others, in the room that is there.
pub(crate) fn publish(lemmas: &mut Vec<Arc<Lemma>>, mut shared: Vec<Arc<Lemma>>)
    requires { vec_len lemmas.old + vec_len shared ≤ vec_capacity lemmas.old }
    ensures { lemmas.new.items ≡ lemmas.old.items ++ shared.items }
{
    lemmas.append(&mut shared).unwrap();
}

/// The number in the book of the lemma that excludes the cube, behind the first `base` ones, where one does.
pub(crate) fn closing_number(batch: &Batch, base: usize, outcome: &Outcome) -> usize
    requires { (j : ℕ) → outcome.now ≡ Shut j → moved_number batch.now.seen base j < 2 ^ 64 }
    ensures { IsClosingNumber batch.now.seen base outcome.now result }
{
    match outcome {
        Outcome::Shut(j) => batch.moved_number(*j, base),
        _ => 0,
    }
}

/// What the outcome makes of the cover, and of the schedule found; the two halves where it divides the cube. The number is that
/// of the lemma that excludes the cube, where one does. At `Err` both are as before.
pub(crate) fn settle(
    cover: &mut Cover,
    found: &mut Option<Schedule>,
    id: usize,
    number: usize,
    outcome: &Outcome,
    schedule: Option<Schedule>,
) -> Result<Option<(usize, usize)>, AllocError>
    requires held { (seat : ℕ) × (node_at cover.old id ≡ Some (Held seat)) }
    requires schedule { schedule ≡ given_schedule outcome.now }
    ensures cover { OnOk result ((seen base : ℕ) → IsClosingNumber seen base outcome.now number
        → cover.new ≡ cover_delivered cover.old id seen base outcome.now) }
    ensures found { OnOk result (found.new ≡ found_delivered found.old outcome.now) }
    ensures halves { IfOk result (λ h. h ≡ halves_made cover.old outcome.now) }
    ensures cover_err { OnErr result (cover.new ≡ cover.old) }
    ensures found_err { OnErr result (found.new ≡ found.old) }
{
    match outcome {
        Outcome::Found(_) => {
            cover.release(id);
            if found.is_none() {
                *found = schedule;
            }
            Ok(None)
        }
        Outcome::Shut(_) => {
            cover.close(id, number);
            Ok(None)
        }
        Outcome::Split(literal) => {
            let halves = cover.split(id, *literal)?;
            Ok(Some(halves))
        }
        Outcome::Open => {
            cover.release(id);
            Ok(None)
        }
    }
}
