//! Calls on a book whose conditions are tested first.
ghost use Rattle.std.specs.Prelude.{◌≡◌, ◌≢◌, ◌↔◌, ℕ, IfOk, OnOk, OnErr, IsTrue};
ghost use Rattle.cover_tree.specs.Covers.{cube_at};
ghost use Rattle.book_core.specs.declared.event.Event.TheVariants.{Release};
ghost use Rattle.book_core.specs.Books.{IsHeldBy};
ghost use Rattle.book_core.specs.Runs.{state_of, with_event, Answers};
ghost use Rattle.book_judge.specs.declared.judging.Fault.TheVariants.{OutOfMemory};
ghost use Rattle.book_judge.specs.Replies.{DeliversIf, IsCubeOf};

use crate::judging::{Fault, judge};
use book_core::{Answer, Book, Outcome};
use refute_tree::Batch;
use std::alloc::{AllocError, Global};

/// As `Book::take`.
pub fn take_cube(book: &mut Book, seat: u32) -> Result<Answer, AllocError>
    ensures ok { IfOk result (λ answer. Answers book.old seat answer book.new) }
    ensures err { OnErr result (book.new ≡ book.old) }
    ensures cube { IfOk result (IsCubeOf (state_of book.new).cover) }
    ensures kept { (k : ℕ) → cube_at (state_of book.new).cover k ≡ cube_at (state_of book.old).cover k }
{
    let answer = book.take(seat)?;
    Ok(answer)
}

/// Whether the seat holds the cube.
fn is_holder(book: &Book, seat: u32, id: usize) -> bool
    ensures { IsTrue result ↔ IsHeldBy (state_of book.now) id seat }
{
    match book.holder(id) {
        Some(holder) => holder == seat,
        None => false,
    }
}

/// Want of memory comes through.
fn refused(fault: Fault) -> Result<(), AllocError>
    ensures { OnOk result (fault ≢ OutOfMemory) }
{
    match fault {
        Fault::OutOfMemory => Err(AllocError),
        Fault::NoSuchClause
        | Fault::BoundOutOfRange
        | Fault::NotRefuted(_)
        | Fault::NotASchedule
        | Fault::DoesNotExclude
        | Fault::AlreadyDecided => Ok(()),
    }
}

/// Delivers of the cube that was taken what is justified, where the seat holds it, and says whether that was
/// so. Exactly where it wasn't, the book stays as it was.
pub fn deliver_justified(
    alloc: Global,
    book: &mut Book,
    seat: u32,
    taken: &Answer,
    batch: Batch,
    outcome: Outcome,
) -> Result<bool, AllocError>
    requires { IsCubeOf (state_of book.old).cover taken.now }
    ensures ok { IfOk result (λ told. DeliversIf told book.old seat taken.now batch outcome book.new) }
    ensures err { OnErr result (book.new ≡ book.old) }
{
    let Answer::Cube(id, cube) = taken else {
        return Ok(false);
    };
    if !is_holder(book, seat, *id) {
        return Ok(false);
    }
    let judged = judge(
        alloc,
        book.problem(),
        book.lemmas(),
        cube.as_slice(),
        &batch,
        &outcome,
    );
    if let Err(fault) = judged {
        refused(fault)?;
        return Ok(false);
    }
    match book.deliver(seat, *id, batch, outcome) {
        Ok(()) => Ok(true),
        Err(_) => Err(AllocError),
    }
}

/// Gives the cube back, where the seat holds it.
pub fn release_held(book: &mut Book, seat: u32, id: usize)
    ensures held { IsHeldBy (state_of book.old) id seat → book.new ≡ with_event book.old (Release seat id) }
    ensures other { (IsHeldBy (state_of book.old) id seat → ⊥) → book.new ≡ book.old }
{
    if is_holder(book, seat, id) {
        book.release(seat, id);
    }
}
