//! What a seat does with the book in hand.
ghost use Rattle.std.specs.Prelude.{◌≡◌, take, vec_len, IsTrue, IfOk, OnOk, OnErr, IfSome};
ghost use mathlib.Core.List.{IsPrefix};
ghost use Rattle.book_core.specs.Shared.{lemmas_of};
ghost use Rattle.book_core.specs.Runs.{state_of, Answers, IsNear};
ghost use Rattle.book_lock.specs.SeatEvents.{HasNews, is_idle};
ghost use Rattle.book_lock.specs.code.Looks.{dealt_of, cube_of, waits_of, Looked};
ghost use Rattle.book_lock.specs.Seats.{IsCubeNear};

use crate::cube::{Cube, Dealt};
use book_core::{Answer, Book, Event};
use refute_tree::Lemma;
use std::alloc::{AllocError, Global};
use std::sync::Arc;

fn is_idle(event: &Event) -> bool
    ensures { result ≡ is_idle event.now }
{
    match event {
        Event::Take(_, book_core::Taken::Idle) => true,
        _ => false,
    }
}

/// An event other than a take answered Idle, from this place on.
pub(crate) fn has_news(events: &[Event], from: usize) -> bool
    ensures { IsTrue result → HasNews from events.now }
{
    let mut k = from;
    while k < events.len() {
        if !is_idle(&events[k]) {
            return true;
        }
        k += 1;
    }
    false
}

/// Takes over the lemmas that stand behind those that are there.
fn take_over(lemmas: &mut Vec<Arc<Lemma>>, shared: &[Arc<Lemma>]) -> Result<(), AllocError>
    requires { IsPrefix (lemmas_of lemmas.old.items) (lemmas_of shared.now) }
    ensures front { take (vec_len lemmas.old) lemmas.new.items ≡ lemmas.old.items }
    ensures ok { OnOk result (lemmas_of lemmas.new.items ≡ lemmas_of shared.now) }
{
    let mut k = lemmas.len();
    while k < shared.len() {
        let lemma = Arc::try_clone(&shared[k])?;
        lemmas.push(lemma)?;
        k += 1;
    }
    Ok(())
}

/// The same lemmas, in a list of their own.
pub(crate) fn all_of(lemmas: &[Arc<Lemma>], alloc: Global) -> Result<Vec<Arc<Lemma>>, AllocError>
    ensures { IfOk result (λ all. lemmas_of all.items ≡ lemmas_of lemmas.now) }
{
    let mut all = Vec::new(alloc);
    take_over(&mut all, lemmas)?;
    Ok(all)
}

fn dealt_as(answer: Answer) -> (Dealt, Option<Cube>)
    ensures { result ≡ (dealt_of answer, cube_of answer) }
{
    match answer {
        Answer::Cube(id, literals) => (Dealt::Cube, Some(Cube { id, literals })),
        Answer::Idle => (Dealt::Idle, None),
        Answer::Done => (Dealt::Done, None),
    }
}

/// Whether the next take waits.
pub(crate) fn waits_after(answer: Dealt) -> bool
    ensures { result ≡ waits_of answer }
{
    match answer {
        Dealt::Idle => true,
        _ => false,
    }
}

/// The slot gets the cube.
pub(crate) fn put(slot: &mut Option<Cube>, cube: Option<Cube>)
    ensures { slot.new ≡ cube }
{
    *slot = cube;
}

fn look_up(
    book: &mut Book,
    lemmas: &mut Vec<Arc<Lemma>>,
    seat: u32,
    near: Option<usize>,
) -> Result<Answer, AllocError>
    requires { IsPrefix (lemmas_of lemmas.old.items) (state_of book.old).lemmas }
    ensures ok { IfOk result (λ answer. Answers book.old seat answer book.new) }
    ensures near { IfOk result (λ answer. IfSome near (λ id. IsNear (state_of book.old).cover id answer)) }
    ensures all { OnOk result (lemmas_of lemmas.new.items ≡ (state_of book.old).lemmas) }
    ensures err { OnErr result (book.new ≡ book.old) }
    ensures front { take (vec_len lemmas.old) lemmas.new.items ≡ lemmas.old.items }
{
    take_over(lemmas, book.lemmas())?;
    match near {
        Some(id) => book.take_near(seat, id),
        None => book.take(seat),
    }
}

/// The seat takes a cube, and has all lemmas of the book. At `Err` nothing changed.
pub(crate) fn look(
    book: &mut Book,
    lemmas: &mut Vec<Arc<Lemma>>,
    seat: u32,
    near: Option<usize>,
) -> Result<(Dealt, Option<Cube>), AllocError>
    requires { IsPrefix (lemmas_of lemmas.old.items) (state_of book.old).lemmas }
    ensures ok { IfOk result (λ r. Looked book.old seat r.0 r.1 book.new) }
    ensures near { IfOk result (λ r. IfSome near (IsCubeNear (state_of book.old).cover r.1)) }
    ensures lemmas { OnOk result (lemmas_of lemmas.new.items ≡ (state_of book.new).lemmas) }
    ensures err { OnErr result ((book.new ≡ book.old) × (lemmas.new.items ≡ lemmas.old.items)) }
{
    let before = lemmas.len();
    match look_up(book, lemmas, seat, near) {
        Ok(answer) => Ok(dealt_as(answer)),
        Err(error) => {
            lemmas.truncate(before);
            Err(error)
        }
    }
}
