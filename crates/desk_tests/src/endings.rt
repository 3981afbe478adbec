//! What two seats leave.
ghost use Rattle.std.specs.Prelude.{◌≡◌};

use crate::calls::ask;
use book_core::{Book, Event, Verdict};
use book_lock::{Dealt, Desk, Seat};
use std::alloc::AllocError;
use std::sync::Wait;

/// The kind of a call, and who made it.
#[derive(Clone, Copy, Debug, PartialEq, Eq)]
pub(crate) enum Call {
    Take(u32),
    Deliver(u32),
    Release(u32),
}

fn call_of(event: &Event) -> Call {
    match event {
        Event::Take(seat, _) => Call::Take(*seat),
        Event::Deliver(seat, _, _, _) => Call::Deliver(*seat),
        Event::Release(seat, _) => Call::Release(*seat),
    }
}

fn call_at(events: &[Event], k: usize) -> Option<Call> {
    let event = events.get(k)?;
    Some(call_of(event))
}

/// The first five calls.
pub(crate) fn first_calls(book: &Option<Book>) -> [Option<Call>; 5] {
    let Some(book) = book else {
        return [None; 5];
    };
    let events = book.journal();
    [
        call_at(events, 0),
        call_at(events, 1),
        call_at(events, 2),
        call_at(events, 3),
        call_at(events, 4),
    ]
}

pub(crate) fn last_halves(book: &Option<Book>) -> Option<(usize, usize)> {
    book.as_ref()?.halves()
}

/// The book of a desk with two seats; `None` where one of them holds a cube.
pub(crate) fn closed(desk: Desk, mut seat: Seat, other: Seat) -> Option<Book>
    requires desk { (seat.desk ≡ desk.id) × (other.desk ≡ desk.id) }
    requires first { (seat.view.number ≡ 0) × (seat.view.seats ≡ 2) }
    requires second { other.view.number ≡ 1 }
{
    if seat.cube().is_some() || other.cube().is_some() {
        return None;
    }
    desk.join_seat(&mut seat, other);
    Some(desk.close(seat))
}

/// What the first seat is answered once the other was joined to it; `None` where one of them holds a cube.
pub(crate) fn asked_behind_join<R: Wait>(
    rt: &R,
    desk: &Desk,
    seat: &mut Seat,
    other: Seat,
) -> Result<Option<Dealt>, AllocError>
    requires desk { (seat.old.desk ≡ desk.now.id) × (other.desk ≡ desk.now.id) }
    requires first { seat.old.view.number ≡ 0 }
    requires second { other.view.number ≡ 1 }
{
    if seat.cube().is_some() || other.cube().is_some() {
        return Ok(None);
    }
    desk.join_seat(seat, other);
    ask(rt, desk, seat)
}

fn is_refuted(book: &Book) -> Result<bool, AllocError> {
    match book.conclude()? {
        Some(Verdict::Unsat(_)) => Ok(true),
        _ => Ok(false),
    }
}

/// How many calls there were, and whether the book concludes that there is no schedule.
pub(crate) fn conclusion(book: &Option<Book>) -> Result<Option<(usize, bool)>, AllocError> {
    match book {
        Some(book) => Ok(Some((book.journal().len(), is_refuted(book)?))),
        None => Ok(None),
    }
}
