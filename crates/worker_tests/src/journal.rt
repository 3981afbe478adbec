//! What two workers leave.
ghost use Rattle.worker_tests.specs.Meeting.{IsSeatOf};

use crate::shared::is_sat;
use book_core::{Book, Event};
use book_lock::{Desk, Seat};
use std::alloc::AllocError;
use stn_core::Problem;

/// The book of a desk with two seats.
pub(crate) fn closed(desk: Desk, problem: &Problem, seat: Seat, other: Seat) -> Book
    requires seat { IsSeatOf desk problem.now 0 2 seat }
    requires other { IsSeatOf desk problem.now 1 0 other }
{
    let mut seat = seat;
    desk.join_seat(&mut seat, other);
    desk.close(seat)
}

fn is_delivery_by(event: &Event, seat: u32) -> bool {
    match event {
        Event::Deliver(number, _, _, _) => *number == seat,
        _ => false,
    }
}

/// Whether the seat delivered something.
pub(crate) fn delivered(book: &Book, seat: u32) -> bool {
    for event in book.journal() {
        if is_delivery_by(event, seat) {
            return true;
        }
    }
    false
}

/// Whether the book concludes that there is a schedule.
pub(crate) fn concludes_sat(book: &Book) -> Result<bool, AllocError> {
    match book.conclude()? {
        Some(verdict) => Ok(is_sat(&verdict)),
        None => Ok(false),
    }
}
