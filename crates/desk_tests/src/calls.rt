//! Calls on a desk whose conditions are tested first.
ghost use Rattle.std.specs.Prelude.{◌≡◌};
ghost use Rattle.book_lock.specs.Seats.{IsSameSeat};

use book_core::Outcome;
use book_judge::{Fault, judge};
use book_lock::{Dealt, Desk, Seat};
use refute_tree::Batch;
use std::alloc::{AllocError, Global};
use std::sync::Wait;
use stn_core::Problem;

/// As `take`; `None` where the seat holds a cube.
pub(crate) fn ask<R: Wait>(
    rt: &R,
    desk: &Desk,
    seat: &mut Seat,
) -> Result<Option<Dealt>, AllocError>
    requires desk { seat.old.desk ≡ desk.now.id }
    ensures same { IsSameSeat seat.old seat.new }
{
    match seat.cube() {
        Some(_) => Ok(None),
        None => {
            let answer = desk.take(rt, seat)?;
            Ok(Some(answer))
        }
    }
}

/// As `take_near`; `None` where the seat holds a cube.
pub(crate) fn ask_near<R: Wait>(
    rt: &R,
    desk: &Desk,
    seat: &mut Seat,
    id: usize,
) -> Result<Option<Dealt>, AllocError>
    requires desk { seat.old.desk ≡ desk.now.id }
    ensures same { IsSameSeat seat.old seat.new }
{
    match seat.cube() {
        Some(_) => Ok(None),
        None => {
            let answer = desk.take_near(rt, seat, id)?;
            Ok(Some(answer))
        }
    }
}

/// Gives the seat's cube back, and says its number.
pub(crate) fn give_back<R: Wait>(rt: &R, desk: &Desk, seat: &mut Seat) -> Option<usize>
    requires desk { seat.old.desk ≡ desk.now.id }
    ensures same { IsSameSeat seat.old seat.new }
{
    let id = seat.cube()?.id;
    desk.release(rt, seat);
    Some(id)
}

/// Delivers of the seat's cube what is justified, and says whether it was.
pub(crate) fn deliver_justified<R: Wait>(
    rt: &R,
    alloc: Global,
    desk: &Desk,
    seat: &mut Seat,
    problem: &Problem,
    batch: Batch,
    outcome: Outcome,
) -> Result<bool, AllocError>
    requires desk { seat.old.desk ≡ desk.now.id }
    requires problem { seat.old.view.begun.problem ≡ problem.now }
    ensures same { IsSameSeat seat.old seat.new }
{
    let Some(cube) = seat.cube() else {
        return Ok(false);
    };
    let judged = judge(
        alloc,
        problem,
        seat.lemmas(),
        cube.literals.as_slice(),
        &batch,
        &outcome,
    );
    match judged {
        Ok(()) => {}
        Err(Fault::OutOfMemory) => return Err(AllocError),
        Err(_) => return Ok(false),
    }
    match desk.deliver(rt, seat, batch, outcome) {
        Ok(()) => Ok(true),
        Err(_) => Err(AllocError),
    }
}
