//! How a worker searches the whole beside others, under no cube.
//!
//! Where clauses alone lead to conflicts a cube takes nearly as many of them as the whole. There nothing is divided: each worker
//! searches the whole from a place of its own, and takes a cube only to see what the others know and to tell what it found.
ghost use Rattle.std.specs.Prelude.{◌≡◌, ◌≤◌, ◌+◌, [], None, true, false, IsSome, IfOk, OnErr};
ghost use Rattle.book_core.specs.Books.{IsJustified};
ghost use Rattle.steal_search.specs.Workers.{GoesOn, HasEnded, pauses_in};
ghost use Rattle.steal_search.specs.declared.beside.Round.TheVariants.{Done};
ghost use Rattle.steal_search.specs.code.Beside.{IsUpToDate, IsTold, told_of};

use crate::dealing::{Pace, count_pause, deliver};
use crate::team::Team;
use book_core::Outcome;
use book_lock::{Dealt, Desk, Seat};
use book_search::Finding;
use std::alloc::{AllocError, Global};
use std::sync::Wait;
use stn_core::Problem;
use worker_gates::Gate;

/// That of a slice of the whole, which mostly pauses long before.
const BUDGET: u64 = 1_000_000;

/// What comes of a slice of the whole.
#[derive(Clone, Copy)]
pub enum Round {
    /// What it found is told.
    Told,
    /// The same, and it would divide the whole: cubes may do better.
    Divides,
    /// Nothing is left to do.
    Done,
}

// What is told of a cube by who searched the whole: nothing, where the whole is to be divided.
fn told(finding: Finding) -> Finding
    ensures batch { result.batch ≡ finding.batch }
    ensures outcome { result.outcome ≡ told_of finding.outcome }
{
    let Finding {
        batch,
        outcome,
        divides,
    } = finding;
    let outcome = match outcome {
        Outcome::Split(_) => Outcome::Open,
        Outcome::Found(schedule) => Outcome::Found(schedule),
        Outcome::Shut(number) => Outcome::Shut(number),
        Outcome::Open => Outcome::Open,
    };
    Finding {
        batch,
        outcome,
        divides,
    }
}

// One slice of the whole, over the lemmas that the seat has seen.
fn search(
    alloc: Global,
    problem: &Problem,
    seat: &Seat,
    pace: &mut Pace,
) -> Result<Finding, AllocError>
    requires tools { pace.old.tools ≡ problem.now.points }
    requires problem { seat.now.view.begun.problem ≡ problem.now }
    ensures tools { pace.new.tools ≡ pace.old.tools }
    ensures left { pace.new.pauses ≡ pace.old.pauses }
    ensures justified { IfOk result (λ d. IsJustified problem.now seat.now.lemmas [] d.batch d.outcome) }
    ensures told { IfOk result (λ d. IsTold d.outcome) }
{
    seat.sound();
    let finding = pace
        .tools
        .search(alloc, problem, seat.lemmas(), &[], BUDGET, true)?;
    Ok(told(finding))
}

// A cube, once one is free: whether the seat holds one. Else nothing is left to do.
fn hold<R: Wait>(rt: &R, desk: &Desk, seat: &mut Seat) -> Result<bool, AllocError>
    requires desk { seat.old.desk ≡ desk.now.id }
    requires none { seat.old.cube ≡ None }
    ensures seat { GoesOn seat.old seat.new }
    ensures held { IfOk result (λ held. held ≡ true → IsSome seat.new.cube × IsUpToDate seat.new) }
    ensures ended { IfOk result (λ held. held ≡ false → (seat.new.cube ≡ None) × HasEnded seat.new) }
    ensures none { OnErr result (seat.new.cube ≡ None) }
    ensures pauses { pauses_in seat.new.view.events ≡ pauses_in seat.old.view.events }
{
    for _ in rt.forever() {
        match desk.take(rt, seat)? {
            Dealt::Cube => return Ok(true),
            Dealt::Idle => {}
            Dealt::Done => return Ok(false),
        }
    }
    unreachable!()
}

/// A slice of the whole, the gate, and the delivery of what was found, of whatever cube is free then. It counts as a pause
/// where it says nothing of that, and where none is left, the whole is to be divided. Without memory the seat holds no cube.
pub(crate) fn search_beside<R: Wait, G: Gate>(
    rt: &R,
    team: &Team<G>,
    desk: &Desk,
    seat: &mut Seat,
    pace: &mut Pace,
) -> Result<Round, AllocError>
    requires desk { seat.old.desk ≡ desk.now.id }
    requires problem { seat.old.view.begun.problem ≡ team.now }
    requires none { seat.old.cube ≡ None }
    requires tools { pace.old.tools ≡ team.now.points }
    ensures seat { GoesOn seat.old seat.new }
    ensures none { seat.new.cube ≡ None }
    ensures tools { pace.new.tools ≡ pace.old.tools }
    ensures ended { IfOk result (λ round. round ≡ Done → HasEnded seat.new) }
    ensures pauses { pauses_in seat.new.view.events + pace.new.pauses ≤ pauses_in seat.old.view.events + pace.old.pauses }
{
    if pace.pauses == 0 {
        return Ok(Round::Divides);
    }
    if !hold(rt, desk, seat)? {
        return Ok(Round::Done);
    }
    desk.release(rt, seat);
    let found = search(team.alloc(), team.problem(), seat, pace)?;
    team.gate().pass(pace.worker, pace.slices);
    pace.slices = pace.slices.saturating_add(1);
    if !hold(rt, desk, seat)? {
        return Ok(Round::Done);
    }
    count_pause(pace, &found.outcome);
    let divides = found.divides;
    deliver(rt, desk, seat, found)?;
    if divides {
        Ok(Round::Divides)
    } else {
        Ok(Round::Told)
    }
}
