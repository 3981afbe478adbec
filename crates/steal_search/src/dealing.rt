//! How a worker deals with the cube that its seat holds.
ghost use Rattle.std.specs.Prelude.{◌≡◌, ◌≤◌, ◌+◌, IfOk, OnOk, OnErr, None};
ghost use Rattle.steal_search.specs.Workers.{GoesOn, IsJustifiedThere, IsSearching, pause_by, pauses_in};

use crate::team::Team;
use book_core::{Delivery, Outcome};
use book_lock::{Desk, Seat};
use book_search::{Finding, Pacing, Tools};
use std::alloc::{AllocError, Global};
use std::sync::{Arc, Wait};
use stn_core::Problem;
use worker_gates::Gate;

/// So many pauses a worker makes at most, more than any search comes to. Behind them each of its deliveries leaves less to do.
pub(crate) const MOST_PAUSES: u64 = 1 << 32;

/// What a worker keeps from slice to slice: its number, its tools, how long its next slice is, and how many it has made.
#[derive(Drop)]
pub struct Pace {
    pub(crate) worker: u32,
    pub(crate) tools: Tools,
    pub(crate) pacing: Pacing,
    pub(crate) slices: u64,
    /// How many pauses are left, in which its lemmas are told to others: none where there are no others.
    pub(crate) pauses: u64,
}

/// With what a worker goes on, once it has dealt with a cube.
#[derive(Clone, Copy)]
pub(crate) enum Onward {
    /// With one half of the cube, which was divided.
    Half,
    /// With the whole, beside the others: its slice paused.
    Whole,
    /// With any cube.
    Any,
}

// With what it goes on once this is delivered of the seat's cube.
fn next_behind(found: &Finding) -> Onward {
    match &found.outcome {
        Outcome::Open => Onward::Whole,
        _ if found.divides => Onward::Half,
        _ => Onward::Any,
    }
}

impl Pace {
    pub(crate) fn new<G: Gate>(team: &Team<G>, worker: u32) -> Result<Self, AllocError>
        ensures { IfOk result (λ pace. pace.tools ≡ team.now.points) }
    {
        let calls = Arc::try_clone(team.calls())?;
        Ok(Pace {
            worker,
            tools: Tools::beside(team.alloc(), team.problem(), calls)?,
            pacing: Pacing::beside(team.budget()),
            slices: 0,
            pauses: 0,
        })
    }
}

// One slice of search under the seat's cube, over the lemmas that it has seen.
fn search(
    alloc: Global,
    problem: &Problem,
    seat: &Seat,
    pace: &mut Pace,
) -> Result<Finding, AllocError>
    requires tools { pace.old.tools ≡ problem.now.points }
    requires searching { IsSearching problem.now seat.now }
    ensures tools { pace.new.tools ≡ pace.old.tools }
    ensures justified { IfOk result (λ d. IsJustifiedThere problem.now seat.now d.batch d.outcome) }
    ensures pauses { IfOk result (λ d. pause_by d.outcome ≤ pace.old.pauses) }
    ensures left { pace.new.pauses ≡ pace.old.pauses }
{
    seat.sound();
    let cube = seat.cube().unwrap();
    pace.tools.search(
        alloc,
        problem,
        seat.lemmas(),
        cube.literals.as_slice(),
        pace.pacing.budget(),
        pace.pauses > 0,
    )
}

// Where nothing is said of the cube there is one pause less.
pub(crate) fn count_pause(pace: &mut Pace, outcome: &Outcome)
    requires { pause_by outcome.now ≤ pace.old.pauses }
    ensures tools { pace.new.tools ≡ pace.old.tools }
    ensures pauses { pace.new.pauses + pause_by outcome.now ≡ pace.old.pauses }
{
    match outcome {
        Outcome::Open => pace.pauses -= 1,
        Outcome::Found(_) | Outcome::Shut(_) | Outcome::Split(_) => {}
    }
}

// What was found goes into the book. Without memory the seat holds its cube still.
fn enter<R: Wait>(rt: &R, desk: &Desk, seat: &mut Seat, found: Finding) -> Result<(), AllocError>
    requires desk { seat.old.desk ≡ desk.now.id }
    requires justified { IsJustifiedThere seat.old.view.begun.problem seat.old found.batch found.outcome }
    ensures ok { OnOk result (GoesOn seat.old seat.new × (seat.new.cube ≡ None)) }
    ensures pauses { OnOk result (pauses_in seat.new.view.events ≡ pauses_in seat.old.view.events + pause_by found.outcome) }
    ensures err { OnErr result (seat.new ≡ seat.old) }
{
    let delivery = Delivery::new(found.batch, found.outcome)?;
    desk.enter(rt, seat, delivery)
}

// What was found is delivered, or else the cube is given back.
pub(crate) fn deliver<R: Wait>(
    rt: &R,
    desk: &Desk,
    seat: &mut Seat,
    found: Finding,
) -> Result<Onward, AllocError>
    requires desk { seat.old.desk ≡ desk.now.id }
    requires justified { IsJustifiedThere seat.old.view.begun.problem seat.old found.batch found.outcome }
    ensures seat { GoesOn seat.old seat.new }
    ensures none { seat.new.cube ≡ None }
    ensures pauses { pauses_in seat.new.view.events ≤ pauses_in seat.old.view.events + pause_by found.outcome }
{
    let onward = next_behind(&found);
    match enter(rt, desk, seat, found) {
        Ok(()) => Ok(onward),
        Err(error) => {
            desk.release(rt, seat);
            Err(error)
        }
    }
}

/// One slice, the gate, and the delivery of what was found. Where it divided the cube, the next slice has a greater
/// budget. Where there is no memory for it, the cube is given back.
pub(crate) fn deal<R: Wait, G: Gate>(
    rt: &R,
    team: &Team<G>,
    desk: &Desk,
    seat: &mut Seat,
    pace: &mut Pace,
) -> Result<Onward, AllocError>
    requires desk { seat.old.desk ≡ desk.now.id }
    requires tools { pace.old.tools ≡ team.now.points }
    requires searching { IsSearching team.now seat.old }
    ensures seat { GoesOn seat.old seat.new }
    ensures none { seat.new.cube ≡ None }
    ensures tools { pace.new.tools ≡ pace.old.tools }
    ensures pauses { pauses_in seat.new.view.events + pace.new.pauses ≤ pauses_in seat.old.view.events + pace.old.pauses }
{
    match search(team.alloc(), team.problem(), seat, pace) {
        Ok(found) => {
            count_pause(pace, &found.outcome);
            team.gate().pass(pace.worker, pace.slices);
            pace.slices = pace.slices.saturating_add(1);
            if found.divides {
                let met_conflict = pace.tools.met_conflict();
                pace.pacing.grow(met_conflict);
            }
            deliver(rt, desk, seat, found)
        }
        Err(error) => {
            desk.release(rt, seat);
            Err(error)
        }
    }
}
