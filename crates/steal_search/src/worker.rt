//! The loop of one worker.
ghost use Rattle.std.specs.Prelude.{◌≡◌, ◌≤◌, ◌+◌, ◌^◌, None, IfOk, OnOk, OnErr, IfSome};
ghost use Rattle.steal_search.specs.declared.worker.Step.TheVariants.{Done};
ghost use Rattle.steal_search.specs.Workers.{GoesOn, HandGoesOn, HasEnded, IsAnswered, pauses_in};

use crate::beside::{Round, search_beside};
use crate::dealing::{MOST_PAUSES, Onward, Pace, deal};
use crate::team::{Manner, Team};
use book_lock::{Dealt, Desk, Seat};
use cube_pool::{Hand, Pool};
use std::alloc::AllocError;
use std::sync::Wait;
use worker_calls::Calls;
use worker_gates::Gate;

// A cube, the one whose number was fetched if it is free.
fn fetched<R: Wait>(
    rt: &R,
    desk: &Desk,
    seat: &mut Seat,
    pool: &Pool,
    hand: &mut Hand,
    calls: &Calls,
) -> Result<Dealt, AllocError>
    requires desk { seat.old.desk ≡ desk.now.id }
    requires none { seat.old.cube ≡ None }
    requires hand { hand.old.pool ≡ pool.now }
    ensures hand { HandGoesOn hand.old hand.new }
    ensures seat { GoesOn seat.old seat.new }
    ensures answered { IfOk result (IsAnswered seat.new) }
    ensures none { OnErr result (seat.new.cube ≡ None) }
    ensures pauses { pauses_in seat.new.view.events ≡ pauses_in seat.old.view.events }
{
    match pool.fetch(rt, hand) {
        Some(id) => desk.take_near(rt, seat, id as usize),
        None => {
            calls.ask();
            desk.take(rt, seat)
        }
    }
}

// A cube, the one with this number if it is free, or else one whose number is fetched.
fn next<R: Wait>(
    rt: &R,
    desk: &Desk,
    seat: &mut Seat,
    pool: &Pool,
    hand: &mut Hand,
    near: Option<usize>,
    calls: &Calls,
) -> Result<Dealt, AllocError>
    requires desk { seat.old.desk ≡ desk.now.id }
    requires none { seat.old.cube ≡ None }
    requires hand { hand.old.pool ≡ pool.now }
    ensures hand { HandGoesOn hand.old hand.new }
    ensures seat { GoesOn seat.old seat.new }
    ensures answered { IfOk result (IsAnswered seat.new) }
    ensures none { OnErr result (seat.new.cube ≡ None) }
    ensures pauses { pauses_in seat.new.view.events ≡ pauses_in seat.old.view.events }
{
    match near {
        Some(id) => desk.take_near(rt, seat, id),
        None => fetched(rt, desk, seat, pool, hand, calls),
    }
}

// The number of an open cube, if it fits. Where the hand has made all its pushes, `take` finds the cube.
fn push(pool: &Pool, hand: &mut Hand, id: usize)
    requires hand { hand.old.pool ≡ pool.now }
    ensures hand { HandGoesOn hand.old hand.new }
{
    if let Ok(id) = u32::try_from(id) {
        let _ = pool.push(hand, id);
    }
}

// Of the cube that the seat divided last one half is pushed, and the other one is the worker's next cube: what it
// knows fits there.
fn share(pool: &Pool, hand: &mut Hand, seat: &Seat) -> Option<usize>
    requires hand { hand.old.pool ≡ pool.now }
    ensures hand { HandGoesOn hand.old hand.new }
{
    match seat.halves() {
        Some((under, against)) => {
            push(pool, hand, against);
            Some(under)
        }
        None => None,
    }
}

/// What a worker does next.
#[derive(Clone, Copy)]
pub enum Step {
    /// It takes a cube, that with this number if it is free.
    Cube(Option<usize>),
    /// It searches the whole beside the others.
    Whole,
    /// Nothing is left to do.
    Done,
}

// A cube is taken and dealt with, where one is free.
fn cube_step<R: Wait, G: Gate>(
    rt: &R,
    team: &Team<G>,
    desk: &Desk,
    seat: &mut Seat,
    pool: &Pool,
    hand: &mut Hand,
    pace: &mut Pace,
    near: Option<usize>,
) -> Result<Step, AllocError>
    requires problem { seat.old.view.begun.problem ≡ team.now }
    requires desk { seat.old.desk ≡ desk.now.id }
    requires none { seat.old.cube ≡ None }
    requires hand { hand.old.pool ≡ pool.now }
    requires tools { pace.old.tools ≡ team.now.points }
    ensures seat { GoesOn seat.old seat.new }
    ensures none { seat.new.cube ≡ None }
    ensures hand { HandGoesOn hand.old hand.new }
    ensures tools { pace.new.tools ≡ pace.old.tools }
    ensures ended { IfOk result (λ step. step ≡ Done → HasEnded seat.new) }
    ensures pauses { pauses_in seat.new.view.events + pace.new.pauses ≤ pauses_in seat.old.view.events + pace.old.pauses }
{
    match next(rt, desk, seat, pool, hand, near, team.calls())? {
        Dealt::Cube => match deal(rt, team, desk, seat, pace)? {
            Onward::Half => {
                let near = share(pool, hand, seat);
                Ok(Step::Cube(near))
            }
            Onward::Whole => Ok(Step::Whole),
            Onward::Any => Ok(Step::Cube(None)),
        },
        Dealt::Idle => Ok(Step::Cube(None)),
        Dealt::Done => Ok(Step::Done),
    }
}

// A slice of the whole. Where that would be divided, cubes come next.
fn whole_step<R: Wait, G: Gate>(
    rt: &R,
    team: &Team<G>,
    desk: &Desk,
    seat: &mut Seat,
    pace: &mut Pace,
) -> Result<Step, AllocError>
    requires desk { seat.old.desk ≡ desk.now.id }
    requires problem { seat.old.view.begun.problem ≡ team.now }
    requires none { seat.old.cube ≡ None }
    requires tools { pace.old.tools ≡ team.now.points }
    ensures seat { GoesOn seat.old seat.new }
    ensures none { seat.new.cube ≡ None }
    ensures tools { pace.new.tools ≡ pace.old.tools }
    ensures ended { IfOk result (λ step. step ≡ Done → HasEnded seat.new) }
    ensures pauses { pauses_in seat.new.view.events + pace.new.pauses ≤ pauses_in seat.old.view.events + pace.old.pauses }
{
    match search_beside(rt, team, desk, seat, pace)? {
        Round::Told => Ok(Step::Whole),
        Round::Divides => Ok(Step::Cube(None)),
        Round::Done => Ok(Step::Done),
    }
}

/// One worker's loop at this pace, which begins in this manner. It ends where nothing is left to do, or no memory.
pub(crate) fn go_on<R: Wait, G: Gate>(
    rt: &R,
    team: &Team<G>,
    desk: &Desk,
    seat: &mut Seat,
    pool: &Pool,
    hand: &mut Hand,
    pace: &mut Pace,
    manner: Manner,
) -> Result<(), AllocError>
    requires problem { seat.old.view.begun.problem ≡ team.now }
    requires desk { seat.old.desk ≡ desk.now.id }
    requires none { seat.old.cube ≡ None }
    requires hand { hand.old.pool ≡ pool.now }
    requires tools { pace.old.tools ≡ team.now.points }
    ensures seat { GoesOn seat.old seat.new }
    ensures none { seat.new.cube ≡ None }
    ensures hand { HandGoesOn hand.old hand.new }
    ensures ended { OnOk result (HasEnded seat.new) }
    ensures pauses { pauses_in seat.new.view.events ≤ pauses_in seat.old.view.events + 2 ^ 32 }
{
    pace.pauses = MOST_PAUSES;
    let mut step = match manner {
        Manner::Cubes => Step::Cube(None),
        Manner::Whole => Step::Whole,
    };
    for _ in rt.forever() {
        step = match step {
            Step::Cube(near) => cube_step(rt, team, desk, seat, pool, hand, pace, near)?,
            Step::Whole => whole_step(rt, team, desk, seat, pace)?,
            Step::Done => {
                team.calls().end();
                return Ok(());
            }
        }
    }
    unreachable!()
}

/// One worker, on a thread of the caller's: it takes cubes, the fetched ones first, searches each for a slice,
/// passes the gate, and delivers what it found. Where a cube was divided, it goes on with one half and pushes the
/// other; where a slice paused, so that the others know its lemmas and it theirs, it goes on with the whole, under no cube, beside the
/// others. It pauses a bounded number of times, and each of its other deliveries leaves less to do (`book_core::ends_law`). The first slice has the team's budget, and later ones greater ones, by `book_search::Pacing`.
///
/// All workers of the desk are of one team: by its calls one that waits, or was told that nothing is left to do, ends the
/// slices of the others sooner.
///
/// `Ok` comes where nothing is left to do. Where there is no memory for a slice or a delivery, the worker gives
/// its cube back and ends. What the other workers deliver goes on, and the desk's book can be finished by
/// `book_search::finish` once it is closed.
pub fn work<R: Wait, G: Gate>(
    rt: &R,
    team: &Team<G>,
    desk: &Desk,
    seat: &mut Seat,
    pool: &Pool,
    hand: &mut Hand,
    worker: u32,
) -> Result<(), AllocError>
    requires problem { seat.old.view.begun.problem ≡ team.now }
    requires desk { seat.old.desk ≡ desk.now.id }
    requires none { seat.old.cube ≡ None }
    requires hand { hand.old.pool ≡ pool.now }
    ensures seat { GoesOn seat.old seat.new }
    ensures none { seat.new.cube ≡ None }
    ensures hand { HandGoesOn hand.old hand.new }
    ensures ended { OnOk result (HasEnded seat.new) }
    ensures pauses { pauses_in seat.new.view.events ≤ pauses_in seat.old.view.events + 2 ^ 32 }
{
    let mut pace = Pace::new(team, worker)?;
    go_on(rt, team, desk, seat, pool, hand, &mut pace, Manner::Cubes)
}
