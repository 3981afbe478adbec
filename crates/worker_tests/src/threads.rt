//! Two threads that call `work` on one desk, and meet in the middle of their slices.
ghost use Rattle.std.specs.Prelude.{◌≡◌, None};
ghost use Rattle.book_lock.specs.Seats.{IsSameSeat};
ghost use Rattle.worker_tests.specs.Meeting.{IsSeatOf};

use crate::hands::{OpenPool, opened};
use crate::journal::{closed, concludes_sat, delivered};
use crate::shared::{LOOKS, six_pairs};
use book_core::Book;
use book_lock::{Desk, Seat};
use cube_pool::{Hand, Pool};
use std::alloc::{AllocError, Global};
use std::sync::{Arc, Wait};
use std::test::Fail;
use std::thread;
use std::thread::Threads;
use steal_search::{NoGate, Team, work};
use stn_core::Problem;
use worker_calls::Calls;

/// The seat after a worker's call, and whether that was `Ok`.
fn run<R: Wait>(
    rt: &R,
    alloc: Global,
    problem: &Problem,
    desk: &Desk,
    seat: Seat,
    pool: &Pool,
    hand: Hand,
    worker: u32,
    calls: &Arc<Calls>,
) -> (Seat, bool)
    requires desk { seat.desk ≡ desk.now.id }
    requires problem { seat.view.begun.problem ≡ problem.now }
    requires none { seat.cube ≡ None }
    requires hand { hand.pool ≡ pool.now }
    ensures same { IsSameSeat seat result.0 }
    ensures none { result.0.cube ≡ None }
{
    let mut seat = seat;
    let mut hand = hand;
    let team = Team::new(alloc, problem, 1, calls, &NoGate);
    let ended = work(rt, &team, desk, &mut seat, pool, &mut hand, worker);
    let is_ok = ended.is_ok();
    (seat, is_ok)
}

/// Two workers, each on a thread of its own.
fn run_both<R: Threads + Wait + Sync>(
    rt: &R,
    alloc: Global,
    problem: &Problem,
    desk: &Desk,
    seats: (Seat, Seat),
    pool: &Pool,
    hands: (Hand, Hand),
    calls: &Arc<Calls>,
) -> ((Seat, bool), (Seat, bool))
    requires first { IsSeatOf desk.now problem.now 0 2 seats.0 }
    requires second { IsSeatOf desk.now problem.now 1 0 seats.1 }
    requires hands { (hands.0.pool ≡ pool.now) × (hands.1.pool ≡ pool.now) }
    ensures first { IsSeatOf desk.now problem.now 0 2 result.0.0 }
    ensures second { IsSeatOf desk.now problem.now 1 0 result.1.0 }
{
    let (seat, newcomer) = seats;
    let (own, other) = hands;
    thread::join(
        rt,
        move || -> (Seat, bool)
            requires { IsSeatOf desk.now problem.now 0 2 seat × (own.pool ≡ pool.now) }
            ensures { IsSeatOf desk.entry.now problem.entry.now 0 2 result.0 }
        { run(rt, alloc, problem, desk, seat, pool, own, 0, calls) },
        move || -> (Seat, bool)
            requires { IsSeatOf desk.now problem.now 1 0 newcomer × (other.pool ≡ pool.now) }
            ensures { IsSeatOf desk.entry.now problem.entry.now 1 0 result.0 }
        { run(rt, alloc, problem, desk, newcomer, pool, other, 1, calls) },
    )
}

/// The book that two workers leave, and whether each call was `Ok`.
fn book_of<R: Threads + Wait + Sync>(
    rt: &R,
    alloc: Global,
    problem: &Problem,
    opened: OpenPool,
    calls: &Arc<Calls>,
) -> Result<(Book, [bool; 2]), AllocError> {
    let OpenPool {
        pool,
        first,
        second,
    } = opened;
    let (desk, mut seat) = Desk::start(alloc, problem.copy()?)?;
    let newcomer = desk.split_seat(&mut seat)?;
    let seats = (seat, newcomer);
    let hands = (first, second);
    let (one, other) = run_both(rt, alloc, problem, &desk, seats, &pool, hands, calls);
    let book = closed(desk, problem, one.0, other.0);
    Ok((book, [one.1, other.1]))
}

/// Whether each call was `Ok`, whether each seat delivered something, and whether there is a schedule.
fn told<R: Threads + Wait + Sync>(
    rt: &R,
    alloc: Global,
    calls: &Arc<Calls>,
) -> Result<Option<([bool; 2], [bool; 2], bool)>, AllocError> {
    let Some(opened) = opened(alloc)? else {
        return Ok(None);
    };
    let problem = six_pairs(alloc)?;
    let (book, are_ok) = book_of(rt, alloc, &problem, opened, calls)?;
    let have_delivered = [delivered(&book, 0), delivered(&book, 1)];
    Ok(Some((are_ok, have_delivered, concludes_sat(&book)?)))
}

#[test]
fn two_threads_meet(rt: HostRuntime) -> Result<(), Fail> {
    let alloc = rt.alloc();
    let calls = Arc::new(alloc, Calls::meeting(LOOKS))?;
    let told = told(&rt, alloc, &calls)?;
    assert_eq!(rt; told, Some(([true; 2], [true; 2], true)));
    assert!(rt; calls.met());
    Ok(())
}
