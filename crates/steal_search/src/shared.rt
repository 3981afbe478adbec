//! Workers on threads of their own.
ghost use Rattle.std.specs.Prelude.{◌≡◌, ◌≤◌, ◌<◌, ◌+◌, ◌^◌, [], length, vec_len, None, IfOk, OnOk, IfSome};
ghost use Rattle.book_core.specs.Books.{IsOpening};
ghost use Rattle.book_core.specs.Shared.{lemmas_of};
ghost use Rattle.book_core.specs.Verdicts.{IsRight};
ghost use Rattle.book_search.specs.Learned.{BeginsWith};
ghost use Rattle.book_search.specs.code.Deliveries.{IsWaiting};
ghost use Rattle.book_lock.specs.Seats.{AllJoined};
ghost use Rattle.cube_pool.specs.Hands.{AreInOrder};
ghost use Rattle.steal_search.specs.code.Staff.{AllMayWork, AreHanded, AreSeated, IsFirst, IsSameWorker, MayWork};

use crate::dealing::{MOST_PAUSES, Onward, Pace, deal};
use crate::team::{Manner, Team};
use crate::worker::go_on;
use book_core::{Book, Verdict};
use book_lock::{Dealt, Desk, Seat};
use book_search::{Pacing, Solved, conclude, decide_units, finish};
use cube_pool::{Hand, Pool};
use refute_tree::Batch;
use std::alloc::{AllocError, Global};
use std::sync::{Arc, Wait};
use std::thread;
use std::thread::Threads;
use stn_core::{Problem, Value};
use worker_calls::Calls;
use worker_gates::Gate;

/// The most slices that the caller makes alone.
const FIRST_SLICES: u32 = 4;

/// What a worker's thread has.
#[derive(Drop)]
pub struct Worker {
    pub(crate) seat: Seat,
    pub(crate) hand: Hand,
    // that of the first slices, for one of the workers
    pub(crate) pace: Option<Pace>,
    pub(crate) number: u32,
}

// The pace that is there, or a new one, which begins elsewhere where it searches the whole.
fn pace_of<G: Gate>(
    team: &Team<G>,
    worker: u32,
    manner: Manner,
    pace: &mut Option<Pace>,
) -> Result<Pace, AllocError>
    requires { IfSome pace.old (λ pace. pace.tools ≡ team.now.points) }
    ensures { IfOk result (λ pace. pace.tools ≡ team.now.points) }
{
    if let Some(pace) = pace.take() {
        return Ok(pace);
    }
    let mut pace = Pace::new(team, worker)?;
    if let Manner::Whole = manner {
        let points = team.problem().points;
        pace.tools.scatter(team.alloc(), points, worker)?;
    }
    Ok(pace)
}

// One worker on this thread. Where it finds no memory, the others go on.
fn run<R: Wait, G: Gate>(
    rt: &R,
    team: &Team<G>,
    desk: &Desk,
    pool: &Pool,
    manner: Manner,
    worker: &mut Worker,
)
    requires { MayWork desk.now team.now pool.now worker.old }
    ensures { IsSameWorker worker.old worker.new }
{
    if let Ok(mut pace) = pace_of(team, worker.number, manner, &mut worker.pace) {
        let _ = go_on(
            rt,
            team,
            desk,
            &mut worker.seat,
            pool,
            &mut worker.hand,
            &mut pace,
            manner,
        );
    }
}

// Each worker on a thread of its own.
fn run_all<R: Threads + Wait + Sync, G: Gate>(
    rt: &R,
    team: &Team<G>,
    desk: &Desk,
    pool: &Pool,
    manner: Manner,
    staff: &mut [Worker],
)
    requires staff { AllMayWork desk.now team.now pool.now staff.old }
    requires seats { AreSeated desk.now staff.old }
    requires hands { AreHanded pool.now staff.old }
    requires some { 0 < length staff.old }
    ensures seats { AreSeated desk.now staff.new }
    ensures hands { AreHanded pool.now staff.new }
    ensures count { length staff.new ≡ length staff.old }
{
    let count = staff.len();
    thread::for_each_mut(
        rt,
        staff,
        count,
        &|_, worker|
            requires { MayWork desk.now team.now pool.now worker.old }
            ensures { IsSameWorker worker.old worker.new }
        { run(rt, team, desk, pool, manner, worker) },
    );
}

// A worker for each hand, the first at the pace of the first slices.
fn staff_of(
    alloc: Global,
    problem: &Problem,
    desk: &Desk,
    seat: &mut Seat,
    pool: &Pool,
    hands: &mut Vec<Hand>,
    pace: Pace,
) -> Result<Vec<Worker>, AllocError>
    requires seat { IsFirst desk.now problem.now 1 seat.old }
    requires few { vec_len hands.old ≤ 64 }
    requires hands { AreInOrder pool.now hands.old.items }
    requires tools { pace.tools ≡ problem.now.points }
    ensures seat { OnOk result (IsFirst desk.now problem.now (vec_len hands.old + 1) seat.new) }
    ensures count { IfOk result (λ staff. vec_len staff ≡ vec_len hands.old) }
    ensures seats { IfOk result (λ staff. AreSeated desk.now staff.items) }
    ensures work { IfOk result (λ staff. AllMayWork desk.now problem.now pool.now staff.items) }
    ensures hands { IfOk result (λ staff. AreHanded pool.now staff.items) }
    ensures none { OnOk result (hands.new.items ≡ []) }
{
    let mut first = Some(pace);
    let mut staff = Vec::with_capacity(alloc, hands.len())?;
    'hands: while let Some(hand) = hands.pop() {
        let seat = desk.split_seat(seat)?;
        staff.push(Worker {
            seat,
            hand,
            pace: first.take(),
            number: staff.len() as u32,
        })?;
    }
    Ok(staff)
}

// Seat 0 takes in the workers' seats, and their hands come together again.
fn gather(
    desk: &Desk,
    problem: &Problem,
    seat: &mut Seat,
    pool: &Pool,
    hands: &mut Vec<Hand>,
    staff: Vec<Worker>,
) -> Result<(), AllocError>
    requires seat { IsFirst desk.now problem.now (vec_len staff + 1) seat.old }
    requires seats { AreSeated desk.now staff.items }
    requires count { vec_len staff ≡ length pool.now }
    requires hands { AreHanded pool.now staff.items }
    requires none { hands.old.items ≡ [] }
    ensures seat { OnOk result (IsFirst desk.now problem.now (vec_len staff + 1) seat.new) }
    ensures all { OnOk result (AllJoined seat.new.view) }
    ensures hands { OnOk result (AreInOrder pool.now hands.new.items) }
{
    let mut staff = staff;
    'staff: while let Some(worker) = staff.pop() {
        let Worker {
            seat: other,
            hand,
            pace: _,
            number: _,
        } = worker;
        desk.join_seat(seat, other);
        hands.push(hand)?;
    }
    Ok(())
}

// Workers share what is left to do, in this manner.
fn share_out<R: Threads + Wait + Sync, G: Gate>(
    rt: &R,
    team: &Team<G>,
    desk: &Desk,
    seat: &mut Seat,
    pace: Pace,
    manner: Manner,
    workers: u32,
) -> Result<(), AllocError>
    requires workers { (1 ≤ workers) × (workers ≤ 64) }
    requires seat { IsFirst desk.now team.now 1 seat.old }
    requires tools { pace.tools ≡ team.now.points }
    ensures seat { OnOk result (IsFirst desk.now team.now (workers + 1) seat.new) }
    ensures all { OnOk result (AllJoined seat.new.view) }
{
    let alloc = team.alloc();
    let problem = team.problem();
    let (pool, mut hands) = Pool::open(alloc, workers)?;
    let mut staff = staff_of(alloc, problem, desk, seat, &pool, &mut hands, pace)?;
    run_all(rt, team, desk, &pool, manner, staff.as_mut_slice());
    gather(desk, problem, seat, &pool, &mut hands, staff)?;
    // What is left there are numbers of cubes that were taken without them.
    let _ = pool.close(hands);
    Ok(())
}

// One of the first slices, on the caller's thread, and with what it would go on. None where nothing is left to do.
fn slice_alone<R: Wait, G: Gate>(
    rt: &R,
    team: &Team<G>,
    desk: &Desk,
    seat: &mut Seat,
    pace: &mut Pace,
) -> Result<Option<Onward>, AllocError>
    requires seat { IsFirst desk.now team.now 1 seat.old }
    requires tools { pace.old.tools ≡ team.now.points }
    ensures seat { IsFirst desk.now team.now 1 seat.new }
    ensures tools { pace.new.tools ≡ pace.old.tools }
{
    pace.pacing = Pacing::at_first(team.budget(), pace.tools.met_conflict());
    match desk.take(rt, seat)? {
        Dealt::Cube => {
            let onward = deal(rt, team, desk, seat, pace)?;
            Ok(Some(onward))
        }
        Dealt::Idle | Dealt::Done => Ok(None),
    }
}

// The first slices, on the caller's thread, and how several share what is left. Without a conflict there is work for
// several once the whole is divided, and else at the next division; and after the last of these slices. None where nothing is
// left to do.
fn begin<R: Wait, G: Gate>(
    rt: &R,
    team: &Team<G>,
    desk: &Desk,
    seat: &mut Seat,
    pace: &mut Pace,
) -> Result<Option<Manner>, AllocError>
    requires seat { IsFirst desk.now team.now 1 seat.old }
    requires tools { pace.old.tools ≡ team.now.points }
    ensures seat { IsFirst desk.now team.now 1 seat.new }
    ensures tools { pace.new.tools ≡ pace.old.tools }
{
    let mut manner = Manner::Cubes;
    for slice in 0..FIRST_SLICES {
        let Some(onward) = slice_alone(rt, team, desk, seat, pace)? else {
            return Ok(None);
        };
        manner = match onward {
            Onward::Half if slice > 0 || !pace.tools.met_conflict() => {
                return Ok(Some(Manner::Cubes));
            }
            Onward::Half | Onward::Any => Manner::Cubes,
            Onward::Whole => Manner::Whole,
        };
    }
    Ok(Some(manner))
}

// The book after the workers' calls. The values are a hint to the caller's first slices, and to the worker that goes on
// from there.
fn closed<R: Threads + Wait + Sync, G: Gate>(
    rt: &R,
    team: &Team<G>,
    opening: Batch,
    phases: &[Value],
    workers: u32,
) -> Result<Book, AllocError>
    requires workers { (1 ≤ workers) × (workers ≤ 64) }
    requires seen { opening.seen ≡ 0 }
    requires opening { IsOpening team.now opening.lemmas }
    ensures waiting { IfOk result (IsWaiting team.now) }
    ensures opening { IfOk result (λ book. book.opening ≡ opening.lemmas) }
{
    let (desk, mut seat) = Desk::start_with(team.alloc(), team.problem().copy()?, opening)?;
    // Of worker 0, who goes on with it.
    let mut pace = Pace::new(team, 0)?;
    pace.tools.follow(phases);
    pace.pauses = MOST_PAUSES;
    if let Some(manner) = begin(rt, team, &desk, &mut seat, &mut pace)? {
        share_out(rt, team, &desk, &mut seat, pace, manner, workers)?;
    }
    Ok(desk.close(seat))
}

/// Decides the problem by so many workers, each on a thread of its own.
///
/// The caller makes the first slices alone, so that what is decided soon takes no thread; only what is left then is for
/// the workers. Where some find no memory, the others go on, and what is left when all have
/// ended is done on the caller's thread: the answer rests on no worker. The one error is want of memory.
pub fn solve_shared<R: Threads + Wait + Sync, G: Gate>(
    rt: &R,
    alloc: Global,
    problem: &Problem,
    workers: u32,
    budget: u64,
    gate: &G,
) -> Result<Verdict, AllocError>
    requires workers { (1 ≤ workers) × (workers ≤ 64) }
    ensures { IfOk result (IsRight problem.now) }
{
    let calls = Arc::new(alloc, Calls::new())?;
    let verdict = solve_shared_over(rt, alloc, problem, workers, budget, &calls, gate)?;
    Ok(verdict)
}

/// As `solve_shared`, where the workers share these calls, which no other workers do.
pub fn solve_shared_over<R: Threads + Wait + Sync, G: Gate>(
    rt: &R,
    alloc: Global,
    problem: &Problem,
    workers: u32,
    budget: u64,
    calls: &Arc<Calls>,
    gate: &G,
) -> Result<Verdict, AllocError>
    requires workers { (1 ≤ workers) × (workers ≤ 64) }
    ensures { IfOk result (IsRight problem.now) }
{
    if let Some(verdict) = decide_units(alloc, problem)? {
        return Ok(verdict);
    }
    let team = Team::new(alloc, problem, budget, calls, gate);
    let nothing = Batch::new(0, Vec::new(alloc));
    let verdict = searched_by(rt, &team, nothing, &[], workers)?;
    Ok(verdict)
}

/// As `solve_shared`, by slices alone, by a book that opens with these lemmas, and with values of the first time points that say
/// how the caller's first slices decide literals: as `book_search::search_one`, which says also what isn't done first.
pub fn search_shared<R: Threads + Wait + Sync, G: Gate>(
    rt: &R,
    alloc: Global,
    problem: &Problem,
    opening: Batch,
    phases: &[Value],
    workers: u32,
    budget: u64,
    gate: &G,
) -> Result<Verdict, AllocError>
    requires workers { (1 ≤ workers) × (workers ≤ 64) }
    requires seen { opening.seen ≡ 0 }
    requires opening { IsOpening problem.now opening.lemmas }
    ensures { IfOk result (IsRight problem.now) }
{
    let calls = Arc::new(alloc, Calls::new())?;
    let team = Team::new(alloc, problem, budget, &calls, gate);
    let verdict = searched_by(rt, &team, opening, phases, workers)?;
    Ok(verdict)
}

// The same by this team.
fn searched_by<R: Threads + Wait + Sync, G: Gate>(
    rt: &R,
    team: &Team<G>,
    opening: Batch,
    phases: &[Value],
    workers: u32,
) -> Result<Verdict, AllocError>
    requires workers { (1 ≤ workers) × (workers ≤ 64) }
    requires seen { opening.seen ≡ 0 }
    requires opening { IsOpening team.now opening.lemmas }
    ensures { IfOk result (IsRight team.now) }
{
    let book = closed(rt, team, opening, phases, workers)?;
    match book.into_verdict()? {
        Ok(verdict) => Ok(verdict),
        Err(book) => {
            let solved = finish(team.alloc(), team.problem(), book, team.budget())?;
            Ok(solved.into_verdict())
        }
    }
}

/// As `search_shared`, with what was learned beside the verdict: as `book_search::solve_one_with`.
pub fn solve_shared_with<R: Threads + Wait + Sync, G: Gate>(
    rt: &R,
    alloc: Global,
    problem: &Problem,
    opening: Batch,
    phases: &[Value],
    workers: u32,
    budget: u64,
    gate: &G,
) -> Result<Solved, AllocError>
    requires workers { (1 ≤ workers) × (workers ≤ 64) }
    requires seen { opening.seen ≡ 0 }
    requires opening { IsOpening problem.now opening.lemmas }
    ensures right { IfOk result (λ solved. IsRight problem.now solved.verdict) }
    ensures lemmas { IfOk result (λ solved. IsOpening problem.now (lemmas_of solved.lemmas.items)) }
    ensures first { IfOk result (λ solved. BeginsWith opening.lemmas solved.verdict (lemmas_of solved.lemmas.items)) }
{
    let calls = Arc::new(alloc, Calls::new())?;
    let team = Team::new(alloc, problem, budget, &calls, gate);
    let solved = solved_by(rt, &team, opening, phases, workers)?;
    Ok(solved)
}

// The same by this team.
fn solved_by<R: Threads + Wait + Sync, G: Gate>(
    rt: &R,
    team: &Team<G>,
    opening: Batch,
    phases: &[Value],
    workers: u32,
) -> Result<Solved, AllocError>
    requires workers { (1 ≤ workers) × (workers ≤ 64) }
    requires seen { opening.seen ≡ 0 }
    requires opening { IsOpening team.now opening.lemmas }
    ensures right { IfOk result (λ solved. IsRight team.now solved.verdict) }
    ensures lemmas { IfOk result (λ solved. IsOpening team.now (lemmas_of solved.lemmas.items)) }
    ensures first { IfOk result (λ solved. BeginsWith opening.lemmas solved.verdict (lemmas_of solved.lemmas.items)) }
{
    let book = closed(rt, team, opening, phases, workers)?;
    match conclude(team.alloc(), book)? {
        Ok(solved) => Ok(solved),
        Err(book) => finish(team.alloc(), team.problem(), book, team.budget()),
    }
}
