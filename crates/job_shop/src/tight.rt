//! Plans in which no operation can start earlier while those before it stay where they are.
ghost use Rattle.std.specs.Prelude.{◌≡◌, ◌+◌, ◌<◌, ◌≤ℤ◌, ◌↔◌, ℕ, pos, length, IsTrue, IfOk, OnOk};
ghost use Rattle.job_shop.specs.Shops.{Has};
ghost use Rattle.job_shop.specs.Feasible.{end};
ghost use Rattle.job_shop.specs.Plans.{IsLeastPlan, start_in};
ghost use Rattle.job_shop.specs.Tight.{IsBefore, IsReached, IsTight, StartsNoLater};
ghost use Rattle.job_shop.specs.code.Moving.{start_of, IsTimely, IsEarliest, IsEndOrTime, IsLastOrTime, IsMoved, MovesOr};

use crate::shop::Jobs;
use std::alloc::{AllocError, Global};
use std::marker::Model;

/// A feasible plan, and a time by which all its operations have ended.
#[derive(Drop)]
struct Timely<'s> {
    jobs: &'s Jobs,
    /// Job after job.
    starts: Vec<i128>,
    latest: i128,
}

impl<'s> Model for Timely<'s> {
    ghost use Rattle.job_shop.specs.code.Moving.{Timely as Plan, IsTimely};

    ghost Value = { Plan };

    ghost view = { λ p. record { shop = p.jobs.now; starts = p.starts.items; latest = p.latest } };

    ghost invariant = { λ p. IsTimely
        (record { shop = p.jobs.now; starts = p.starts.items; latest = p.latest }) };
}

/// An operation by its start.
#[derive(Clone, Copy)]
struct Turn {
    start: i128,
    job: u32,
    place: u32,
}

impl<'s> Timely<'s> {
    /// What always holds of it.
    fn timely(&self)
        ensures { IsTimely self.now }
    {
        let _ = &self.jobs;
    }

    fn start(&self, job: u32, place: u32) -> i128
        requires { Has self.now.shop job place }
        ensures start { result ≡ start_of self.now job place }
        ensures low { pos 0 ≤ℤ result }
    {
        self.starts[(job * self.jobs.machines() + place) as usize]
    }

    fn end(&self, job: u32, place: u32) -> i128
        requires { Has self.now.shop job place }
        ensures { result ≡ end self.now.shop (start_of self.now) job place }
    {
        self.timely();
        self.start(job, place) + i128::from(self.jobs.operation(job, place).duration)
    }

    /// Whether the other operation goes before the operation on its machine.
    fn is_before(&self, other: u32, i: u32, job: u32, place: u32) -> bool
        requires other { Has self.now.shop other i }
        requires has { Has self.now.shop job place }
        ensures { IsTrue result ↔ IsBefore self.now.shop (start_of self.now) other i job place }
    {
        let machine = self.jobs.operation(job, place).machine;
        if self.jobs.operation(other, i).machine != machine {
            return false;
        }
        if self.end(other, i) > self.start(job, place) {
            return false;
        }
        self.end(job, place) > self.start(other, i)
    }

    /// The time, or the end of the other operation, where that is later and it goes before the operation on its machine.
    fn later_end(&self, other: u32, i: u32, job: u32, place: u32, time: i128) -> i128
        requires other { Has self.now.shop other i }
        requires has { Has self.now.shop job place }
        ensures later { time ≤ℤ result }
        ensures covers { IsBefore self.now.shop (start_of self.now) other i job place → end self.now.shop (start_of self.now) other i ≤ℤ result }
        ensures one { IsEndOrTime self.now job place other i time result }
    {
        if !self.is_before(other, i, job, place) {
            return time;
        }
        let end = self.end(other, i);
        if end > time { end } else { time }
    }

    /// The time, or the latest end of an operation of the other job that goes before this one on its machine, where that is later.
    fn latest_end(&self, other: u32, job: u32, place: u32, time: i128) -> i128
        requires other { other < length self.now.shop.jobs }
        requires has { Has self.now.shop job place }
        ensures later { time ≤ℤ result }
        ensures each { (i : ℕ) → i < self.now.shop.machines → IsBefore self.now.shop (start_of self.now) other i job place
            → end self.now.shop (start_of self.now) other i ≤ℤ result }
        ensures one { IsLastOrTime self.now job place other time result }
    {
        let mut latest = time;
        for i in 0..self.jobs.machines() {
            latest = self.later_end(other, i, job, place, latest);
        }
        latest
    }

    /// When the operation may start at the earliest, behind those that go before it now.
    fn earliest(&self, job: u32, place: u32) -> i128
        requires { Has self.now.shop job place }
        ensures { IsEarliest self.now job place result }
    {
        let mut time = self.ready(job, place);
        for other in 0..self.jobs.count() {
            time = self.latest_end(other, job, place, time);
        }
        time
    }

    /// When the operations of its job that go before it have ended.
    fn ready(&self, job: u32, place: u32) -> i128
        requires { Has self.now.shop job place }
        ensures low { pos 0 ≤ℤ result }
        ensures order { (i : ℕ) → place ≡ i + 1 → end self.now.shop (start_of self.now) job i ≤ℤ result }
        ensures high { result ≤ℤ start_of self.now job place }
        ensures reached { IsReached self.now.shop (start_of self.now) job place result }
    {
        self.timely();
        if place == 0 {
            return 0;
        }
        self.end(job, place - 1)
    }

    /// The operation starts at its earliest; says whether it did not before.
    fn advance(&mut self, job: u32, place: u32) -> bool
        requires { Has self.old.shop job place }
        ensures moved { IsMoved self.old self.new }
        ensures tight { MovesOr (IsReached self.old.shop (start_of self.old) job place (start_of self.old job place)) self.old self.new result }
    {
        self.timely();
        let time = self.earliest(job, place);
        if time >= self.start(job, place) {
            return false;
        }
        let at = (job * self.jobs.machines() + place) as usize;
        self.starts[at] = time;
        true
    }

    /// Each operation of the job in turn starts at its earliest; says whether one did not before.
    fn advance_job(&mut self, job: u32) -> bool
        requires { job < length self.old.shop.jobs }
        ensures moved { IsMoved self.old self.new }
        ensures tight { MovesOr ((k : ℕ) → k < self.old.shop.machines
            → IsReached self.old.shop (start_of self.old) job k (start_of self.old job k)) self.old self.new result }
    {
        let mut is_moved = false;
        for place in 0..self.jobs.machines() {
            is_moved |= self.advance(job, place);
        }
        is_moved
    }

    /// Each operation in turn starts at its earliest; says whether one did not before.
    fn advance_all(&mut self) -> bool
        ensures moved { IsMoved self.old self.new }
        ensures tight { MovesOr (IsTight self.old.shop (start_of self.old)) self.old self.new result }
    {
        let mut is_moved = false;
        for job in 0..self.jobs.count() {
            is_moved |= self.advance_job(job);
        }
        is_moved
    }

    /// The operations by their starts.
    fn turns(&self, alloc: Global) -> Result<Vec<Turn>, AllocError> {
        let mut turns = Vec::with_capacity(alloc, self.starts.len())?;
        for job in 0..self.jobs.count() {
            for place in 0..self.jobs.machines() {
                let start = self.start(job, place);
                turns.push(Turn { start, job, place })?;
            }
        }
        turns.sort_unstable_by_key(|turn| turn.start);
        Ok(turns)
    }

    /// Each operation starts at its earliest, in the order of the starts: one pass that mostly leaves nothing to move.
    fn advance_in_order(&mut self, alloc: Global) -> Result<(), AllocError>
        ensures { OnOk result (IsMoved self.old self.new) }
    {
        let turns = self.turns(alloc)?;
        for turn in &turns {
            if turn.job < self.jobs.count() && turn.place < self.jobs.machines() {
                self.advance(turn.job, turn.place);
            }
        }
        Ok(())
    }
}

/// A least plan in which each operation starts as soon as those before it, in its job and on its machine, have ended; none starts later than
/// in the given plan. It takes time of the order of the square of the number of operations, of which there are at most 1,600.
pub fn tightened(
    alloc: Global,
    jobs: &Jobs,
    makespan: i128,
    starts: &[i128],
) -> Result<Vec<i128>, AllocError>
    requires { IsLeastPlan jobs.now starts.now makespan }
    ensures least { IfOk result (λ v. IsLeastPlan jobs.now v.items makespan) }
    ensures tight { IfOk result (λ v. IsTight jobs.now (start_in jobs.now v.items)) }
    ensures sooner { IfOk result (λ v. StartsNoLater jobs.now (start_in jobs.now v.items) (start_in jobs.now starts.now)) }
{
    let mut plan = Timely {
        jobs,
        starts: Vec::from_slice(alloc, starts)?,
        latest: makespan,
    };
    plan.advance_in_order(alloc)?;
    while plan.advance_all() {}
    Ok(plan.starts)
}
