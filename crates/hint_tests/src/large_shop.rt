//! A shop of 15 jobs of 15 operations of one unit of time each, on 15 machines. The k-th operation of job j is on machine j + k, or that less 15: where each
//! starts as soon as the one before it in its job ends, no two are on one machine at once, so that all end at 15, which is as soon as a job can. So many
//! points have their orders turned round where dispatching misses a deadline.
ghost use Rattle.std.specs.Prelude.{◌≡◌, ◌<◌, ◌≤ℤ◌, pos, neg_ℤ, All, OnOk, IfOk};
ghost use Rattle.stn_core.specs.Literal.{IsOver};

use crate::dispatching::is_schedule;
use std::alloc::{AllocError, Global};
use std::test::Fail;
use stn_core::{Clause, Clauses, Literal, Problem};

/// How many jobs there are, machines, and operations of a job.
const SIDE: u32 = 15;

/// How many time points there are: the origin and one for each operation.
const POINTS: u32 = SIDE * SIDE + 1;

/// The point of the operation of this job, by its place in it.
fn point(job: u32, place: u32) -> u32
    requires job { job < 15 }
    requires place { place < 15 }
    ensures { result < 226 }
{
    1 + job * SIDE + place
}

/// The first point stands at least one unit of time before the second.
fn before(first: u32, second: u32) -> Literal
    requires first { first < 226 }
    requires second { second < 226 }
    ensures { IsOver 226 result }
{
    Literal {
        x: first,
        y: second,
        c: -1,
    }
}

/// Puts a clause behind the others.
fn push(alloc: Global, all: &mut Vec<Clause>, literals: &[Literal]) -> Result<(), AllocError>
    requires over { All (IsOver 226) literals.now }
    requires all { All (λ clause. All (IsOver 226) clause) all.old.items }
    ensures { OnOk result (All (λ clause. All (IsOver 226) clause) all.new.items) }
{
    all.push(Clause::from_slice(alloc, literals)?)?;
    Ok(())
}

/// Puts the order of a job's operations behind the others, its start at 0 at the earliest, and its last operation's start at the latest.
fn push_job(alloc: Global, all: &mut Vec<Clause>, job: u32, last: i64) -> Result<(), AllocError>
    requires job { job < 15 }
    requires last { (pos 0 ≤ℤ last) × (last ≤ℤ pos 100) }
    requires all { All (λ clause. All (IsOver 226) clause) all.old.items }
    ensures { OnOk result (All (λ clause. All (IsOver 226) clause) all.new.items) }
{
    let start = Literal {
        x: 0,
        y: point(job, 0),
        c: 0,
    };
    push(alloc, all, [start].as_slice())?;
    for place in 1..SIDE {
        let order = before(point(job, place - 1), point(job, place));
        push(alloc, all, [order].as_slice())?;
    }
    let end = Literal {
        x: point(job, SIDE - 1),
        y: 0,
        c: last,
    };
    push(alloc, all, [end].as_slice())
}

/// Puts the alternatives of the operation and those of later jobs on its machine behind the others.
fn push_alternatives(
    alloc: Global,
    all: &mut Vec<Clause>,
    job: u32,
    place: u32,
) -> Result<(), AllocError>
    requires job { job < 15 }
    requires place { place < 15 }
    requires all { All (λ clause. All (IsOver 226) clause) all.old.items }
    ensures { OnOk result (All (λ clause. All (IsOver 226) clause) all.new.items) }
{
    let here = point(job, place);
    for other in job + 1..SIDE {
        let there = point(other, (place + job + SIDE - other) % SIDE);
        let orders = [before(here, there), before(there, here)];
        push(alloc, all, orders.as_slice())?;
    }
    Ok(())
}

/// The shop, where each last operation starts at this time at the latest.
fn shop(alloc: Global, last: i64) -> Result<Problem, AllocError>
    requires { (pos 0 ≤ℤ last) × (last ≤ℤ pos 100) }
    ensures { IfOk result (λ problem. problem.points ≡ 226) }
{
    let mut all = Vec::new(alloc);
    for job in 0..SIDE {
        push_job(alloc, &mut all, job, last)?;
    }
    for job in 0..SIDE {
        for place in 0..SIDE {
            push_alternatives(alloc, &mut all, job, place)?;
        }
    }
    Ok(Problem {
        points: POINTS,
        clauses: Clauses::new(all),
    })
}

#[test]
fn each_operation_behind_the_one_before_it_meets_the_deadline(rt: HostRuntime) -> Result<(), Fail> {
    let alloc = rt.alloc();
    assert_eq!(rt; is_schedule(alloc, &shop(alloc, 14)?)?, Some(true));
    Ok(())
}

#[test]
fn no_orders_meet_a_deadline_before_a_job_can_end(rt: HostRuntime) -> Result<(), Fail> {
    let alloc = rt.alloc();
    assert_eq!(rt; is_schedule(alloc, &shop(alloc, 13)?)?, Some(false));
    Ok(())
}
