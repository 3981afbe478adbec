//! The best value by several workers.
ghost use Rattle.std.specs.Prelude.{◌≤◌, ◌<◌, IfOk};
ghost use Rattle.book_core.specs.Books.{IsOpening};
ghost use Rattle.best_values.specs.Widths.{Fits};
ghost use Rattle.best_bound.specs.Answers.{IsBestAnswer};

use crate::answer::Best;
use crate::questions::best_by;
use refute_tree::Batch;
use std::alloc::{AllocError, Global};
use std::sync::Wait;
use std::thread::Threads;
use steal_search::{Gate, solve_shared};
use stn_core::{Problem, Value};

/// How many slices the caller's own search, which keeps its lemmas, gets of a question before several workers take it.
const SLICES_ALONE: u64 = 16;

/// As `best_one`, where a question that the caller's own search doesn't decide in some slices is decided by so many workers, each
/// on a thread of its own.
///
/// The answer rests on no worker; which schedule has the least value does. The one error is want of memory.
pub fn best_shared<R: Threads + Wait + Sync, G: Gate>(
    rt: &R,
    alloc: Global,
    problem: &Problem,
    x: u32,
    y: u32,
    workers: u32,
    budget: u64,
    gate: &G,
) -> Result<Best, AllocError>
    requires fits { Fits problem.now }
    requires x_in { x < problem.now.points }
    requires y_in { y < problem.now.points }
    requires workers { (1 ≤ workers) × (workers ≤ 64) }
    ensures { IfOk result (IsBestAnswer problem.now x y) }
{
    let nothing = Batch::new(0, Vec::new(alloc));
    let best = best_shared_with(
        rt,
        alloc,
        problem,
        nothing,
        &[],
        x,
        y,
        workers,
        budget,
        gate,
    )?;
    Ok(best)
}

/// As `best_shared`, where the caller's own search has these lemmas of the problem from the start, and decides literals first as they hold on these values
/// of the first time points: as `best_one_with`.
pub fn best_shared_with<R: Threads + Wait + Sync, G: Gate>(
    rt: &R,
    alloc: Global,
    problem: &Problem,
    opening: Batch,
    phases: &[Value],
    x: u32,
    y: u32,
    workers: u32,
    budget: u64,
    gate: &G,
) -> Result<Best, AllocError>
    requires opening { IsOpening problem.now opening.lemmas }
    requires fits { Fits problem.now }
    requires x_in { x < problem.now.points }
    requires y_in { y < problem.now.points }
    requires workers { (1 ≤ workers) × (workers ≤ 64) }
    ensures { IfOk result (IsBestAnswer problem.now x y) }
{
    let best = best_by(
        alloc,
        problem,
        opening,
        phases,
        x,
        y,
        budget,
        SLICES_ALONE,
        &|open|
            requires { (1 ≤ workers) × (workers ≤ 64) }
        { solve_shared(rt, alloc, open, workers, budget, gate) },
    )?;
    Ok(best)
}
