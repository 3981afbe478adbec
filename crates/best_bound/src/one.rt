//! The best value by one worker.
ghost use Rattle.std.specs.Prelude.{◌<◌, IfOk};
ghost use Rattle.book_core.specs.Books.{IsOpening};
ghost use Rattle.best_values.specs.Widths.{Fits};
ghost use Rattle.best_bound.specs.Answers.{IsBestAnswer};

use crate::answer::Best;
use crate::questions::best_by;
use book_search::solve_one;
use refute_tree::Batch;
use std::alloc::{AllocError, Global};
use stn_core::{Problem, Value};

/// The least value of x - y where the problem holds, with a schedule that has it and a refutation of any less; or a
/// schedule and the points that can be lowered without end; or a refutation of the problem.
///
/// One search takes all questions, and keeps its lemmas from one to the next. It returns: each schedule that is found has a
/// smaller value than the one before, each refutation raises the bound below which nothing is asked for, and no value that
/// can be best is below the problem's span. The one error is want of memory.
pub fn best_one(
    alloc: Global,
    problem: &Problem,
    x: u32,
    y: u32,
    budget: u64,
) -> Result<Best, AllocError>
    requires fits { Fits problem.now }
    requires x_in { x < problem.now.points }
    requires y_in { y < problem.now.points }
    ensures { IfOk result (IsBestAnswer problem.now x y) }
{
    let nothing = Batch::new(0, Vec::new(alloc));
    let best = best_one_with(alloc, problem, nothing, &[], x, y, budget)?;
    Ok(best)
}

/// As `best_one`, by a search that has these lemmas of the problem from the start: what earlier problems have taught. Literals are first decided as they
/// hold on these values of the first time points, as those of an earlier schedule: a hint, and there may be none.
pub fn best_one_with(
    alloc: Global,
    problem: &Problem,
    opening: Batch,
    phases: &[Value],
    x: u32,
    y: u32,
    budget: u64,
) -> Result<Best, AllocError>
    requires opening { IsOpening problem.now opening.lemmas }
    requires fits { Fits problem.now }
    requires x_in { x < problem.now.points }
    requires y_in { y < problem.now.points }
    ensures { IfOk result (IsBestAnswer problem.now x y) }
{
    let best = best_by(
        alloc,
        problem,
        opening,
        phases,
        x,
        y,
        budget,
        u64::MAX,
        &|open| { solve_one(alloc, open, budget) },
    )?;
    Ok(best)
}
