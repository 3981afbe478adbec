//! From question to question, to the best value.
ghost use Rattle.std.specs.Prelude.{◌<◌, IfOk};
ghost use Rattle.std.specs.Fn.{FnReturnsAt};
ghost use Rattle.book_core.specs.Books.{IsOpening};
ghost use Rattle.book_core.specs.Verdicts.{IsRight};
ghost use Rattle.best_values.specs.Widths.{Fits};
ghost use Rattle.best_bound.specs.Answers.{IsBestAnswer};
ghost use Rattle.best_bound.specs.code.Askings.{IsDecider};

use crate::answer::Best;
use crate::asking::{Asked, Begun, Turn, ask, begin};
use crate::hearing::{Heard, hear, unbounded};
use better_schedules::Descent;
use book_core::Verdict;
use refute_tree::Batch;
use std::alloc::{AllocError, Global};
use stn_core::{Problem, Value};

// What the caller's function says of a problem.
fn decided<D: Fn(&Problem) -> Result<Verdict, AllocError>>(
    asked: &Problem,
    decide: &D,
) -> Result<Verdict, AllocError>
    requires callable { D.IsAlwaysCallable decide.now }
    requires decides { IsDecider (FnReturnsAt D.Fn decide.now) }
    ensures { IfOk result (IsRight asked.now) }
{
    decide(asked)
}

/// The best value, by one search that takes all questions, and keeps its lemmas from one to the next: what it doesn't decide
/// in so many slices is decided by the caller's own function.
pub(crate) fn best_by<D: Fn(&Problem) -> Result<Verdict, AllocError>>(
    alloc: Global,
    problem: &Problem,
    opening: Batch,
    phases: &[Value],
    x: u32,
    y: u32,
    budget: u64,
    slices: u64,
    decide: &D,
) -> Result<Best, AllocError>
    requires opening { IsOpening problem.now opening.lemmas }
    requires fits { Fits problem.now }
    requires x_in { x < problem.now.points }
    requires y_in { y < problem.now.points }
    requires callable { D.IsAlwaysCallable decide.now }
    requires decides { IsDecider (FnReturnsAt D.Fn decide.now) }
    ensures { IfOk result (IsBestAnswer problem.now x y) }
{
    let begun = begin(alloc, problem, opening, phases, budget, slices)?;
    let Begun { verdict, search } = begun;
    let verdict = match verdict {
        Some(verdict) => verdict,
        None => decided(problem, decide)?,
    };
    let first = match verdict {
        Verdict::Unsat(refutation) => return Ok(Best::Nothing(refutation)),
        Verdict::Sat(schedule) => schedule,
    };
    let mut search = search;
    let mut descent = Descent::begin(alloc, problem, first, x, y)?;
    'questions: while let Some(question) = descent.ask(alloc, problem, x, y)? {
        let turn = ask(
            alloc, problem, search, descent, question, x, y, budget, slices,
        )?;
        let Turn {
            asked,
            search: kept,
        } = turn;
        search = kept;
        let heard = match asked {
            Asked::Heard(heard) => heard,
            Asked::Open(same, open) => {
                let verdict = decided(&open.problem, decide)?;
                hear(alloc, problem, same, &open, verdict, x, y)?
            }
        };
        match heard {
            Heard::Ended(best) => return Ok(best),
            Heard::GoesOn(next) => descent = next,
        }
    }
    let best = unbounded(alloc, problem, descent, x, y)?;
    Ok(best)
}
