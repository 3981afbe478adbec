//! What the answer to a question comes to.
ghost use Rattle.std.specs.Prelude.{◌≡◌, ◌<◌, IfOk};
ghost use Rattle.book_core.specs.Verdicts.{IsRight};
ghost use Rattle.best_values.specs.Widths.{Fits, IsWithinLimit};
ghost use Rattle.better_schedules.specs.code.Descents.{IsDescent, IsTooLow, IsQuestion};
ghost use Rattle.best_bound.specs.declared.answer.Best.TheVariants.{Least};
ghost use Rattle.best_bound.specs.Answers.{IsBestAnswer};
ghost use Rattle.best_bound.specs.code.Hearings.{IsHeard};

use crate::answer::Best;
use best_values::Points;
use better_schedules::{Descent, Incumbent, Question};
use book_core::Verdict;
use refute_tree::Refutation;
use std::alloc::{AllocError, Global};
use stn_core::Problem;

/// What is answered, or what there is to go on with.
#[derive(Drop)]
pub enum Heard {
    Ended(Best),
    GoesOn(Descent),
}

pub(crate) fn least(best: Incumbent, refutation: Refutation) -> Best
    requires { IsWithinLimit best.value }
    ensures { result ≡ Least best.schedule best.value refutation }
{
    Best::Least(best.schedule, best.value as i64, refutation)
}

/// After the verdict on a question.
pub(crate) fn hear(
    alloc: Global,
    problem: &Problem,
    descent: Descent,
    question: &Question,
    verdict: Verdict,
    x: u32,
    y: u32,
) -> Result<Heard, AllocError>
    requires fits { Fits problem.now }
    requires x_in { x < problem.now.points }
    requires y_in { y < problem.now.points }
    requires descent { IsDescent problem.now x y descent }
    requires question { IsQuestion problem.now x y descent question.now }
    requires right { IsRight question.now.problem verdict }
    ensures { IfOk result (IsHeard problem.now x y descent) }
{
    best_values::asked_law();
    match verdict {
        Verdict::Unsat(refutation) => {
            if descent.is_last(question) {
                return Ok(Heard::Ended(least(descent.incumbent, refutation)));
            }
            Ok(Heard::GoesOn(descent.raised(question.bound)))
        }
        Verdict::Sat(schedule) => {
            let next = descent.improved(alloc, problem, schedule, x, y)?;
            Ok(Heard::GoesOn(next))
        }
    }
}

/// Where the best schedule's value is too low for any to be best.
pub(crate) fn unbounded(
    alloc: Global,
    problem: &Problem,
    descent: Descent,
    x: u32,
    y: u32,
) -> Result<Best, AllocError>
    requires x_in { x < problem.now.points }
    requires y_in { y < problem.now.points }
    requires descent { IsDescent problem.now x y descent }
    requires low { IsTooLow problem.now descent }
    ensures { IfOk result (IsBestAnswer problem.now x y) }
{
    let set = descent.free_set(alloc, problem, x, y)?;
    Ok(Best::Unbounded(descent.incumbent.schedule, Points::new(set)))
}
