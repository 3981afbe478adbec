//! What the clauses of one literal decide by themselves.
ghost use Rattle.std.specs.Prelude.{◌≡◌, ◌++◌, ◌∷◌, [], IfOk, IfSome, OnOk};
ghost use Rattle.book_core.specs.Verdicts.{IsRight, last_lemma};
ghost use Rattle.book_search.specs.code.Base.{steps_of, cycle_steps};

use crate::clauses::all_hold;
use crate::units::Units;
use book_core::Verdict;
use refute_tree::{Lemma, Refutation, Steps};
use std::alloc::{AllocError, Global};
use stn_core::{Clause, Greatest, Literal, Problem, greatest};

/// A schedule, where the greatest one of the clauses with one literal makes all clauses hold, or a
/// refutation, where these clauses have no schedule.
pub fn decide_units(alloc: Global, problem: &Problem) -> Result<Option<Verdict>, AllocError>
    ensures { IfOk result (λ o. IfSome o (IsRight problem.now)) }
{
    let units = Units::of(alloc, problem.clauses.as_slice())?;
    match greatest(alloc, problem.points, units.as_slice())? {
        Greatest::Greatest(schedule) => {
            if all_hold(problem.clauses.as_slice(), schedule.as_slice()) {
                return Ok(Some(Verdict::Sat(schedule)));
            }
            Ok(None)
        }
        Greatest::Negative(cycle) => {
            let refutation = refuted_by(alloc, &units, cycle.as_slice())?;
            Ok(Some(Verdict::Unsat(refutation)))
        }
    }
}

/// A refutation by clauses with one literal alone that lead from points to those that are noted for them, where these have no schedule.
/// What is noted is a hint: `noted` has for some points another one. It takes the time of a look at each clause, and of the
/// greatest schedule of these literals.
pub fn refute_along(
    alloc: Global,
    problem: &Problem,
    noted: &[u32],
) -> Result<Option<Verdict>, AllocError>
    ensures { IfOk result (λ o. IfSome o (IsRight problem.now)) }
{
    if noted.is_empty() {
        return Ok(None);
    }
    let units = Units::along(alloc, problem.clauses.as_slice(), noted)?;
    match greatest(alloc, problem.points, units.as_slice())? {
        Greatest::Greatest(_) => Ok(None),
        Greatest::Negative(cycle) => {
            let refutation = refuted_by(alloc, &units, cycle.as_slice())?;
            Ok(Some(Verdict::Unsat(refutation)))
        }
    }
}

/// The refutation whose one lemma this cycle closes.
fn refuted_by(alloc: Global, units: &Units, cycle: &[Literal]) -> Result<Refutation, AllocError>
    ensures { IfOk result (λ r. r ≡ last_lemma (cycle_steps units.now cycle.now) ∷ []) }
{
    let steps = closing_steps(alloc, units, cycle)?;
    let lemma = Lemma {
        clause: Clause::new(Vec::new(alloc)),
        steps,
    };
    Ok(Refutation::new(vec![in alloc; lemma]?))
}

/// An `Input` step for each literal of the cycle, and then the cycle.
fn closing_steps(alloc: Global, units: &Units, cycle: &[Literal]) -> Result<Steps, AllocError>
    ensures { IfOk result (λ steps. steps ≡ cycle_steps units.now cycle.now) }
{
    let mut steps = Steps::new(alloc);
    for literal in cycle {
        push_unit(&mut steps, units.number(*literal))?;
    }
    steps.push_cycle(cycle)?;
    Ok(steps)
}

fn push_unit(steps: &mut Steps, number: Option<usize>) -> Result<(), AllocError>
    ensures { OnOk result (steps.new ≡ steps.old ++ steps_of number) }
{
    if let Some(number) = number {
        steps.push_input(number)?;
    }
    Ok(())
}
