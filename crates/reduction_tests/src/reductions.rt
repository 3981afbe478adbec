//! Worked by hand: `a` and `b` are points 1 and 2, which are true where their value is at most that of point 0, and points 3 and 4
//! are `x` and `y`.
ghost use Rattle.std.specs.Prelude.{◌≡◌, All, IfOk};
ghost use Rattle.stn_core.specs.Literal.{IsOver};
ghost use Rattle.best_values.specs.Widths.{Fits};

use best_bound::{Best, best_one};
use best_values::{fits, question};
use book_core::Verdict;
use book_search::search_one;
use cert_check::{check_refutation, check_schedule};
use reduced_problem::Reduction;
use refute_tree::Batch;
use std::alloc::{AllocError, Global};
use std::test::Fail;
use stn_core::{Clause, Clauses, Literal, Problem, Value};

const A: Literal = Literal { x: 1, y: 0, c: 0 };

const NOT_A: Literal = Literal { x: 0, y: 1, c: -1 };

const B: Literal = Literal { x: 2, y: 0, c: 0 };

const NOT_B: Literal = Literal { x: 0, y: 2, c: -1 };

const X_BEFORE_Y: Literal = Literal { x: 3, y: 4, c: -1 };

/// No further than 5 behind.
const Y_NEAR_X: Literal = Literal { x: 4, y: 3, c: 5 };

const Y_BEFORE_X: Literal = Literal { x: 4, y: 3, c: -1 };

/// What a problem is left with, and whether its whole has a schedule, by a search of what is left and a test of the answer.
#[derive(Clone, Copy, Debug, PartialEq, Eq)]
struct Found {
    clauses: usize,
    has_schedule: bool,
    is_tested: bool,
}

/// The problem of these clauses of two literals over five points.
fn problem_of(alloc: Global, clauses: &[[Literal; 2]]) -> Result<Problem, AllocError>
    requires { All (λ pair. All (IsOver 5) pair) clauses.now }
    ensures { IfOk result (λ problem. problem.points ≡ 5) }
{
    let mut all = Vec::new(alloc);
    for pair in clauses {
        all.push(Clause::from_slice(alloc, pair.as_slice())?)?;
    }
    Ok(Problem {
        points: 5,
        clauses: Clauses::new(all),
    })
}

/// Whether the verdict on the problem stands the checker's test.
fn is_tested(alloc: Global, problem: &Problem, verdict: &Verdict) -> bool {
    match verdict {
        Verdict::Sat(schedule) => {
            schedule.as_slice().len() == problem.points as usize
                && check_schedule(problem, schedule).is_ok()
        }
        Verdict::Unsat(refutation) => check_refutation(alloc, problem, refutation).is_ok(),
    }
}

/// What is found of the problem without its atoms; nothing where none is eliminated.
fn decided(alloc: Global, problem: &Problem) -> Result<Option<Found>, AllocError> {
    let Some(reduction) = Reduction::of(alloc, problem, &[])? else {
        return Ok(None);
    };
    let clauses = reduction.problem().clauses.as_slice().len();
    let nothing = Batch::new(0, Vec::new(alloc));
    let verdict = search_one(alloc, reduction.problem(), nothing, &[], 1_000)?;
    let Some(verdict) = reduction.verdict(alloc, problem, verdict)? else {
        return Ok(None);
    };
    Ok(Some(Found {
        clauses,
        has_schedule: matches!(verdict, Verdict::Sat(_)),
        is_tested: is_tested(alloc, problem, &verdict),
    }))
}

/// The least value of x - y, by the problem without its atoms, if its schedule and its refutation stand the checker's test.
fn least(alloc: Global, problem: &Problem) -> Result<Option<i64>, AllocError>
    requires points { problem.now.points ≡ 5 }
    requires fits { Fits problem.now }
{
    let Some(reduction) = Reduction::of(alloc, problem, [3, 4].as_slice())? else {
        return Ok(None);
    };
    if !fits(reduction.problem()) {
        return Ok(None);
    }
    let best = best_one(alloc, reduction.problem(), 3, 4, 1_000)?;
    let Some(Best::Least(schedule, value, refutation)) = reduction.best(alloc, problem, 3, 4, best)?
    else {
        return Ok(None);
    };
    let asked = question(alloc, problem, 3, 4, Value::from(value))?;
    let holds = is_tested(alloc, problem, &Verdict::Sat(schedule));
    if holds && is_tested(alloc, &asked, &Verdict::Unsat(refutation)) {
        Ok(Some(value))
    } else {
        Ok(None)
    }
}

#[test]
fn an_atom_that_both_alternatives_bring_about_gives_way(rt: HostRuntime) -> Result<(), Fail> {
    let alloc = rt.alloc();
    let clauses = [[A, B], [NOT_A, B], [NOT_B, X_BEFORE_Y], [NOT_B, Y_BEFORE_X]];
    let problem = problem_of(alloc, clauses.as_slice())?;
    let expected = Found {
        clauses: 2,
        has_schedule: false,
        is_tested: true,
    };
    assert_eq!(rt; decided(alloc, &problem)?, Some(expected));
    Ok(())
}

#[test]
fn what_is_gone_gets_values(rt: HostRuntime) -> Result<(), Fail> {
    let alloc = rt.alloc();
    let clauses = [[A, B], [NOT_A, B], [NOT_B, X_BEFORE_Y]];
    let problem = problem_of(alloc, clauses.as_slice())?;
    let expected = Found {
        clauses: 0,
        has_schedule: true,
        is_tested: true,
    };
    assert_eq!(rt; decided(alloc, &problem)?, Some(expected));
    Ok(())
}

#[test]
fn a_least_value_is_the_same_without_atoms(rt: HostRuntime) -> Result<(), Fail> {
    let alloc = rt.alloc();
    let clauses = [[A, B], [NOT_A, B], [NOT_B, X_BEFORE_Y], [NOT_B, Y_NEAR_X]];
    let problem = problem_of(alloc, clauses.as_slice())?;
    let value = if fits(&problem) {
        least(alloc, &problem)?
    } else {
        None
    };
    assert_eq!(rt; value, Some(-5));
    Ok(())
}

#[test]
fn points_in_several_atoms_stay(rt: HostRuntime) -> Result<(), Fail> {
    let alloc = rt.alloc();
    let clauses = [[X_BEFORE_Y, Y_BEFORE_X], [A, Y_BEFORE_X]];
    let problem = problem_of(alloc, clauses.as_slice())?;
    assert_eq!(rt; decided(alloc, &problem)?, None);
    Ok(())
}
