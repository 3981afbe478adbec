//! Two workers that meet in the middle of their slices, and more workers than there is work.
use book_core::Verdict;
use std::alloc::{AllocError, Global};
use std::sync::Arc;
use std::test::Fail;
use steal_search::{NoGate, solve_shared, solve_shared_over};
use stn_core::{Clause, Clauses, Literal, Problem};
use worker_calls::Calls;

const FIRST: [Literal; 2] = [Literal { x: 1, y: 2, c: -1 }, Literal { x: 2, y: 1, c: -1 }];

const SECOND: [Literal; 2] = [Literal { x: 3, y: 4, c: -1 }, Literal { x: 4, y: 3, c: -1 }];

const THIRD: [Literal; 2] = [Literal { x: 5, y: 6, c: -1 }, Literal { x: 6, y: 5, c: -1 }];

const FOURTH: [Literal; 2] = [Literal { x: 7, y: 8, c: -1 }, Literal { x: 8, y: 7, c: -1 }];

const FIFTH: [Literal; 2] = [
    Literal { x: 9, y: 10, c: -1 },
    Literal { x: 10, y: 9, c: -1 },
];

const SIXTH: [Literal; 2] = [
    Literal {
        x: 11,
        y: 12,
        c: -1,
    },
    Literal {
        x: 12,
        y: 11,
        c: -1,
    },
];

/// How often a worker that is held in the middle of its slice looks for another one.
pub(crate) const LOOKS: u64 = 100_000_000;

/// Six pairs of points, each in one of two orders.
pub(crate) fn six_pairs(alloc: Global) -> Result<Problem, AllocError> {
    let first = Clause::new(FIRST.to_vec(alloc)?);
    let second = Clause::new(SECOND.to_vec(alloc)?);
    let third = Clause::new(THIRD.to_vec(alloc)?);
    let fourth = Clause::new(FOURTH.to_vec(alloc)?);
    let fifth = Clause::new(FIFTH.to_vec(alloc)?);
    let sixth = Clause::new(SIXTH.to_vec(alloc)?);
    let clauses = Clauses::new(vec![in alloc; first, second, third, fourth, fifth, sixth]?);
    Ok(Problem {
        points: 13,
        clauses,
    })
}

pub(crate) fn is_sat(verdict: &Verdict) -> bool {
    match verdict {
        Verdict::Sat(_) => true,
        Verdict::Unsat(_) => false,
    }
}

#[test]
fn two_meet(rt: HostRuntime) -> Result<(), Fail> {
    let alloc = rt.alloc();
    let problem = six_pairs(alloc)?;
    let calls = Arc::new(alloc, Calls::meeting(LOOKS))?;
    let verdict = solve_shared_over(&rt, alloc, &problem, 2, 1, &calls, &NoGate)?;
    assert_eq!(rt; (is_sat(&verdict), calls.met()), (true, true));
    assert!(rt; is_sat(&solve_shared(&rt, alloc, &problem, 8, 1, &NoGate)?));
    Ok(())
}

#[test]
fn who_waits_is_answered_once(rt: HostRuntime) -> Result<(), Fail> {
    let calls = Calls::new();
    let before = calls.answer();
    calls.ask();
    calls.ask();
    let answers = [calls.answer(), calls.answer(), calls.answer()];
    assert_eq!(rt; (before, answers), (false, [true, true, false]));
    assert!(rt; !calls.is_over());
    calls.end();
    assert!(rt; calls.is_over());
    Ok(())
}
