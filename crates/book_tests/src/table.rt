//! Deliveries on a new book of x < y and y < x whose cube without literals is held, and what is wrong with
//! them.
use book_core::Outcome;
use book_judge::{Fault, judge};
use refute_tree::{Batch, Lemma, Steps};
use std::alloc::{AllocError, Global};
use std::sync::Arc;
use std::test::Fail;
use stn_core::{Clause, Clauses, Literal, Problem, Schedule};

pub(crate) const X_BEFORE_Y: Literal = Literal { x: 1, y: 2, c: -1 };

pub(crate) const Y_BEFORE_X: Literal = Literal { x: 2, y: 1, c: -1 };

/// x < y and y < x, where x is point 1 and y is point 2.
pub(crate) fn two_orders(alloc: Global) -> Result<Problem, AllocError> {
    let first = Clause::new([X_BEFORE_Y].to_vec(alloc)?);
    let second = Clause::new([Y_BEFORE_X].to_vec(alloc)?);
    let clauses = Clauses::new(vec![in alloc; first, second]?);
    Ok(Problem { points: 3, clauses })
}

fn fault_of(alloc: Global, batch: &Batch, outcome: &Outcome) -> Result<Option<Fault>, AllocError> {
    let problem = two_orders(alloc)?;
    let none: Vec<Arc<Lemma>> = Vec::new(alloc);
    Ok(judge(alloc, &problem, none.as_slice(), &[], batch, outcome).err())
}

fn of_split(alloc: Global, seen: usize, literal: Literal) -> Result<Option<Fault>, AllocError> {
    let batch = Batch::new(seen, Vec::new(alloc));
    fault_of(alloc, &batch, &Outcome::Split(literal))
}

fn of_schedule(alloc: Global) -> Result<Option<Fault>, AllocError> {
    let batch = Batch::new(0, Vec::new(alloc));
    let schedule = Schedule::new([0, 0, 0].to_vec(alloc)?);
    fault_of(alloc, &batch, &Outcome::Found(schedule))
}

/// The lemma that states the first clause again.
fn first_again(alloc: Global) -> Result<Lemma, AllocError> {
    let mut steps = Steps::new(alloc);
    steps.push_input(0)?;
    steps.push_pair(X_BEFORE_Y)?;
    let clause = Clause::new([X_BEFORE_Y].to_vec(alloc)?);
    Ok(Lemma { clause, steps })
}

fn of_shut(alloc: Global) -> Result<Option<Fault>, AllocError> {
    let batch = Batch::new(0, vec![in alloc; first_again(alloc)?]?);
    fault_of(alloc, &batch, &Outcome::Shut(0))
}

#[test]
fn judgements(rt: HostRuntime) -> Result<(), Fail> {
    let alloc = rt.alloc();
    let wide = Literal { x: 1, y: 2, c: 5 };
    let splits = (
        of_split(alloc, 1, X_BEFORE_Y)?,
        of_split(alloc, 0, wide)?,
        of_split(alloc, 0, X_BEFORE_Y)?,
    );
    let expected = (Some(Fault::NoSuchClause), Some(Fault::AlreadyDecided), None);
    assert_eq!(rt; splits, expected);
    let others = (of_shut(alloc)?, of_schedule(alloc)?);
    assert_eq!(rt;
        others,
        (Some(Fault::DoesNotExclude), Some(Fault::NotASchedule))
    );
    Ok(())
}
