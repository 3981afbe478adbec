//! x < y and y < x, and what is delivered of them.
use refute_tree::{Batch, Lemma, Steps};
use std::alloc::{AllocError, Global};
use stn_core::{Clause, Clauses, Literal, Problem};

pub(crate) const X_BEFORE_Y: Literal = Literal { x: 1, y: 2, c: -1 };

pub(crate) const Y_BEFORE_X: Literal = Literal { x: 2, y: 1, c: -1 };

/// x < y and y < x, where x is point 1 and y is point 2.
pub(crate) fn two_orders(alloc: Global) -> Result<Problem, AllocError> {
    let first = Clause::new([X_BEFORE_Y].to_vec(alloc)?);
    let second = Clause::new([Y_BEFORE_X].to_vec(alloc)?);
    let clauses = Clauses::new(vec![in alloc; first, second]?);
    Ok(Problem { points: 3, clauses })
}

/// The lemma that states the first clause again.
fn first_again(alloc: Global) -> Result<Lemma, AllocError> {
    let mut steps = Steps::new(alloc);
    steps.push_input(0)?;
    steps.push_pair(X_BEFORE_Y)?;
    let clause = Clause::new([X_BEFORE_Y].to_vec(alloc)?);
    Ok(Lemma { clause, steps })
}

/// The two clauses have no schedule.
fn without_schedule(alloc: Global) -> Result<Lemma, AllocError> {
    let mut steps = Steps::new(alloc);
    steps.push_input(0)?;
    steps.push_input(1)?;
    steps.push_cycle(&[X_BEFORE_Y, Y_BEFORE_X])?;
    let clause = Clause::new(Vec::new(alloc));
    Ok(Lemma { clause, steps })
}

/// Two lemmas, of which the second refutes the whole.
pub(crate) fn refuting(alloc: Global) -> Result<Batch, AllocError> {
    let lemmas = vec![in alloc; first_again(alloc)?, without_schedule(alloc)?]?;
    Ok(Batch::new(0, lemmas))
}
