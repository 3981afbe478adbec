ghost use Rattle.std.specs.Prelude.{◌≡◌, IfOk};

use cert_check::{CheckError, Flaw, FlawKind, check_refutation, check_schedule};
use refute_tree::{Lemma, Refutation, StepView, Steps, cases, leaf};
use std::alloc::{AllocError, Global};
use std::test::Fail;
use stn_core::{Clause, Clauses, Literal, Problem, Schedule};

const X_BEFORE_Y: Literal = Literal { x: 1, y: 2, c: -1 };

const Y_BEFORE_X: Literal = Literal { x: 2, y: 1, c: -1 };

/// x < y and y < x, where x is point 1 and y is point 2.
pub(crate) fn two_orders(alloc: Global) -> Result<Problem, AllocError>
    ensures { IfOk result (λ problem. problem.points ≡ 3) }
{
    let first = Clause::new([X_BEFORE_Y].to_vec(alloc)?);
    let second = Clause::new([Y_BEFORE_X].to_vec(alloc)?);
    let clauses = Clauses::new(vec![in alloc; first, second]?);
    Ok(Problem { points: 3, clauses })
}

/// Both clauses' only cases, down to the cycle.
fn tree(alloc: Global) -> Result<Steps, AllocError> {
    let inner = leaf(alloc, [X_BEFORE_Y, Y_BEFORE_X].as_slice())?;
    let outer = cases(alloc, StepView::Input(1), [inner].as_slice())?;
    cases(alloc, StepView::Input(0), [outer].as_slice())
}

fn lemma_of(alloc: Global, steps: Steps) -> Lemma {
    Lemma {
        clause: Clause::new(Vec::new(alloc)),
        steps,
    }
}

/// The refutation by one step, which cites the lemma with this number.
fn citing(alloc: Global, number: usize) -> Result<Refutation, AllocError> {
    let mut steps = Steps::new(alloc);
    steps.push_lemma(number)?;
    Ok(Refutation::new(vec![in alloc; lemma_of(alloc, steps)]?))
}

/// The same by the tree.
fn refutation(alloc: Global) -> Result<Refutation, AllocError> {
    Ok(Refutation::new(vec![in alloc; lemma_of(alloc, tree(alloc)?)]?))
}

#[test]
fn refutations(rt: HostRuntime) -> Result<(), Fail> {
    let alloc = rt.alloc();
    let problem = two_orders(alloc)?.copy()?;
    let right = check_refutation(alloc, &problem, &refutation(alloc)?);
    let wrong = check_refutation(alloc, &problem, &citing(alloc, 0)?);
    let flaw = Flaw {
        lemma: 0,
        step: 0,
        kind: FlawKind::NoSuchClause,
    };
    assert_eq!(rt; (right, wrong), (Ok(()), Err(CheckError::Refused(flaw))));
    Ok(())
}

/// The number of the first clause that does not hold where x is one before y.
fn first_false(alloc: Global) -> Result<Option<usize>, AllocError> {
    let problem = two_orders(alloc)?;
    let schedule = Schedule::new([0, -1, 0].to_vec(alloc)?).copy()?;
    if schedule.as_slice().len() != problem.points as usize {
        return Ok(None);
    }
    Ok(check_schedule(&problem, &schedule).err())
}

#[test]
fn a_schedule_that_fails(rt: HostRuntime) -> Result<(), Fail> {
    let found = first_false(rt.alloc())?;
    assert_eq!(rt; found, Some(1));
    Ok(())
}
