ghost use Rattle.std.specs.Prelude.{◌≡◌, ◌++◌, Some, None, slice_get, map, MatchOption, OnOk, IfOk};
ghost use Rattle.refute_tree.specs.declared.step.Step.TheVariants.{Cycle as CycleStep};
ghost use Rattle.refute_tree.specs.Lengths.{pair_step, lengthened_step, lengthened_lemma, shortened_lemma};
ghost use Rattle.refute_tree.specs.Lengths.{is_pair_of, begin_with_pairs, ClosedCases, IsShorter, StaysRefuted};
ghost use Rattle.refute_tree.specs.code.Views.{literals_of, step_seen};

use crate::cycle::Cycle;
use crate::lemma::Lemma;
use crate::reader::{Reader, StepView};
use crate::store::Steps;
use std::alloc::{AllocError, Global};
use stn_core::{Literal, Problem, negate};

// The problem's clause with this number.
fn clause_of(problem: &Problem, i: usize) -> Option<&[Literal]>
    ensures { MatchOption result
        (slice_get problem.now.clauses i ≡ None)
        (λ clause. slice_get problem.now.clauses i ≡ Some clause.now) }
{
    let clause = problem.clauses.as_slice().get(i)?;
    Some(clause.as_slice())
}

// Adds the step, and a clash with a clause of the problem as its cases.
fn push_lengthened(
    problem: &Problem,
    step: StepView<'_>,
    steps: &mut Steps,
) -> Result<(), AllocError>
    ensures { OnOk result (steps.new
        ≡ steps.old ++ lengthened_step problem.now.clauses (step_seen step.entry)) }
{
    let StepView::Clash(i) = step else {
        return steps.push(step);
    };
    let Some(clause) = clause_of(problem, i) else {
        return steps.push(step);
    };
    steps.push_input(i)?;
    push_pairs(clause, steps)?;
    Ok(())
}

// Adds the leaf of each literal and its negation.
fn push_pairs(literals: &[Literal], steps: &mut Steps) -> Result<(), AllocError>
    ensures { OnOk result (steps.new ≡ steps.old ++ map pair_step literals.now) }
{
    for literal in literals {
        steps.push_pair(*literal)?;
    }
    Ok(())
}

/// The lemma with each clash written out: the clause's input step, and each of its cases closed by the cycle of
/// its literal and the negation. A lemma without clashes has the same steps then.
///
/// A clash with a clause that the problem doesn't have stays. It takes time in the lemma that it gives.
pub fn lengthen(alloc: Global, problem: &Problem, lemma: &Lemma) -> Result<Lemma, AllocError>
    ensures lemma { IfOk result (λ longer. longer ≡ lengthened_lemma problem.now.clauses lemma.now) }
    ensures refuted { IfOk result (StaysRefuted problem.now.clauses lemma.now) }
{
    let clause = lemma.clause.copy()?;
    let mut steps = Steps::new(alloc);
    let mut reader = lemma.steps.reader();
    while let Some(step) = reader.next() {
        push_lengthened(problem, step, &mut steps)?;
    }
    Ok(Lemma { clause, steps })
}

// Whether the cycle is that of the literal and its negation, in this order.
fn is_pair(literal: Literal, cycle: Cycle<'_>) -> bool
    ensures { result ≡ is_pair_of literal (CycleStep (literals_of cycle.entry)) }
{
    cycle.len() == 2 && cycle.at(0) == literal && cycle.at(1) == negate(literal)
}

fn is_pair_of(literal: Literal, step: StepView<'_>) -> bool
    ensures { result ≡ is_pair_of literal (step_seen step.entry) }
{
    match step {
        StepView::Cycle(cycle) => is_pair(literal, cycle),
        StepView::Pair(first) => first == literal,
        StepView::Input(_) | StepView::Lemma(_) => false,
        StepView::Clash(_) | StepView::Either(_) => false,
    }
}

fn begin_with_pairs(literals: &[Literal], mut reader: Reader<'_>) -> bool
    ensures { result ≡ begin_with_pairs literals.now reader.entry }
{
    for literal in literals {
        let Some(step) = reader.next() else {
            return false;
        };
        if !is_pair_of(*literal, step) {
            return false;
        }
    }
    true
}

// The number of cases of the clause, where the steps that are read begin with all of them, each closed by its
// literal and the negation.
fn closed_cases(problem: &Problem, i: usize, reader: &Reader<'_>) -> Option<usize>
    ensures { ClosedCases (slice_get problem.now.clauses i) reader.now result }
{
    let clause = clause_of(problem, i)?;
    if begin_with_pairs(clause, reader.again()) {
        Some(clause.len())
    } else {
        None
    }
}

// Adds the step, or the clash for it, and tells how many steps behind it are left out then.
fn push_shortened(
    problem: &Problem,
    step: StepView<'_>,
    reader: &Reader<'_>,
    steps: &mut Steps,
) -> Result<usize, AllocError>
    ensures { IfOk result
        (IsShorter problem.now.clauses (step_seen step.entry) reader.now steps.old steps.new) }
{
    if let StepView::Input(i) = step {
        if let Some(count) = closed_cases(problem, i, reader) {
            steps.push_clash(i)?;
            return Ok(count);
        }
    }
    steps.push(step)?;
    Ok(0)
}

/// The lemma with each input step whose cases are all closed by the cycle of their literal and its negation, in
/// this order, as a clash.
///
/// It takes time in the lemma's steps and the clauses that they open.
pub fn shorten(alloc: Global, problem: &Problem, lemma: &Lemma) -> Result<Lemma, AllocError>
    ensures lemma { IfOk result (λ shorter. shorter ≡ shortened_lemma problem.now.clauses lemma.now) }
    ensures refuted { IfOk result (StaysRefuted problem.now.clauses lemma.now) }
{
    let clause = lemma.clause.copy()?;
    let mut steps = Steps::new(alloc);
    let mut reader = lemma.steps.reader();
    let mut skip = 0;
    while let Some(step) = reader.next() {
        if skip > 0 {
            skip -= 1;
        } else {
            skip = push_shortened(problem, step, &reader, &mut steps)?;
        }
    }
    Ok(Lemma { clause, steps })
}
