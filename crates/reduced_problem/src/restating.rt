//! Lemmas of a reduced problem as lemmas of the problem itself.
ghost use Rattle.std.specs.Prelude.{◌≡◌, ◌++◌, ◌∷◌, [], length, map, All, OnOk, IfOk};
ghost use Rattle.refute_tree.specs.Batches.{LemmaRefersBelow};
ghost use Rattle.refute_tree.specs.Lengths.{pair_step};
ghost use Rattle.refute_tree.specs.code.Views.{step_seen};
ghost use Rattle.reduced_problem.specs.code.Restating.{origin_at, clause_at, opened_by, closed_by, restated_step, restated, restated_lemma, Fits, LemmaFits};

use atom_elimination::Origin;
use refute_tree::{Lemma, Reader, Refutation, StepView, Steps};
use std::alloc::{AllocError, Global};
use stn_core::{Clause, Literal};

fn origin_at(origins: &[Origin], i: usize) -> Origin
    ensures { result ≡ origin_at origins.now i }
{
    origins.get(i).copied().unwrap_or(Origin::Input(i))
}

fn clause_at(clauses: &[Clause], i: usize) -> &[Literal]
    ensures { result.now ≡ clause_at clauses.now i }
{
    match clauses.get(i) {
        Some(clause) => clause.as_slice(),
        None => &[],
    }
}

fn push_opened(origin: Origin, steps: &mut Steps) -> Result<(), AllocError>
    ensures { OnOk result (steps.new ≡ steps.old ++ opened_by origin ∷ []) }
{
    match origin {
        Origin::Input(i) => steps.push_input(i),
        Origin::Lemma(j) => steps.push_lemma(j),
    }
}

fn push_pairs(literals: &[Literal], steps: &mut Steps) -> Result<(), AllocError>
    ensures { OnOk result (steps.new ≡ steps.old ++ map pair_step literals.now) }
{
    for literal in literals {
        steps.push_pair(*literal)?;
    }
    Ok(())
}

fn push_closed(origin: Origin, clause: &[Literal], steps: &mut Steps) -> Result<(), AllocError>
    ensures { OnOk result (steps.new ≡ steps.old ++ closed_by origin clause.now) }
{
    match origin {
        Origin::Input(i) => steps.push_clash(i),
        Origin::Lemma(j) => {
            steps.push_lemma(j)?;
            push_pairs(clause, steps)
        }
    }
}

fn push_step(
    origins: &[Origin],
    clauses: &[Clause],
    base: usize,
    step: StepView<'_>,
    steps: &mut Steps,
) -> Result<(), AllocError>
    requires { Fits base (step_seen step) }
    ensures { OnOk result (steps.new
        ≡ steps.old ++ restated_step origins.now clauses.now base (step_seen step.entry)) }
{
    match step {
        StepView::Cycle(_) => steps.push(step),
        StepView::Pair(_) => steps.push(step),
        StepView::Input(i) => push_opened(origin_at(origins, i), steps),
        StepView::Lemma(j) => steps.push_lemma(base + j),
        StepView::Clash(i) => push_closed(origin_at(origins, i), clause_at(clauses, i), steps),
        StepView::Either(_) => steps.push(step),
    }
}

// The steps, in the place of those that were there.
fn restated(
    origins: &[Origin],
    clauses: &[Clause],
    base: usize,
    mut reader: Reader<'_>,
    steps: &mut Steps,
) -> Result<(), AllocError>
    requires { All (Fits base) reader }
    ensures { OnOk result (steps.new ≡ restated origins.now clauses.now base reader.entry) }
{
    steps.clear();
    'steps: while let Some(step) = reader.next() {
        push_step(origins, clauses, base, step, steps)?;
    }
    Ok(())
}

// The steps are made in room that serves one lemma after the other, so that what stays has no more memory than it needs.
fn restate(
    alloc: Global,
    origins: &[Origin],
    clauses: &[Clause],
    base: usize,
    lemma: &mut Lemma,
    room: &mut Steps,
) -> Result<(), AllocError>
    requires { LemmaFits base lemma.old }
    ensures { OnOk result (lemma.new ≡ restated_lemma origins.now clauses.now base lemma.old) }
{
    restated(origins, clauses, base, lemma.steps.reader(), room)?;
    lemma.steps = room.copy(alloc)?;
    Ok(())
}

/// Each lemma of the problem with these clauses, which come from there, as one behind so many lemmas of the problem itself.
fn restate_each(
    alloc: Global,
    origins: &[Origin],
    clauses: &[Clause],
    base: usize,
    lemmas: &mut [Lemma],
) -> Result<(), AllocError>
    requires { All (LemmaFits base) lemmas.old }
    ensures { OnOk result (lemmas.new ≡ map (restated_lemma origins.now clauses.now base) lemmas.old) }
{
    let mut room = Steps::new(alloc);
    for lemma in lemmas.iter_mut() {
        restate(alloc, origins, clauses, base, lemma, &mut room)?;
    }
    Ok(())
}

/// A refutation of the problem with these clauses, which come from there, as one of the problem itself, behind the lemmas.
pub(crate) fn restate_behind(
    alloc: Global,
    mut lemmas: Vec<Lemma>,
    origins: &[Origin],
    clauses: &[Clause],
    refutation: Refutation,
) -> Result<Refutation, AllocError>
    requires { All (LemmaRefersBelow (length refutation)) refutation }
    ensures { IfOk result (λ all. all
        ≡ lemmas.items ++ map (restated_lemma origins.now clauses.now (length lemmas.items)) refutation) }
{
    let mut others = refutation.into_vec();
    lemmas.reserve(others.len())?;
    restate_each(alloc, origins, clauses, lemmas.len(), &mut others)?;
    lemmas.append(&mut others)?;
    Ok(Refutation::new(lemmas))
}
