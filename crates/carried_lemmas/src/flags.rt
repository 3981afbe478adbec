//! Which lemmas of an earlier problem stay in the new one.
ghost use Rattle.std.specs.Prelude.{◌≡◌, [], Some, is_some, slice_index_or, IfOk};
ghost use Rattle.std.specs.List.{list_all};
ghost use Rattle.refute_tree.specs.code.Views.{step_seen};
ghost use Rattle.carried_lemmas.specs.Shared.{lemmas_of};
ghost use Rattle.carried_lemmas.specs.code.Carrying.{is_on, step_stays, lemma_stays, flags_from};

use refute_tree::{Lemma, Reader, StepView};
use std::alloc::{AllocError, Global};
use std::sync::Arc;
use stn_core::Literal;

fn is_on(points: u32, literal: Literal) -> bool
    ensures { result ≡ is_on points literal }
{
    literal.x < points && literal.y < points
}

fn are_on(points: u32, literals: &[Literal]) -> bool
    ensures { result ≡ list_all (is_on points) literals.now }
{
    literals.iter().all(|literal| is_on(points, *literal))
}

fn is_there(numbers: &[Option<usize>], i: usize) -> bool
    ensures { result ≡ is_some (slice_index_or numbers.now i (Some i)) }
{
    let number = numbers.get(i).copied().unwrap_or(Some(i));
    number.is_some()
}

// Whether what the step rests on is there, and the points that it names. Of a clause or a lemma that there isn't nothing is asked.
fn step_stays(points: u32, numbers: &[Option<usize>], kept: &[bool], step: StepView<'_>) -> bool
    ensures { result ≡ step_stays points numbers.now kept.now (step_seen step.entry) }
{
    match step {
        StepView::Cycle(_) => true,
        StepView::Pair(_) => true,
        StepView::Input(i) => is_there(numbers, i),
        StepView::Lemma(j) => kept.get(j).copied().unwrap_or(true),
        StepView::Clash(i) => is_there(numbers, i),
        StepView::Either(literal) => is_on(points, literal),
    }
}

fn steps_stay(points: u32, numbers: &[Option<usize>], kept: &[bool], mut reader: Reader<'_>) -> bool
    ensures { result ≡ list_all (step_stays points numbers.now kept.now) reader.entry }
{
    'steps: while let Some(step) = reader.next() {
        if !step_stays(points, numbers, kept, step) {
            return false;
        }
    }
    true
}

fn lemma_stays(points: u32, numbers: &[Option<usize>], kept: &[bool], lemma: &Lemma) -> bool
    ensures { result ≡ lemma_stays points numbers.now kept.now lemma.now }
{
    are_on(points, lemma.clause.as_slice())
        && steps_stay(points, numbers, kept, lemma.steps.reader())
}

/// For each lemma whether what it rests on is there: the clauses that have a number, the lemmas before it that stay, and so many
/// points. It goes over the lemmas' steps once.
pub fn kept_flags(
    alloc: Global,
    points: u32,
    numbers: &[Option<usize>],
    lemmas: &[Arc<Lemma>],
) -> Result<Vec<bool>, AllocError>
    ensures { IfOk result (λ kept. kept.items ≡ flags_from points numbers.now [] (lemmas_of lemmas.now)) }
{
    let mut kept = Vec::with_capacity(alloc, lemmas.len())?;
    for lemma in lemmas {
        let stays = lemma_stays(points, numbers, kept.as_slice(), lemma);
        kept.push(stays)?;
    }
    Ok(kept)
}
