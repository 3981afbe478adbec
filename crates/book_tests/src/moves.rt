//! A batch that is moved behind more lemmas.
ghost use Rattle.std.specs.Prelude.{IsTrue, All};
ghost use Rattle.refute_tree.specs.code.Views.{step_seen};
ghost use Rattle.refute_tree.specs.Batches.{RefersBelow, LemmaRefersBelow};

use refute_tree::{Batch, Lemma, StepView, Steps};
use std::alloc::{AllocError, Global};
use std::test::Fail;
use stn_core::Clause;

fn step_refers_below(limit: usize, step: StepView<'_>) -> bool
    ensures { IsTrue result → RefersBelow limit (step_seen step.entry) }
{
    match step {
        StepView::Lemma(j) => j < limit,
        _ => true,
    }
}

fn refers_below(limit: usize, lemma: &Lemma) -> bool
    ensures { IsTrue result → LemmaRefersBelow limit lemma.now }
{
    let mut reader = lemma.steps.reader();
    while let Some(step) = reader.next() {
        if !step_refers_below(limit, step) {
            return false;
        }
    }
    true
}

fn all_refer_below(limit: usize, lemmas: &[Lemma]) -> bool
    ensures { IsTrue result → All (LemmaRefersBelow limit) lemmas.now }
{
    for lemma in lemmas {
        if !refers_below(limit, lemma) {
            return false;
        }
    }
    true
}

/// A lemma that cites two others.
fn citing(alloc: Global, first: usize, second: usize) -> Result<Lemma, AllocError> {
    let mut steps = Steps::new(alloc);
    steps.push_lemma(first)?;
    steps.push_lemma(second)?;
    let clause = Clause::new(Vec::new(alloc));
    Ok(Lemma { clause, steps })
}

/// The number of the lemma that the step cites.
fn cited(step: Option<StepView<'_>>) -> usize {
    match step {
        Some(StepView::Lemma(j)) => j,
        _ => 100,
    }
}

/// What the second lemma of a batch of two cites, which was made over two lemmas and cited 1 and 2, after its
/// move.
fn moved_to(alloc: Global, base: usize) -> Result<Option<(usize, usize)>, AllocError> {
    let lemmas = vec![in alloc; citing(alloc, 0, 1)?, citing(alloc, 1, 2)?]?;
    let mut batch = Batch::new(2, lemmas);
    if base > 1000 || batch.lemmas().len() != 2 || !all_refer_below(4, batch.lemmas()) {
        return Ok(None);
    }
    batch.move_to(base);
    match batch.lemmas() {
        [_, second] => {
            let mut reader = second.steps.reader();
            let first = cited(reader.next());
            Ok(Some((first, cited(reader.next()))))
        }
        _ => Ok(None),
    }
}

#[test]
fn a_batch_moves(rt: HostRuntime) -> Result<(), Fail> {
    let found = moved_to(rt.alloc(), 5)?;
    assert_eq!(rt; found, Some((1, 5)));
    Ok(())
}
