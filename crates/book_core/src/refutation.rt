//! The refutation that a book comes to.
ghost use Rattle.std.specs.Prelude.{◌≡◌, ◌≤◌, length, take, IfOk, IfSome, None};
ghost use Rattle.std.specs.Arc.{arc_value};
ghost use Rattle.cover_tree.specs.Covers.{NoneFree, NoneHeld};
ghost use Rattle.book_core.specs.declared.verdict.Verdict.TheVariants.{Unsat};
ghost use Rattle.book_core.specs.Facts.{IsSound};
ghost use Rattle.book_core.specs.Verdicts.{IsRight, EndsEmpty, ended_by};
ghost use Rattle.book_core.specs.Books.{state_with};
ghost use Rattle.book_core.specs.Shared.{lemmas_of};

use crate::closing::closing_steps;
use cover_tree::Cover;
use refute_tree::{Lemma, Refutation, Steps};
use std::alloc::{AllocError, Global};
use std::sync::Arc;
use stn_core::{Clause, Problem};

/// Which of a book's lemmas its refutation has, and how it ends.
#[derive(Drop)]
struct Ending {
    /// So many of them,
    count: usize,
    /// and the steps of one more that closes the cover, where the last of them has literals.
    steps: Option<Steps>,
}

/// The lemmas up to the first one without literals; where there is none all of them, and one more that closes
/// the cover.
fn ending_of(
    alloc: Global,
    problem: &Problem,
    cover: &Cover,
    lemmas: &[Arc<Lemma>],
) -> Result<Ending, AllocError>
    requires sound { IsSound problem.now (state_with cover.now (lemmas_of lemmas.now) None) }
    requires free { NoneFree cover.now }
    requires held { NoneHeld cover.now }
    ensures within { IfOk result (λ e. e.count ≤ length lemmas.now) }
    ensures right { IfOk result (λ e.
        IsRight problem.now (Unsat (ended_by e.steps (take e.count (lemmas_of lemmas.now))))) }
{
    if let Some(j) = first_empty(lemmas) {
        return Ok(Ending {
            count: j + 1,
            steps: None,
        });
    }
    let steps = closing_steps(alloc, problem.points, cover, lemmas)?;
    Ok(Ending {
        count: lemmas.len(),
        steps: Some(steps),
    })
}

/// These lemmas, and one more where there are steps for it.
fn refutation_by(
    alloc: Global,
    lemmas: Vec<Lemma>,
    steps: Option<Steps>,
) -> Result<Refutation, AllocError>
    ensures { IfOk result (λ r. r ≡ ended_by steps lemmas.items) }
{
    let mut lemmas = lemmas;
    if let Some(steps) = steps {
        let clause = Clause::new(Vec::new(alloc));
        lemmas.push(Lemma { clause, steps })?;
    }
    Ok(Refutation::new(lemmas))
}

/// The refutation by copies of the lemmas.
pub(crate) fn refutation_of(
    alloc: Global,
    problem: &Problem,
    cover: &Cover,
    lemmas: &[Arc<Lemma>],
) -> Result<Refutation, AllocError>
    requires sound { IsSound problem.now (state_with cover.now (lemmas_of lemmas.now) None) }
    requires free { NoneFree cover.now }
    requires held { NoneHeld cover.now }
    ensures { IfOk result (λ r. IsRight problem.now (Unsat r)) }
{
    let ending = ending_of(alloc, problem, cover, lemmas)?;
    let all = copies(alloc, lemmas, ending.count)?;
    let refutation = refutation_by(alloc, all, ending.steps)?;
    Ok(refutation)
}

/// The refutation by the lemmas themselves.
pub(crate) fn into_refutation(
    alloc: Global,
    problem: &Problem,
    cover: &Cover,
    lemmas: Vec<Arc<Lemma>>,
) -> Result<Refutation, AllocError>
    requires sound { IsSound problem.now (state_with cover.now (lemmas_of lemmas.items) None) }
    requires free { NoneFree cover.now }
    requires held { NoneHeld cover.now }
    ensures { IfOk result (λ r. IsRight problem.now (Unsat r)) }
{
    let ending = ending_of(alloc, problem, cover, lemmas.as_slice())?;
    let all = taken_out(alloc, lemmas, ending.count)?;
    let refutation = refutation_by(alloc, all, ending.steps)?;
    Ok(refutation)
}

/// The number of the first lemma without literals.
fn first_empty(lemmas: &[Arc<Lemma>]) -> Option<usize>
    ensures { IfSome result (EndsEmpty (lemmas_of lemmas.now)) }
{
    for (j, lemma) in lemmas.iter().enumerate() {
        if lemma.clause.as_slice().is_empty() {
            return Some(j);
        }
    }
    None
}

/// The first so many lemmas, in memory of their own.
pub(crate) fn copies(
    alloc: Global,
    lemmas: &[Arc<Lemma>],
    count: usize,
) -> Result<Vec<Lemma>, AllocError>
    requires { count ≤ length lemmas.now }
    ensures { IfOk result (λ all. all.items ≡ take count (lemmas_of lemmas.now)) }
{
    let mut all = Vec::with_capacity(alloc, count)?;
    for lemma in &lemmas[..count] {
        all.push(lemma.copy(alloc)?)?;
    }
    Ok(all)
}

/// The first so many lemmas, those that nobody else has without a copy.
fn taken_out(alloc: Global, lemmas: Vec<Arc<Lemma>>, count: usize) -> Result<Vec<Lemma>, AllocError>
    ensures { IfOk result (λ all. all.items ≡ take count (lemmas_of lemmas.items)) }
{
    let mut shared = lemmas;
    shared.truncate(count);
    let mut all = Vec::with_capacity(alloc, shared.len())?;
    for lemma in shared {
        all.push(take_out(alloc, lemma)?)?;
    }
    Ok(all)
}

/// The lemma, as a copy where others have it too.
fn take_out(alloc: Global, lemma: Arc<Lemma>) -> Result<Lemma, AllocError>
    ensures { IfOk result (λ own. own ≡ arc_value lemma) }
{
    match Arc::try_unwrap(lemma) {
        Ok(own) => Ok(own),
        Err(shared) => shared.copy(alloc),
    }
}
