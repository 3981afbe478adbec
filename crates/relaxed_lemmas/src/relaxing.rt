//! A refutation of which later problems may keep more.
ghost use Rattle.std.specs.Prelude.{◌≡◌, true, IfOk, IfSome};
ghost use Rattle.book_core.specs.Books.{IsOpening};
ghost use Rattle.book_core.specs.Verdicts.{IsRight};
ghost use Rattle.book_core.specs.declared.verdict.Verdict.TheVariants.{Unsat};

use crate::ending::{closing, ended};
use crate::measure::length_of;
use crate::plan::plans;
use crate::run::run_start;
use crate::writing::write;
use book_core::Outcome;
use book_judge::{Fault, judge};
use refute_tree::{Batch, Lemma, Refutation};
use std::alloc::{AllocError, Global};
use stn_core::Problem;
use trim_lemmas::trimmed;

// The lemmas without the one that ends them, if there is something to gain, and they don't get much longer.
fn relax(
    alloc: Global,
    problem: &Problem,
    lemmas: &[Lemma],
) -> Result<Option<Vec<Lemma>>, AllocError> {
    let clauses = problem.clauses.as_slice();
    let start = run_start(clauses);
    let Some(plans) = plans(alloc, clauses, start, lemmas)? else {
        return Ok(None);
    };
    let Some(all) = write(alloc, clauses, start, lemmas, plans.as_slice())? else {
        return Ok(None);
    };
    let before = length_of(lemmas);
    if length_of(all.as_slice()) > before.saturating_add(before / 10) {
        return Ok(None);
    }
    Ok(Some(all))
}

// Whether a search of the problem may open with the lemmas.
fn may_open(alloc: Global, problem: &Problem, batch: &Batch) -> Result<bool, AllocError>
    ensures { IfOk result (λ yes. yes ≡ true → IsOpening problem.now batch.now.lemmas) }
{
    if batch.seen() != 0 {
        return Ok(false);
    }
    match judge(alloc, problem, &[], &[], batch, &Outcome::Open) {
        Ok(()) => Ok(true),
        Err(Fault::OutOfMemory) => Err(AllocError),
        Err(_) => Ok(false),
    }
}

// The lemmas with the one that ends them, if they are a refutation.
fn tested(
    alloc: Global,
    problem: &Problem,
    lemmas: Vec<Lemma>,
) -> Result<Option<Refutation>, AllocError>
    ensures { IfOk result (λ found. IfSome found (λ all. IsRight problem.now (Unsat all))) }
{
    let batch = Batch::new(0, lemmas);
    if !may_open(alloc, problem, &batch)? {
        return Ok(None);
    }
    let Some(last) = closing(alloc, problem, batch.lemmas())? else {
        return Ok(None);
    };
    let all = ended(problem, batch.into_lemmas(), last)?;
    Ok(Some(all))
}

/// A refutation of the problem by the lemmas that this one's last needs, which takes the unit clauses at the problem's end for granted where it
/// pays: where it has cases, no lemma rests on many of these clauses, and it gets longer by no more than a tenth. Else it is these lemmas.
///
/// It takes time and memory in the text of the refutation, and the time of its check.
pub fn relaxed(
    alloc: Global,
    problem: &Problem,
    refutation: Refutation,
) -> Result<Refutation, AllocError>
    requires { IsRight problem.now (Unsat refutation) }
    ensures { IfOk result (λ all. IsRight problem.now (Unsat all)) }
{
    let needed = trimmed(alloc, refutation)?;
    let Some(lemmas) = relax(alloc, problem, needed.as_slice())? else {
        return Ok(needed);
    };
    match tested(alloc, problem, lemmas)? {
        Some(all) => Ok(all),
        None => Ok(needed),
    }
}
