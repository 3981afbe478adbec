//! Lemmas of a problem that was refuted.
ghost use Rattle.std.specs.Prelude.{All, IsTrue, IfOk};
ghost use Rattle.refute_tree.specs.Trees.{IsRefutation};
ghost use Rattle.refute_tree.specs.Batches.{LemmaIsOver};
ghost use Rattle.learned_lemmas.specs.Taken.{IsTakenOver};
ghost use Rattle.learned_lemmas.specs.code.Ends.{EndsEmpty};

use crate::choice::{Choice, copies, shared, wanted};
use carried_lemmas::carry;
use refute_tree::{Batch, Lemma, Refutation};
use relaxed_lemmas::{closing, ended};
use std::alloc::{AllocError, Global};
use std::marker::Model;
use std::sync::Arc;
use stn_core::Problem;
use trim_lemmas::{TrimmedBatch, trimmed_batch};

/// How many lemmas a refutation has at most of which any are kept: choosing some copies all of them, and the searches of questions that
/// follow one another are short.
const LONGEST: usize = 4_096;

/// What a problem takes over of an earlier one's refutation.
#[derive(Drop)]
pub enum TakenOver {
    /// All of it: the problem has the clauses that it rests on, and so no solution.
    Refutes(Refutation),
    /// Lemmas for the problem's search to open with, perhaps none.
    Opens(Batch),
}

// Whether the last lemma has no literals.
fn refutes(lemmas: &[Lemma]) -> bool
    ensures { IsTrue result → EndsEmpty lemmas.now }
{
    match lemmas.last() {
        Some(lemma) => lemma.clause.as_slice().is_empty(),
        None => false,
    }
}

/// Lemmas that were learned of a problem, each refuted over it and those before it.
pub struct Learned {
    problem: Problem,
    lemmas: Vec<Arc<Lemma>>,
}

impl Drop for Learned {
    fn drop(self) {
        let Learned { problem, lemmas } = self;
        drop(problem);
        drop(lemmas);
    }
}

impl Model for Learned {
    ghost use Rattle.std.specs.Prelude.{List};
    ghost use Rattle.refute_tree.specs.declared.lemma.Lemma.{Lemma as Stated};
    ghost use Rattle.carried_lemmas.specs.Shared.{lemmas_of};
    ghost use Rattle.book_core.specs.Books.{IsOpening};

    ghost Value = { List Stated };

    ghost view = { λ l. lemmas_of l.lemmas.items };

    ghost invariant = { λ l. IsOpening l.problem (lemmas_of l.lemmas.items) };
}

impl Learned {
    /// What is kept of a refutation of the problem, if any of it is: its lemmas of this choice and the last one, with those that they cite; of a long
    /// refutation, and of one of a single lemma, which is found as quickly, nothing. It takes time and memory in the text of the problem and of the
    /// refutation that isn't long.
    pub fn of(
        alloc: Global,
        problem: &Problem,
        refutation: &[Lemma],
        choice: Choice,
    ) -> Result<Option<Self>, AllocError>
        requires refutes { IsRefutation problem.now.points problem.now.clauses refutation.now }
        requires over { All (LemmaIsOver problem.now.points) refutation.now }
    {
        if refutation.len() < 2 || refutation.len() > LONGEST {
            return Ok(None);
        }
        let mut wanted = wanted(alloc, refutation, choice)?;
        let last = wanted.len() - 1;
        wanted[last] = true;
        let batch = Batch::new(0, copies(alloc, refutation)?);
        let left = trimmed_batch(alloc, batch, wanted)?;
        let TrimmedBatch { batch, needed: _ } = left;
        let lemmas = shared(alloc, batch.into_lemmas())?;
        let problem = problem.copy()?;
        Ok(Some(Learned { problem, lemmas }))
    }

    /// What a problem takes over of it: the refutation, where the problem has its clauses and points, or has those of all lemmas but the last and unit
    /// clauses that end it as well (`relaxed_lemmas::closing`); and else, for its search to open with, the lemmas of this choice whose clauses and points it
    /// has, with those that they cite. It takes time and memory in the text of both problems and of the lemmas.
    pub fn taken(
        &self,
        alloc: Global,
        problem: &Problem,
        choice: Choice,
    ) -> Result<TakenOver, AllocError>
        ensures { IfOk result (IsTakenOver problem.now) }
    {
        let batch = carry(alloc, &self.problem, self.lemmas.as_slice(), problem)?;
        if refutes(batch.lemmas()) {
            return Ok(TakenOver::Refutes(Refutation::new(batch.into_lemmas())));
        }
        if batch.lemmas().len() + 1 == self.lemmas.len() {
            if let Some(last) = closing(alloc, problem, batch.lemmas())? {
                let refutation = ended(problem, batch.into_lemmas(), last)?;
                return Ok(TakenOver::Refutes(refutation));
            }
        }
        let wanted = wanted(alloc, batch.lemmas(), choice)?;
        let left = trimmed_batch(alloc, batch, wanted)?;
        let TrimmedBatch { batch, needed: _ } = left;
        Ok(TakenOver::Opens(batch))
    }
}
