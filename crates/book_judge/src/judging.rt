//! Whether a delivery is justified, and the first thing that is wrong where it isn't.
ghost use Rattle.std.specs.Prelude.{◌≡◌, ◌≤◌, ◌++◌, [], ◌∷◌, length, map, take, IfOk, IfErr, OnOk, All};
ghost use Rattle.refute_tree.specs.Trees.{IsRefuted, stated};
ghost use Rattle.refute_tree.specs.Batches.{AreRefuted, LemmaIsOver};
ghost use Rattle.book_core.specs.Books.{IsJustified};
ghost use Rattle.book_judge.specs.declared.judging.Fault.TheVariants.{OutOfMemory};
ghost use Rattle.book_core.specs.Shared.{lemmas_of, clauses_of};
ghost use Rattle.book_judge.specs.Faults.{IsFaultOf, IsFaultOfLemma, IsFaultOfLemmas};

use crate::limits::lemma_over;
use crate::outcomes::check_outcome;
use book_core::Outcome;
use cert_check::{CheckError, FlawKind, check_lemma, lemma_law};
use refute_tree::{Batch, Lemma};
use std::alloc::{AllocError, Global};
use std::sync::Arc;
use stn_core::{Literal, Problem};

/// What is wrong with a delivery.
#[derive(Clone, Copy, Debug, PartialEq, Eq)]
pub enum Fault {
    /// The batch was made over more lemmas than there are.
    NoSuchClause,
    BoundOutOfRange,
    NotRefuted(FlawKind),
    NotASchedule,
    DoesNotExclude,
    AlreadyDecided,
    OutOfMemory,
}

impl From<AllocError> for Fault {
    ghost use Rattle.std.specs.Prelude.{◌≡◌};
    ghost use Rattle.book_judge.specs.declared.judging.Fault.TheVariants.{OutOfMemory};

    ghost from_gives = { λ _ e. e ≡ OutOfMemory };

    fn from(_failed: AllocError) -> Self {
        Fault::OutOfMemory
    }
}

/// The first so many lemmas, shared.
fn first_lemmas(
    alloc: Global,
    lemmas: &[Arc<Lemma>],
    count: usize,
) -> Result<Vec<Arc<Lemma>>, AllocError>
    requires { count ≤ length lemmas.now }
    ensures { IfOk result (λ known. lemmas_of known.items ≡ take count (lemmas_of lemmas.now)) }
{
    let mut known = Vec::with_capacity(alloc, count)?;
    for lemma in &lemmas[..count] {
        known.push(Arc::new(alloc, lemma.copy(alloc)?)?)?;
    }
    Ok(known)
}

/// Whether the lemma is one of the problem, refuted over those that are known.
fn check(alloc: Global, problem: &Problem, known: &[Arc<Lemma>], lemma: &Lemma) -> Result<(), Fault>
    ensures over { OnOk result (LemmaIsOver problem.now.points lemma.now) }
    ensures refuted { OnOk result
        (IsRefuted problem.now.points problem.now.clauses (clauses_of known.now) lemma.now) }
    ensures fault { IfErr result (IsFaultOfLemma problem.now (clauses_of known.now) lemma.now) }
{
    if !lemma_over(problem.points, lemma) {
        return Err(Fault::BoundOutOfRange);
    }
    lemma_law();
    match check_lemma(alloc, problem, &known, lemma) {
        Ok(()) => Ok(()),
        Err(CheckError::Refused(flaw)) => Err(Fault::NotRefuted(flaw.kind)),
        Err(CheckError::OutOfMemory) => Err(Fault::OutOfMemory),
    }
}

fn add_lemma(
    alloc: Global,
    problem: &Problem,
    known: &mut Vec<Arc<Lemma>>,
    lemma: &Lemma,
) -> Result<(), Fault>
    ensures known { OnOk result (lemmas_of known.new.items ≡ lemmas_of known.old.items ++ lemma.now ∷ []) }
    ensures over { OnOk result (LemmaIsOver problem.now.points lemma.now) }
    ensures refuted { OnOk result
        (IsRefuted problem.now.points problem.now.clauses (clauses_of known.old.items) lemma.now) }
    ensures fault { IfErr result
        (IsFaultOfLemma problem.now (clauses_of known.old.items) lemma.now) }
{
    check(alloc, problem, known.as_slice(), lemma)?;
    let copy = lemma.copy(alloc)?;
    match Arc::new(alloc, copy) {
        Ok(shared) => push(known, shared),
        Err(_) => Err(Fault::OutOfMemory),
    }
}

fn push(known: &mut Vec<Arc<Lemma>>, lemma: Arc<Lemma>) -> Result<(), Fault>
    ensures known { OnOk result (known.new.items ≡ known.old.items ++ lemma ∷ []) }
    ensures fault { IfErr result (λ fault. fault ≡ OutOfMemory) }
{
    match known.push(lemma) {
        Ok(()) => Ok(()),
        Err(_) => Err(Fault::OutOfMemory),
    }
}

fn add_lemmas(
    alloc: Global,
    problem: &Problem,
    known: &mut Vec<Arc<Lemma>>,
    lemmas: &[Lemma],
) -> Result<(), Fault>
    ensures known { OnOk result (lemmas_of known.new.items ≡ lemmas_of known.old.items ++ lemmas.now) }
    ensures over { OnOk result (All (LemmaIsOver problem.now.points) lemmas.now) }
    ensures refuted { OnOk result
        (AreRefuted problem.now.points problem.now.clauses
        (map stated (lemmas_of known.old.items)) lemmas.now) }
    ensures fault { IfErr result
        (IsFaultOfLemmas problem.now (map stated (lemmas_of known.old.items)) lemmas.now) }
{
    for lemma in lemmas {
        add_lemma(alloc, problem, known, lemma)?;
    }
    Ok(())
}

/// Whether the delivery is justified over these lemmas, of this cube. Beside want of memory a fault comes exactly where
/// it isn't, and says what is wrong.
pub fn judge(
    alloc: Global,
    problem: &Problem,
    lemmas: &[Arc<Lemma>],
    cube: &[Literal],
    batch: &Batch,
    outcome: &Outcome,
) -> Result<(), Fault>
    ensures justified { OnOk result
        (IsJustified problem.now (lemmas_of lemmas.now) cube.now batch.now outcome.now) }
    ensures fault { IfErr result
        (IsFaultOf problem.now (lemmas_of lemmas.now) cube.now batch.now outcome.now) }
{
    if batch.seen() > lemmas.len() {
        return Err(Fault::NoSuchClause);
    }
    let mut known = first_lemmas(alloc, lemmas, batch.seen())?;
    add_lemmas(alloc, problem, &mut known, batch.lemmas())?;
    check_outcome(problem, known.as_slice(), cube, outcome)?;
    Ok(())
}
