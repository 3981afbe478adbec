//! What elimination comes to.
use crate::derivation::{Derivation, Origin};
use crate::elimination::Elimination;
use crate::uses::Uses;
use crate::witnesses::Witnesses;
use refute_tree::Lemma;
use std::alloc::{AllocError, Global};
use stn_core::Problem;

/// A problem without the atoms that were eliminated.
pub struct Eliminated {
    /// resolvents, each a lemma over the problem and the lemmas before it
    lemmas: Vec<Lemma>,
    /// the clauses that are left, by where they come from: those of the problem first, and then resolvents
    origins: Vec<Origin>,
    /// what the atoms are to be that are gone
    witnesses: Witnesses,
}

impl Drop for Eliminated {
    fn drop(self) {
        let Eliminated {
            lemmas,
            origins,
            witnesses,
        } = self;
        drop(lemmas);
        drop(origins);
        drop(witnesses);
    }
}

impl Eliminated {
    /// Resolvents, each a lemma over the problem and the lemmas before it; the clauses that are left, by where they come from, those of
    /// the problem first; and what the atoms are to be that are gone.
    pub fn into_parts(self) -> (Vec<Lemma>, Vec<Origin>, Witnesses) {
        let Eliminated {
            lemmas,
            origins,
            witnesses,
        } = self;
        (lemmas, origins, witnesses)
    }
}

/// The clauses that are there, by where they come from.
fn origins_left(
    alloc: Global,
    elimination: &Elimination,
    derivation: &Derivation,
) -> Result<Vec<Origin>, AllocError> {
    let mut origins = Vec::new(alloc);
    for row in 0..elimination.table.len() {
        if elimination.table.is_alive(row) {
            if let Some(origin) = derivation.origin(row) {
                origins.push(origin)?;
            }
        }
    }
    Ok(origins)
}

/// Eliminates atoms that have a point of their own, where three quarters of the problem's literals or more are of such atoms, and
/// the clauses that are left aren't mostly parities, which a search decides sooner by what they were. It does so much work that goes
/// with the literals of the problem. An atom of one of these points stays. The one error is want of memory.
pub fn eliminate(
    alloc: Global,
    problem: &Problem,
    kept: &[u32],
) -> Result<Option<Eliminated>, AllocError> {
    let uses = Uses::of(alloc, problem, kept)?;
    if !uses.are_mostly_own(problem.clauses.as_slice()) {
        return Ok(None);
    }
    let mut elimination = Elimination::new(alloc, uses, problem)?;
    elimination.run(alloc)?;
    if elimination.witnesses.is_empty() || elimination.table.is_mostly_parity() {
        return Ok(None);
    }
    let derivation = Derivation::of(alloc, problem, &elimination)?;
    let origins = origins_left(alloc, &elimination, &derivation)?;
    Ok(Some(Eliminated {
        lemmas: derivation.into_lemmas(),
        origins,
        witnesses: elimination.take_witnesses(alloc),
    }))
}
