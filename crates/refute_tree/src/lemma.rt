ghost use Rattle.std.specs.Prelude.{◌≡◌, IfOk};

use crate::store::Steps;
use std::alloc::{AllocError, Global};
use std::marker::Model;
use stn_core::Clause;

/// A clause that follows from a problem and the lemmas before it, with the tree that refutes its denial, in preorder.
pub struct Lemma {
    pub clause: Clause,
    pub steps: Steps,
}

impl Drop for Lemma {
    fn drop(self) {
        let Lemma { clause, steps } = self;
        drop(clause);
        drop(steps);
    }
}

impl Lemma {
    /// An equal lemma in memory of its own.
    pub fn copy(&self, alloc: Global) -> Result<Self, AllocError>
        ensures { IfOk result (λ lemma. lemma ≡ self.now) }
    {
        Ok(Lemma {
            clause: self.clause.copy()?,
            steps: self.steps.copy(alloc)?,
        })
    }
}

/// A list of lemmas that is to end with one without literals, and so to show that a problem has no solution. What it
/// refutes, if anything, the contracts say that make it.
pub struct Refutation {
    lemmas: Vec<Lemma>,
}

impl Drop for Refutation {
    fn drop(self) {
        let Refutation { lemmas } = self;
        drop(lemmas);
    }
}

impl Model for Refutation {
    ghost use Rattle.std.specs.Prelude.{List};
    ghost use Rattle.refute_tree.specs.declared.lemma.Lemma.{Lemma as Shown};

    ghost Value = { List Shown };

    ghost view = { λ r. r.lemmas.items };
}

impl Refutation {
    pub fn new(lemmas: Vec<Lemma>) -> Self
        ensures { result ≡ lemmas.items }
    {
        Refutation { lemmas }
    }

    pub fn as_slice(&self) -> &[Lemma]
        ensures { result.now ≡ self.now }
    {
        self.lemmas.as_slice()
    }

    /// The lemmas in a `Vec`, without taking memory.
    pub fn into_vec(self) -> Vec<Lemma>
        ensures { result.items ≡ self }
    {
        let Refutation { lemmas } = self;
        lemmas
    }
}
