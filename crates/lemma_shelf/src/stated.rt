//! The clauses that items state.
ghost use Rattle.std.specs.Prelude.{◌≡◌, [], ◌∷◌, ◌++◌, map, OnOk};
ghost use Rattle.cert_check.specs.Flaws.{ends_empty};

use refute_tree::Earlier;
use std::alloc::{AllocError, Global};
use std::marker::Model;
use stn_core::Literal;

/// The clauses of the items before the one that is looked at, borrowed from the items and from the shelf.
pub struct Stated<'a> {
    clauses: Vec<&'a [Literal]>,
}

impl Drop for Stated<'_> {
    fn drop(self) {
        let Stated { clauses } = self;
        drop(clauses);
    }
}

impl<'a> Model for Stated<'a> {
    ghost use Rattle.std.specs.Prelude.{List, map};
    ghost use Rattle.stn_core.specs.declared.literal.Literal.{Literal as Bound};

    ghost Value = { List (List Bound) };

    ghost view = { λ s. map (λ c. c.now) s.clauses.items };
}

impl<'a> Earlier for Stated<'a> {
    ghost clauses = { λ s. s };

    fn count(&self) -> usize {
        self.clauses.len()
    }

    fn clause(&self, j: usize) -> &[Literal] {
        self.clauses[j]
    }
}

impl<'a> Stated<'a> {
    pub fn new(alloc: Global) -> Self
        ensures { result ≡ [] }
    {
        Stated {
            clauses: Vec::new(alloc),
        }
    }

    pub fn push(&mut self, clause: &'a [Literal]) -> Result<(), AllocError>
        ensures { OnOk result (self.new ≡ self.old ++ clause.now ∷ []) }
    {
        self.clauses.push(clause)?;
        Ok(())
    }

    /// Whether the last clause has no literals, and there is one.
    pub fn ends_empty(&self) -> bool
        ensures { result ≡ ends_empty self.now }
    {
        match self.clauses.last() {
            Some(clause) => clause.is_empty(),
            None => false,
        }
    }
}
