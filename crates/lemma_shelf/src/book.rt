//! The clauses of problems that lemmas rest on.
ghost use Rattle.std.specs.Prelude.{◌≡◌, ℕ, [], length, take, Contains, slice_get, Some, MatchOption, IfOk, OnErr};
ghost use Rattle.lemma_shelf.specs.code.Tables.{HasClause};

use indexmap::IndexSet;
use std::alloc::{AllocError, Global};
use std::marker::Model;
use stn_core::Literal;

/// Clauses, each once, found by hash.
pub struct Book {
    set: IndexSet<Vec<Literal>>,
}

impl Drop for Book {
    fn drop(self) {
        let Book { set } = self;
        drop(set);
    }
}

impl Model for Book {
    ghost use Rattle.std.specs.Prelude.{List, map};
    ghost use Rattle.stn_core.specs.declared.literal.Literal.{Literal as Bound};

    ghost Value = { List (List Bound) };

    ghost view = { λ b. map (λ k. k.items) b.set.keys };
}

impl Book {
    pub fn new(alloc: Global) -> Self
        ensures { result ≡ [] }
    {
        Book {
            set: IndexSet::new(alloc),
        }
    }

    pub fn len(&self) -> usize
        ensures { result ≡ length self.now }
    {
        self.set.len()
    }

    /// The number of the clause, if it is there.
    pub fn place(&self, clause: &[Literal]) -> Option<usize>
        ensures found { MatchOption result
            (Contains self.now clause.now → ⊥)
            (λ n. slice_get self.now n ≡ Some clause.now) }
        ensures once { (n : ℕ) → slice_get self.now n ≡ Some clause.now → result ≡ Some n }
    {
        let _count = self.set.len();
        self.set.get_index_of(clause)
    }

    /// The number of the clause, which is put behind the others unless it is there.
    pub fn add(&mut self, alloc: Global, clause: &[Literal]) -> Result<usize, AllocError>
        ensures ok { IfOk result (λ n. HasClause self.old clause.now n self.new) }
        ensures err { OnErr result (self.new ≡ self.old) }
    {
        if let Some(number) = self.place(clause) {
            return Ok(number);
        }
        let (number, _new) = self.set.insert_full(Vec::from_slice(alloc, clause)?)?;
        Ok(number)
    }

    /// The first clauses stay.
    pub fn cut(&mut self, count: usize)
        ensures { self.new ≡ take count self.old }
    {
        self.set.truncate(count);
    }
}
