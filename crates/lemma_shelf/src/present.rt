//! Which clauses of the book are clauses of a problem.
ghost use Rattle.std.specs.Prelude.{◌≡◌, ◌<◌, ◌+◌, length, take, OnOk, IfOk, nat_eq};
ghost use Rattle.indexmap.specs.IndexMap.{get};
ghost use Rattle.lemma_shelf.specs.code.Tables.{IsPresent};

use crate::book::Book;
use indexmap::IndexMap;
use std::alloc::{AllocError, Global};
use stn_core::Clause;

/// For each clause of the book that is one of these clauses of a problem its number there.
pub struct Present<'a> {
    pub clauses: &'a [Clause],
    pub map: IndexMap<usize, usize>,
}

impl Drop for Present<'_> {
    fn drop(self) {
        let Present { clauses: _, map } = self;
        drop(map);
    }
}

/// Notes the number of a clause that the book has.
fn note(
    map: &mut IndexMap<usize, usize>,
    book: &Book,
    clauses: &[Clause],
    i: usize,
) -> Result<(), AllocError>
    requires within { i < length clauses.now }
    requires so_far { IsPresent book.now clauses.now (take i clauses.now) (get nat_eq map.old) }
    ensures { OnOk result (IsPresent book.now clauses.now (take (i + 1) clauses.now) (get nat_eq map.new)) }
{
    if let Some(number) = book.place(clauses[i].as_slice()) {
        map.insert(number, i)?;
    }
    Ok(())
}

impl<'a> Present<'a> {
    /// Goes over the clauses once, and looks for each in the book by hash.
    pub fn new(alloc: Global, book: &Book, clauses: &'a [Clause]) -> Result<Self, AllocError>
        ensures clauses { IfOk result (λ p. p.clauses.now ≡ clauses.now) }
        ensures present { IfOk result (λ p. IsPresent book.now clauses.now clauses.now (get nat_eq p.map)) }
    {
        let mut map = IndexMap::new(alloc);
        for i in 0..clauses.len() {
            note(&mut map, book, clauses, i)?;
        }
        Ok(Present { clauses, map })
    }

    /// The number in the problem of the clause with this number in the book.
    pub fn place(&self, number: usize) -> Option<usize>
        ensures { result ≡ get nat_eq self.now.map number }
    {
        self.map.get(&number).copied()
    }
}
