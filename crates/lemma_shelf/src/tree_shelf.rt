//! A shelf of entries that can be written out.
ghost use Rattle.std.specs.Prelude.{◌≡◌, ◌+◌, ◌-◌, [], ◌∷◌, ◌++◌, length, map, take, OnOk, OnErr, IfOk, slice_get};
ghost use Rattle.cert_check.specs.Flaws.{TellsFlaw};
ghost use Rattle.kept_lemmas.specs.Entries.{AreRight};
ghost use Rattle.kept_lemmas.specs.Facts.{facts_of};
ghost use Rattle.lemma_shelf.specs.ItemFlaws.{items_flaw};
ghost use Rattle.lemma_shelf.specs.Lowering.{Refutes, StatesLast, AreOfShelf, AreCited};
ghost use Rattle.lemma_shelf.specs.code.WrittenOut.{last_of};
ghost use Rattle.refute_tree.specs.Trees.{IsRefutation};

use crate::check::check;
use crate::entry::add_items;
use crate::laws::flaw_law;
use crate::lowering::lowered;
use crate::table::Table;
use crate::trees::Trees;
use cert_check::CheckError;
use kept_lemmas::{Item, usable_law};
use refute_tree::Refutation;
use std::alloc::{AllocError, Global};
use std::marker::Model;
use stn_core::Problem;

fn last_at(numbers: &[usize]) -> Option<usize>
    ensures { result ≡ slice_get numbers.now (length numbers.now - 1) }
{
    numbers.last().copied()
}

// The number of the entry's last item, if there is one.
fn last_number(entries: &[Vec<usize>], entry: usize) -> Option<usize>
    ensures { result ≡ last_of (map (λ n. n.items) entries.now) entry }
{
    let numbers = entries.get(entry)?;
    last_at(numbers)
}

/// What the entries before the next one state and rest on, with what shows it.
///
/// It has copies of their own lemmas, each once, with all of their steps, and of the clauses that these rest on, each
/// once, so that items and problems may be let go. Who doesn't write entries out has enough of a [`crate::Shelf`], in
/// less than half of the memory.
pub struct TreeShelf {
    table: Table,
    /// Of each entry the numbers of its items' lemmas in the table.
    entries: Vec<Vec<usize>>,
}

impl Drop for TreeShelf {
    fn drop(self) {
        let TreeShelf { table, entries } = self;
        drop(table);
        drop(entries);
    }
}

impl Model for TreeShelf {
    ghost use Rattle.std.specs.Prelude.{map};
    ghost use Rattle.kept_lemmas.specs.Facts.{Shelf as KeptShelf};
    ghost use Rattle.lemma_shelf.specs.code.Walks.{shelf_in, IsWhole, TreesIn, AreWithin, AreCounted};

    ghost Value = { KeptShelf };

    ghost view = { λ s. shelf_in s.table (map (λ n. n.items) s.entries.items) };

    ghost invariant = { λ s. IsWhole s.table × AreWithin s.table (map (λ n. n.items) s.entries.items)
        × AreCounted s.table (map (λ n. n.items) s.entries.items) × TreesIn s.table };
}

impl TreeShelf {
    /// No entries. It takes no memory yet.
    pub fn new(alloc: Global) -> Self
        ensures { result ≡ [] }
    {
        TreeShelf {
            table: Table::new(alloc),
            entries: Vec::new(alloc),
        }
    }

    /// How many entries there are.
    pub fn len(&self) -> usize
        ensures { result ≡ length self.now }
    {
        self.entries.len()
    }

    /// Checks the items of the next entry against its problem, and puts the entry on the shelf where they refute it, as
    /// [`crate::Shelf::check_entry`] does.
    pub fn check_entry(&mut self, problem: &Problem, items: &[Item]) -> Result<(), CheckError>
        ensures flaw { TellsFlaw
            (items_flaw self.old problem.now.points problem.now.clauses items.now) result }
        ensures ok { OnOk result
            (self.new ≡ self.old ++ facts_of self.old problem.now.clauses items.now ∷ []) }
        ensures refutes { OnOk result
            (Refutes self.new (length self.old) problem.now.points problem.now.clauses) }
        ensures err { OnErr result (self.new ≡ self.old) }
    {
        flaw_law();
        usable_law();
        let alloc = *self.entries.allocator();
        check(alloc, &self.table, self.entries.as_slice(), problem, items)?;
        self.add_entry(alloc, problem, items)?;
        Ok(())
    }

    // Puts an entry on the shelf whose items are right.
    fn add_entry(
        &mut self,
        alloc: Global,
        problem: &Problem,
        items: &[Item],
    ) -> Result<(), AllocError>
        requires { AreRight self.old problem.now.points problem.now.clauses items.now }
        ensures ok { OnOk result
            (self.new ≡ self.old ++ facts_of self.old problem.now.clauses items.now ∷ []) }
        ensures err { OnErr result (self.new ≡ self.old) }
    {
        self.entries.reserve(1)?;
        let clauses = self.table.book.len();
        let lemmas = self.table.lemmas.len();
        match add_items(
            &mut self.table,
            alloc,
            self.entries.as_slice(),
            problem,
            Trees::Held,
            items,
        ) {
            Ok(numbers) => {
                self.entries.push_reserved(numbers);
                Ok(())
            }
            Err(error) => {
                self.table.cut(clauses, lemmas);
                Err(error)
            }
        }
    }

    /// An entry without items, of which nothing can be kept.
    pub fn skip(&mut self) -> Result<(), AllocError>
        ensures ok { OnOk result (self.new ≡ self.old ++ [] ∷ []) }
        ensures err { OnErr result (self.new ≡ self.old) }
    {
        let alloc = *self.entries.allocator();
        self.entries.push(Vec::new(alloc))?;
        Ok(())
    }

    /// The refutation that the entry of this number, from 0, is of the problem, with kept lemmas written out.
    ///
    /// Its lemmas are those that the entry's last item needs, each once, in the order in which they came to the shelf:
    /// kept ones before the entry's own, and those that are cited before those that cite them. No literal is changed.
    ///
    /// It goes over the problem's clauses once and over the steps of these lemmas once. The one error is want of memory.
    pub fn lower(
        &self,
        alloc: Global,
        problem: &Problem,
        entry: usize,
    ) -> Result<Refutation, AllocError>
        requires { Refutes self.now entry problem.now.points problem.now.clauses }
        ensures refutes { IfOk result (IsRefutation problem.now.points problem.now.clauses) }
        ensures states { IfOk result (StatesLast self.now entry problem.now.clauses) }
        ensures there { IfOk result (AreOfShelf (take (entry + 1) self.now) problem.now.clauses) }
        ensures cited { IfOk result AreCited }
    {
        let root = last_number(self.entries.as_slice(), entry).unwrap();
        let lemmas = lowered(alloc, &self.table, problem, root)?;
        Ok(Refutation::new(lemmas))
    }
}
