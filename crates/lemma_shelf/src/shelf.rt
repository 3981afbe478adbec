ghost use Rattle.std.specs.Prelude.{◌≡◌, ℕ, List, [], ◌∷◌, ◌++◌, length, map, take, Some, None, OnOk, OnErr, IfOk, IfSome, slice_get, slice_index_or};
ghost use Rattle.std.specs.List.{AllZip};
ghost use Rattle.cert_check.specs.Flaws.{TellsFlaw};
ghost use Rattle.kept_lemmas.specs.declared.item.Item.{Item as CitedItem};
ghost use Rattle.kept_lemmas.specs.declared.item.Item.TheVariants.{Keep};
ghost use Rattle.kept_lemmas.specs.Entries.{AreRight};
ghost use Rattle.kept_lemmas.specs.Facts.{facts_of};
ghost use Rattle.lemma_shelf.specs.InPlace.{StandsInPlace, IsPicked};
ghost use Rattle.lemma_shelf.specs.ItemFlaws.{items_flaw};
ghost use Rattle.lemma_shelf.specs.Lowering.{Refutes};
ghost use Rattle.refute_tree.specs.Trees.{IsRefutation};
ghost use Rattle.refute_tree.specs.declared.lemma.Lemma.{Lemma as CitedLemma};
ghost use Rattle.stn_core.specs.declared.literal.Literal.{Literal as Bound};

use crate::check::{check, find};
use crate::citing::{items_for, stands};
use crate::entry::add_items;
use crate::laws::flaw_law;
use crate::table::Table;
use crate::trees::Trees;
use cert_check::CheckError;
use kept_lemmas::{Item, Items, Kept, own_law, usable_law};
use refute_tree::Lemma;
use std::alloc::{AllocError, Global};
use std::marker::Model;
use stn_core::Problem;

/// What the entries before the next one state and rest on.
///
/// Of their own lemmas it has the clauses and what the steps name, each lemma once, and copies of the clauses that these
/// rest on, each once, so that items and problems may be let go. The cycles, most of a certificate's text, aren't there:
/// an entry can't be written out from it ([`crate::TreeShelf`]).
pub struct Shelf {
    table: Table,
    /// Of each entry the numbers of its items' lemmas in the table.
    entries: Vec<Vec<usize>>,
}

impl Drop for Shelf {
    fn drop(self) {
        let Shelf { table, entries } = self;
        drop(table);
        drop(entries);
    }
}

impl Model for Shelf {
    ghost use Rattle.std.specs.Prelude.{map};
    ghost use Rattle.kept_lemmas.specs.Facts.{Shelf as KeptShelf};
    ghost use Rattle.lemma_shelf.specs.code.Walks.{shelf_in, IsWhole, AreWithin, AreCounted};

    ghost Value = { KeptShelf };

    ghost view = { λ s. shelf_in s.table (map (λ n. n.items) s.entries.items) };

    ghost invariant = { λ s. IsWhole s.table × AreWithin s.table (map (λ n. n.items) s.entries.items)
        × AreCounted s.table (map (λ n. n.items) s.entries.items) };
}

impl Shelf {
    /// No entries. It takes no memory yet.
    pub fn new(alloc: Global) -> Self
        ensures { result ≡ [] }
    {
        Shelf {
            table: Table::new(alloc),
            entries: Vec::new(alloc),
        }
    }

    /// How many entries there are.
    pub fn len(&self) -> usize
        ensures { result ≡ length self.now }
    {
        self.entries.len()
    }

    /// Checks the items of the next entry against its problem, and puts the entry on the shelf where they refute it: where
    /// they are right (`flaw_law`).
    ///
    /// Nothing is asked of the items. It takes the time and memory of `cert_check::check_lemma` for each own lemma. Where
    /// lemmas are kept it goes over the problem's clauses once, and over the steps of each lemma that the kept ones rest
    /// on once. The one error beside a flaw is want of memory.
    pub fn check_entry(&mut self, problem: &Problem, items: &[Item]) -> Result<(), CheckError>
        ensures flaw { TellsFlaw
            (items_flaw self.old problem.now.points problem.now.clauses items.now) result }
        ensures ok { OnOk result
            (self.new ≡ self.old ++ facts_of self.old problem.now.clauses items.now ∷ []) }
        ensures refutes { OnOk result
            (Refutes self.new (length self.old) problem.now.points problem.now.clauses) }
        ensures err { OnErr result (self.new ≡ self.old) }
    {
        flaw_law();
        usable_law();
        let alloc = *self.entries.allocator();
        check(alloc, &self.table, self.entries.as_slice(), problem, items)?;
        self.add_entry(alloc, problem, items)?;
        Ok(())
    }

    /// The items of the next entry, which refutes the problem by these lemmas: in the place of each lemma that has a place, the item there, where
    /// it states the same clause and may be used in the problem; else the lemma itself.
    ///
    /// The places are a hint, and there may be fewer of them than lemmas. It takes the time and memory of a copy of the lemmas that stay, and of what
    /// [`Shelf::check_entry`] takes for those that are kept. The one error is want of memory.
    pub fn cite(
        &self,
        alloc: Global,
        problem: &Problem,
        lemmas: &[Lemma],
        places: &[Option<Kept>],
    ) -> Result<Items, AllocError>
        requires { IsRefutation problem.now.points problem.now.clauses lemmas.now }
        ensures right { IfOk result (λ items. AreRight self.now problem.now.points problem.now.clauses items) }
        ensures stand { IfOk result (λ items. AllZip (StandsInPlace self.now) lemmas.now items) }
        ensures picked { IfOk result (λ items. (j : ℕ) (lemma : CitedLemma) (item : CitedItem)
            → slice_get lemmas.now j ≡ Some lemma → slice_get items j ≡ Some item
            → IsPicked self.now problem.now.points problem.now.clauses lemma (slice_index_or places.now j None) item) }
    {
        flaw_law();
        own_law();
        let items = items_for(
            alloc,
            &self.table,
            self.entries.as_slice(),
            problem,
            lemmas,
            places,
        )?;
        Ok(Items::new(items))
    }

    /// The item at the place, as all items of the next entry, where it refutes the problem by itself. It takes the time and memory of one kept item of
    /// [`Shelf::check_entry`]. The one error is want of memory.
    pub fn keep(
        &self,
        alloc: Global,
        problem: &Problem,
        place: Kept,
    ) -> Result<Option<Items>, AllocError>
        ensures right { IfOk result (λ found. IfSome found (λ items.
            AreRight self.now problem.now.points problem.now.clauses items)) }
        ensures alone { IfOk result (λ found. IfSome found (λ items. items ≡ Keep place ∷ [])) }
        // There are none exactly where the item doesn't refute the problem by itself.
        ensures none { IfOk result (λ found. found ≡ None
            → AreRight self.now problem.now.points problem.now.clauses (Keep place ∷ []) → ⊥) }
    {
        let entries = self.entries.as_slice();
        let mut walk = None;
        if !stands(alloc, &self.table, entries, problem, &mut walk, &[], place)? {
            return Ok(None);
        }
        let mut items = Vec::with_capacity(alloc, 1)?;
        items.push(Item::Keep(place))?;
        Ok(Some(Items::new(items)))
    }

    /// Puts an entry on the shelf whose items are right. The one error is want of memory.
    pub fn add_entry(
        &mut self,
        alloc: Global,
        problem: &Problem,
        items: &[Item],
    ) -> Result<(), AllocError>
        requires { AreRight self.old problem.now.points problem.now.clauses items.now }
        ensures ok { OnOk result
            (self.new ≡ self.old ++ facts_of self.old problem.now.clauses items.now ∷ []) }
        ensures err { OnErr result (self.new ≡ self.old) }
    {
        self.entries.reserve(1)?;
        let clauses = self.table.book.len();
        let lemmas = self.table.lemmas.len();
        match add_items(
            &mut self.table,
            alloc,
            self.entries.as_slice(),
            problem,
            Trees::LetGo,
            items,
        ) {
            Ok(numbers) => {
                self.entries.push_reserved(numbers);
                Ok(())
            }
            Err(error) => {
                self.table.cut(clauses, lemmas);
                Err(error)
            }
        }
    }

    /// Puts an entry on the shelf that keeps the item at the place alone, where that refutes a problem: it states what the item states, whatever the
    /// problem is. It takes the same time whatever the shelf has. The one error is want of memory.
    pub fn add_kept(&mut self, place: Kept) -> Result<(), AllocError>
        requires { (points : ℕ) × (clauses : List (List Bound)) × AreRight self.old points clauses (Keep place ∷ []) }
        ensures ok { OnOk result ((clauses : List (List Bound))
            → self.new ≡ self.old ++ facts_of self.old clauses (Keep place ∷ []) ∷ []) }
        ensures err { OnErr result (self.new ≡ self.old) }
    {
        let alloc = *self.entries.allocator();
        let number = find(self.entries.as_slice(), place).unwrap();
        let mut numbers = Vec::with_capacity(alloc, 1)?;
        numbers.push(number)?;
        self.entries.push(numbers)?;
        Ok(())
    }

    /// An entry without items, of which nothing can be kept.
    pub fn skip(&mut self) -> Result<(), AllocError>
        ensures ok { OnOk result (self.new ≡ self.old ++ [] ∷ []) }
        ensures err { OnErr result (self.new ≡ self.old) }
    {
        let alloc = *self.entries.allocator();
        self.entries.push(Vec::new(alloc))?;
        Ok(())
    }
}
