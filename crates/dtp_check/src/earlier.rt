//! What is held of the entries that were found right, for those that come.
ghost use Rattle.std.specs.Prelude.{◌≡◌, ◌↔◌, [], ◌∷◌, ◌++◌, map, All, IfOk, IfErr, IsOk, OnOk, Bool, true, List, IsTrue, None};
ghost use Rattle.kept_lemmas.specs.Entries.{Placed as Place, IsOwn, shelf_of, without_items};
ghost use Rattle.kept_lemmas.specs.Facts.{Shelf as Facts};
ghost use Rattle.cert_text.specs.declared.entry.FileEntry.{FileEntry as Shown};
ghost use Rattle.lemma_shelf.specs.code.Tables.{own_item};
ghost use Rattle.lemma_shelf.specs.ItemFlaws.{items_flaw};
ghost use Rattle.lemma_shelf.specs.Lowering.{StandFor};
ghost use Rattle.cert_check.specs.Flaws.{TellsFlaw};
ghost use Rattle.refute_tree.specs.Trees.{IsRefutation};
ghost use Rattle.dtp_check.specs.code.Earlier.{Holds, HoldsTrees, Suffices, SufficesFrom, LastRefutes, RefusesBy};

use cert_check::CheckError;
use cert_read::EntryReader;
use kept_lemmas::Item;
use lemma_shelf::{Shelf, TreeShelf, check_items};
use refute_tree::Refutation;
use std::alloc::{AllocError, Global};
use stn_core::Problem;

/// The entries before the one that is looked at.
#[derive(Drop)]
pub enum Earlier {
    /// No entry keeps a lemma, so nothing is held of them.
    Unkept,
    /// The entries that were found right, on a shelf.
    Shelved(Shelf),
    /// The same where entries are to be written out.
    WithTrees(TreeShelf),
}

/// Whether the item is a lemma of the entry's own.
fn is_own(item: &Item) -> bool
    ensures { IsTrue result ↔ IsOwn item.now }
{
    match item {
        Item::Own(_) => true,
        Item::Keep(_) => false,
    }
}

/// Whether all items are lemmas of the entry's own.
fn are_own(items: &[Item]) -> bool
    ensures { IsTrue result ↔ All IsOwn items.now }
{
    items.iter().all(|item| is_own(item))
}

/// The lemmas of an entry that keeps none.
fn own_lemmas(alloc: Global, items: &[Item]) -> Result<Refutation, AllocError>
    requires { All IsOwn items.now }
    ensures { IfOk result (λ lemmas. map own_item lemmas ≡ items.now) }
{
    let mut lemmas = Vec::new(alloc);
    for item in items {
        match item {
            Item::Own(lemma) => lemmas.push(lemma.copy(alloc)?)?,
            Item::Keep(_) => unreachable!(),
        }
    }
    Ok(Refutation::new(lemmas))
}

impl Earlier {
    /// What is held before the first of the entries that are read: so much that entries can be written out, where that is
    /// wanted.
    pub fn new(alloc: Global, entries: &EntryReader, wants_trees: bool) -> Self
        ensures holds { Holds result [] }
        ensures suffices { SufficesFrom result entries.now }
        ensures trees { HoldsTrees wants_trees result }
    {
        if entries.keeps_none() {
            Earlier::Unkept
        } else if wants_trees {
            Earlier::WithTrees(TreeShelf::new(alloc))
        } else {
            Earlier::Shelved(Shelf::new(alloc))
        }
    }

    /// Whether the items refute the problem, or their first flaw. Where they do, they are held.
    pub fn check(
        &mut self,
        alloc: Global,
        problem: &Problem,
        items: &[Item],
    ) -> Result<(), CheckError>
        requires { Suffices self.old (Shown.Unsat items.now ∷ []) }
        ensures flaw { (before : List Place) → Holds self.old before
            → TellsFlaw (items_flaw (shelf_of before) problem.now.points problem.now.clauses items.now) result }
        ensures held { OnOk result ((before : List Place) → Holds self.old before → Holds self.new
            (before ++ record { points = problem.now.points; clauses = problem.now.clauses; items = items.now } ∷ [])) }
        ensures refutes { OnOk result
            (LastRefutes self.new problem.now.points problem.now.clauses items.now) }
        ensures right { OnOk result ((shelf : Facts)
            × (items_flaw shelf problem.now.points problem.now.clauses items.now ≡ None)) }
        ensures suffices { (entries : List Shown) → Suffices self.old entries → Suffices self.new entries }
        ensures trees { (wanted : Bool) → HoldsTrees wanted self.old → HoldsTrees wanted self.new }
    {
        kept_lemmas::entries_law();
        match self {
            Earlier::Unkept => check_items(alloc, problem, items),
            Earlier::Shelved(shelf) => shelf.check_entry(problem, items),
            Earlier::WithTrees(shelf) => shelf.check_entry(problem, items),
        }
    }

    /// The refutation that the items are of the problem, or their first flaw. Where they refute it, they are held. Lemmas of
    /// which none is kept stay, all of them in their order; else each that the last one needs is written out.
    pub fn lowered(
        &mut self,
        alloc: Global,
        problem: &Problem,
        items: &[Item],
    ) -> Result<Refutation, CheckError>
        requires suffices { Suffices self.old (Shown.Unsat items.now ∷ []) }
        requires trees { HoldsTrees true self.old }
        ensures flaw { (before : List Place) → Holds self.old before → IfErr result
            (RefusesBy (items_flaw (shelf_of before) problem.now.points problem.now.clauses items.now)) }
        ensures right { IsOk result → (before : List Place) → Holds self.old before
            → items_flaw (shelf_of before) problem.now.points problem.now.clauses items.now ≡ None }
        ensures refutes { IfOk result (IsRefutation problem.now.points problem.now.clauses) }
        ensures own { IfOk result (λ lemmas. All IsOwn items.now → map own_item lemmas ≡ items.now) }
        ensures stand { IfOk result (λ lemmas. (before : List Place) → Holds self.old before → StandFor before
            (record { points = problem.now.points; clauses = problem.now.clauses; items = items.now }) lemmas) }
        ensures held { IsOk result → (before : List Place) → Holds self.old before → Holds self.new
            (before ++ record { points = problem.now.points; clauses = problem.now.clauses; items = items.now } ∷ []) }
        ensures suffices { (entries : List Shown) → Suffices self.old entries → Suffices self.new entries }
        ensures trees { (wanted : Bool) → HoldsTrees wanted self.old → HoldsTrees wanted self.new }
    {
        lemma_shelf::flaw_law();
        kept_lemmas::own_law();
        self.check(alloc, problem, items)?;
        match self {
            Earlier::Unkept => Ok(own_lemmas(alloc, items)?),
            Earlier::Shelved(_) => unreachable!(),
            Earlier::WithTrees(shelf) => {
                if are_own(items) {
                    Ok(own_lemmas(alloc, items)?)
                } else {
                    Ok(shelf.lower(alloc, problem, shelf.len() - 1)?)
                }
            }
        }
    }

    /// Goes past an entry without items.
    pub fn skip(&mut self) -> Result<(), AllocError>
        ensures held { OnOk result ((before : List Place) → Holds self.old before
            → Holds self.new (before ++ without_items ∷ [])) }
        ensures suffices { (entries : List Shown) → Suffices self.old entries → Suffices self.new entries }
        ensures trees { (wanted : Bool) → HoldsTrees wanted self.old → HoldsTrees wanted self.new }
    {
        kept_lemmas::entries_law();
        match self {
            Earlier::Unkept => Ok(()),
            Earlier::Shelved(shelf) => shelf.skip(),
            Earlier::WithTrees(shelf) => shelf.skip(),
        }
    }
}
