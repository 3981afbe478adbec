//! What the entries of earlier questions leave to later ones.
ghost use Rattle.std.specs.Prelude.{◌≡◌, ℕ, List, ◌∷◌, [], ◌++◌, None, All, IsTrue, IfOk, IfSome, OnOk};
ghost use Rattle.refute_tree.specs.Batches.{LemmaIsOver};
ghost use Rattle.refute_tree.specs.Trees.{IsRefutation};
ghost use Rattle.learned_lemmas.specs.Taken.{IsTakenOver};
ghost use Rattle.stn_core.specs.declared.literal.Literal.{Literal as Bound};
ghost use Rattle.kept_lemmas.specs.declared.item.Item.TheVariants.{Keep};
ghost use Rattle.kept_lemmas.specs.Entries.{AreRight};
ghost use Rattle.kept_lemmas.specs.Facts.{facts_of};
ghost use Rattle.cert_text.specs.declared.entry.Version.TheVariants.{Two};
ghost use Rattle.dtp_session.specs.code.Keeping.{IsNamed, IsItemNamed, RefutesBy, IsOneKept, AreForEach, AreEntered, IsEntered, IsAgain, IsLastOf, passed};
ghost use Rattle.dtp_session.specs.code.Waiting.{IsRightOver, shelf_with};

use crate::shown_items::ShownItems;
use crate::waiting::Waiting;
use crate::wanted::Wanted;
use cert_text::{Entry, NUMBER_LIMIT, Version};
use indexmap::IndexMap;
use kept_lemmas::{Item, Items, Kept};
use learned_lemmas::{Choice, Learned, TakenOver};
use lemma_shelf::Shelf;
use refute_tree::{Batch, Lemma};
use std::alloc::{AllocError, Global};
use std::marker::Model;
use stn_core::{Literal, Problem};

/// Few lemmas of a refutation, which cost a later search little where they don't help it.
const CHOICE: Choice = Choice {
    longest: 5,
    most: 50,
};

/// Whether the format can name what is kept at the place.
fn is_place_named(kept: Kept) -> bool
    ensures { IsTrue result → IsNamed kept }
{
    kept.entry as u64 <= NUMBER_LIMIT && kept.item as u64 <= NUMBER_LIMIT
}

/// Whether the format can name what the item keeps.
fn is_named(item: &Item) -> bool
    ensures { IsTrue result → IsItemNamed item.now }
{
    match item {
        Item::Own(_) => true,
        Item::Keep(kept) => is_place_named(*kept),
    }
}

/// The same of each.
fn are_named(items: &[Item]) -> bool
    ensures { IsTrue result → All IsItemNamed items.now }
{
    items.iter().all(|item| is_named(item))
}

/// Notes which clauses the entry's own lemmas state.
fn note(
    alloc: Global,
    places: &mut IndexMap<Vec<Literal>, Kept>,
    entry: usize,
    items: &[Item],
) -> Result<(), AllocError> {
    for (number, item) in items.iter().enumerate() {
        if let Item::Own(lemma) = item {
            let clause = Vec::from_slice(alloc, lemma.clause.as_slice())?;
            let place = Kept {
                entry,
                item: number,
            };
            places.insert(clause, place)?;
        }
    }
    Ok(())
}

/// Puts the entry that waits, if there is one, on the shelf.
fn put(
    alloc: Global,
    shelf: &mut Shelf,
    places: &mut IndexMap<Vec<Literal>, Kept>,
    waiting: Option<Waiting>,
) -> Result<(), AllocError>
    requires { IfSome waiting (IsRightOver shelf.old) }
    ensures { OnOk result (shelf.new ≡ shelf_with shelf.old waiting) }
{
    let Some(waiting) = waiting else {
        return Ok(());
    };
    shelf.add_entry(alloc, &waiting.problem, waiting.items.as_slice())?;
    let entry = shelf.len();
    note(alloc, places, entry, waiting.items.as_slice())?;
    Ok(())
}

/// For each lemma the last item that states its clause.
fn places_of(
    alloc: Global,
    places: &IndexMap<Vec<Literal>, Kept>,
    lemmas: &[Lemma],
) -> Result<Vec<Option<Kept>>, AllocError> {
    let mut found = Vec::with_capacity(alloc, lemmas.len())?;
    for lemma in lemmas {
        found.push(places.get(lemma.clause.as_slice()).copied())?;
    }
    Ok(found)
}

/// The items of an entry that refutes the problem by the item at the place alone, where that does.
fn kept_alone(
    alloc: Global,
    shelf: &Shelf,
    problem: &Problem,
    place: Option<Kept>,
) -> Result<Option<Items>, AllocError>
    ensures { IfOk result (λ found. IfSome found (λ items. IsOneKept shelf.now problem.now.points problem.now.clauses items
        (shelf.now ++ facts_of shelf.now problem.now.clauses items ∷ []))) }
{
    let Some(place) = place else {
        return Ok(None);
    };
    if !is_place_named(place) {
        return Ok(None);
    }
    let found = shelf.keep(alloc, problem, place)?;
    Ok(found)
}

/// The items of the next entry, which refutes the problem by these lemmas, one for each. So many entries or items as the format can't name are in no
/// memory.
fn cite_each(
    alloc: Global,
    shelf: &Shelf,
    problem: &Problem,
    lemmas: &[Lemma],
    places: &[Option<Kept>],
) -> Result<Items, AllocError>
    requires { IsRefutation problem.now.points problem.now.clauses lemmas.now }
    ensures { IfOk result (λ items. AreForEach shelf.now problem.now.points problem.now.clauses lemmas.now items
        (shelf.now ++ facts_of shelf.now problem.now.clauses items ∷ [])) }
{
    let items = shelf.cite(alloc, problem, lemmas, places)?;
    if !are_named(items.as_slice()) {
        return Err(AllocError);
    }
    Ok(items)
}

/// The items of the next entry, which refutes the problem by these lemmas: the last item of an earlier entry, where that will do, and else one for each
/// lemma.
fn items_for(
    alloc: Global,
    shelf: &Shelf,
    places: &IndexMap<Vec<Literal>, Kept>,
    problem: &Problem,
    lemmas: &[Lemma],
) -> Result<Items, AllocError>
    requires { IsRefutation problem.now.points problem.now.clauses lemmas.now }
    ensures { IfOk result (λ items. AreEntered shelf.now problem.now.points problem.now.clauses lemmas.now items
        (shelf.now ++ facts_of shelf.now problem.now.clauses items ∷ [])) }
{
    let places = places_of(alloc, places, lemmas)?;
    let last = places.last().copied().unwrap_or(None);
    match kept_alone(alloc, shelf, problem, last)? {
        Some(items) => Ok(items),
        None => {
            let items = cite_each(alloc, shelf, problem, lemmas, places.as_slice())?;
            Ok(items)
        }
    }
}

/// What earlier entries leave to later ones: lemmas that a search opens with, and what a certificate of the second version keeps. Contracts see what
/// the entries of such a certificate state, entry by entry; the rest are hints.
pub struct Earlier {
    /// Whether a question may follow the one that is decided: else nothing is learned of it.
    asks_on: bool,
    /// What the search of an earlier question has learned.
    learned: Option<Learned>,
    /// The entries of the certificate, but for the last one where it waits.
    shelf: Shelf,
    /// For a clause the last item that was written of it.
    places: IndexMap<Vec<Literal>, Kept>,
    /// The last entry, where it refutes a problem.
    waiting: Option<Waiting>,
}

impl Drop for Earlier {
    fn drop(self) {
        let Earlier {
            asks_on: _,
            learned,
            shelf,
            places,
            waiting,
        } = self;
        drop(learned);
        drop(shelf);
        drop(places);
        drop(waiting);
    }
}

impl Model for Earlier {
    ghost use Rattle.std.specs.Prelude.{IfSome};
    ghost use Rattle.kept_lemmas.specs.Facts.{Shelf as KeptShelf};
    ghost use Rattle.dtp_session.specs.code.Waiting.{shelf_with, IsRightOver};

    ghost Value = { KeptShelf };

    ghost view = { λ e. shelf_with e.shelf e.waiting };

    ghost invariant = { λ e. IfSome e.waiting (IsRightOver e.shelf) };
}

impl Earlier {
    /// Nothing yet. It takes no memory.
    pub fn new(alloc: Global) -> Self
        ensures { result ≡ [] }
    {
        Earlier {
            asks_on: true,
            learned: None,
            shelf: Shelf::new(alloc),
            places: IndexMap::new(alloc),
            waiting: None,
        }
    }

    /// What the problem takes over of an earlier one's refutation.
    pub fn taken(&self, alloc: Global, problem: &Problem) -> Result<TakenOver, AllocError>
        ensures { IfOk result (IsTakenOver problem.now) }
    {
        match &self.learned {
            Some(learned) => learned.taken(alloc, problem, CHOICE),
            None => Ok(TakenOver::Opens(Batch::new(0, Vec::new(alloc)))),
        }
    }

    /// Whether a question may follow the next one that is decided.
    pub fn expect(&mut self, asks_on: bool)
        ensures { self.new ≡ self.old }
    {
        self.asks_on = asks_on;
    }

    /// Whether an entry of this kind leaves lemmas to the questions behind it, of which there may be one.
    pub fn keeps_for(&self, wanted: Wanted) -> bool {
        match wanted {
            Wanted::Entry(Version::Two) => self.asks_on,
            Wanted::Entry(Version::One) | Wanted::Verdict => false,
        }
    }

    /// Keeps what searches of later problems may take over of a refutation, where there may be any. Of one that was taken over itself it is there.
    pub fn learn(
        &mut self,
        alloc: Global,
        problem: &Problem,
        refutation: &[Lemma],
        is_taken: bool,
    ) -> Result<(), AllocError>
        requires refutes { IsRefutation problem.now.points problem.now.clauses refutation.now }
        requires over { All (LemmaIsOver problem.now.points) refutation.now }
        ensures { self.new ≡ self.old }
    {
        if !self.asks_on || is_taken {
            return Ok(());
        }
        if let Some(learned) = Learned::of(alloc, problem, refutation, CHOICE)? {
            self.learned = Some(learned);
        }
        Ok(())
    }

    /// An entry without lemmas, in a certificate of the version: of it nothing can be kept.
    pub fn pass(&mut self, alloc: Global, version: Version) -> Result<(), AllocError>
        ensures { OnOk result (self.new ≡ passed version self.old) }
    {
        match version {
            Version::One => Ok(()),
            Version::Two => {
                let waiting = self.waiting.take();
                put(alloc, &mut self.shelf, &mut self.places, waiting)?;
                self.shelf.skip()
            }
        }
    }

    /// The items of the next entry, which refutes the problem by these lemmas.
    fn cite(
        &mut self,
        alloc: Global,
        problem: Problem,
        lemmas: &[Lemma],
    ) -> Result<ShownItems, AllocError>
        requires { IsRefutation problem.points problem.clauses lemmas.now }
        ensures { IfOk result (λ items. AreEntered self.old problem.points problem.clauses lemmas.now items self.new) }
    {
        let waiting = self.waiting.take();
        put(alloc, &mut self.shelf, &mut self.places, waiting)?;
        let items = items_for(alloc, &self.shelf, &self.places, &problem, lemmas)?;
        let shown = ShownItems::new(alloc, items)?;
        let items = shown.share()?;
        self.waiting = Some(Waiting { problem, items });
        Ok(shown)
    }

    /// The items that stand in the place of the entry's lemmas, in a certificate of the version, where these refute the problem. In the first version
    /// there are none, and nothing is kept.
    pub fn enter(
        &mut self,
        alloc: Global,
        version: Version,
        problem: Problem,
        entry: &Entry,
    ) -> Result<ShownItems, AllocError>
        requires { RefutesBy problem.points problem.clauses entry.now }
        ensures { IfOk result (λ items.
            IsEntered version self.old problem.points problem.clauses entry.now items self.new) }
    {
        if let Version::One = version {
            return Ok(ShownItems::none());
        }
        match entry.refutation() {
            Some(refutation) => self.cite(alloc, problem, refutation.as_slice()),
            None => {
                self.pass(alloc, version)?;
                Ok(ShownItems::none())
            }
        }
    }

    /// The place of the last of the last entry's items.
    pub fn last_of(&self, items: &ShownItems) -> Option<Kept>
        ensures { IsLastOf Two self.now items.now result }
    {
        let item = items.as_slice().len().checked_sub(1)?;
        let before = self.shelf.len();
        let entry = match &self.waiting {
            None => before,
            Some(_) => before.checked_add(1)?,
        };
        Some(Kept { entry, item })
    }

    /// The items of an entry that keeps the item at the place alone, if the format can name it, where that refutes what is asked: no problem is looked
    /// at.
    pub fn again(&mut self, alloc: Global, place: Kept) -> Result<Option<ShownItems>, AllocError>
        requires { (points : ℕ) × (clauses : List (List Bound)) × AreRight self.old points clauses (Keep place ∷ []) }
        ensures again { IfOk result (λ found. (points : ℕ) (clauses : List (List Bound))
            → AreRight self.old points clauses (Keep place ∷ []) → IsAgain self.old points clauses self.new found) }
        ensures none { IfOk result (λ found. found ≡ None → self.new ≡ self.old) }
    {
        if !is_place_named(place) {
            return Ok(None);
        }
        let mut items = Vec::with_capacity(alloc, 1)?;
        items.push(Item::Keep(place))?;
        let waiting = self.waiting.take();
        put(alloc, &mut self.shelf, &mut self.places, waiting)?;
        self.shelf.add_kept(place)?;
        let shown = ShownItems::new(alloc, Items::new(items))?;
        Ok(Some(shown))
    }
}
