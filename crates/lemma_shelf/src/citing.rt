//! Lemmas of a refutation that earlier entries state already.
ghost use Rattle.std.specs.Prelude.{◌≡◌, ◌↔◌, ℕ, Option, Some, None, length, map, IsTrue, IfOk, IfSome, slice_get, slice_index_or};
ghost use Rattle.std.specs.List.{AllZip};
ghost use Rattle.kept_lemmas.specs.declared.item.Item.{Item as CitedItem};
ghost use Rattle.kept_lemmas.specs.declared.item.Item.TheVariants.{Own};
ghost use Rattle.lemma_shelf.specs.code.Citing.{States, StandsFor, IsPickedBy};
ghost use Rattle.refute_tree.specs.declared.lemma.Lemma.{Lemma as CitedLemma};
ghost use Rattle.lemma_shelf.specs.code.Walks.{shelf_in, IsWhole, AreWithin, Knows};

use crate::check::{KeptError, check_kept};
use crate::table::Table;
use crate::walk::Walk;
use kept_lemmas::{Item, Kept};
use refute_tree::Lemma;
use std::alloc::{AllocError, Global};
use stn_core::{Literal, Problem};

// Whether both are the same literals.
fn are_same(one: &[Literal], other: &[Literal]) -> bool
    ensures { IsTrue result ↔ one.now ≡ other.now }
{
    one == other
}

// Whether the item at the place states the clause, and may be used in the problem.
pub fn stands<'a>(
    alloc: Global,
    table: &Table,
    entries: &[Vec<usize>],
    problem: &'a Problem,
    walk: &mut Option<Walk<'a>>,
    clause: &[Literal],
    place: Kept,
) -> Result<bool, AllocError>
    requires table { IsWhole table.now }
    requires entries { AreWithin table.now (map (λ n. n.items) entries.now) }
    requires walk { IfSome walk.old (Knows table.now problem.now.clauses) }
    ensures stands { IfOk result (λ b. IsTrue b ↔ States (shelf_in table.now (map (λ n. n.items) entries.now))
        problem.now.points problem.now.clauses clause.now place) }
    ensures walk { IfOk result (λ _. IfSome walk.new (Knows table.now problem.now.clauses)) }
{
    match check_kept(alloc, table, entries, problem, walk, place) {
        Ok(number) => {
            let there = table.lemmas[number].clause.as_slice();
            Ok(are_same(there, clause))
        }
        Err(KeptError::Refused(_)) => {
            *walk = None;
            Ok(false)
        }
        Err(KeptError::OutOfMemory) => Err(AllocError),
    }
}

// The lemma as an item of its own.
fn own_item(alloc: Global, lemma: &Lemma) -> Result<Item, AllocError>
    ensures { IfOk result (λ item. item ≡ Own lemma.now) }
{
    let copy = lemma.copy(alloc)?;
    Ok(Item::Own(copy))
}

// The item that stands for the lemma: the one at the place, where it does, and else the lemma itself.
fn item_for<'a>(
    alloc: Global,
    table: &Table,
    entries: &[Vec<usize>],
    problem: &'a Problem,
    walk: &mut Option<Walk<'a>>,
    lemma: &Lemma,
    place: Option<Kept>,
) -> Result<Item, AllocError>
    requires table { IsWhole table.now }
    requires entries { AreWithin table.now (map (λ n. n.items) entries.now) }
    requires walk { IfSome walk.old (Knows table.now problem.now.clauses) }
    ensures stands { IfOk result (λ item. StandsFor (shelf_in table.now (map (λ n. n.items) entries.now))
        problem.now.points problem.now.clauses lemma.now item) }
    ensures picked { IfOk result (λ item. IsPickedBy (shelf_in table.now (map (λ n. n.items) entries.now))
        problem.now.points problem.now.clauses lemma.now place item) }
    ensures walk { IfOk result (λ _. IfSome walk.new (Knows table.now problem.now.clauses)) }
{
    match place {
        None => {
            let item = own_item(alloc, lemma)?;
            Ok(item)
        }
        Some(place) => {
            let clause = lemma.clause.as_slice();
            if stands(alloc, table, entries, problem, walk, clause, place)? {
                return Ok(Item::Keep(place));
            }
            let item = own_item(alloc, lemma)?;
            Ok(item)
        }
    }
}

// The place that is named for the lemma with this number.
fn place_at(places: &[Option<Kept>], j: usize) -> Option<Kept>
    ensures { result ≡ slice_index_or places.now j None }
{
    places.get(j).copied().unwrap_or(None)
}

/// For each lemma the item that stands for it: the one at its place, if it has one, where that states the lemma's clause and may be used in
/// the problem.
pub fn items_for(
    alloc: Global,
    table: &Table,
    entries: &[Vec<usize>],
    problem: &Problem,
    lemmas: &[Lemma],
    places: &[Option<Kept>],
) -> Result<Vec<Item>, AllocError>
    requires table { IsWhole table.now }
    requires entries { AreWithin table.now (map (λ n. n.items) entries.now) }
    ensures stand { IfOk result (λ items. AllZip (StandsFor (shelf_in table.now (map (λ n. n.items) entries.now))
        problem.now.points problem.now.clauses) lemmas.now items.items) }
    ensures picked { IfOk result (λ items. (j : ℕ) (lemma : CitedLemma) (item : CitedItem) → slice_get lemmas.now j ≡ Some lemma
        → slice_get items.items j ≡ Some item → IsPickedBy (shelf_in table.now (map (λ n. n.items) entries.now))
        problem.now.points problem.now.clauses lemma (slice_index_or places.now j None) item) }
{
    let mut walk = None;
    let mut items = Vec::with_capacity(alloc, lemmas.len())?;
    for (j, lemma) in lemmas.iter().enumerate() {
        let place = place_at(places, j);
        let item = item_for(alloc, table, entries, problem, &mut walk, lemma, place)?;
        items.push(item)?;
    }
    Ok(items)
}
