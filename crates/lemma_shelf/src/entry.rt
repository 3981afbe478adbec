//! A checked entry into the table.
ghost use Rattle.std.specs.Prelude.{◌≡◌, ◌<◌, length, map, All, IfOk};
ghost use Rattle.kept_lemmas.specs.Entries.{IsItemRight, AreRight};
ghost use Rattle.lemma_shelf.specs.code.Tables.{facts_at};
ghost use Rattle.lemma_shelf.specs.code.Additions.{AddsItem, HasItems};
ghost use Rattle.lemma_shelf.specs.code.Walks.{facts_in, shelf_in, IsWhole, AreWithin, KeepsTrees, BeginsTable};

use crate::check::find;
use crate::table::Table;
use crate::trees::Trees;
use kept_lemmas::Item;
use std::alloc::{AllocError, Global};
use stn_core::Problem;

// The number of the item's lemma, which is put behind the others where it is the entry's own.
fn add_item(
    table: &mut Table,
    alloc: Global,
    entries: &[Vec<usize>],
    problem: &Problem,
    numbers: &[usize],
    trees: Trees,
    item: &Item,
) -> Result<usize, AllocError>
    requires whole { IsWhole table.old }
    requires entries { AreWithin table.old (map (λ n. n.items) entries.now) }
    requires numbers { All (λ n. n < length table.old.lemmas.items) numbers.now }
    requires right { IsItemRight (shelf_in table.old (map (λ n. n.items) entries.now)) problem.now.points
        problem.now.clauses (facts_at (facts_in table.old) numbers.now) item.now }
    ensures ok { IfOk result (AddsItem table.old (shelf_in table.old (map (λ n. n.items) entries.now))
        problem.now.clauses numbers.now item.now table.new) }
    ensures trees { IfOk result (λ _. KeepsTrees trees table.old table.new) }
    ensures front { BeginsTable table.old table.new }
{
    match item {
        Item::Own(lemma) => {
            let number = table.lemmas.len();
            table.add(alloc, problem, numbers, trees, lemma)?;
            Ok(number)
        }
        Item::Keep(kept) => Ok(find(entries, *kept).unwrap()),
    }
}

/// The numbers of the items' lemmas, of which those that are the entry's own are put behind the others. Without memory,
/// perhaps some are.
pub fn add_items(
    table: &mut Table,
    alloc: Global,
    entries: &[Vec<usize>],
    problem: &Problem,
    trees: Trees,
    items: &[Item],
) -> Result<Vec<usize>, AllocError>
    requires whole { IsWhole table.old }
    requires entries { AreWithin table.old (map (λ n. n.items) entries.now) }
    requires right { AreRight (shelf_in table.old (map (λ n. n.items) entries.now)) problem.now.points
        problem.now.clauses items.now }
    ensures ok { IfOk result (λ numbers. HasItems table.old (shelf_in table.old (map (λ n. n.items) entries.now))
        problem.now.clauses items.now table.new numbers.items) }
    ensures trees { IfOk result (λ _. KeepsTrees trees table.old table.new) }
    ensures front { BeginsTable table.old table.new }
{
    let mut numbers = Vec::new(alloc);
    for item in items {
        let number = add_item(
            table,
            alloc,
            entries,
            problem,
            numbers.as_slice(),
            trees,
            item,
        )?;
        numbers.push(number)?;
    }
    Ok(numbers)
}
