//! Items against a problem.
ghost use Rattle.std.specs.Prelude.{◌≡◌, ◌<◌, [], length, map, All, IfOk, IfErr, IfSome, Some, None, slice_get};
ghost use Rattle.cert_check.specs.Flaws.{TellsFlaw};
ghost use Rattle.kept_lemmas.specs.Entries.{IsOwn};
ghost use Rattle.kept_lemmas.specs.Facts.{Shelf as KeptShelf, kept_fact};
ghost use Rattle.lemma_shelf.specs.ItemFlaws.{items_flaw, item_flaw, item_clause, kept_flaw};
ghost use Rattle.lemma_shelf.specs.code.Tables.{is_active, number_of};
ghost use Rattle.lemma_shelf.specs.code.Walks.{facts_in, shelf_in, IsWhole, AreWithin, Knows, IsFaultOf, IsFlawOf};

use crate::stated::Stated;
use crate::table::Table;
use crate::walk::Walk;
use cert_check::{CheckError, Flaw, FlawKind, check_lemma};
use kept_lemmas::{Item, Kept};
use refute_tree::Earlier;
use std::alloc::{AllocError, Global};
use stn_core::{Literal, Problem};

/// Why an item can't be kept.
#[derive(Clone, Copy)]
pub enum KeptError {
    OutOfMemory,
    Refused(FlawKind),
}

impl From<AllocError> for KeptError {
    ghost use Rattle.std.specs.Prelude.{◌≡◌};
    ghost use Rattle.lemma_shelf.specs.declared.check.KeptError.TheVariants.{OutOfMemory};

    ghost from_gives = { λ _ e. e ≡ OutOfMemory };

    fn from(_failed: AllocError) -> Self {
        KeptError::OutOfMemory
    }
}

fn number_at(numbers: &[usize], place: usize) -> Option<usize>
    ensures { result ≡ slice_get numbers.now place }
{
    numbers.get(place).copied()
}

/// The number of the lemma of a kept item, if there is such an item.
pub fn find(entries: &[Vec<usize>], kept: Kept) -> Option<usize>
    ensures { result ≡ number_of (map (λ n. n.items) entries.now) kept }
{
    let place = kept.entry.checked_sub(1)?;
    let numbers = entries.get(place)?;
    number_at(numbers, kept.item)
}

// The walk so far, or one that begins.
fn begun<'a>(
    alloc: Global,
    table: &Table,
    problem: &'a Problem,
    walk: Option<Walk<'a>>,
) -> Result<Walk<'a>, AllocError>
    requires { IfSome walk (Knows table.now problem.now.clauses) }
    ensures { IfOk result (Knows table.now problem.now.clauses) }
{
    match walk {
        Some(walk) => Ok(walk),
        None => Walk::new(alloc, table, problem),
    }
}

// Whether all that the lemma of this number rests on is active.
fn is_active<'a>(
    alloc: Global,
    table: &Table,
    problem: &'a Problem,
    walk: &mut Option<Walk<'a>>,
    number: usize,
) -> Result<bool, AllocError>
    requires table { IsWhole table.now }
    requires number { number < length table.now.lemmas.items }
    requires walk { IfSome walk.old (Knows table.now problem.now.clauses) }
    ensures active { IfOk result (λ b. b ≡ is_active problem.now.clauses (facts_in table.now) number) }
    ensures walk { IfOk result (λ _. IfSome walk.new (Knows table.now problem.now.clauses)) }
{
    let mut here = begun(alloc, table, problem, walk.take())?;
    let active = here.is_active(table, number)?;
    if active {
        *walk = Some(here);
    }
    Ok(active)
}

/// The number of the lemma of a kept item that is there and usable.
pub fn check_kept<'a>(
    alloc: Global,
    table: &Table,
    entries: &[Vec<usize>],
    problem: &'a Problem,
    walk: &mut Option<Walk<'a>>,
    kept: Kept,
) -> Result<usize, KeptError>
    requires table { IsWhole table.now }
    requires entries { AreWithin table.now (map (λ n. n.items) entries.now) }
    requires walk { IfSome walk.old (Knows table.now problem.now.clauses) }
    ensures ok { IfOk result (λ n. (number_of (map (λ n. n.items) entries.now) kept ≡ Some n)
        × (kept_flaw problem.now.points problem.now.clauses
        (kept_fact (shelf_in table.now (map (λ n. n.items) entries.now)) kept) ≡ None)) }
    ensures fault { IfErr result (IsFaultOf (kept_flaw problem.now.points problem.now.clauses
        (kept_fact (shelf_in table.now (map (λ n. n.items) entries.now)) kept))) }
    ensures walk { IfOk result (λ _. IfSome walk.new (Knows table.now problem.now.clauses)) }
{
    let Some(number) = find(entries, kept) else {
        return Err(KeptError::Refused(FlawKind::NoSuchKeptLemma));
    };
    if table.points[number] > u64::from(problem.points) {
        return Err(KeptError::Refused(FlawKind::NoSuchPoint));
    }
    if !is_active(alloc, table, problem, walk, number)? {
        return Err(KeptError::Refused(FlawKind::NotActive));
    }
    Ok(number)
}

// The clause that the item states, if it is right behind those that state the earlier clauses.
fn check_item<'a>(
    alloc: Global,
    table: &'a Table,
    entries: &[Vec<usize>],
    problem: &'a Problem,
    walk: &mut Option<Walk<'a>>,
    stated: &Stated<'a>,
    item: &'a Item,
) -> Result<&'a [Literal], CheckError>
    requires table { IsWhole table.now }
    requires entries { AreWithin table.now (map (λ n. n.items) entries.now) }
    requires walk { IfSome walk.old (Knows table.now problem.now.clauses) }
    ensures right { IfOk result (λ _. item_flaw (shelf_in table.now (map (λ n. n.items) entries.now))
        problem.now.points problem.now.clauses stated.now item.now ≡ None) }
    ensures clause { IfOk result (λ clause. clause.now
        ≡ item_clause (shelf_in table.now (map (λ n. n.items) entries.now)) item.now) }
    ensures fault { IfErr result (IsFlawOf (item_flaw (shelf_in table.now (map (λ n. n.items) entries.now))
        problem.now.points problem.now.clauses stated.now item.now)) }
    ensures walk { IfOk result (λ _. IfSome walk.new (Knows table.now problem.now.clauses)) }
{
    match item {
        Item::Own(lemma) => {
            check_lemma(alloc, problem, stated, lemma)?;
            Ok(lemma.clause.as_slice())
        }
        Item::Keep(kept) => match check_kept(alloc, table, entries, problem, walk, *kept) {
            Ok(number) => Ok(table.lemmas[number].clause.as_slice()),
            Err(KeptError::Refused(kind)) => Err(CheckError::Refused(Flaw {
                lemma: stated.count(),
                step: 0,
                kind,
            })),
            Err(KeptError::OutOfMemory) => Err(CheckError::OutOfMemory),
        },
    }
}

/// The first flaw of the items over the table's entries, if they have one.
pub fn check(
    alloc: Global,
    table: &Table,
    entries: &[Vec<usize>],
    problem: &Problem,
    items: &[Item],
) -> Result<(), CheckError>
    requires table { IsWhole table.now }
    requires entries { AreWithin table.now (map (λ n. n.items) entries.now) }
    ensures { TellsFlaw (items_flaw (shelf_in table.now (map (λ n. n.items) entries.now))
        problem.now.points problem.now.clauses items.now) result }
{
    let mut stated = Stated::new(alloc);
    let mut walk = None;
    for item in items {
        let clause = check_item(alloc, table, entries, problem, &mut walk, &stated, item)?;
        stated.push(clause)?;
    }
    if !stated.ends_empty() {
        return Err(CheckError::Refused(Flaw {
            lemma: stated.count(),
            step: 0,
            kind: FlawKind::LastLemmaNotEmpty,
        }));
    }
    Ok(())
}

/// Whether own lemmas refute the problem, or their first flaw. No shelf is needed, whatever the earlier entries were.
///
/// It takes the time and memory of `cert_check::check_lemma` for each of them. The one error beside a flaw is want of
/// memory.
pub fn check_items(alloc: Global, problem: &Problem, items: &[Item]) -> Result<(), CheckError>
    requires { All IsOwn items.now }
    ensures { (shelf : KeptShelf) → TellsFlaw
        (items_flaw shelf problem.now.points problem.now.clauses items.now) result }
{
    let table = Table::new(alloc);
    let result = check(alloc, &table, &[], problem, items);
    result
}
