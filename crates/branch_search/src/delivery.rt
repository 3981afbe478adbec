//! What a slice delivers: of its lemmas those that the search hasn't forgotten, and those that these cite.
ghost use Rattle.std.specs.Prelude.{◌≡◌, ◌<◌, ◌+◌, ◌^◌, ℕ, length, Some, true, false, slice_index_or, IfOk};
ghost use Rattle.branch_search.specs.Slices.{AreProved, IsBatch, IsSlice};
ghost use Rattle.branch_search.specs.code.Divisions.{IsDivision, excluding};
ghost use Rattle.branch_search.specs.code.Deliveries.{IsLeft, IsOfKind};

use crate::answer::Slice;
use crate::divide::Division;
use crate::state::State;
use crate::task::Task;
use refute_tree::{Batch, Earlier};
use search_guide::{Guide, Source};
use std::alloc::{AllocError, Global};
use stn_core::Literal;
use trim_lemmas::{TrimmedBatch, trimmed_batch};

// The lemma that excludes the cube, if one does.
fn excluding(division: &Division) -> Option<usize>
    ensures { result ≡ excluding division.now }
{
    match division {
        Division::Model(_) => None,
        Division::Excluded(j) => Some(*j),
        Division::Split(_) => None,
    }
}

// Whether nothing is searched behind the slice: then who wants a short refutation trims it as a whole.
fn ends_search(cube: &[Literal], division: &Division) -> bool {
    cube.is_empty() && matches!(division, Division::Excluded(_))
}

// Whether the own lemma with the number j is wanted for itself.
fn is_wanted(guide: &Guide, seen: usize, found: Option<usize>, all: bool, j: usize) -> bool
    ensures { found ≡ Some j → result ≡ true }
{
    if all || found == Some(j) {
        return true;
    }
    !guide
        .numbers_of(Source::Lemma(seen.saturating_add(j)))
        .is_empty()
}

// For each of so many own lemmas whether it is wanted for itself.
fn wanted_lemmas(
    alloc: Global,
    guide: &Guide,
    seen: usize,
    found: Option<usize>,
    all: bool,
    count: usize,
) -> Result<Vec<bool>, AllocError>
    ensures each { IfOk result (λ wanted. length wanted.items ≡ count) }
    ensures found { IfOk result (λ wanted. (j : ℕ) → j < count → found ≡ Some j
        → slice_index_or wanted.items j false ≡ true) }
{
    let mut wanted = Vec::with_capacity(alloc, count)?;
    for j in 0..count {
        wanted.push(is_wanted(guide, seen, found, all, j))?;
    }
    Ok(wanted)
}

impl State {
    // The own lemmas, which leave the state, without those that nothing needs, unless all are wanted. So many were handed.
    fn take_wanted(
        &mut self,
        alloc: Global,
        seen: usize,
        found: Option<usize>,
        all: bool,
    ) -> Result<TrimmedBatch, AllocError>
        requires fits { seen + length self.old.own.items < 2 ^ 64 }
        ensures left { IfOk result (IsLeft seen self.old.own.items found) }
    {
        let own = self.take_own(alloc);
        let wanted = wanted_lemmas(alloc, &self.guide, seen, found, all, own.len())?;
        let left = trimmed_batch(alloc, Batch::new(seen, own), wanted)?;
        Ok(left)
    }

    /// The own lemmas so far, which leave the state, as a batch: those that the search hasn't forgotten, and what these cite.
    pub fn hand_over<E: Earlier>(
        &mut self,
        alloc: Global,
        task: &Task<'_, E>,
    ) -> Result<Batch, AllocError>
        requires proved { AreProved task.now self.old.own.items }
        ensures { IfOk result (IsBatch task.now) }
    {
        let seen = task.count();
        let left = self.take_wanted(alloc, seen, None, false)?;
        self.guide.close_up(seen, &left.needed)?;
        Ok(left.batch)
    }

    /// The slice's answer, with those of the own lemmas that the search hasn't forgotten, and with what these
    /// cite.
    pub fn deliver<E: Earlier>(
        &mut self,
        alloc: Global,
        task: &Task<'_, E>,
        division: Division,
    ) -> Result<Slice, AllocError>
        requires division { IsDivision task.now self.old.own.items division }
        ensures answer { IfOk result (IsSlice task.now) }
        ensures kind { IfOk result (IsOfKind division) }
    {
        let seen = task.count();
        let is_last = ends_search(task.cube(), &division);
        let left = self.take_wanted(alloc, seen, excluding(&division), is_last)?;
        self.guide.close_up(seen, &left.needed)?;
        match division {
            Division::Model(schedule) => Ok(Slice::Model(schedule, left.batch)),
            Division::Excluded(j) => {
                let place = left.place(j);
                Ok(Slice::Refuted(left.batch, place))
            }
            Division::Split(literal) => Ok(Slice::Split(literal, left.batch)),
        }
    }
}
