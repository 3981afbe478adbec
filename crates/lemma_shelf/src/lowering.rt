//! The lemmas that an entry's last item needs, by the numbers of one problem.
ghost use Rattle.std.specs.Prelude.{◌≡◌, ◌<◌, length, take, map, true, All, IfOk, OnOk, slice_index_or};
ghost use Rattle.refute_tree.specs.code.Views.{step_seen};
ghost use Rattle.lemma_shelf.specs.code.Tables.{StepIsClosed, AreClosed, is_active};
ghost use Rattle.lemma_shelf.specs.code.Walks.{facts_in, IsWhole, TreesIn, IsOf, places};
ghost use Rattle.lemma_shelf.specs.code.WrittenOut.{AddsPlaced, ArePlaced, Rises, IsPlacedLemma, AreWrittenOut, IsLowered};

use crate::present::Present;
use crate::table::Table;
use crate::walk::Walk;
use refute_tree::{Lemma, Reader, StepView, Steps};
use std::alloc::{AllocError, Global};
use stn_core::Problem;

// Adds the step by the numbers of the problem's clauses, and of a cited lemma by its place among those before.
fn push_step(
    present: &Present<'_>,
    before: &[usize],
    step: StepView<'_>,
    steps: &mut Steps,
) -> Result<(), AllocError>
    requires rises { Rises before.now }
    requires closed { StepIsClosed (places present.now) before.now (step_seen step) }
    ensures { OnOk result (AddsPlaced (places present.now) before.now (step_seen step.entry) steps.old steps.new) }
{
    match step {
        StepView::Input(number) => {
            let i = present.place(number).unwrap();
            steps.push_input(i)
        }
        StepView::Clash(number) => {
            let i = present.place(number).unwrap();
            steps.push_clash(i)
        }
        StepView::Lemma(number) => {
            let j = before.binary_search(&number).unwrap();
            steps.push_lemma(j)
        }
        StepView::Cycle(_) => steps.push(step),
        StepView::Pair(_) => steps.push(step),
        StepView::Either(_) => steps.push(step),
    }
}

fn lowered_steps(
    alloc: Global,
    present: &Present<'_>,
    before: &[usize],
    mut reader: Reader<'_>,
) -> Result<Steps, AllocError>
    requires rises { Rises before.now }
    requires closed { All (StepIsClosed (places present.now) before.now) reader }
    ensures { IfOk result (ArePlaced (places present.now) before.now reader.entry) }
{
    let mut steps = Steps::new(alloc);
    'steps: while let Some(step) = reader.next() {
        push_step(present, before, step, &mut steps)?;
    }
    steps.shrink_to_fit();
    Ok(steps)
}

// The lemma whose number stands at this place, over those whose numbers stand before it.
fn lowered_lemma(
    alloc: Global,
    table: &Table,
    present: &Present<'_>,
    numbers: &[usize],
    i: usize,
) -> Result<Lemma, AllocError>
    requires i { i < length numbers.now }
    requires whole { IsWhole table.now }
    requires rises { Rises numbers.now }
    requires closed { AreClosed table.now.lemmas.items (places present.now) numbers.now }
    ensures { IfOk result (IsPlacedLemma table.now.lemmas.items (places present.now) (take i numbers.now)
        (slice_index_or numbers.now i 0)) }
{
    let lemma = &table.lemmas[numbers[i]];
    let steps = lowered_steps(alloc, present, &numbers[..i], lemma.steps.reader())?;
    let clause = lemma.clause.copy()?;
    Ok(Lemma { clause, steps })
}

// The lemmas with these numbers, of which each cites earlier ones alone.
fn lowered_lemmas(
    alloc: Global,
    table: &Table,
    present: &Present<'_>,
    numbers: &[usize],
) -> Result<Vec<Lemma>, AllocError>
    requires whole { IsWhole table.now }
    requires trees { TreesIn table.now }
    requires present { IsOf table.now present.now }
    requires rises { Rises numbers.now }
    requires closed { AreClosed table.now.lemmas.items (places present.now) numbers.now }
    ensures { IfOk result (λ lemmas. AreWrittenOut present.now.clauses.now table.now.book table.now.lemmas.items
        numbers.now lemmas.items) }
{
    let mut lemmas = Vec::new(alloc);
    for i in 0..numbers.len() {
        let lemma = lowered_lemma(alloc, table, present, numbers, i)?;
        lemmas.push(lemma)?;
    }
    Ok(lemmas)
}

/// The lemmas that the lemma of this number rests on, and itself as the last, by the numbers of the problem's clauses and
/// of the lemmas before.
pub fn lowered(
    alloc: Global,
    table: &Table,
    problem: &Problem,
    root: usize,
) -> Result<Vec<Lemma>, AllocError>
    requires table { IsWhole table.now }
    requires trees { TreesIn table.now }
    requires root { root < length table.now.lemmas.items }
    requires active { is_active problem.now.clauses (facts_in table.now) root ≡ true }
    ensures { IfOk result (λ lemmas. IsLowered problem.now.clauses table.now.book table.now.lemmas.items root
        lemmas.items) }
{
    let mut walk = Walk::new(alloc, table, problem)?;
    let _active = walk.is_active(table, root)?;
    let mut numbers = walk.reached.to_vec(alloc)?;
    numbers.sort()?;
    let lemmas = lowered_lemmas(alloc, table, &walk.present, numbers.as_slice())?;
    Ok(lemmas)
}
