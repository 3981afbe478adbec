//! What stays of an earlier problem's lemmas, by the new problem's numbers.
ghost use Rattle.std.specs.Prelude.{◌≡◌, ◌++◌, ◌∷◌, [], length, map, All, None, unwrap_or, slice_index_or, IfOk, OnOk};
ghost use Rattle.std.specs.List.{items_where_true};
ghost use Rattle.refute_tree.specs.code.Views.{step_seen};
ghost use Rattle.refute_tree.specs.Batches.{AreRefuted, LemmaIsOver, RefersBelow, LemmaRefersBelow};
ghost use Rattle.carried_lemmas.specs.Shared.{lemmas_of};
ghost use Rattle.carried_lemmas.specs.Carried.{carried_lemma, IsCarried};
ghost use Rattle.carried_lemmas.specs.code.Carrying.{step_by, lemma_by, ReferBack};

use crate::flags::kept_flags;
use crate::laws::carried_law;
use crate::numbers::numbers_in;
use refute_tree::{Batch, Lemma, Reader, StepView, Steps};
use std::alloc::{AllocError, Global};
use std::sync::Arc;
use stn_core::Problem;

// The clause's number in the new problem.
fn new_number(numbers: &[Option<usize>], i: usize) -> usize
    ensures { result ≡ unwrap_or (slice_index_or numbers.now i None) i }
{
    let number = numbers.get(i).copied().unwrap_or(None);
    number.unwrap_or(i)
}

// Adds the step by its numbers in the two tables.
fn push_step(
    numbers: &[Option<usize>],
    places: &[usize],
    step: StepView<'_>,
    steps: &mut Steps,
) -> Result<(), AllocError>
    requires { RefersBelow (length places.now) (step_seen step) }
    ensures { OnOk result (steps.new ≡ steps.old ++ step_by numbers.now places.now (step_seen step.entry) ∷ []) }
{
    match step {
        StepView::Cycle(_) => steps.push(step),
        StepView::Pair(_) => steps.push(step),
        StepView::Input(i) => steps.push_input(new_number(numbers, i)),
        StepView::Lemma(j) => steps.push_lemma(places[j]),
        StepView::Clash(i) => steps.push_clash(new_number(numbers, i)),
        StepView::Either(_) => steps.push(step),
    }
}

// The steps, in the place of those that were there.
fn renumbered(
    numbers: &[Option<usize>],
    places: &[usize],
    mut reader: Reader<'_>,
    steps: &mut Steps,
) -> Result<(), AllocError>
    requires { All (RefersBelow (length places.now)) reader }
    ensures { OnOk result (steps.new ≡ map (step_by numbers.now places.now) reader.entry) }
{
    steps.clear();
    'steps: while let Some(step) = reader.next() {
        push_step(numbers, places, step, steps)?;
    }
    Ok(())
}

// Puts the lemma, by its numbers in the two tables, behind the others. Its steps are made in room that serves one lemma after the other, so that what
// stays has no more memory than it needs.
fn push_lemma(
    all: &mut Vec<Lemma>,
    alloc: Global,
    numbers: &[Option<usize>],
    places: &[usize],
    lemma: &Lemma,
    room: &mut Steps,
) -> Result<(), AllocError>
    requires { LemmaRefersBelow (length places.now) lemma.now }
    ensures { OnOk result (all.new.items ≡ all.old.items ++ lemma_by numbers.now places.now lemma.now ∷ []) }
{
    renumbered(numbers, places, lemma.steps.reader(), room)?;
    let steps = room.copy(alloc)?;
    let clause = lemma.clause.copy()?;
    all.push(Lemma { clause, steps })?;
    Ok(())
}

// The kept lemmas, each by the numbers of the clauses and by its place among them.
fn carried(
    alloc: Global,
    numbers: &[Option<usize>],
    kept: &[bool],
    lemmas: &[Arc<Lemma>],
) -> Result<Vec<Lemma>, AllocError>
    requires each { length kept.now ≡ length lemmas.now }
    requires back { ReferBack (lemmas_of lemmas.now) }
    ensures { IfOk result (λ all. all.items
        ≡ map (carried_lemma numbers.now kept.now) (items_where_true kept.now (lemmas_of lemmas.now))) }
{
    let mut places = Vec::with_capacity(alloc, lemmas.len())?;
    let mut all = Vec::new(alloc);
    let mut room = Steps::new(alloc);
    for (k, lemma) in lemmas.iter().enumerate() {
        places.push(all.len())?;
        if kept[k] {
            push_lemma(
                &mut all,
                alloc,
                numbers,
                places.as_slice(),
                lemma,
                &mut room,
            )?;
        }
    }
    Ok(all)
}

/// The lemmas of the old problem that the new one takes over: exactly those whose support lies in the new problem and whose points
/// are its points, in their order. A clause gets the number of the first that equals it in the new problem, and a lemma its place
/// among those that are carried.
///
/// It takes time and memory in the text of the two problems and of the lemmas.
pub fn carry(
    alloc: Global,
    old: &Problem,
    lemmas: &[Arc<Lemma>],
    new: &Problem,
) -> Result<Batch, AllocError>
    requires { AreRefuted old.now.points old.now.clauses [] (lemmas_of lemmas.now) }
    ensures carried { IfOk result (IsCarried old.now.clauses (lemmas_of lemmas.now) new.now.points new.now.clauses) }
    ensures refuted { IfOk result (λ batch. AreRefuted new.now.points new.now.clauses [] batch.lemmas) }
    ensures over { IfOk result (λ batch. All (LemmaIsOver old.now.points) (lemmas_of lemmas.now)
        → All (LemmaIsOver new.now.points) batch.lemmas) }
{
    carried_law();
    let numbers = numbers_in(alloc, old.clauses.as_slice(), new.clauses.as_slice())?;
    let kept = kept_flags(alloc, new.points, numbers.as_slice(), lemmas)?;
    let all = carried(alloc, numbers.as_slice(), kept.as_slice(), lemmas)?;
    Ok(Batch::new(0, all))
}
