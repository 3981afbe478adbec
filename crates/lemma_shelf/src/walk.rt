//! Whether all that a lemma rests on is in a problem.
ghost use Rattle.std.specs.Prelude.{◌≡◌, ◌<◌, [], true, length, All, Contains, OnOk, IfOk, IfSome};
ghost use Rattle.std.specs.List.{list_all};
ghost use Rattle.std.specs.Vec.{vec_len};
ghost use Rattle.refute_tree.specs.code.Views.{step_seen};
ghost use Rattle.lemma_shelf.specs.code.Tables.{step_passes, with_cited, with_all_cited, AreClosed, is_active};
ghost use Rattle.lemma_shelf.specs.code.Walks.{facts_in, IsWhole, places, IsOf, Knows};
ghost use Rattle.lemma_shelf.specs.code.WrittenOut.{RestsOn};

use crate::present::Present;
use crate::reached::Reached;
use crate::table::Table;
use refute_tree::{Reader, StepView};
use std::alloc::{AllocError, Global};
use stn_core::Problem;

// Whether the clause that the step names is the problem's; a cited lemma is reached.
fn note(
    present: &Present<'_>,
    reached: &mut Reached,
    step: StepView<'_>,
) -> Result<bool, AllocError>
    ensures passes { IfOk result (λ b. b ≡ step_passes (places present.now) (step_seen step.entry)) }
    ensures reached { OnOk result (reached.new ≡ with_cited reached.old (step_seen step.entry)) }
{
    match step {
        StepView::Input(i) => Ok(present.place(i).is_some()),
        StepView::Clash(i) => Ok(present.place(i).is_some()),
        StepView::Lemma(j) => {
            reached.add(j)?;
            Ok(true)
        }
        StepView::Cycle(_) => Ok(true),
        StepView::Pair(_) => Ok(true),
        StepView::Either(_) => Ok(true),
    }
}

// Goes over the steps of a lemma, to the first clause that isn't the problem's.
fn visit(
    present: &Present<'_>,
    reached: &mut Reached,
    mut reader: Reader<'_>,
) -> Result<bool, AllocError>
    ensures passes { IfOk result (λ b. b ≡ list_all (step_passes (places present.now)) reader.entry) }
    ensures reached { IfOk result (λ b. b ≡ true → reached.new ≡ with_all_cited reached.old reader.entry) }
{
    'steps: while let Some(step) = reader.next() {
        if !note(present, reached, step)? {
            return Ok(false);
        }
    }
    Ok(true)
}

// Walks from the lemma over all that it rests on and that isn't reached yet.
fn reach(
    table: &Table,
    present: &Present<'_>,
    reached: &mut Reached,
    root: usize,
) -> Result<bool, AllocError>
    requires table { IsWhole table.now }
    requires root { root < vec_len table.now.lemmas }
    requires present { IsOf table.now present.now }
    requires closed { AreClosed table.now.lemmas.items (places present.now) reached.old }
    ensures active { IfOk result (λ b. b ≡ is_active present.now.clauses.now (facts_in table.now) root) }
    ensures closed { IfOk result (λ b. b ≡ true → AreClosed table.now.lemmas.items (places present.now) reached.new) }
    ensures there { IfOk result (λ b. b ≡ true → Contains reached.new root) }
    ensures rests { IfOk result (λ b. b ≡ true → All (RestsOn table.now.lemmas.items root) reached.old
        → All (RestsOn table.now.lemmas.items root) reached.new) }
{
    let mut at = reached.len();
    reached.add(root)?;
    'walk: while at < reached.len() {
        let number = reached.at(at);
        if !visit(present, reached, table.lemmas[number].steps.reader())? {
            return Ok(false);
        }
        at += 1;
    }
    Ok(true)
}

/// The lemmas that are known to be active in a problem.
pub struct Walk<'a> {
    pub present: Present<'a>,
    pub reached: Reached,
}

impl Drop for Walk<'_> {
    fn drop(self) {
        let Walk { present, reached } = self;
        drop(present);
        drop(reached);
    }
}

impl<'a> Walk<'a> {
    /// Goes over the problem's clauses once.
    pub fn new(alloc: Global, table: &Table, problem: &'a Problem) -> Result<Self, AllocError>
        ensures knows { IfOk result (Knows table.now problem.now.clauses) }
        ensures none { IfOk result (λ w. w.reached ≡ []) }
    {
        Ok(Walk {
            present: Present::new(alloc, &table.book, problem.clauses.as_slice())?,
            reached: Reached::new(alloc),
        })
    }

    /// Whether all that the lemma of this number rests on is active. It goes over the steps of those that it rests on,
    /// without those that are reached already.
    pub fn is_active(&mut self, table: &Table, root: usize) -> Result<bool, AllocError>
        requires table { IsWhole table.now }
        requires root { root < vec_len table.now.lemmas }
        requires knows { Knows table.now self.old.present.clauses.now self.old }
        ensures active { IfOk result
            (λ b. b ≡ is_active self.old.present.clauses.now (facts_in table.now) root) }
        ensures knows { IfOk result (λ b. b ≡ true → Knows table.now self.old.present.clauses.now self.new) }
        ensures there { IfOk result (λ b. b ≡ true → Contains self.new.reached root) }
        ensures rests { IfOk result (λ b. b ≡ true → All (RestsOn table.now.lemmas.items root) self.old.reached
            → All (RestsOn table.now.lemmas.items root) self.new.reached) }
    {
        let active = reach(table, &self.present, &mut self.reached, root)?;
        Ok(active)
    }
}
