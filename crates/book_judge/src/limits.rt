//! Whether literals are within the limits.
ghost use Rattle.std.specs.Prelude.{◌↔◌, IsTrue, All};
ghost use Rattle.stn_core.specs.Literal.{IsOver};
ghost use Rattle.refute_tree.specs.code.Views.{step_seen};
ghost use Rattle.refute_tree.specs.Batches.{NamesOver, LemmaIsOver};

use refute_tree::{Lemma, StepView, Steps};
use stn_core::{BOUND_LIMIT, Literal};

const GREATEST: i64 = BOUND_LIMIT as i64;

fn is_over(points: u32, literal: Literal) -> bool
    ensures { IsTrue result ↔ IsOver points literal }
{
    literal.x < points && literal.y < points && literal.c <= GREATEST && literal.c >= -GREATEST - 1
}

fn are_over(points: u32, literals: &[Literal]) -> bool
    ensures { IsTrue result ↔ All (IsOver points) literals.now }
{
    for literal in literals {
        if !is_over(points, *literal) {
            return false;
        }
    }
    true
}

fn names_over(points: u32, steps: &Steps) -> bool
    ensures { IsTrue result ↔ All (NamesOver points) steps.now }
{
    let mut reader = steps.reader();
    while let Some(step) = reader.next() {
        if !step_over(points, step) {
            return false;
        }
    }
    true
}

fn step_over(points: u32, step: StepView<'_>) -> bool
    ensures { IsTrue result ↔ NamesOver points (step_seen step.entry) }
{
    match step {
        StepView::Either(literal) => is_over(points, literal),
        _ => true,
    }
}

/// Whether the literals of the lemma's clause, and those that its steps name, are within the limits.
pub(crate) fn lemma_over(points: u32, lemma: &Lemma) -> bool
    ensures { IsTrue result ↔ LemmaIsOver points lemma.now }
{
    are_over(points, lemma.clause.as_slice()) && names_over(points, &lemma.steps)
}
