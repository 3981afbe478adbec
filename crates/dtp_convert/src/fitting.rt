//! Whether the numbers of lemmas are within the limits of the format.
ghost use Rattle.std.specs.Prelude.{All, IsTrue, ◌^◌};
ghost use Rattle.stn_core.specs.Named.{IsWithinLimit, AreWithinLimit};
ghost use Rattle.refute_tree.specs.code.Views.{literals_of, step_seen};
ghost use Rattle.cert_text.specs.declared.entry.Version.TheVariants.{One};
ghost use Rattle.cert_text.specs.Limits.{LiteralWithin, StepWithin, LemmaWithin, WholeFits};

use cert_text::NUMBER_LIMIT;
use refute_tree::{Cycle, Lemma, Reader, StepView};
use stn_core::{Literal, NAMED_VALUE_LIMIT, NamedValue, Value, negate};

fn is_within(literal: Literal) -> bool
    ensures { IsTrue result → LiteralWithin (2 ^ 32) literal }
{
    literal.c.unsigned_abs() <= NUMBER_LIMIT
}

fn is_cycle_within(cycle: Cycle<'_>) -> bool
    ensures { IsTrue result → All (LiteralWithin (2 ^ 32)) (literals_of cycle.entry) }
{
    for place in 0..cycle.len() {
        if !is_within(cycle.at(place)) {
            return false;
        }
    }
    true
}

fn is_clause_within(literals: &[Literal]) -> bool
    ensures { IsTrue result → All (LiteralWithin (2 ^ 32)) literals.now }
{
    literals.iter().all(|literal| is_within(*literal))
}

fn is_step_within(step: StepView<'_>) -> bool
    ensures { IsTrue result → StepWithin One (2 ^ 32) (step_seen step.entry) }
{
    match step {
        StepView::Cycle(cycle) => is_cycle_within(cycle),
        StepView::Pair(literal) => is_within(literal) && is_within(negate(literal)),
        StepView::Input(i) => i as u64 <= NUMBER_LIMIT,
        StepView::Lemma(j) => j as u64 <= NUMBER_LIMIT,
        StepView::Clash(_) => false,
        StepView::Either(literal) => is_within(literal),
    }
}

fn are_steps_within(mut reader: Reader<'_>) -> bool
    ensures { IsTrue result → All (StepWithin One (2 ^ 32)) reader.entry }
{
    while let Some(step) = reader.next() {
        if !is_step_within(step) {
            return false;
        }
    }
    true
}

fn is_lemma_within(lemma: &Lemma) -> bool
    ensures { IsTrue result → LemmaWithin One (2 ^ 32) lemma.now }
{
    is_clause_within(lemma.clause.as_slice()) && are_steps_within(lemma.steps.reader())
}

fn is_value_within(value: NamedValue) -> bool
    ensures { IsTrue result → IsWithinLimit value }
{
    match value {
        NamedValue::Int(n) => n.unsigned_abs() <= NAMED_VALUE_LIMIT,
        NamedValue::Truth(_) => true,
    }
}

/// Whether a certificate may have the value of a term, or of a time point.
pub fn is_whole_within(value: Value) -> bool
    ensures { IsTrue result → WholeFits value }
{
    value.unsigned_abs() <= NAMED_VALUE_LIMIT
}

/// Whether a certificate may have the values of time points.
pub fn are_wholes_within(values: &[Value]) -> bool
    ensures { IsTrue result → All WholeFits values.now }
{
    values.iter().all(|value| is_whole_within(*value))
}

/// Whether a certificate may have the values of names.
pub fn are_values_within(values: &[NamedValue]) -> bool
    ensures { IsTrue result → AreWithinLimit values.now }
{
    values.iter().all(|value| is_value_within(*value))
}

/// Whether a certificate of the first version may have the lemmas: their numbers are within its limits, and no step is a
/// clash.
pub fn are_within(lemmas: &[Lemma]) -> bool
    ensures { IsTrue result → All (LemmaWithin One (2 ^ 32)) lemmas.now }
{
    lemmas.iter().all(|lemma| is_lemma_within(lemma))
}
