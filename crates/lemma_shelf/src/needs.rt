//! How many time points a problem must have for a lemma.
ghost use Rattle.std.specs.Prelude.{◌≡◌, ◌<◌, ℕ, length, All, ◌&&◌, nat_le};
ghost use Rattle.std.specs.List.{list_all};
ghost use Rattle.cert_check.specs.Tests.{is_on_points};
ghost use Rattle.refute_tree.specs.code.Views.{step_seen};
ghost use Rattle.lemma_shelf.specs.code.Tables.{CitesBelow, step_fits, NeedsOf};

use refute_tree::{Lemma, Reader, StepView};
use stn_core::Literal;

fn larger(a: u64, b: u64) -> u64
    ensures { NeedsOf result (λ count. nat_le a count && nat_le b count) }
{
    if a < b { b } else { a }
}

fn of_literal(literal: Literal) -> u64
    ensures { NeedsOf result (λ count. is_on_points count literal) }
{
    let needs = larger(u64::from(literal.x) + 1, u64::from(literal.y) + 1);
    needs
}

// The same of all literals, and at least so many.
fn of_literals(literals: &[Literal], least: u64) -> u64
    ensures { NeedsOf result (λ count. nat_le least count && list_all (is_on_points count) literals.now) }
{
    let mut needs = least;
    for literal in literals {
        needs = larger(needs, of_literal(*literal));
    }
    needs
}

// The lemma that the step cites needs so many as the table says.
fn of_step(points: &[u64], step: StepView<'_>) -> u64
    requires { CitesBelow (length points.now) (step_seen step) }
    ensures { NeedsOf result (λ count. step_fits points.now count (step_seen step.entry)) }
{
    match step {
        StepView::Either(literal) => of_literal(literal),
        StepView::Lemma(j) => points[j],
        StepView::Input(_) => 0,
        StepView::Clash(_) => 0,
        StepView::Cycle(_) => 0,
        StepView::Pair(_) => 0,
    }
}

fn of_steps(points: &[u64], mut reader: Reader<'_>, least: u64) -> u64
    requires { All (CitesBelow (length points.now)) reader }
    ensures { NeedsOf result (λ count. nat_le least count && list_all (step_fits points.now count) reader.entry) }
{
    let mut needs = least;
    'steps: while let Some(step) = reader.next() {
        needs = larger(needs, of_step(points, step));
    }
    needs
}

/// The least count of time points that a problem must have for the lemma, where those that it cites need so many.
pub fn needs_of(points: &[u64], lemma: &Lemma) -> u64
    requires { All (CitesBelow (length points.now)) lemma.now.steps }
    ensures { NeedsOf result (λ count. list_all (is_on_points count) lemma.now.clause
        && list_all (step_fits points.now count) lemma.now.steps) }
{
    let literals = of_literals(lemma.clause.as_slice(), 0);
    let needs = of_steps(points, lemma.steps.reader(), literals);
    needs
}
