//! How much memory lemmas take.
use refute_tree::{Cycle, Lemma, StepView, Steps};
use stn_core::Literal;

/// A count of lemmas and of their steps, and the bytes of the steps and of the clauses.
#[derive(Clone, Copy)]
pub struct Size {
    pub lemmas: usize,
    pub steps: usize,
    pub bytes: usize,
}

/// What a literal takes.
const LITERAL: usize = 16;

/// Whether the literal's points are below 2^16, and its bound is of 32 bits.
fn is_narrow(literal: Literal) -> bool {
    let is_bound = -(1 << 31) <= literal.c && literal.c < 1 << 31;
    literal.x < 1 << 16 && literal.y < 1 << 16 && is_bound
}

fn bytes_of_literal(literal: Literal) -> usize {
    if is_narrow(literal) { 9 } else { LITERAL + 1 }
}

/// Whether each literal is narrow and begins where the one before it ends.
fn is_path(cycle: Cycle<'_>) -> bool {
    let mut point = None;
    for place in 0..cycle.len() {
        let literal = cycle.at(place);
        if !is_narrow(literal) || point.is_some_and(|end| end != literal.x) {
            return false;
        }
        point = Some(literal.y);
    }
    point.is_some()
}

fn bytes_of_cycle(cycle: Cycle<'_>) -> usize {
    if is_path(cycle) {
        cycle.len().saturating_mul(6).saturating_add(7)
    } else {
        cycle.len().saturating_mul(LITERAL).saturating_add(9)
    }
}

fn bytes_of_step(step: StepView<'_>) -> usize {
    match step {
        StepView::Cycle(cycle) => bytes_of_cycle(cycle),
        StepView::Pair(literal) => bytes_of_literal(literal),
        StepView::Either(literal) => bytes_of_literal(literal),
        StepView::Input(_) => 5,
        StepView::Clash(_) => 5,
        StepView::Lemma(_) => 5,
    }
}

fn bytes_of_steps(steps: &Steps) -> usize {
    let mut bytes = 0usize;
    let mut reader = steps.reader();
    for _step in 0..steps.len() {
        if let Some(step) = reader.next() {
            bytes = bytes.saturating_add(bytes_of_step(step));
        }
    }
    bytes
}

/// The steps of all lemmas, and what the list of steps says that they take, with the literals of the clauses.
pub fn size_of_lemmas(lemmas: &[Lemma]) -> Size {
    let mut size = Size {
        lemmas: lemmas.len(),
        steps: 0,
        bytes: 0,
    };
    for lemma in lemmas {
        let clause = lemma.clause.as_slice().len().saturating_mul(LITERAL);
        size.steps = size.steps.saturating_add(lemma.steps.len());
        size.bytes = size
            .bytes
            .saturating_add(clause)
            .saturating_add(bytes_of_steps(&lemma.steps));
    }
    size
}
