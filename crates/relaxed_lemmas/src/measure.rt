//! How long lemmas are.
use refute_tree::{Lemma, Reader, StepView};

fn step_length(step: StepView<'_>) -> usize {
    match step {
        StepView::Cycle(cycle) => cycle.len().saturating_add(1),
        StepView::Pair(_) => 3,
        StepView::Input(_) | StepView::Lemma(_) | StepView::Clash(_) | StepView::Either(_) => 1,
    }
}

fn steps_length(mut reader: Reader<'_>) -> usize {
    let mut length = 0usize;
    'steps: while let Some(step) = reader.next() {
        length = length.saturating_add(step_length(step));
    }
    length
}

/// The count of their literals and steps, about as their texts have it.
pub(crate) fn length_of(lemmas: &[Lemma]) -> usize {
    let mut length = 0usize;
    for lemma in lemmas {
        let literals = lemma.clause.as_slice().len().saturating_add(2);
        length = length
            .saturating_add(literals)
            .saturating_add(steps_length(lemma.steps.reader()));
    }
    length
}
