//! Which lemmas of a list the marked ones need.
ghost use Rattle.std.specs.Prelude.{◌≡◌, ◌≤◌, length, All, true, IfOk};
ghost use Rattle.refute_tree.specs.code.Views.{step_seen};
ghost use Rattle.trim_lemmas.specs.Trimming.{AreNeeded, IsLast, IsWanted};
ghost use Rattle.trim_lemmas.specs.code.Marks.{marked_step, marked, swept, with_last};

use refute_tree::{Lemma, Reader, StepView};
use std::alloc::{AllocError, Global};

// Marks the lemma of the list that the step cites, where it stands before the one of this number.
fn mark_step(step: StepView<'_>, seen: usize, number: usize, needed: &mut [bool])
    requires { number ≤ length needed.old }
    ensures { needed.new ≡ marked_step seen number (step_seen step.entry) needed.old }
{
    if let StepView::Lemma(j) = step {
        if j < seen {
            return;
        }
        let own = j - seen;
        if own < number {
            needed[own] = true;
        }
    }
}

// Marks the lemmas that the steps of the lemma of this number cite.
fn mark_cited(mut reader: Reader<'_>, seen: usize, number: usize, needed: &mut [bool])
    requires { number ≤ length needed.old }
    ensures { needed.new ≡ marked seen number reader.entry needed.old }
{
    while let Some(step) = reader.next() {
        mark_step(step, seen, number, needed);
    }
}

// Marks what the marked lemmas cite, from the last one to the first.
fn mark_back(seen: usize, lemmas: &[Lemma], needed: &mut [bool])
    requires { length needed.old ≡ length lemmas.now }
    ensures { needed.new ≡ swept seen (length lemmas.now) lemmas.now needed.old }
{
    let mut number = lemmas.len();
    'back: while number > 0 {
        number -= 1;
        if needed[number] {
            mark_cited(lemmas[number].steps.reader(), seen, number, needed);
        }
    }
}

fn mark_last(needed: &mut [bool])
    ensures { needed.new ≡ with_last needed.old }
{
    let count = needed.len();
    if count > 0 {
        needed[count - 1] = true;
    }
}

// Whether all are marked.
fn are_all(marks: &[bool]) -> bool
    ensures { result ≡ true → All (λ mark. mark ≡ true) marks.now }
{
    marks.iter().all(|is_marked| *is_marked)
}

/// For each lemma whether it is marked or a marked one needs it. It goes over the steps of the needed ones once, and over none where all are marked.
pub fn needed_by(seen: usize, lemmas: &[Lemma], mut marks: Vec<bool>) -> Vec<bool>
    requires { length marks.items ≡ length lemmas.now }
    ensures { AreNeeded (IsWanted marks.items) seen lemmas.now result.items }
{
    if are_all(marks.as_slice()) {
        return marks;
    }
    mark_back(seen, lemmas, marks.as_mut_slice());
    marks
}

/// For each lemma whether the last one needs it.
pub fn needed_lemmas(alloc: Global, lemmas: &[Lemma]) -> Result<Vec<bool>, AllocError>
    ensures { IfOk result (λ needed. AreNeeded (IsLast lemmas.now) 0 lemmas.now needed.items) }
{
    let mut marks = vec![in alloc; false; lemmas.len()]?;
    mark_last(marks.as_mut_slice());
    Ok(needed_by(0, lemmas, marks))
}
