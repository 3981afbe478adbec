//! Which clauses of its problem a refutation rests on.
ghost use Rattle.std.specs.Prelude.{◌≡◌, length, nat_eq, suc, false, slice_index_or, ℕ, IfOk, OnOk};
ghost use Rattle.std.specs.List.{list_any};
ghost use Rattle.refute_tree.specs.code.Views.{step_seen};
ghost use Rattle.unsat_cores.specs.Cited.{AreCited, names_clause, cites_lemma, cites_clause};
ghost use Rattle.unsat_cores.specs.code.Sweeping.{MarksMore, MarksWithin, true_places};

use refute_tree::{Lemma, Reader, Refutation, StepView};
use std::alloc::{AllocError, Global};

// Marks the number, and makes room for it.
fn mark(marks: &mut Vec<bool>, number: usize) -> Result<(), AllocError>
    ensures { OnOk result (MarksMore (λ i. nat_eq i number) marks.old.items marks.new.items) }
{
    let Some(room) = number.checked_add(1) else {
        return Err(AllocError);
    };
    if marks.len() < room {
        marks.resize(room, false)?;
    }
    marks[number] = true;
    Ok(())
}

// Marks the lemma that the step cites, or the clause that it names.
fn mark_step(
    step: StepView<'_>,
    needed: &mut [bool],
    cited: &mut Vec<bool>,
) -> Result<(), AllocError>
    ensures needed { OnOk result (MarksWithin (λ j. cites_lemma j (step_seen step.entry)) needed.old needed.new) }
    ensures cited { OnOk result (MarksMore (λ i. names_clause i (step_seen step.entry)) cited.old.items cited.new.items) }
{
    match step {
        StepView::Lemma(j) => {
            if j < needed.len() {
                needed[j] = true;
            }
            Ok(())
        }
        StepView::Input(i) | StepView::Clash(i) => mark(cited, i),
        StepView::Cycle(_) | StepView::Pair(_) | StepView::Either(_) => Ok(()),
    }
}

// Marks what the steps of a lemma cite and name.
fn mark_lemma(
    mut reader: Reader<'_>,
    needed: &mut [bool],
    cited: &mut Vec<bool>,
) -> Result<(), AllocError>
    ensures needed { OnOk result (MarksWithin (λ j. list_any (cites_lemma j) reader.entry) needed.old needed.new) }
    ensures cited { OnOk result (MarksMore (λ i. list_any (names_clause i) reader.entry) cited.old.items cited.new.items) }
{
    'steps: while let Some(step) = reader.next() {
        mark_step(step, needed, cited)?;
    }
    Ok(())
}

fn mark_last(needed: &mut [bool])
    ensures { MarksWithin (λ j. nat_eq (suc j) (length needed.old)) needed.old needed.new }
{
    let count = needed.len();
    if count > 0 {
        needed[count - 1] = true;
    }
}

// For each clause whether a needed lemma names it, as far as there are marks: from the last lemma to the first.
pub(crate) fn cited_marks(alloc: Global, lemmas: &[Lemma]) -> Result<Vec<bool>, AllocError>
    ensures { IfOk result (λ cited. (i : ℕ) → slice_index_or cited.items i false ≡ cites_clause lemmas.now i) }
{
    let mut needed = vec![in alloc; false; lemmas.len()]?;
    mark_last(needed.as_mut_slice());
    let mut cited = Vec::new(alloc);
    let mut number = lemmas.len();
    'back: while number > 0 {
        number -= 1;
        if needed[number] {
            mark_lemma(
                lemmas[number].steps.reader(),
                needed.as_mut_slice(),
                &mut cited,
            )?;
        }
    }
    Ok(cited)
}

// The places that are true.
fn true_places(alloc: Global, marks: &[bool]) -> Result<Vec<usize>, AllocError>
    ensures { IfOk result (λ numbers. numbers.items ≡ true_places 0 marks.now) }
{
    let mut numbers = Vec::new(alloc);
    for (i, is_marked) in marks.iter().enumerate() {
        if *is_marked {
            numbers.push(i)?;
        }
    }
    Ok(numbers)
}

/// The numbers of the problem's clauses that the last lemma names, by an input step or a clash, or a lemma that it cites,
/// directly or through others: ascending, each once. What refutes a problem refutes these clauses alone
/// ([`cited_law`](crate::cited_law)).
///
/// It takes time in the steps of the needed lemmas, and memory of the order of the lemmas and of the greatest such number.
pub fn cited(alloc: Global, refutation: &Refutation) -> Result<Vec<usize>, AllocError>
    ensures { IfOk result (λ numbers. AreCited refutation.now numbers.items) }
{
    let marks = cited_marks(alloc, refutation.as_slice())?;
    let numbers = true_places(alloc, marks.as_slice())?;
    Ok(numbers)
}
