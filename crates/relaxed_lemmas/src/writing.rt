//! Lemmas written anew.
use crate::draft::{Draft, Place, Premise};
use crate::plan::Plan;
use crate::run::{assumed_at, unit_of};
use refute_tree::{Lemma, Reader, StepView, Steps};
use std::alloc::{AllocError, Global};
use stn_core::{Clause, Literal, negate};

/// The tree of a lemma comes where it is cited only as long as it has no more steps: trees that stand in one another are copied each time.
const LONGEST_WITHIN: usize = 1_000;

/// How a lemma was written.
#[derive(Drop)]
enum Written {
    /// As a lemma with this number and these premises, which its first literals deny.
    Own(usize, Vec<Premise>),
    /// As a tree that comes where the lemma is cited.
    Within(Draft),
    /// As a case of the last lemma.
    Case,
}

/// What the steps of a lemma are written by.
#[derive(Clone, Copy)]
struct Sources<'a> {
    clauses: &'a [Clause],
    start: usize,
    lemmas: &'a [Lemma],
    written: &'a [Written],
}

impl<'a> Sources<'a> {
    /// The literal that is taken for granted.
    fn literal_of(self, premise: Premise) -> Option<Literal> {
        match premise {
            Premise::Clause(i) => assumed_at(self.clauses, self.start, i),
            Premise::Lemma(j) => unit_of(self.clause_of(j)),
        }
    }

    /// The clause of a lemma as it was.
    fn clause_of(self, lemma: usize) -> &'a [Literal] {
        match self.lemmas.get(lemma) {
            Some(lemma) => lemma.clause.as_slice(),
            None => &[],
        }
    }

    fn is_unit(self, number: usize) -> bool {
        match self.clauses.get(number) {
            Some(clause) => clause.as_slice().len() == 1,
            None => false,
        }
    }
}

fn open(sources: Sources<'_>, draft: &mut Draft, number: usize) -> Result<(), AllocError> {
    if assumed_at(sources.clauses, sources.start, number).is_some() {
        draft.assume(Premise::Clause(number))
    } else {
        draft.open(number, sources.is_unit(number))
    }
}

fn clash(sources: Sources<'_>, draft: &mut Draft, number: usize) -> Result<(), AllocError> {
    match assumed_at(sources.clauses, sources.start, number) {
        Some(literal) => {
            draft.assume(Premise::Clause(number))?;
            draft.steps.push_pair(literal)
        }
        None => draft.steps.push_clash(number),
    }
}

/// The lemma with its premises: the cases in which these are denied come first.
fn cite_own(
    sources: Sources<'_>,
    draft: &mut Draft,
    number: usize,
    premises: &[Premise],
) -> Result<(), AllocError> {
    draft.steps.push_lemma(number)?;
    for premise in premises {
        draft.assume(*premise)?;
        if let Some(literal) = sources.literal_of(*premise) {
            draft.steps.push_pair(negate(literal))?;
        }
    }
    Ok(())
}

/// A step of a tree that was written already.
fn copy_step(
    sources: Sources<'_>,
    draft: &mut Draft,
    step: StepView<'_>,
) -> Result<(), AllocError> {
    match step {
        StepView::Input(i) => draft.open(i, sources.is_unit(i)),
        _ => draft.steps.push(step),
    }
}

fn copy_steps(
    sources: Sources<'_>,
    draft: &mut Draft,
    mut reader: Reader<'_>,
) -> Result<(), AllocError> {
    'steps: while let Some(step) = reader.next() {
        copy_step(sources, draft, step)?;
    }
    Ok(())
}

/// The lemma's tree, where all its literals are denied, before the cases in which one holds.
fn cite_within(
    sources: Sources<'_>,
    draft: &mut Draft,
    clause: &[Literal],
    within: &Draft,
) -> Result<(), AllocError> {
    for place in (0..clause.len()).rev() {
        draft.steps.push_either(negate(clause[place]))?;
    }
    for premise in &within.premises {
        draft.assume(*premise)?;
    }
    copy_steps(sources, draft, within.steps.reader())
}

fn cite(sources: Sources<'_>, draft: &mut Draft, lemma: usize) -> Result<(), AllocError> {
    match sources.written.get(lemma) {
        None => Ok(()),
        Some(Written::Own(number, premises)) => cite_own(sources, draft, *number, premises),
        Some(Written::Within(within)) => cite_within(
            sources,
            draft,
            sources.clause_of(lemma),
            within,
        ),
        Some(Written::Case) => draft.assume(Premise::Lemma(lemma)),
    }
}

fn write_step(
    sources: Sources<'_>,
    draft: &mut Draft,
    step: StepView<'_>,
) -> Result<(), AllocError> {
    match step {
        StepView::Input(i) => open(sources, draft, i),
        StepView::Clash(i) => clash(sources, draft, i),
        StepView::Lemma(j) => cite(sources, draft, j),
        StepView::Cycle(_) | StepView::Pair(_) | StepView::Either(_) => draft.steps.push(step),
    }
}

fn write_steps(
    sources: Sources<'_>,
    draft: &mut Draft,
    mut reader: Reader<'_>,
) -> Result<(), AllocError> {
    'steps: while let Some(step) = reader.next() {
        write_step(sources, draft, step)?;
    }
    Ok(())
}

/// The denials of the premises, and these literals.
fn widened(
    sources: Sources<'_>,
    alloc: Global,
    premises: &[Premise],
    clause: &[Literal],
) -> Result<Clause, AllocError> {
    let mut literals = Vec::with_capacity(alloc, premises.len().saturating_add(clause.len()))?;
    for premise in premises {
        if let Some(literal) = sources.literal_of(*premise) {
            literals.push(negate(literal))?;
        }
    }
    literals.extend_from_slice(clause)?;
    Clause::from_slice(alloc, literals.as_slice())
}

/// The lemma by its draft.
fn lemma_by(
    sources: Sources<'_>,
    alloc: Global,
    draft: Draft,
    clause: &[Literal],
) -> Result<(Lemma, Vec<Premise>), AllocError> {
    let (mut steps, premises) = draft.into_steps(alloc)?;
    steps.shrink_to_fit();
    let clause = widened(sources, alloc, premises.as_slice(), clause)?;
    Ok((Lemma { clause, steps }, premises))
}

/// How a lemma is written that doesn't become a case.
fn written_by(
    sources: Sources<'_>,
    alloc: Global,
    draft: Draft,
    clause: &[Literal],
    plan: Plan,
    all: &mut Vec<Lemma>,
) -> Result<Written, AllocError> {
    if plan == Plan::Within && draft.steps.len() <= LONGEST_WITHIN {
        return Ok(Written::Within(draft));
    }
    let (lemma, premises) = lemma_by(sources, alloc, draft, clause)?;
    let number = all.len();
    all.push(lemma)?;
    Ok(Written::Own(number, premises))
}

/// Writes one that isn't the last, if it has few premises.
fn write_one(
    sources: Sources<'_>,
    alloc: Global,
    lemma: &Lemma,
    plan: Plan,
    last: &mut Draft,
    all: &mut Vec<Lemma>,
) -> Result<Option<Written>, AllocError> {
    let clause = lemma.clause.as_slice();
    if plan == Plan::Case {
        write_case(sources, last, clause, lemma.steps.reader())?;
        return Ok(Some(Written::Case));
    }
    let mut draft = Draft::new(alloc, Place::Lemma);
    write_steps(sources, &mut draft, lemma.steps.reader())?;
    if draft.is_wide {
        return Ok(None);
    }
    let written = written_by(sources, alloc, draft, clause, plan, all)?;
    Ok(Some(written))
}

/// The lemmas as they are planned, of which the last has the denials of its premises alone, if all have few premises.
pub(crate) fn write(
    alloc: Global,
    clauses: &[Clause],
    start: usize,
    lemmas: &[Lemma],
    plans: &[Plan],
) -> Result<Option<Vec<Lemma>>, AllocError> {
    let Some((end, others)) = lemmas.split_last() else {
        return Ok(None);
    };
    let mut written = Vec::with_capacity(alloc, lemmas.len())?;
    let mut all = Vec::new(alloc);
    let mut last = Draft::new(alloc, Place::Last);
    for (number, lemma) in others.iter().enumerate() {
        let plan = plans.get(number).copied().unwrap_or(Plan::Own);
        let sources = Sources {
            clauses,
            start,
            lemmas,
            written: &written,
        };
        let Some(one) = write_one(sources, alloc, lemma, plan, &mut last, &mut all)? else {
            return Ok(None);
        };
        written.push(one)?;
    }
    let sources = Sources {
        clauses,
        start,
        lemmas,
        written: &written,
    };
    write_steps(sources, &mut last, end.steps.reader())?;
    if last.is_wide {
        return Ok(None);
    }
    let (lemma, _premises) = lemma_by(sources, alloc, last, &[])?;
    all.push(lemma)?;
    Ok(Some(all))
}

/// The tree of a lemma of one literal, where this is denied; behind it stands what follows where it holds.
fn write_case(
    sources: Sources<'_>,
    last: &mut Draft,
    clause: &[Literal],
    reader: Reader<'_>,
) -> Result<(), AllocError> {
    if let Some(literal) = unit_of(clause) {
        last.steps.push_either(negate(literal))?;
    }
    write_steps(sources, last, reader)
}
