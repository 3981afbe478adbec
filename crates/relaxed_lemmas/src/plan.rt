//! What becomes of each lemma of a refutation.
use crate::run::assumed_at;
use refute_tree::{Lemma, Reader, StepView};
use std::alloc::{AllocError, Global};
use stn_core::Clause;

/// What becomes of a lemma.
#[derive(Clone, Copy, PartialEq, Eq)]
pub(crate) enum Plan {
    /// It stays a lemma of its own.
    Own,
    /// Its tree comes where the one lemma stands that cites it.
    Within,
    /// It has one literal, which is a case of the last lemma.
    Case,
}

/// What is known of the lemmas from their steps.
struct Survey<'a> {
    clauses: &'a [Clause],
    /// where the unit clauses begin that are taken for granted
    start: usize,
    /// for each lemma whether it rests on one of these
    rests: Vec<bool>,
    /// how often each lemma is cited
    uses: Vec<u32>,
    /// whether a lemma that does has cases
    has_cases: bool,
}

impl Drop for Survey<'_> {
    fn drop(self) {
        let Survey {
            clauses: _,
            start: _,
            rests,
            uses,
            has_cases: _,
        } = self;
        drop(rests);
        drop(uses);
    }
}

/// What is seen in the steps of one lemma.
#[derive(Clone, Copy)]
struct Seen {
    rests: bool,
    has_cases: bool,
}

impl Survey<'_> {
    fn rests_on(&self, lemma: usize) -> bool {
        self.rests.get(lemma).copied().unwrap_or(false)
    }

    /// Whether the clause has several literals.
    fn is_open(&self, number: usize) -> bool {
        match self.clauses.get(number) {
            Some(clause) => clause.as_slice().len() > 1,
            None => false,
        }
    }

    fn use_lemma(&mut self, lemma: usize) {
        if let Some(count) = self.uses.get_mut(lemma) {
            *count = count.saturating_add(1);
        }
    }

    fn note_step(&mut self, step: StepView<'_>, seen: &mut Seen) {
        match step {
            StepView::Input(i) | StepView::Clash(i) => {
                if assumed_at(self.clauses, self.start, i).is_some() {
                    seen.rests = true;
                }
                if self.is_open(i) {
                    seen.has_cases = true;
                }
            }
            StepView::Lemma(j) => {
                self.use_lemma(j);
                if self.rests_on(j) {
                    seen.rests = true;
                }
            }
            StepView::Either(_) => seen.has_cases = true,
            StepView::Cycle(_) | StepView::Pair(_) => (),
        }
    }

    fn note_lemma(&mut self, mut reader: Reader<'_>) -> Result<(), AllocError> {
        let mut seen = Seen {
            rests: false,
            has_cases: false,
        };
        'steps: while let Some(step) = reader.next() {
            self.note_step(step, &mut seen);
        }
        self.rests.push(seen.rests)?;
        self.has_cases = self.has_cases || (seen.rests && seen.has_cases);
        Ok(())
    }

    fn plan_of(&self, number: usize, lemma: &Lemma) -> Plan {
        let uses = self.uses.get(number).copied().unwrap_or(0);
        if !self.rests_on(number) {
            Plan::Own
        } else if lemma.clause.as_slice().len() == 1 {
            Plan::Case
        } else if uses == 1 {
            Plan::Within
        } else {
            Plan::Own
        }
    }
}

/// What becomes of each lemma where the unit clauses from that number on are taken for granted, if the last one rests on them and there are cases in the
/// lemmas that do: else a refutation is found as quickly.
pub(crate) fn plans(
    alloc: Global,
    clauses: &[Clause],
    start: usize,
    lemmas: &[Lemma],
) -> Result<Option<Vec<Plan>>, AllocError> {
    let mut survey = Survey {
        clauses,
        start,
        rests: Vec::with_capacity(alloc, lemmas.len())?,
        uses: vec![in alloc; 0; lemmas.len()]?,
        has_cases: false,
    };
    for lemma in lemmas {
        survey.note_lemma(lemma.steps.reader())?;
    }
    let last = lemmas.len().saturating_sub(1);
    if !survey.has_cases || !survey.rests_on(last) {
        return Ok(None);
    }
    let mut plans = Vec::with_capacity(alloc, lemmas.len())?;
    for (number, lemma) in lemmas.iter().enumerate() {
        plans.push(survey.plan_of(number, lemma))?;
    }
    Ok(Some(plans))
}
