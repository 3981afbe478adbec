//! A lemma's tree while it is written anew.
use refute_tree::{StepView, Steps};
use std::alloc::{AllocError, Global};

/// A lemma has no more premises: who cites it closes a case for each.
const MOST_PREMISES: usize = 64;

/// What is taken for granted where a lemma is written anew.
#[derive(Clone, Copy, PartialEq, Eq)]
pub(crate) enum Premise {
    /// The unit clause with this number.
    Clause(usize),
    /// The lemma with this number, which has one literal.
    Lemma(usize),
}

/// Where the tree comes to stand.
#[derive(Clone, Copy, PartialEq, Eq)]
pub(crate) enum Place {
    /// In a lemma of its own, or in the one that cites it.
    Lemma,
    /// In the last lemma, in which all lemmas of one literal hold that come before, and unit clauses are opened but once.
    Last,
}

pub(crate) struct Draft {
    place: Place,
    pub steps: Steps,
    pub premises: Vec<Premise>,
    /// the unit clauses that are to be opened first
    opened: Vec<usize>,
    /// for each clause whether it is one of them, as far as this goes
    is_opened: Vec<bool>,
    /// whether there would be more premises than a lemma has
    pub is_wide: bool,
}

impl Drop for Draft {
    fn drop(self) {
        let Draft {
            place: _,
            steps,
            premises,
            opened,
            is_opened,
            is_wide: _,
        } = self;
        drop(steps);
        drop(premises);
        drop(opened);
        drop(is_opened);
    }
}

impl Draft {
    /// It takes no memory yet.
    pub fn new(alloc: Global, place: Place) -> Self {
        Draft {
            place,
            steps: Steps::new(alloc),
            premises: Vec::new(alloc),
            opened: Vec::new(alloc),
            is_opened: Vec::new(alloc),
            is_wide: false,
        }
    }

    /// One more premise, if it isn't one already. In the last lemma those of one literal hold.
    pub fn assume(&mut self, premise: Premise) -> Result<(), AllocError> {
        if let (Place::Last, Premise::Lemma(_)) = (self.place, premise) {
            return Ok(());
        }
        if self.premises.iter().any(|other| *other == premise) {
            return Ok(());
        }
        if self.premises.len() >= MOST_PREMISES {
            self.is_wide = true;
            return Ok(());
        }
        self.premises.push(premise)?;
        Ok(())
    }

    /// The unit clause is to be opened before all else, once.
    fn open_first(&mut self, number: usize) -> Result<(), AllocError> {
        if self.is_opened.len() <= number {
            let room = number.saturating_add(1);
            self.is_opened.resize(room, false)?;
        }
        if let Some(is_opened) = self.is_opened.get_mut(number) {
            if !*is_opened {
                *is_opened = true;
                self.opened.push(number)?;
            }
        }
        Ok(())
    }

    /// Opens the clause, of one literal or of several.
    pub fn open(&mut self, number: usize, is_unit: bool) -> Result<(), AllocError> {
        if is_unit && self.place == Place::Last {
            self.open_first(number)
        } else {
            self.steps.push_input(number)
        }
    }

    /// The steps, behind those that open unit clauses.
    pub fn into_steps(self, alloc: Global) -> Result<(Steps, Vec<Premise>), AllocError> {
        let Draft {
            place: _,
            steps,
            premises,
            opened,
            is_opened,
            is_wide: _,
        } = self;
        drop(is_opened);
        if opened.is_empty() {
            return Ok((steps, premises));
        }
        let mut all = Steps::new(alloc);
        for number in &opened {
            all.push_input(*number)?;
        }
        all.append(&steps)?;
        Ok((all, premises))
    }
}
