//! Resolvents as lemmas.
use crate::elimination::Elimination;
use crate::table::{Resolution, Table};
use refute_tree::{Lemma, Steps};
use std::alloc::{AllocError, Global};
use stn_core::{Clause, Literal, Problem, negate};

/// Where a clause comes from: it is the problem's clause with this number, or the lemma with this number states it, from 0.
#[derive(Clone, Copy, Debug, PartialEq, Eq)]
pub enum Origin {
    Input(usize),
    Lemma(usize),
}

/// The lemmas of resolvents, and for each clause of the table where it comes from, if it was needed.
pub(crate) struct Derivation {
    pub lemmas: Vec<Lemma>,
    origins: Vec<Option<Origin>>,
}

impl Drop for Derivation {
    fn drop(self) {
        let Derivation { lemmas, origins } = self;
        drop(lemmas);
        drop(origins);
    }
}

fn mark(marks: &mut [bool], row: u32) {
    if let Some(mark) = marks.get_mut(row as usize) {
        *mark = true;
    }
}

/// Which clauses of the table are there, or were resolved for one that is.
fn needed(alloc: Global, table: &Table) -> Result<Vec<bool>, AllocError> {
    let mut needed = vec![in alloc; false; table.len() as usize]?;
    for row in (0..table.len()).rev() {
        let was_resolved = needed.get(row as usize).copied().unwrap_or(false);
        if was_resolved || table.is_alive(row) {
            mark(&mut needed, row);
            if let Some(made) = table.made(row) {
                mark(&mut needed, made.first);
                mark(&mut needed, made.second);
            }
        }
    }
    Ok(needed)
}

/// The literals of a clause of the table.
fn clause_of(alloc: Global, elimination: &Elimination, row: u32) -> Result<Clause, AllocError> {
    let mut literals = Vec::new(alloc);
    for number in elimination.table.literals(row) {
        if let Some(literal) = elimination.atoms.literal(*number) {
            literals.push(literal)?;
        }
    }
    Clause::from_slice(alloc, &literals)
}

impl Derivation {
    fn literals<'a>(&'a self, problem: &'a Problem, origin: Origin) -> &'a [Literal] {
        match origin {
            Origin::Input(i) => match problem.clauses.as_slice().get(i) {
                Some(clause) => clause.as_slice(),
                None => &[],
            },
            Origin::Lemma(j) => match self.lemmas.get(j) {
                Some(lemma) => lemma.clause.as_slice(),
                None => &[],
            },
        }
    }

    /// Where the clause of the table comes from, if it was needed.
    pub fn origin(&self, row: u32) -> Option<Origin> {
        self.origins.get(row as usize).copied()?
    }

    /// The clause, each of whose literals is denied, ends the branch: one of the problem is a leaf.
    fn push_denied(
        &self,
        problem: &Problem,
        origin: Origin,
        steps: &mut Steps,
    ) -> Result<(), AllocError> {
        match origin {
            Origin::Input(i) => steps.push_clash(i),
            Origin::Lemma(j) => {
                steps.push_lemma(j)?;
                for literal in self.literals(problem, origin) {
                    steps.push_pair(*literal)?;
                }
                Ok(())
            }
        }
    }

    /// The tree of a resolvent: the cases of the one clause, and where its pivot is assumed the other one, which is denied.
    fn steps(
        &self,
        alloc: Global,
        problem: &Problem,
        first: Origin,
        second: Origin,
        pivot: Literal,
    ) -> Result<Steps, AllocError> {
        let mut steps = Steps::new(alloc);
        match first {
            Origin::Input(i) => steps.push_input(i)?,
            Origin::Lemma(j) => steps.push_lemma(j)?,
        }
        for literal in self.literals(problem, first) {
            if *literal == pivot {
                self.push_denied(problem, second, &mut steps)?;
            } else {
                steps.push_pair(*literal)?;
            }
        }
        steps.shrink_to_fit();
        Ok(steps)
    }

    /// The tree of a resolvent, if all of it is known. A clause of the problem comes second where there is one.
    fn tree(
        &self,
        alloc: Global,
        problem: &Problem,
        made: Resolution,
        pivot: Literal,
    ) -> Result<Option<Steps>, AllocError> {
        let (Some(first), Some(second)) = (self.origin(made.first), self.origin(made.second)) else {
            return Ok(None);
        };
        let steps = match second {
            Origin::Input(_) => self.steps(alloc, problem, first, second, pivot)?,
            Origin::Lemma(_) => self.steps(alloc, problem, second, first, negate(pivot))?,
        };
        Ok(Some(steps))
    }

    /// The lemma of a resolvent, and where the clause comes from then.
    fn push_lemma(
        &mut self,
        alloc: Global,
        problem: &Problem,
        elimination: &Elimination,
        row: u32,
        made: Resolution,
    ) -> Result<Option<Origin>, AllocError> {
        let Some(pivot) = elimination.atoms.literal(made.pivot) else {
            return Ok(None);
        };
        let Some(steps) = self.tree(alloc, problem, made, pivot)? else {
            return Ok(None);
        };
        let clause = clause_of(alloc, elimination, row)?;
        let number = self.lemmas.len();
        self.lemmas.push(Lemma { clause, steps })?;
        Ok(Some(Origin::Lemma(number)))
    }

    /// The lemmas of all resolvents that are there, or were resolved for one that is.
    pub fn of(
        alloc: Global,
        problem: &Problem,
        elimination: &Elimination,
    ) -> Result<Self, AllocError> {
        let needed = needed(alloc, &elimination.table)?;
        let mut derivation = Derivation {
            lemmas: Vec::new(alloc),
            origins: Vec::with_capacity(alloc, needed.len())?,
        };
        for row in 0..elimination.table.len() {
            let is_needed = needed.get(row as usize).copied().unwrap_or(false);
            let origin = match elimination.table.made(row) {
                None => Some(Origin::Input(row as usize)),
                Some(made) => {
                    if is_needed {
                        derivation.push_lemma(alloc, problem, elimination, row, made)?
                    } else {
                        None
                    }
                }
            };
            derivation.origins.push(origin)?;
        }
        Ok(derivation)
    }

    /// The lemmas, without taking memory.
    pub fn into_lemmas(self) -> Vec<Lemma> {
        let Derivation { lemmas, origins } = self;
        drop(origins);
        lemmas
    }
}
