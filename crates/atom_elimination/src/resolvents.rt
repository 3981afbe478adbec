//! The resolvents on one atom, before they stand in the table.
use crate::atoms::LiteralNumber;
use crate::merging::resolve;
use crate::table::{Resolution, Table};
use std::alloc::{AllocError, Global};

/// A resolvent has no more literals.
const MOST_LITERALS: usize = 100;

/// A resolvent whose literals end here, among those of all.
#[derive(Clone, Copy)]
struct Resolvent {
    end: usize,
    made: Resolution,
}

pub(crate) struct Resolvents {
    literals: Vec<LiteralNumber>,
    resolvents: Vec<Resolvent>,
    /// how many pairs of clauses were resolved
    pairs: usize,
}

impl Drop for Resolvents {
    fn drop(self) {
        let Resolvents {
            literals,
            resolvents,
            pairs: _,
        } = self;
        drop(literals);
        drop(resolvents);
    }
}

impl Resolvents {
    pub fn new(alloc: Global) -> Self {
        Resolvents {
            literals: Vec::new(alloc),
            resolvents: Vec::new(alloc),
            pairs: 0,
        }
    }

    /// How much was done for them.
    pub fn work(&self) -> usize {
        self.pairs.saturating_add(self.literals.len())
    }

    /// The resolvent of a pair, if it doesn't always hold; whether it is short.
    fn resolve_pair(&mut self, table: &Table, made: Resolution) -> Result<bool, AllocError> {
        let start = self.literals.len();
        let first = table.literals(made.first);
        let second = table.literals(made.second);
        self.pairs = self.pairs.saturating_add(1);
        if !resolve(first, second, made.pivot, &mut self.literals)? {
            self.literals.truncate(start);
            return Ok(true);
        }
        let end = self.literals.len();
        self.resolvents.push(Resolvent { end, made })?;
        Ok(end.saturating_sub(start) <= MOST_LITERALS)
    }

    /// The resolvents of one clause with the others on its pivot; whether there are no more of all than these.
    fn resolve_each(
        &mut self,
        table: &Table,
        first: u32,
        others: &[u32],
        pivot: LiteralNumber,
        most: usize,
    ) -> Result<bool, AllocError> {
        for second in others {
            let made = Resolution {
                first,
                second: *second,
                pivot,
            };
            let is_short = self.resolve_pair(table, made)?;
            if !is_short || self.resolvents.len() > most {
                return Ok(false);
            }
        }
        Ok(true)
    }

    /// All resolvents of the clauses with the pivot and those with its negation; whether they are no more than these clauses, and
    /// short. Else not all of them stand here.
    pub fn resolve_all(
        &mut self,
        table: &Table,
        positive: &[u32],
        negative: &[u32],
        pivot: LiteralNumber,
    ) -> Result<bool, AllocError> {
        self.literals.truncate(0);
        self.resolvents.truncate(0);
        self.pairs = 0;
        let most = positive.len().saturating_add(negative.len());
        for first in positive {
            if !self.resolve_each(table, *first, negative, pivot, most)? {
                return Ok(false);
            }
        }
        Ok(true)
    }

    /// Puts them into the table, and their numbers behind those that wait.
    pub fn enter(&self, table: &mut Table, waiting: &mut Vec<u32>) -> Result<(), AllocError> {
        let mut start = 0usize;
        for resolvent in &self.resolvents {
            let literals = self.literals.get(start..resolvent.end).unwrap_or(&[]);
            let row = table.push(literals, true, Some(resolvent.made))?;
            waiting.push(row)?;
            start = resolvent.end;
        }
        Ok(())
    }
}
