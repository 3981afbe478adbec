//! Clauses with what was made of them, and where each literal stands.
use crate::atoms::{LiteralNumber, narrow, negated};
use crate::merging::{Relation, compare};
use std::alloc::{AllocError, Global};

/// A resolvent: the clauses of which it was made, and the literal of the first whose negation is in the second.
#[derive(Clone, Copy)]
pub(crate) struct Resolution {
    pub first: u32,
    pub second: u32,
    pub pivot: LiteralNumber,
}

#[derive(Clone, Copy)]
struct Row {
    start: usize,
    end: usize,
    /// a bit for each atom, by its number's last six bits
    signature: u64,
    is_alive: bool,
    made: Option<Resolution>,
}

/// Clauses, numbered in the order in which they came: the problem's, and then resolvents.
pub(crate) struct Table {
    literals: Vec<LiteralNumber>,
    rows: Vec<Row>,
    /// for each literal the clauses in which it stands or stood
    occurrences: Vec<Vec<u32>>,
    /// and in how many it stands
    counts: Vec<usize>,
}

impl Drop for Table {
    fn drop(self) {
        let Table {
            literals,
            rows,
            occurrences,
            counts,
        } = self;
        drop(literals);
        drop(rows);
        drop(occurrences);
        drop(counts);
    }
}

fn signature_of(literals: &[LiteralNumber]) -> u64 {
    let mut signature = 0u64;
    for number in literals {
        signature |= 1u64 << (*number / 2 % 64);
    }
    signature
}

impl Table {
    pub fn new(alloc: Global) -> Self {
        Table {
            literals: Vec::new(alloc),
            rows: Vec::new(alloc),
            occurrences: Vec::new(alloc),
            counts: Vec::new(alloc),
        }
    }

    /// How many clauses came.
    pub fn len(&self) -> u32 {
        narrow(self.rows.len())
    }

    pub fn literals(&self, row: u32) -> &[LiteralNumber] {
        match self.rows.get(row as usize) {
            Some(row) => self.literals.get(row.start..row.end).unwrap_or(&[]),
            None => &[],
        }
    }

    pub fn is_alive(&self, row: u32) -> bool {
        match self.rows.get(row as usize) {
            Some(row) => row.is_alive,
            None => false,
        }
    }

    /// How it was made, where it is a resolvent.
    pub fn made(&self, row: u32) -> Option<Resolution> {
        self.rows.get(row as usize)?.made
    }

    /// In how many clauses the literal stands.
    pub fn count(&self, number: LiteralNumber) -> usize {
        self.counts.get(number as usize).copied().unwrap_or(0)
    }

    /// The clauses in which it stands or stood.
    pub fn occurrences(&self, number: LiteralNumber) -> &[u32] {
        match self.occurrences.get(number as usize) {
            Some(rows) => rows.as_slice(),
            None => &[],
        }
    }

    /// Room for literals of so many atoms.
    pub fn make_room(&mut self, alloc: Global, atoms: usize) -> Result<(), AllocError> {
        for _number in self.counts.len()..atoms.saturating_mul(2) {
            self.counts.push(0)?;
            self.occurrences.push(Vec::new(alloc))?;
        }
        Ok(())
    }

    fn enter(&mut self, number: LiteralNumber, row: u32) -> Result<(), AllocError> {
        if let Some(count) = self.counts.get_mut(number as usize) {
            *count = count.saturating_add(1);
        }
        if let Some(rows) = self.occurrences.get_mut(number as usize) {
            rows.push(row)?;
        }
        Ok(())
    }

    /// One clause more, of sorted literals. It is there from the start, or never where it always holds.
    pub fn push(
        &mut self,
        literals: &[LiteralNumber],
        is_alive: bool,
        made: Option<Resolution>,
    ) -> Result<u32, AllocError> {
        let row = narrow(self.rows.len());
        let start = self.literals.len();
        self.literals.extend_from_slice(literals)?;
        self.rows.push(Row {
            start,
            end: self.literals.len(),
            signature: signature_of(literals),
            is_alive,
            made,
        })?;
        if is_alive {
            for number in literals {
                self.enter(*number, row)?;
            }
        }
        Ok(row)
    }

    fn leave(&mut self, place: usize) {
        if let Some(number) = self.literals.get(place) {
            if let Some(count) = self.counts.get_mut(*number as usize) {
                *count = count.saturating_sub(1);
            }
        }
    }

    /// The clause is there no more.
    pub fn remove(&mut self, row: u32) {
        let Some(place) = self.rows.get_mut(row as usize) else {
            return;
        };
        if place.is_alive {
            place.is_alive = false;
            for k in place.start..place.end {
                self.leave(k);
            }
        }
    }

    /// How the first clause stands to the second.
    pub fn relation(&self, first: u32, second: u32) -> Relation {
        let (Some(a), Some(b)) = (
            self.rows.get(first as usize),
            self.rows.get(second as usize),
        ) else {
            return Relation::Apart;
        };
        if a.signature & !b.signature != 0 {
            return Relation::Apart;
        }
        compare(self.literals(first), self.literals(second))
    }

    /// The clause's literal whose atom stands in the fewest clauses.
    pub fn rarest(&self, row: u32) -> Option<LiteralNumber> {
        let mut best = None;
        let mut least = usize::MAX;
        for number in self.literals(row) {
            let count = self
                .count(*number)
                .saturating_add(self.count(negated(*number)));
            if count < least {
                least = count;
                best = Some(*number);
            }
        }
        best
    }

    /// The clauses in which the literal stands, into the list.
    pub fn rows_with(&self, number: LiteralNumber, rows: &mut Vec<u32>) -> Result<(), AllocError> {
        rows.truncate(0);
        for row in self.occurrences(number) {
            if self.is_alive(*row) {
                rows.push(*row)?;
            }
        }
        Ok(())
    }
}
