//! The clauses of a problem in flat tables, and for each time point the literals that it is in.
use std::alloc::{AllocError, Global};
use stn_core::{Clause, Literal};

/// A literal that a time point is in, as that point sees it.
#[derive(Clone, Copy)]
pub struct Touch {
    /// the literal's other point
    other: u32,
    pub literal: u32,
    pub clause: u32,
    /// whether the point is the literal's first one
    is_first: bool,
    bound: i64,
}

impl Touch {
    // The room for one.
    fn none() -> Self {
        Touch {
            other: 0,
            literal: 0,
            clause: 0,
            is_first: false,
            bound: 0,
        }
    }

    /// Whether the literal holds where the point has the value, beside these values of the others.
    pub fn holds(&self, value: i64, values: &[i64]) -> bool {
        let other = values.get(self.other as usize).copied().unwrap_or(0);
        if self.is_first {
            value.wrapping_sub(other) <= self.bound
        } else {
            other.wrapping_sub(value) <= self.bound
        }
    }
}

/// Literals are named by their places: those of one clause stand behind those of the clause before it.
pub struct Clauses {
    literals: Vec<Literal>,
    /// for each clause where its literals end
    ends: Vec<u32>,
    /// for each time point the literals that it is in, one point behind the other, and where each begins
    touched: Vec<Touch>,
    starts: Vec<u32>,
}

impl Drop for Clauses {
    fn drop(self) {
        let Clauses {
            literals,
            ends,
            touched,
            starts,
        } = self;
        drop(literals);
        drop(ends);
        drop(touched);
        drop(starts);
    }
}

/// A number as it stands in the tables.
pub fn narrow(number: usize) -> u32 {
    u32::try_from(number).unwrap_or(u32::MAX)
}

/// The entry at the place, and 0 where there is none.
pub fn entry(table: &[u32], place: usize) -> usize {
    table.get(place).copied().unwrap_or(0) as usize
}

// One more at the place.
fn count_at(table: &mut [u32], place: usize) {
    if let Some(count) = table.get_mut(place) {
        *count = count.saturating_add(1);
    }
}

// For each of so many time points where its literals begin, and behind the last one where they end.
fn starts_of(alloc: Global, literals: &[Literal], points: usize) -> Result<Vec<u32>, AllocError> {
    let mut starts = vec![in alloc; 0u32; points.saturating_add(1)]?;
    for literal in literals {
        count_at(
            starts.as_mut_slice(),
            (literal.x as usize).saturating_add(1),
        );
        count_at(
            starts.as_mut_slice(),
            (literal.y as usize).saturating_add(1),
        );
    }
    let mut sum = 0u32;
    for start in starts.iter_mut() {
        sum = sum.saturating_add(*start);
        *start = sum;
    }
    Ok(starts)
}

// The point has the literal next.
fn note(touched: &mut [Touch], next: &mut [u32], point: u32, seen: Touch) {
    if let Some(slot) = touched.get_mut(entry(next, point as usize)) {
        *slot = seen;
    }
    count_at(next, point as usize);
}

// Both points of the literal have it next.
fn note_both(
    touched: &mut [Touch],
    next: &mut [u32],
    clause: usize,
    place: usize,
    literal: Literal,
) {
    let first = Touch {
        other: literal.y,
        literal: narrow(place),
        clause: narrow(clause),
        is_first: true,
        bound: literal.c,
    };
    note(touched, next, literal.x, first);
    let second = Touch {
        other: literal.x,
        is_first: false,
        ..first
    };
    note(touched, next, literal.y, second);
}

impl Clauses {
    /// The tables of these clauses over so many time points.
    pub fn new(alloc: Global, clauses: &[Clause], points: usize) -> Result<Self, AllocError> {
        let mut literals = Vec::new(alloc);
        let mut ends = Vec::with_capacity(alloc, clauses.len())?;
        for clause in clauses {
            for literal in clause.as_slice() {
                literals.push(*literal)?;
            }
            ends.push(narrow(literals.len()))?;
        }
        let starts = starts_of(alloc, literals.as_slice(), points)?;
        let mut made = Clauses {
            touched: vec![in alloc; Touch::none(); literals.len().saturating_mul(2)]?,
            literals,
            ends,
            starts,
        };
        made.note_all(alloc)?;
        Ok(made)
    }

    // Each point has the literals that it is in.
    fn note_all(&mut self, alloc: Global) -> Result<(), AllocError> {
        let mut next = Vec::from_slice(alloc, self.starts.as_slice())?;
        for clause in 0..self.count() {
            let (start, end) = self.span(clause);
            for place in start..end {
                if let Some(literal) = self.literal(place) {
                    let touched = self.touched.as_mut_slice();
                    note_both(touched, next.as_mut_slice(), clause, place, literal);
                }
            }
        }
        Ok(())
    }

    /// How many clauses there are.
    pub fn count(&self) -> usize {
        self.ends.len()
    }

    /// How many literals there are.
    pub fn literals(&self) -> usize {
        self.literals.len()
    }

    /// The literal, if there is one.
    pub fn literal(&self, literal: usize) -> Option<Literal> {
        self.literals.get(literal).copied()
    }

    /// Where the clause's literals begin, and where they end.
    pub fn span(&self, clause: usize) -> (usize, usize) {
        let start = match clause.checked_sub(1) {
            Some(before) => entry(self.ends.as_slice(), before),
            None => 0,
        };
        (start, entry(self.ends.as_slice(), clause))
    }

    /// The literals that the time point is in.
    pub fn of_point(&self, point: u32) -> &[Touch] {
        let start = entry(self.starts.as_slice(), point as usize);
        let end = entry(self.starts.as_slice(), (point as usize).saturating_add(1));
        if start <= end && end <= self.touched.len() {
            &self.touched[start..end]
        } else {
            &[]
        }
    }
}
