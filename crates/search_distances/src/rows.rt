//! The rows: the time points of literals that aren't pure, numbered from 0.
use search_guide::{Guide, LiteralNumber};
use std::alloc::{AllocError, Global};
use stn_core::Literal;

/// The rows of time points, and how far a path over them may lead.
pub struct Rows {
    /// for each time point its row, if it has one
    row_of: Vec<Option<usize>>,
    count: usize,
    /// the greatest absolute bound of a literal
    greatest: u64,
}

impl Drop for Rows {
    fn drop(self) {
        let Rows {
            row_of,
            count: _,
            greatest: _,
        } = self;
        drop(row_of);
    }
}

/// The literals of which distances are kept.
pub fn literal_of(guide: &Guide, number: usize) -> Option<(LiteralNumber, Literal)> {
    let number = LiteralNumber::try_from(number).ok()?;
    let literal = guide.literal(number)?;
    if guide.is_pure(number) || guide.is_idle(number) || literal.x == literal.y {
        None
    } else {
        Some((number, literal))
    }
}

impl Rows {
    /// A row for each time point of the guide's literals that aren't pure. The one error is want of memory.
    pub fn of(alloc: Global, guide: &Guide, points: u32) -> Result<Self, AllocError> {
        let mut rows = Rows {
            row_of: vec![in alloc; None; points as usize]?,
            count: 0,
            greatest: 0,
        };
        for number in 0..guide.literals() {
            if let Some((_, literal)) = literal_of(guide, number) {
                rows.give(literal.x);
                rows.give(literal.y);
                rows.greatest = rows.greatest.max(literal.c.unsigned_abs());
            }
        }
        Ok(rows)
    }

    fn give(&mut self, point: u32) {
        if let Some(row) = self.row_of.get_mut(point as usize) {
            if row.is_none() {
                *row = Some(self.count);
                self.count = self.count.saturating_add(1);
            }
        }
    }

    pub fn count(&self) -> usize {
        self.count
    }

    /// An absolute value that no path's sum reaches.
    pub fn longest(&self) -> u64 {
        self.greatest
            .saturating_add(1)
            .saturating_mul(self.count as u64)
    }

    fn at(&self, point: u32) -> Option<usize> {
        match self.row_of.get(point as usize) {
            Some(row) => *row,
            None => None,
        }
    }

    /// The rows from which and to which a literal leads as an edge.
    pub fn ends_of(&self, literal: Literal) -> Option<(usize, usize)> {
        let from = self.at(literal.y)?;
        let to = self.at(literal.x)?;
        Some((from, to))
    }

    /// The rows from which and to which the literal with the number leads as an edge.
    pub fn ends(&self, guide: &Guide, number: LiteralNumber) -> Option<(usize, usize)> {
        self.ends_of(guide.literal(number)?)
    }
}
