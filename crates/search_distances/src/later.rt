//! What stands in for a table that isn't made yet: the literals that it will start from, and how long it waits. A descent
//! costs without the table as much as its literals, and with it up to as many entries for each of them; but what
//! doesn't follow without it is searched for, and that shows as conflicts.
use search_guide::LiteralNumber;
use std::alloc::{AllocError, Global};

/// A table is made after so many literals for each of its pairs, in all descents together,
const LITERALS: u64 = 3;

/// or once the search has gone back so often from above the root,
const RETURNS: u64 = 50;

/// or, where there are very many literals, so often.
const VAST_RETURNS: u64 = 100;

/// A literal of the trail, and its place there.
#[derive(Clone, Copy)]
pub struct Added {
    pub number: LiteralNumber,
    pub place: usize,
}

pub struct Later {
    /// the literals that are in the net
    added: Vec<Added>,
    /// how many more are to be added to it, and how often the search is to go back, before the table is made
    adds: u64,
    returns: u64,
}

impl Drop for Later {
    fn drop(self) {
        let Later {
            added,
            adds: _,
            returns: _,
        } = self;
        drop(added);
    }
}

impl Later {
    /// Of a table of so many rows, where no literal is in the net, and perhaps there are very many literals.
    pub fn new(alloc: Global, rows: usize, is_vast: bool) -> Self {
        let rows = rows as u64;
        Later {
            added: Vec::new(alloc),
            adds: rows.saturating_mul(rows).saturating_mul(LITERALS),
            returns: if is_vast { VAST_RETURNS } else { RETURNS },
        }
    }

    /// The literals that are in the net.
    pub fn added(&self) -> &[Added] {
        &self.added
    }

    /// One more literal. It answers whether the table is to be made now, and says so once. The one error is want of
    /// memory.
    pub fn add(&mut self, number: LiteralNumber, place: usize) -> Result<bool, AllocError> {
        self.added.push(Added { number, place })?;
        let is_due = self.adds == 0 || self.returns == 0;
        if is_due {
            self.adds = u64::MAX;
            self.returns = u64::MAX;
        }
        self.adds = self.adds.saturating_sub(1);
        Ok(is_due)
    }

    /// The literals from this place of the trail on leave the net. All of them do where a slice begins.
    pub fn retract(&mut self, place: usize) {
        if place > 0 {
            self.returns = self.returns.saturating_sub(1);
        }
        for _added in 0..self.added.len() {
            match self.added.last() {
                Some(added) if added.place >= place => {
                    self.added.pop();
                }
                _ => return,
            }
        }
    }
}
