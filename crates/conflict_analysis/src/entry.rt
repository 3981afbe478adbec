use search_guide::LiteralNumber;
use stn_core::{Literal, Literals};

/// Which clause: one of the problem, or one that an earlier lemma states.
#[derive(Clone, Copy, Debug, PartialEq, Eq)]
pub enum Source {
    Input(usize),
    Lemma(usize),
}

/// Why a literal stands on the trail.
#[derive(Drop)]
pub enum Reason {
    /// It is one of the cube's.
    Given,
    /// It was decided.
    Decision,
    /// It stands at this place of the clause, and the negations of the clause's other literals stand before
    /// it, if the guide is right: that is tested where a conflict comes to rest on the literal.
    Clause(Source, usize),
    /// This literal stands before it, and bounds the same two points at least as tightly.
    Pair(Literal),
    /// Its negation would close this negative cycle with literals that stand before it.
    Cycle(Literals),
}

/// A literal of the trail.
pub struct Entry {
    pub literal: Literal,
    /// the guide's number of it
    pub number: LiteralNumber,
    pub reason: Reason,
}

impl Drop for Entry {
    fn drop(self) {
        let Entry {
            literal,
            number,
            reason,
        } = self;
        drop(literal);
        drop(number);
        drop(reason);
    }
}

/// What a decision found: how many literals stood on the trail, and how many the net had.
#[derive(Clone, Copy, Debug, PartialEq, Eq)]
pub struct Level {
    pub start: usize,
    pub in_net: usize,
}

/// What shows that the trail's literals can't all hold.
#[derive(Drop)]
pub enum Conflict {
    /// The negations of the clause's literals stand on the trail.
    Clause(Source),
    /// The cycle's literals do.
    Cycle(Literals),
}

/// What becomes of a literal of the trail in a learned clause.
#[derive(Clone, Copy, Debug, PartialEq, Eq)]
pub enum Role {
    /// The conflict doesn't rest on it.
    Unused,
    /// The clause has its negation.
    Kept,
    /// Its reason is in the steps.
    Resolved,
}
