//! The unit clauses at the end of a problem.
use stn_core::{Clause, Literal};

/// The literal of a unit clause.
pub(crate) fn unit_of(clause: &[Literal]) -> Option<Literal> {
    if clause.len() == 1 {
        clause.first().copied()
    } else {
        None
    }
}

/// The number of the first of the unit clauses at the end: all clauses from there on are unit clauses.
pub(crate) fn run_start(clauses: &[Clause]) -> usize {
    let mut start = clauses.len();
    'back: while start > 0 {
        if clauses[start - 1].as_slice().len() != 1 {
            return start;
        }
        start -= 1;
    }
    start
}

/// The literal of the clause with this number, where it is one of these.
pub(crate) fn assumed_at(clauses: &[Clause], start: usize, number: usize) -> Option<Literal> {
    if number < start {
        return None;
    }
    let clause = clauses.get(number)?;
    unit_of(clause.as_slice())
}
