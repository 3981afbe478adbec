//! Clauses as sorted numbers of literals.
use crate::atoms::{LiteralNumber, negated};
use std::alloc::AllocError;

/// How one clause stands to another.
#[derive(Clone, Copy, PartialEq, Eq)]
pub(crate) enum Relation {
    Apart,
    /// All its literals are among the other's.
    Subsumes,
    /// All but this one, whose negation is among the other's.
    Strengthens(LiteralNumber),
}

/// How the first clause stands to the second.
pub(crate) fn compare(first: &[LiteralNumber], second: &[LiteralNumber]) -> Relation {
    let mut place = 0usize;
    let mut negation = None;
    for b in second {
        let Some(a) = first.get(place).copied() else {
            return met(negation);
        };
        if a / 2 < *b / 2 {
            return Relation::Apart;
        }
        if a / 2 == *b / 2 {
            if a != *b {
                if negation.is_some() {
                    return Relation::Apart;
                }
                negation = Some(a);
            }
            place = place.saturating_add(1);
        }
    }
    if place < first.len() {
        return Relation::Apart;
    }
    met(negation)
}

fn met(negation: Option<LiteralNumber>) -> Relation {
    match negation {
        Some(number) => Relation::Strengthens(number),
        None => Relation::Subsumes,
    }
}

/// The lesser of the numbers at two places, which move behind it.
fn next(
    first: &[LiteralNumber],
    second: &[LiteralNumber],
    i: &mut usize,
    j: &mut usize,
) -> Option<LiteralNumber> {
    let a = first.get(*i).copied();
    let b = second.get(*j).copied();
    let least = match a {
        Some(a) => match b {
            Some(b) => a.min(b),
            None => a,
        },
        None => b?,
    };
    if a == Some(least) {
        *i = i.saturating_add(1);
    }
    if b == Some(least) {
        *j = j.saturating_add(1);
    }
    Some(least)
}

/// Puts the resolvent of two clauses behind the other numbers: the first has the pivot, and the second its negation. False
/// where the resolvent has a literal and its negation; then some of it stands there.
pub(crate) fn resolve(
    first: &[LiteralNumber],
    second: &[LiteralNumber],
    pivot: LiteralNumber,
    made: &mut Vec<LiteralNumber>,
) -> Result<bool, AllocError> {
    let mut i = 0usize;
    let mut j = 0usize;
    let mut last = pivot;
    for _turn in 0..first.len().saturating_add(second.len()) {
        let Some(number) = next(first, second, &mut i, &mut j) else {
            return Ok(true);
        };
        if number != pivot && number != negated(pivot) {
            if last == negated(number) {
                return Ok(false);
            }
            made.push(number)?;
            last = number;
        }
    }
    Ok(true)
}
