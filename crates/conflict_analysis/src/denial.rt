//! What the guide proposes, tested on the trail.
ghost use Rattle.std.specs.Prelude.{◌≡◌, ◌<◌, All, IfSome, length, true};
ghost use Rattle.stn_core.specs.Literal.{IsOver, negation_of};
ghost use Rattle.conflict_analysis.specs.declared.entry.Conflict.TheVariants.{Clause as OfClause};
ghost use Rattle.conflict_analysis.specs.code.Trails.{on_trail, Stands, IsByClause, IsConflict};
ghost use Rattle.conflict_analysis.specs.code.Denials.{AreDenied};
ghost use Rattle.conflict_analysis.specs.Proved.{IsClauseOver};

use crate::entry::{Entry, Source};
use crate::reading::{clause_of, denial_place, is_known, is_same, numbers_of};
use refute_tree::Earlier;
use search_guide::{Guide, LiteralNumber};
use stn_core::{Literal, Problem, negate};

/// Whether the negation of the literal, which stands at a place of a clause, whose literals have these numbers,
/// is on the trail where the guide has it.
fn is_denied(
    guide: &Guide,
    entries: &[Entry],
    numbers: &[LiteralNumber],
    place: usize,
    literal: Literal,
) -> bool
    ensures { result ≡ true → Stands entries.now (length entries.now) (negation_of literal) }
{
    match denial_place(guide, numbers, place) {
        Some(k) => k < entries.len() && is_same(entries[k].literal, negate(literal)),
        None => false,
    }
}

// Whether the negation of the literal stands at this place of the trail.
fn is_denied_at(entries: &[Entry], k: usize, literal: Literal) -> bool
    ensures within { result ≡ true → k < length entries.now }
    ensures is { result ≡ true → on_trail entries.now k ≡ negation_of literal }
{
    k < entries.len() && is_same(entries[k].literal, negate(literal))
}

// Whether the negation of the literal, which stands at a place of a clause, whose literals have these numbers, is on
// the trail: at the place `near`, or where the guide has it.
fn is_denied_near(
    guide: &Guide,
    entries: &[Entry],
    numbers: &[LiteralNumber],
    near: usize,
    place: usize,
    literal: Literal,
) -> bool
    ensures { result ≡ true → Stands entries.now (length entries.now) (negation_of literal) }
{
    if is_denied_at(entries, near, literal) {
        return true;
    }
    is_denied(guide, entries, numbers, place, literal)
}

// Whether the clause's literals but the one at the place are denied: one of them perhaps at the place `near` of the
// trail.
fn are_denied(
    guide: &Guide,
    entries: &[Entry],
    source: Source,
    clause: &[Literal],
    place: usize,
    near: usize,
) -> bool
    ensures { result ≡ true → AreDenied entries.now clause.now place }
{
    let numbers = numbers_of(guide, source);
    for q in 0..clause.len() {
        if q != place && !is_denied_near(guide, entries, numbers, near, q, clause[q]) {
            return false;
        }
    }
    true
}

/// The literal at the place of the clause, where it follows from the trail.
pub fn unit_of<E: Earlier>(
    problem: &Problem,
    earlier: &E,
    guide: &Guide,
    entries: &[Entry],
    source: Source,
    place: usize,
) -> Option<Literal>
    requires lemmas { All (IsClauseOver problem.now.points) (E.clauses earlier.now) }
    ensures follows { IfSome result (λ l. IsByClause problem.now.clauses (E.clauses earlier.now)
        (Stands entries.now (length entries.now)) l source place) }
    ensures over { IfSome result (IsOver problem.now.points) }
{
    if !is_known(problem, earlier, source) {
        return None;
    }
    let clause = clause_of(problem, earlier, source);
    if place < clause.len() && are_denied(guide, entries, source, clause, place, entries.len()) {
        return Some(clause[place]);
    }
    None
}

/// Whether all literals of the clause are denied, one of them perhaps at the place `near` of the trail.
pub fn is_conflict<E: Earlier>(
    problem: &Problem,
    earlier: &E,
    guide: &Guide,
    entries: &[Entry],
    source: Source,
    near: usize,
) -> bool
    ensures { result ≡ true → IsConflict problem.now.clauses (E.clauses earlier.now)
        (Stands entries.now (length entries.now)) (OfClause source) }
{
    if !is_known(problem, earlier, source) {
        return false;
    }
    let clause = clause_of(problem, earlier, source);
    are_denied(guide, entries, source, clause, clause.len(), near)
}

/// The one place of the clause whose literal isn't denied, where there is one. It is a hint.
pub fn unit_place(
    guide: &Guide,
    entries: &[Entry],
    source: Source,
    clause: &[Literal],
) -> Option<usize> {
    let numbers = numbers_of(guide, source);
    let mut found = None;
    for q in 0..clause.len() {
        if !is_denied(guide, entries, numbers, q, clause[q]) {
            if found.is_some() {
                return None;
            }
            found = Some(q);
        }
    }
    found
}
