//! Clauses by their names, and literals by their places.
ghost use Rattle.std.specs.Prelude.{◌≡◌, ◌<◌, ◌↔◌, length, true};
ghost use Rattle.stn_core.specs.Literal.{IsOver};
ghost use Rattle.conflict_analysis.specs.code.Trails.{source_clause, entry_at, IsKnown, Stands, on_trail};

use crate::entry::{Entry, Reason, Source};
use refute_tree::Earlier;
use search_guide::{Guide, LiteralNumber};
use stn_core::{BOUND_LIMIT, Literal, Problem, negate};

/// The clause that is named.
pub fn clause_of<'a, E: Earlier>(
    problem: &'a Problem,
    earlier: &'a E,
    source: Source,
) -> &'a [Literal]
    requires { IsKnown problem.now.clauses (E.clauses earlier.now) source }
    ensures { result.now ≡ source_clause problem.now.clauses (E.clauses earlier.now) source }
{
    match source {
        Source::Input(i) => problem.clauses.as_slice()[i].as_slice(),
        Source::Lemma(j) => earlier.clause(j),
    }
}

/// Whether there is such a clause.
pub fn is_known<E: Earlier>(problem: &Problem, earlier: &E, source: Source) -> bool
    ensures { result ≡ true ↔ IsKnown problem.now.clauses (E.clauses earlier.now) source }
{
    match source {
        Source::Input(i) => i < problem.clauses.as_slice().len(),
        Source::Lemma(j) => j < earlier.count(),
    }
}

/// Whether they are one.
pub fn is_same(a: Literal, b: Literal) -> bool
    ensures { result ≡ true ↔ (a ≡ b) }
{
    a == b
}

/// Whether the literal's points are among so many, and its bound is within the limits.
pub fn is_over(literal: Literal, points: u32) -> bool
    ensures { result ≡ true → IsOver points literal }
{
    let limit = BOUND_LIMIT as i64;
    literal.x < points && literal.y < points && -1 - limit <= literal.c && literal.c <= limit
}

/// The clause's name as the guide knows it.
pub fn named(source: Source) -> search_guide::Source {
    match source {
        Source::Input(i) => search_guide::Source::Input(i),
        Source::Lemma(j) => search_guide::Source::Lemma(j),
    }
}

/// The clause that the guide names.
pub fn source_of(source: search_guide::Source) -> Source {
    match source {
        search_guide::Source::Input(i) => Source::Input(i),
        search_guide::Source::Lemma(j) => Source::Lemma(j),
    }
}

/// The numbers of the clause's literals, none where the guide has forgotten them.
pub fn numbers_of(guide: &Guide, source: Source) -> &[LiteralNumber] {
    guide.numbers_of(named(source))
}

/// Where the guide has the negation of the literal at a place of a clause, whose literals have these numbers.
pub fn denial_place(guide: &Guide, numbers: &[LiteralNumber], place: usize) -> Option<usize> {
    match numbers.get(place) {
        Some(number) => guide.place(Guide::negated(*number)),
        None => None,
    }
}

/// Whether the literal, which has this number, stands on the trail where the guide has it.
pub fn is_standing(
    guide: &Guide,
    entries: &[Entry],
    number: LiteralNumber,
    literal: Literal,
) -> bool
    ensures { result ≡ true → Stands entries.now (length entries.now) literal }
{
    match guide.place(number) {
        Some(k) => k < entries.len() && is_same(entries[k].literal, literal),
        None => false,
    }
}

/// Where the guide has the literal.
pub fn literal_place(guide: &Guide, literal: Literal) -> Option<usize> {
    match guide.number_of(literal) {
        Some(number) => guide.place(number),
        None => None,
    }
}

/// The number of the literal at a place of a clause.
pub fn number_of(guide: &Guide, source: Source, place: usize) -> LiteralNumber {
    guide.number_at(named(source), place).unwrap_or(0)
}

/// The literal at a place of the trail.
pub fn literal_on(entries: &[Entry], k: usize) -> Literal
    requires { k < length entries.now }
    ensures { result ≡ on_trail entries.now k }
{
    entries[k].literal
}

/// Why it stands there.
pub fn reason_on(entries: &[Entry], k: usize) -> &Reason
    requires { k < length entries.now }
    ensures { result.now ≡ (entry_at entries.now k).reason }
{
    &entries[k].reason
}

/// Where the guide has the negation of this literal, which stands at a place of a clause: by the numbers of the
/// clause's literals, or else, where the guide has forgotten those, by the literal.
pub fn denial_guess(
    guide: &Guide,
    numbers: &[LiteralNumber],
    place: usize,
    literal: Literal,
) -> Option<usize> {
    match denial_place(guide, numbers, place) {
        Some(k) => Some(k),
        None => literal_place(guide, negate(literal)),
    }
}
