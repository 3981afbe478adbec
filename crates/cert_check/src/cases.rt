ghost use Rattle.std.specs.Prelude.{◌≡◌, ◌<◌, ◌≤◌, [], length, map, slice_get, Some, None, Ok, Err, IfOk, OnOk, IfErr};
ghost use Rattle.std.specs.List.{list_all};
ghost use Rattle.stn_core.specs.Literal.{negation_of};
ghost use Rattle.refute_tree.specs.code.Views.{literals_of, step_seen};
ghost use Rattle.cert_check.specs.declared.flaw.FlawKind.TheVariants.{NoSuchClause};
ghost use Rattle.cert_check.specs.Tests.{is_assumed, is_on_points};
ghost use Rattle.cert_check.specs.Flaws.{opened_by_cycle, opened_by_clash};
ghost use Rattle.cert_check.specs.code.Walks.{clause_in, OpensCases, IsFlawedBy, ClosesCase, ClosesCases};

use crate::assumptions::Assumptions;
use crate::flaw::FlawKind;
use refute_tree::{Cycle, Earlier, Reader, StepView};
use stn_core::{Literal, Problem, negate};

/// The clause whose cases are read, borrowed from the problem or from an earlier lemma, or the literal of an `Either`
/// step, which stands for the clause of it and its negation.
#[derive(Clone, Copy)]
pub enum Cases<'a> {
    Clause(&'a [Literal]),
    Either(Literal),
}

impl<'a> Cases<'a> {
    pub fn len(self) -> usize
        ensures { result ≡ length (clause_in self.entry) }
    {
        match self {
            Cases::Clause(clause) => clause.len(),
            Cases::Either(_) => 2,
        }
    }

    pub fn literal(self, place: usize) -> Literal
        requires { place < length (clause_in self) }
        ensures { slice_get (clause_in self.entry) place ≡ Some result }
    {
        match self {
            Cases::Clause(clause) => clause[place],
            Cases::Either(literal) if place == 0 => literal,
            Cases::Either(literal) => negate(literal),
        }
    }
}

/// Whether the literal's time points are among so many.
fn is_on_points(points: u32, literal: Literal) -> bool
    ensures { result ≡ is_on_points points literal }
{
    literal.x < points && literal.y < points
}

/// Whether the time points of all of the literals are among so many.
pub fn are_on_points(points: u32, literals: &[Literal]) -> bool
    ensures { result ≡ list_all (is_on_points points) literals.now }
{
    literals
        .iter()
        .all(|literal| is_on_points(points, *literal))
}

fn are_assumed(assumed: &Assumptions, cycle: Cycle<'_>) -> bool
    ensures { result ≡ list_all (is_assumed assumed.now) (literals_of cycle.entry) }
{
    for place in 0..cycle.len() {
        if !assumed.contains(cycle.at(place)) {
            return false;
        }
    }
    true
}

/// Whether the negations of the literals are all assumed.
fn are_denied(assumed: &Assumptions, literals: &[Literal]) -> bool
    ensures { result ≡ list_all (is_assumed assumed.now) (map negation_of literals.now) }
{
    for literal in literals {
        if !assumed.contains(negate(*literal)) {
            return false;
        }
    }
    true
}

/// A leaf: its literals are all assumed, and a negative cycle.
fn check_leaf(assumed: &Assumptions, cycle: Cycle<'_>) -> Result<(), FlawKind>
    ensures ok { OnOk result (opened_by_cycle assumed.now (literals_of cycle.entry) ≡ Ok []) }
    ensures flaw { IfErr result (λ kind. opened_by_cycle assumed.now (literals_of cycle.entry) ≡ Err kind) }
{
    if !are_assumed(assumed, cycle) {
        return Err(FlawKind::NotAssumed);
    }
    if !cycle.is_negative() {
        return Err(FlawKind::NotACycle);
    }
    Ok(())
}

/// The problem's clause with this number.
fn clause_of(problem: &Problem, i: usize) -> Result<&[Literal], FlawKind>
    ensures ok { IfOk result (λ clause. slice_get problem.now.clauses i ≡ Some clause.now) }
    ensures flaw { IfErr result (λ kind. (slice_get problem.now.clauses i ≡ None) × (kind ≡ NoSuchClause)) }
{
    match problem.clauses.as_slice().get(i) {
        Some(clause) => Ok(clause.as_slice()),
        None => Err(FlawKind::NoSuchClause),
    }
}

/// A clash: the clause is there, and each of its literals is denied.
fn check_clash(problem: &Problem, assumed: &Assumptions, i: usize) -> Result<(), FlawKind>
    ensures ok { OnOk result (opened_by_clash assumed.now (slice_get problem.now.clauses i) ≡ Ok []) }
    ensures flaw { IfErr result
        (λ kind. opened_by_clash assumed.now (slice_get problem.now.clauses i) ≡ Err kind) }
{
    let clause = clause_of(problem, i)?;
    if !are_denied(assumed, clause) {
        return Err(FlawKind::NotDenied);
    }
    Ok(())
}

/// The clause whose cases the step opens. A leaf stands for the clause without literals.
pub fn cases_of_step<'a, E: Earlier>(
    problem: &'a Problem,
    earlier: &'a E,
    assumed: &Assumptions,
    step: StepView<'_>,
) -> Result<Cases<'a>, FlawKind>
    ensures ok { IfOk result
        (OpensCases problem.now (E.clauses earlier.now) assumed.now (step_seen step.entry)) }
    ensures flaw { IfErr result
        (IsFlawedBy problem.now (E.clauses earlier.now) assumed.now (step_seen step.entry)) }
{
    match step {
        StepView::Cycle(cycle) => {
            check_leaf(assumed, cycle)?;
            Ok(Cases::Clause(&[]))
        }
        StepView::Pair(literal) => {
            let pair = [literal, negate(literal)];
            check_leaf(assumed, Cycle::Literals(pair.as_slice()))?;
            Ok(Cases::Clause(&[]))
        }
        StepView::Clash(i) => {
            check_clash(problem, assumed, i)?;
            Ok(Cases::Clause(&[]))
        }
        StepView::Input(i) => {
            let clause = clause_of(problem, i)?;
            Ok(Cases::Clause(clause))
        }
        StepView::Lemma(j) if j < earlier.count() => Ok(Cases::Clause(earlier.clause(j))),
        StepView::Lemma(_) => Err(FlawKind::NoSuchClause),
        StepView::Either(literal) if is_on_points(problem.points, literal) => {
            Ok(Cases::Either(literal))
        }
        StepView::Either(_) => Err(FlawKind::NoSuchPoint),
    }
}

/// Whether the next step is the leaf of the literal and its negation, and the negation is assumed, so that it closes
/// the literal's case. It is read then, and nothing else.
fn closes(assumed: &Assumptions, literal: Literal, reader: &mut Reader<'_>) -> bool
    ensures { ClosesCase assumed.now literal reader.old reader.new result }
{
    let mut ahead = reader.again();
    let Some(StepView::Pair(first)) = ahead.next() else {
        return false;
    };
    if first != literal || !assumed.contains(negate(literal)) {
        return false;
    }
    *reader = ahead;
    true
}

/// The place of the first of the cases, from one on, that isn't closed at once, by the leaf of its literal and the
/// negation; the count of the cases where all of them are. These leaves are read, and their literals aren't assumed.
pub fn close_cases(
    assumed: &Assumptions,
    cases: Cases<'_>,
    place: usize,
    reader: &mut Reader<'_>,
) -> usize
    requires { place ≤ length (clause_in cases) }
    ensures within { result ≤ length (clause_in cases.entry) }
    ensures closed { ClosesCases assumed.now (clause_in cases.entry) place result reader.old reader.new }
{
    let mut next = place;
    'cases: while next < cases.len() {
        if !closes(assumed, cases.literal(next), reader) {
            break 'cases;
        }
        next += 1;
    }
    next
}
