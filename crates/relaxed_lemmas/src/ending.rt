//! The lemma that ends a refutation, by unit clauses of the problem.
ghost use Rattle.std.specs.Prelude.{◌≡◌, ◌++◌, ◌∷◌, [], ℕ, All, map, IsTrue, IfOk, IfSome, OnOk};
ghost use Rattle.refute_tree.specs.Trees.{stated, IsRefuted};
ghost use Rattle.refute_tree.specs.Batches.{NamesOver};
ghost use Rattle.book_core.specs.Books.{IsOpening};
ghost use Rattle.book_core.specs.Verdicts.{IsRight};
ghost use Rattle.book_core.specs.declared.verdict.Verdict.TheVariants.{Unsat};
ghost use Rattle.relaxed_lemmas.specs.code.Closing.{Closes, NamesNone};

use crate::run::{run_start, unit_of};
use cert_check::{CheckError, check_lemma, lemma_law};
use refute_tree::{Lemma, Refutation, Steps};
use std::alloc::{AllocError, Global};
use stn_core::{Clause, Literal, Problem, negate};

/// A lemma whose cases are closed has no more literals: unit clauses are looked for from each.
const MOST_CASES: usize = 64;

/// The unit clause from that number on that says at least as much as the literal, with its literal.
fn as_tight(clauses: &[Clause], start: usize, literal: Literal) -> Option<(usize, Literal)> {
    for (number, clause) in clauses.iter().enumerate().skip(start) {
        if let Some(unit) = unit_of(clause.as_slice()) {
            if unit.x == literal.x && unit.y == literal.y && unit.c <= literal.c {
                return Some((number, unit));
            }
        }
    }
    None
}

/// Closes the case in which the literal holds; whether a unit clause does it.
fn push_case(
    clauses: &[Clause],
    start: usize,
    literal: Literal,
    steps: &mut Steps,
) -> Result<bool, AllocError>
    ensures { OnOk result (NamesNone steps.old → NamesNone steps.new) }
{
    let denied = negate(literal);
    let Some((number, unit)) = as_tight(clauses, start, denied) else {
        return Ok(false);
    };
    if unit == denied {
        steps.push_clash(number)?;
    } else {
        steps.push_input(number)?;
        steps.push_cycle([unit, literal].as_slice())?;
    }
    Ok(true)
}

/// The lemma with this number and this clause, and its cases closed, if unit clauses from that number on do it.
fn steps_by(
    alloc: Global,
    clauses: &[Clause],
    start: usize,
    number: usize,
    clause: &[Literal],
) -> Result<Option<Steps>, AllocError>
    ensures { IfOk result (λ found. IfSome found NamesNone) }
{
    let mut steps = Steps::new(alloc);
    steps.push_lemma(number)?;
    for literal in clause {
        if !push_case(clauses, start, *literal, &mut steps)? {
            return Ok(None);
        }
    }
    Ok(Some(steps))
}

/// The steps of a lemma without literals that cites the last of these, if unit clauses at the problem's end close its cases.
fn closing_steps(
    alloc: Global,
    problem: &Problem,
    lemmas: &[Lemma],
) -> Result<Option<Steps>, AllocError>
    ensures { IfOk result (λ found. IfSome found NamesNone) }
{
    let Some(last) = lemmas.last() else {
        return Ok(None);
    };
    let clause = last.clause.as_slice();
    if clause.len() > MOST_CASES {
        return Ok(None);
    }
    let clauses = problem.clauses.as_slice();
    let start = run_start(clauses);
    let number = lemmas.len() - 1;
    let found = steps_by(alloc, clauses, start, number, clause)?;
    Ok(found)
}

/// Whether the lemma is refuted over the problem and the lemmas before it.
fn is_refuted(
    alloc: Global,
    problem: &Problem,
    lemmas: &[Lemma],
    last: &Lemma,
) -> Result<bool, AllocError>
    ensures { IfOk result (λ yes. IsTrue yes → IsRefuted problem.now.points problem.now.clauses (map stated lemmas.now) last.now) }
{
    lemma_law();
    match check_lemma(alloc, problem, &lemmas, last) {
        Ok(()) => Ok(true),
        Err(CheckError::Refused(_)) => Ok(false),
        Err(CheckError::OutOfMemory) => Err(AllocError),
    }
}

/// The lemma that ends a refutation of the problem behind these lemmas: it has no literals and cites the last of them, whose cases the unit clauses at
/// the problem's end close, each the denial of one that is as tight. There may be none where others would do, and none where the last has many literals.
///
/// It takes time in the count of these unit clauses for each literal of the last lemma.
pub fn closing(
    alloc: Global,
    problem: &Problem,
    lemmas: &[Lemma],
) -> Result<Option<Lemma>, AllocError>
    ensures { IfOk result (λ found. IfSome found (Closes problem.now lemmas.now)) }
{
    let Some(steps) = closing_steps(alloc, problem, lemmas)? else {
        return Ok(None);
    };
    let clause = Clause::from_slice(alloc, &[])?;
    let last = Lemma { clause, steps };
    if !is_refuted(alloc, problem, lemmas, &last)? {
        return Ok(None);
    }
    Ok(Some(last))
}

/// Lemmas that a search may open with and one that ends them, as a refutation.
pub fn ended(
    problem: &Problem,
    mut lemmas: Vec<Lemma>,
    last: Lemma,
) -> Result<Refutation, AllocError>
    requires opens { IsOpening problem.now lemmas.items }
    requires closes { Closes problem.now lemmas.items last }
    ensures { IfOk result (λ all. IsRight problem.now (Unsat all)) }
{
    refute_tree::joined_law();
    lemmas.push(last)?;
    Ok(Refutation::new(lemmas))
}
