//! Whether an outcome holds of a cube.
ghost use Rattle.std.specs.Prelude.{◌≡◌, ◌↔◌, IsTrue, OnOk, IfErr, All, map};
ghost use Rattle.stn_core.specs.Schedule.{IsInRange};
ghost use Rattle.cert_check.specs.Tests.{is_assumed};
ghost use Rattle.refute_tree.specs.Trees.{IsDenied, stated};
ghost use Rattle.book_core.specs.Books.{Fits, IsDecidable, IsShutBy, IsUndecided};
ghost use Rattle.stn_core.specs.Solution.{IsAtom, IsSolution};
ghost use Rattle.book_core.specs.Shared.{lemmas_of};
ghost use Rattle.book_judge.specs.Faults.{Misfits};

use crate::judging::Fault;
use book_core::Outcome;
use cert_check::check_schedule;
use refute_tree::Lemma;
use std::sync::Arc;
use stn_core::{Literal, Problem, Schedule, VALUE_LIMIT, Value, negate};

const LEAST: Value = -(VALUE_LIMIT as Value);

fn contains(literals: &[Literal], wanted: Literal) -> bool
    ensures { result ≡ is_assumed literals.now wanted }
{
    literals.iter().any(|literal| wanted == *literal)
}

fn is_denied(cube: &[Literal], clause: &[Literal]) -> bool
    ensures { IsTrue result ↔ IsDenied cube.now clause.now }
{
    for literal in clause {
        if !contains(cube, negate(*literal)) {
            return false;
        }
    }
    true
}

fn is_atom(problem: &Problem, literal: Literal) -> bool
    ensures { IsTrue result ↔ IsAtom problem.now literal }
{
    for clause in problem.clauses.as_slice() {
        if contains(clause.as_slice(), literal) {
            return true;
        }
    }
    false
}

fn is_in_range(value: &Value) -> bool
    ensures { IsTrue result ↔ IsInRange value.now }
{
    *value > LEAST && *value <= 0
}

fn in_range(values: &[Value]) -> bool
    ensures { IsTrue result ↔ All IsInRange values.now }
{
    for value in values {
        if !is_in_range(value) {
            return false;
        }
    }
    true
}

fn is_solution(problem: &Problem, schedule: &Schedule) -> bool
    ensures { IsTrue result ↔ IsSolution problem.now schedule.now }
{
    let values = schedule.as_slice();
    if values.len() != problem.points as usize {
        return false;
    }
    if !in_range(values) {
        return false;
    }
    check_schedule(problem, schedule).is_ok()
}

fn excludes(known: &[Arc<Lemma>], cube: &[Literal], j: usize) -> bool
    ensures { IsTrue result ↔ IsShutBy (map stated (lemmas_of known.now)) cube.now j }
{
    if j >= known.len() {
        return false;
    }
    is_denied(cube, known[j].clause.as_slice())
}

fn is_open(problem: &Problem, cube: &[Literal], literal: Literal) -> bool
    ensures { IsTrue result ↔ (IsDecidable problem.now literal × IsUndecided cube.now literal) }
{
    if contains(cube, literal) {
        return false;
    }
    if contains(cube, negate(literal)) {
        return false;
    }
    if is_atom(problem, literal) {
        return true;
    }
    is_atom(problem, negate(literal))
}

/// What the outcome says of the cube, where these lemmas are known.
pub(crate) fn check_outcome(
    problem: &Problem,
    known: &[Arc<Lemma>],
    cube: &[Literal],
    outcome: &Outcome,
) -> Result<(), Fault>
    ensures fits { OnOk result (Fits problem.now (lemmas_of known.now) cube.now outcome.now) }
    ensures fault { IfErr result (Misfits problem.now (lemmas_of known.now) cube.now outcome.now) }
{
    match outcome {
        Outcome::Found(schedule) => {
            if is_solution(problem, schedule) {
                Ok(())
            } else {
                Err(Fault::NotASchedule)
            }
        }
        Outcome::Shut(j) => {
            if excludes(known, cube, *j) {
                Ok(())
            } else {
                Err(Fault::DoesNotExclude)
            }
        }
        Outcome::Split(literal) => {
            if is_open(problem, cube, *literal) {
                Ok(())
            } else {
                Err(Fault::AlreadyDecided)
            }
        }
        Outcome::Open => Ok(()),
    }
}
