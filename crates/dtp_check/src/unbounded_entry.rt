//! What is wrong with an unbounded entry.
ghost use Rattle.std.specs.Prelude.{◌≡◌, IfOk, nat_lt};
ghost use Rattle.std.specs.List.{list_all};
ghost use Rattle.smt_script.specs.States.{State as Meaning};
ghost use Rattle.script_walk.specs.code.Standing.{Stands};
ghost use Rattle.dtp_entry.specs.Entries.{points_of, problem_of};
ghost use Rattle.dtp_check.specs.MinimizeFlaws.{is_of_objective, unbounded_flaw};
ghost use Rattle.dtp_check.specs.code.Made.{IsMadeOf};

use crate::judgement::EntryFlaw;
use crate::made::take_or_make;
use best_values::{Points, first_not_kept};
use smt_script::{Objective, State};
use std::alloc::{AllocError, Global};
use stn_core::{Problem, Schedule, Value};

/// Whether these are points of a problem of so many.
fn are_points(points: u32, set: &[u32]) -> bool
    ensures { result ≡ list_all (λ p. nat_lt p points) set.now }
{
    set.iter().all(|p| *p < points)
}

/// Whether the objective's first point is in the set, and its second isn't.
fn is_of_objective(objective: Objective, set: &[u32]) -> bool
    ensures { result ≡ is_of_objective objective set.now }
{
    set.contains(&objective.x) && !set.contains(&objective.y)
}

/// What is wrong with the values and the set, over the problem.
fn set_flaw(
    alloc: Global,
    problem: &Problem,
    objective: Objective,
    values: &[Value],
    set: &[u32],
) -> Result<Option<EntryFlaw>, AllocError>
    ensures { IfOk result (λ flaw. flaw ≡ unbounded_flaw objective problem.now.points problem.now.clauses values.now set.now) }
{
    if values.len() != problem.points as usize {
        return Ok(Some(EntryFlaw::WrongCount));
    }
    if !are_points(problem.points, set) {
        return Ok(Some(EntryFlaw::NoSuchPoint));
    }
    if !is_of_objective(objective, set) {
        return Ok(Some(EntryFlaw::NotOfObjective));
    }
    match first_not_kept(alloc, problem, values, set)? {
        Some(i) => Ok(Some(EntryFlaw::NotKept(i))),
        None => Ok(None),
    }
}

/// What is wrong with an unbounded entry. It takes time of the order of the set and the problem.
pub fn unbounded_flaw(
    alloc: Global,
    state: &State,
    objective: Objective,
    made: &mut Option<Problem>,
    values: &Schedule,
    set: &Points,
) -> Result<Option<EntryFlaw>, AllocError>
    requires stands { (s : Meaning) × Stands state.now s }
    requires made { IsMadeOf state.now made.old }
    ensures made { IsMadeOf state.now made.new }
    ensures flaw { IfOk result (λ flaw. (s : Meaning) → Stands state.now s
        → flaw ≡ unbounded_flaw objective (points_of s.context) (problem_of s.context) values.now set.now) }
{
    let problem = take_or_make(alloc, state, made)?;
    let flaw = set_flaw(
        alloc,
        &problem,
        objective,
        values.as_slice(),
        set.as_slice(),
    );
    *made = Some(problem);
    let found = flaw?;
    Ok(found)
}
