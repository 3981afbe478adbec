//! Which clauses a set of points keeps when they are lowered together.
ghost use Rattle.std.specs.Prelude.{◌≡◌, ◌↔◌, ◌<◌, ℕ, length, List, All, IfOk, IsTrue, MatchOption};
ghost use Rattle.stn_core.specs.Literal.{IsOver};
ghost use Rattle.best_values.specs.Bests.{IsKept, ClauseIsKept};
ghost use Rattle.best_values.specs.FreeSets.{AreMarks, IsFirstNotKept};

use crate::marks::marks_of;
use std::alloc::{AllocError, Global};
use stn_core::{Literal, Problem, Value, holds};

// Whether the literal holds and is not cut by the set that is marked.
fn is_kept(literal: Literal, values: &[Value], marks: &[bool]) -> bool
    requires over { IsOver (length values.now) literal }
    requires count { length marks.now ≡ length values.now }
    ensures { (set : List ℕ) → AreMarks (length values.now) set marks.now → (IsTrue result ↔ IsKept values.now set literal) }
{
    holds(literal, values) && (marks[literal.x as usize] || !marks[literal.y as usize])
}

fn clause_is_kept(clause: &[Literal], values: &[Value], marks: &[bool]) -> bool
    requires over { All (IsOver (length values.now)) clause.now }
    requires count { length marks.now ≡ length values.now }
    ensures { (set : List ℕ) → AreMarks (length values.now) set marks.now → (IsTrue result ↔ ClauseIsKept values.now set clause.now) }
{
    for literal in clause {
        if is_kept(*literal, values, marks) {
            return true;
        }
    }
    false
}

/// The number of the first clause, from 0, without a literal that holds and hasn't its second point in the set and its first
/// outside; None where every clause has one.
///
/// There is one value for each point, and the set's points are points of the problem, in any order. It takes memory for one
/// mark a point, and time in proportion to points and literals. The one error is want of memory.
pub fn first_not_kept(
    alloc: Global,
    problem: &Problem,
    values: &[Value],
    set: &[u32],
) -> Result<Option<usize>, AllocError>
    requires count { length values.now ≡ problem.now.points }
    requires among { All (λ point. point < problem.now.points) set.now }
    ensures { IfOk result (λ number. MatchOption number
        (All (ClauseIsKept values.now set.now) problem.now.clauses)
        (IsFirstNotKept values.now set.now problem.now.clauses)) }
{
    let marks = marks_of(alloc, problem.points, set)?;
    for (number, clause) in problem.clauses.as_slice().iter().enumerate() {
        if !clause_is_kept(clause.as_slice(), values, &marks) {
            return Ok(Some(number));
        }
    }
    Ok(None)
}
