//! Why an objective has no best value.
ghost use Rattle.std.specs.Prelude.{◌≡◌, ◌<◌, IfOk, length, All, neg_ℤ, ◌<ℤ◌};
ghost use Rattle.stn_core.specs.Problem.{ProblemHolds};
ghost use Rattle.stn_core.specs.Schedule.{IsInRange};
ghost use Rattle.best_values.specs.Bests.{objective, IsFreeSet};
ghost use Rattle.better_schedules.specs.Near.{span};

use crate::above::heights;
use crate::ascent::reach;
use crate::set::set_up_to;
use best_values::width;
use std::alloc::{AllocError, Global};
use stn_core::{Problem, Value};

/// A set of points with x in it and not y that can be lowered together without end, where the values that the problem
/// holds on have x below y by more than a width for each point.
///
/// Of the values in their order two neighbours between x and y are further apart than any bound, and the set is the points
/// up to the lower one.
pub fn unbounded_set(
    alloc: Global,
    problem: &Problem,
    values: &[Value],
    x: u32,
    y: u32,
) -> Result<Vec<u32>, AllocError>
    requires count { length values.now ≡ problem.now.points }
    requires range { All IsInRange values.now }
    requires holds { ProblemHolds values.now problem.now.clauses }
    requires x_in { x < problem.now.points }
    requires y_in { y < problem.now.points }
    requires low { objective x y values.now <ℤ neg_ℤ (span problem.now) }
    ensures { IfOk result (λ set. IsFreeSet problem.now x y values.now set.items) }
{
    let heights = heights(alloc, values, x)?;
    let limit = reach(alloc, &heights, width(problem))?;
    let set = set_up_to(alloc, &heights, limit)?;
    Ok(set)
}
