//! How low an objective is asked to be.
ghost use Rattle.std.specs.Prelude.{◌≡◌, ◌↔◌, IsTrue, neg_ℤ, ◌≤ℤ◌};
ghost use Rattle.best_values.specs.Widths.{Fits};
ghost use Rattle.better_schedules.specs.Near.{span};
ghost use Rattle.better_schedules.specs.code.Descents.{IsFloor, IsMiddle};

use crate::incumbent::Incumbent;
use best_values::width;
use stn_core::{Problem, Value};

/// What the objective is asked to be below.
#[derive(Clone, Copy)]
pub struct Bound {
    pub value: Value,
}

/// How far from 0 a best value can be.
fn span_of(problem: &Problem) -> Value
    requires { Fits problem.now }
    ensures { result ≡ span problem.now }
{
    (u128::from(problem.points) * u128::from(width(problem))) as Value
}

/// Whether a value is one that can be best, as far as the span goes.
pub(crate) fn is_near(problem: &Problem, value: Value) -> bool
    requires { Fits problem.now }
    ensures { IsTrue result ↔ (neg_ℤ (span problem.now) ≤ℤ value) }
{
    -span_of(problem) <= value
}

/// The hint, or the least that can be asked for.
pub(crate) fn floored(problem: &Problem, hint: Value) -> Bound
    requires { Fits problem.now }
    ensures { IsFloor problem.now result.value }
{
    let floor = -span_of(problem) - 1;
    if hint < floor {
        return Bound { value: floor };
    }
    Bound { value: hint }
}

/// How much of the way between the two, less than which is near: a twelfth. What is refuted there takes about as long as what is
/// refuted at the least value, and the next question begins as far away.
pub(crate) fn near_of(low: Bound, best: &Incumbent) -> Value {
    best.value.wrapping_sub(low.value) / 12
}

// At most how far below the higher one a question is: half of the way, and near the end a 64th of it, so that the last steps ask for
// anything better at all.
fn most_step(way: Value, near: Value) -> Value {
    if way <= near {
        way >> 6u32
    } else {
        way >> 1u32
    }
}

/// A bound to ask for: between the two, or the higher one. It is as far below the higher one as the step says, and at most
/// half of the way, or a small part of it where that is near: a hint, whose difference is tested.
pub(crate) fn middle(low: Bound, best: &Incumbent, step: Value, near: Value) -> Bound
    ensures { IsMiddle low.value best.now.value result.value }
{
    let way = best.value.wrapping_sub(low.value);
    let value = best.value.wrapping_sub(most_step(way, near).min(step));
    if low.value < value && value < best.value {
        return Bound { value };
    }
    Bound { value: best.value }
}
