ghost use Rattle.std.specs.Prelude.{◌≡◌, ◌≤◌, All, IfOk, map};
ghost use Rattle.stn_core.specs.Answer.{IsAnswer};
ghost use Rattle.stn_core.specs.Limits.{points_limit};
ghost use Rattle.stn_core.specs.Literal.{IsOver};
ghost use Rattle.stn_core.specs.code.Rounds.{label_value, IsRound, NoneLowered};

use crate::cycle::cycle_from;
use crate::label::{INITIAL, Label, begin_round, lower};
use crate::limits::Value;
use crate::literal::Literal;
use crate::schedule::{Greatest, Schedule};
use std::alloc::{AllocError, Global};

fn values_of(alloc: Global, labels: &[Label]) -> Result<Vec<Value>, AllocError>
    ensures { IfOk result (λ values. values.items ≡ map label_value labels.now) }
{
    labels.iter().map(|label| label.value).collect(alloc)
}

fn schedule_of(alloc: Global, labels: &[Label]) -> Result<Schedule, AllocError>
    ensures { IfOk result (λ schedule. schedule ≡ map label_value labels.now) }
{
    Ok(Schedule::new(values_of(alloc, labels)?))
}

/// Rounds, until one of them lowers nothing or there were as many as points: a value that the last of these lowers
/// comes of a path with as many literals as there are points, and such a path has a cycle.
fn run(
    alloc: Global,
    labels: &mut [Label],
    points: u32,
    literals: &[Literal],
) -> Result<Greatest, AllocError>
    requires some { 1 ≤ points }
    requires few { points ≤ points_limit }
    requires over { All (IsOver points) literals.now }
    requires ready { IsRound points literals.now labels.old 1 0 }
    requires none_lowered { NoneLowered points labels.old 1 }
    ensures { IfOk result (IsAnswer points literals.now) }
{
    for round in 1..points {
        match lower(labels, literals, round) {
            None => return Ok(Greatest::Greatest(schedule_of(alloc, labels)?)),
            Some(point) => {
                // a cycle mostly shows early: look for one in rounds 1, 2, 4, 8, ..
                if round.is_power_of_two() {
                    if let Some(cycle) = cycle_from(alloc, labels, point)? {
                        return Ok(Greatest::Negative(cycle));
                    }
                }
                begin_round(labels);
            }
        }
    }
    match lower(labels, literals, points) {
        None => Ok(Greatest::Greatest(schedule_of(alloc, labels)?)),
        Some(point) => match cycle_from(alloc, labels, point)? {
            None => unreachable!(),
            Some(cycle) => Ok(Greatest::Negative(cycle)),
        },
    }
}

/// The same as `greatest`, by passes over all literals: it ends after the first pass that lowers nothing.
///
/// Source: the passes are those of the Bellman-Ford algorithm.
pub fn greatest_by_rounds(
    alloc: Global,
    points: u32,
    literals: &[Literal],
) -> Result<Greatest, AllocError>
    requires some { 1 ≤ points }
    requires few { points ≤ points_limit }
    requires over { All (IsOver points) literals.now }
    ensures { IfOk result (IsAnswer points literals.now) }
{
    let mut labels = vec![in alloc; INITIAL; points as usize]?;
    run(alloc, &mut labels, points, literals)
}
