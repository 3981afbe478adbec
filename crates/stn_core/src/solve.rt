ghost use Rattle.std.specs.Prelude.{◌≤◌, length, All, IfOk, IfSome};
ghost use Rattle.stn_core.specs.Answer.{IsAnswer, IsCycleAmong};
ghost use Rattle.stn_core.specs.Limits.{points_limit};
ghost use Rattle.stn_core.specs.Literal.{IsOver};
ghost use Rattle.stn_core.specs.code.Uppers.{IsUpper};

use crate::limits::Value;
use crate::literal::{Literal, Literals};
use crate::loops::{cycle_at, loop_in};
use crate::lowering::all_hold;
use crate::order::sort;
use crate::plain::greatest_by_rounds;
use crate::scan::scan_all;
use crate::schedule::{Greatest, Schedule};
use crate::tables::Tables;
use std::alloc::{AllocError, Global};

/// Lowers values for as long as literals fail, or finds a negative cycle, or gives up: what it leaves is checked by its
/// caller. Each round orders the points that wait, and those to which failing literals lead from them, so that a literal
/// that fails leads forth (Goldberg and Radzik 1993).
fn settle(
    alloc: Global,
    values: &mut [Value],
    literals: &[Literal],
    tables: &mut Tables,
    points: u32,
) -> Result<Option<Literals>, AllocError>
    requires over { All (IsOver (length values.old)) literals.now }
    requires upper { IsUpper (length values.old) literals.now values.old }
    ensures upper { IsUpper (length values.old) literals.now values.new }
    ensures cycle { IfOk result (λ found. IfSome found (IsCycleAmong literals.now)) }
{
    'rounds: for round in 0..points {
        if let Some(back) = sort(values, literals, tables)? {
            return cycle_at(alloc, literals, &tables.tree, back);
        }
        scan_all(values, literals, tables)?;
        if tables.active.is_empty() {
            return Ok(None);
        }
        if round.is_power_of_two() {
            let mut stamps = vec![in alloc; 0usize; points as usize]?;
            if let Some(back) = loop_in(literals, &tables.by, &mut stamps, points) {
                return cycle_at(alloc, literals, &tables.by, back);
            }
        }
    }
    Ok(None)
}

/// The greatest schedule of the literals, or a negative cycle of them.
///
/// The points are 1 to `POINTS_LIMIT`, the literals' points are among them, and each bound is from `-BOUND_LIMIT - 1` to
/// `BOUND_LIMIT`. It takes memory for a few numbers a point and a literal, and time for at most as many passes over the
/// literals as there are points; where no literals lead around, one pass. The one error is want of memory.
///
/// The order in which values are lowered isn't trusted: the values that it leaves are looked at once, literal by literal,
/// and a cycle is tested. Where neither were right, plain rounds would answer.
///
/// Source: Dechter, Meiri, Pearl 1991, section 3; the order is that of Goldberg and Radzik 1993.
pub fn greatest(alloc: Global, points: u32, literals: &[Literal]) -> Result<Greatest, AllocError>
    requires some { 1 ≤ points }
    requires few { points ≤ points_limit }
    requires over { All (IsOver points) literals.now }
    ensures { IfOk result (IsAnswer points literals.now) }
{
    let mut values: Vec<Value> = vec![in alloc; 0; points as usize]?;
    let mut tables = Tables::start(alloc, points, literals)?;
    if let Some(cycle) = settle(alloc, &mut values, literals, &mut tables, points)? {
        return Ok(Greatest::Negative(cycle));
    }
    if all_hold(&values, literals) {
        return Ok(Greatest::Greatest(Schedule::new(values)));
    }
    greatest_by_rounds(alloc, points, literals)
}
