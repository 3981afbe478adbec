//! How far values are above one of them.
ghost use Rattle.std.specs.Prelude.{◌<◌, length, IfOk, All};
ghost use Rattle.stn_core.specs.Literal.{value_at};
ghost use Rattle.stn_core.specs.Schedule.{IsInRange};
ghost use Rattle.better_schedules.specs.code.Heights.{IsHeight, AreHeights};

use std::alloc::{AllocError, Global};
use stn_core::Value;

/// How far a value is above another one, and 0 for one that is not above it.
fn height(value: Value, low: Value) -> u128
    requires value { IsInRange value }
    requires low { IsInRange low }
    ensures { IsHeight low value result }
{
    if value <= low {
        return 0;
    }
    (value - low).unsigned_abs()
}

/// The heights of all values above that of the point.
pub(crate) fn heights(alloc: Global, values: &[Value], low: u32) -> Result<Vec<u128>, AllocError>
    requires values { All IsInRange values.now }
    requires low { low < length values.now }
    ensures { IfOk result (λ heights. AreHeights (value_at values.now low) values.now heights.items) }
{
    let mut heights = Vec::new(alloc);
    for value in values {
        heights.push(height(*value, values[low as usize]))?;
    }
    Ok(heights)
}
