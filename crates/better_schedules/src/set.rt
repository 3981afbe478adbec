//! The points up to a height.
ghost use Rattle.std.specs.Prelude.{◌≤◌, IfOk, length};
ghost use Rattle.std.specs.List.Sorted.{IsStrictlyIncreasing};
ghost use Rattle.stn_core.specs.Limits.{points_limit};
ghost use Rattle.better_schedules.specs.code.Heights.{IsSetUpTo};

use std::alloc::{AllocError, Global};

/// The numbers of the heights that are no more than a limit, in ascending order.
pub(crate) fn set_up_to(
    alloc: Global,
    heights: &[u128],
    limit: u128,
) -> Result<Vec<u32>, AllocError>
    requires few { length heights.now ≤ points_limit }
    ensures set { IfOk result (λ set. IsSetUpTo heights.now limit set.items) }
    ensures ascending { IfOk result (λ set. IsStrictlyIncreasing set.items) }
{
    let mut set = Vec::new(alloc);
    for (place, height) in heights.iter().enumerate() {
        if *height <= limit {
            set.push(place as u32)?;
        }
    }
    Ok(set)
}
