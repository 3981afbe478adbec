//! How high one comes by steps of a width.
ghost use Rattle.std.specs.Prelude.{◌≤◌, ◌*◌, IfOk, length, All};
ghost use Rattle.std.specs.List.Sorted.{IsNonDecreasing};
ghost use Rattle.stn_core.specs.Limits.{points_limit};
ghost use Rattle.better_schedules.specs.code.Heights.{IsApart};

use std::alloc::{AllocError, Global};

/// A height, no more than a width for each of the heights, above which none comes within the width.
pub(crate) fn reach(alloc: Global, heights: &[u128], width: u64) -> Result<u128, AllocError>
    requires few { length heights.now ≤ points_limit }
    ensures near { IfOk result (λ t. t ≤ length heights.now * width) }
    ensures apart { IfOk result (λ t. All (IsApart t width) heights.now) }
{
    let mut sorted = Vec::from_slice(alloc, heights)?;
    sorted.sort()?;
    Ok(climb(&sorted, width))
}

fn climb(sorted: &[u128], width: u64) -> u128
    requires few { length sorted.now ≤ points_limit }
    requires sorted { IsNonDecreasing sorted.now }
    ensures near { result ≤ length sorted.now * width }
    ensures apart { All (IsApart result width) sorted.now }
{
    let mut reached = 0u128;
    for height in sorted {
        if *height > reached {
            if *height - reached > u128::from(width) {
                return reached;
            }
            reached = *height;
        }
    }
    reached
}
