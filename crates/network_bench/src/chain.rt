//! A chain of a million literals: each point is at least one before the one below it.
ghost use Rattle.std.specs.Prelude.{◌≡◌};

use std::alloc::AllocError;
use stn_core::{Added, Literal, Net, Value};

/// The points 0 to 1,000,000.
pub const CHAIN_POINTS: u32 = 1_000_001;

/// Adds the chain's literals from its near end: how many the net takes. They close no cycle.
pub fn add_chain<N: Net>(net: &mut N) -> Result<u32, AllocError>
    requires { N.points_of net.old ≡ CHAIN_POINTS }
{
    let mut taken = 0u32;
    'links: for k in 1..CHAIN_POINTS {
        let link = Literal {
            x: k,
            y: k - 1,
            c: -1,
        };
        if matches!(net.add(link)?, Added::Yes) {
            taken = taken.saturating_add(1);
        }
    }
    Ok(taken)
}

/// How many points have the value that the whole chain gives them: point k the value -k.
pub fn lowered(values: &[Value]) -> u32 {
    let mut wanted: Value = 0;
    let mut lowered = 0u32;
    for value in values {
        if *value == wanted {
            lowered = lowered.saturating_add(1);
        }
        wanted = wanted.saturating_sub(1);
    }
    lowered
}
