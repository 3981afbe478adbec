//! Values by which searches of one problem begin at different places.
use std::alloc::{AllocError, Global};
use stn_core::Value;

/// What the numbers are drawn from, with the seed's bits.
const FIRST: u64 = 0x2545_f491_4f6c_dd1d;

/// Values are below this, about as far apart as bounds are in practice.
const SPREAD: u64 = 1_000;

/// A value for each of so many time points, drawn from the seed.
///
/// Source: Marsaglia, "Xorshift RNGs", Journal of Statistical Software 8 (2003).
pub(crate) fn scattered(alloc: Global, points: u32, seed: u32) -> Result<Vec<Value>, AllocError> {
    let mut drawn = FIRST ^ (u64::from(seed) << 32);
    let mut values = Vec::with_capacity(alloc, points as usize)?;
    for _ in 0..points {
        drawn ^= drawn << 13;
        drawn ^= drawn >> 7;
        drawn ^= drawn << 17;
        values.push(Value::from(drawn % SPREAD))?;
    }
    Ok(values)
}
