//! The values and the set of an unbounded entry.
ghost use Rattle.std.specs.Prelude.{◌≡◌, ◌^◌, IfOk, OnOk, IsTrue};
ghost use Rattle.std.specs.List.Sorted.{IsStrictlyIncreasing};
ghost use Rattle.cert_text.specs.declared.entry.Entry.TheVariants.{Unbounded};
ghost use Rattle.cert_text.specs.Limits.{UnboundedWithin};

use crate::fitting::are_wholes_within;
use best_values::Points;
use cert_text::Entry;
use std::alloc::{AllocError, Global};
use stn_core::Schedule;

/// Whether each point is below the next.
fn ascend(set: &[u32]) -> bool
    ensures { IsTrue result → IsStrictlyIncreasing set.now }
{
    for k in 1..set.len() {
        if set[k - 1] >= set[k] {
            return false;
        }
    }
    true
}

/// The entry with copies of the values and the set.
pub fn converted_set(alloc: Global, values: &Schedule, set: &Points) -> Result<Entry, AllocError>
    ensures same { IfOk result (λ shown. shown ≡ Unbounded values.now set.now) }
    ensures within { OnOk result (UnboundedWithin (2 ^ 32) values.now set.now) }
{
    let points = set.as_slice();
    // values that can be read are within the limits, and points of a problem that are read ascend, so this doesn't come
    if !are_wholes_within(values.as_slice()) || !ascend(points) {
        return Err(AllocError);
    }
    let mut shown = Vec::new(alloc);
    shown.extend_from_slice(points)?;
    Ok(Entry::Unbounded(values.copy()?, Points::new(shown)))
}
