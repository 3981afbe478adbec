//! Values of time points, and the schedule that they give.
ghost use Rattle.std.specs.Prelude.{◌≡◌, length, IfOk};
ghost use Rattle.stn_core.specs.Named.{IsWithinLimit, AreWithinLimit};
ghost use Rattle.idl_node.specs.Sorts.{IsOfSort, AreOfSorts};

use idl_node::Sort;
use std::alloc::{AllocError, Global};
use stn_core::{NAMED_VALUE_LIMIT, NamedValue, NamedValues, Value};

/// The greatest absolute value of a name that is tried as it is. A greater one is tried as this.
const GUESS_LIMIT: i64 = 1 << 62;

/// The value of a name's time point: a Bool name's is 0 where it is true, else 1.
pub fn guess_of(named: NamedValue) -> i64 {
    match named {
        NamedValue::Int(value) => {
            let limit = Value::from(GUESS_LIMIT);
            if value < -limit {
                -GUESS_LIMIT
            } else if value > limit {
                GUESS_LIMIT
            } else {
                value as i64
            }
        }
        NamedValue::Truth(true) => 0,
        NamedValue::Truth(false) => 1,
    }
}

/// The value of a time point, 0 where it has none.
pub fn value_at(values: &[i64], point: usize) -> i64 {
    values.get(point).copied().unwrap_or(0)
}

/// Puts the zero point back to 0, and all others with it.
pub fn settle_zero(values: &mut [i64]) {
    let zero = value_at(values, 0);
    if zero != 0 {
        for value in values.iter_mut() {
            *value = value.saturating_sub(zero);
        }
    }
}

/// The value of a name of this sort, within the limit.
fn named_value(sort: Sort, value: i64) -> NamedValue
    ensures sort { IsOfSort sort result }
    ensures within { IsWithinLimit result }
{
    match sort {
        Sort::Int => NamedValue::Int(Value::from(value)),
        Sort::Bool => NamedValue::Truth(value <= 0),
    }
}

/// The schedule that values of the time points give, the zero point's first: one value for each sort, within the limit.
pub fn named_by(alloc: Global, values: &[i64], sorts: &[Sort]) -> Result<NamedValues, AllocError>
    ensures sorts { IfOk result (λ named. AreOfSorts sorts.now named) }
    ensures count { IfOk result (λ named. length named ≡ length sorts.now) }
    ensures within { IfOk result AreWithinLimit }
{
    let mut named = Vec::with_capacity(alloc, sorts.len())?;
    for (k, sort) in sorts.iter().enumerate() {
        named.push(named_value(*sort, value_at(values, k + 1)))?;
    }
    Ok(NamedValues::new(named))
}
