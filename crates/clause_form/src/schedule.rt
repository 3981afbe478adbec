//! The schedule that a solution gives.
ghost use Rattle.std.specs.Prelude.{◌≡◌, ◌<◌, ◌-ℤ◌, length, All, IfOk};
ghost use Rattle.stn_core.specs.Named.{IsWithinLimit, AreWithinLimit};
ghost use Rattle.stn_core.specs.Schedule.{IsInRange};
ghost use Rattle.clause_form.specs.Restricting.{named_value, restricted};

use idl_node::Sort;
use std::alloc::{AllocError, Global};
use stn_core::{NamedValue, NamedValues, Value};

/// The value of a name by its time point's and the zero point's.
fn named_value(sort: Sort, value: Value, zero_value: Value) -> NamedValue
    requires value { IsInRange value }
    requires zero_value { IsInRange zero_value }
    ensures value { result ≡ named_value sort (value -ℤ zero_value) }
    ensures within { IsWithinLimit result }
{
    let difference = value - zero_value;
    match sort {
        Sort::Int => NamedValue::Int(difference),
        Sort::Bool => NamedValue::Truth(difference <= 0),
    }
}

/// The schedule that values of the time points give: each Int name's value is its time point's less the zero point's, and a
/// Bool name is true where that difference is at most 0. The names are given by their sorts, in order of declaration.
pub fn restrict(alloc: Global, values: &[Value], sorts: &[Sort]) -> Result<NamedValues, AllocError>
    requires some { length sorts.now < length values.now }
    requires range { All IsInRange values.now }
    ensures values { IfOk result (λ named. named ≡ restricted sorts.now values.now) }
    ensures within { IfOk result AreWithinLimit }
{
    let zero_value = values[0];
    let mut named = Vec::with_capacity(alloc, sorts.len())?;
    for (k, sort) in sorts.iter().enumerate() {
        named.push(named_value(*sort, values[k + 1], zero_value))?;
    }
    Ok(NamedValues::new(named))
}
