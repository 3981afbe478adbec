ghost use Rattle.std.specs.Prelude.{◌≡◌, ◌<◌, ◌≤◌, length, ℕ, slice_set, IsTrue, All, pos, neg_ℤ, ◌+ℤ◌, ◌<ℤ◌, ◌≤ℤ◌};
ghost use Rattle.stn_core.specs.Limits.{value_limit};
ghost use Rattle.stn_core.specs.Literal.{IsOver, HoldEach, value_at, literal_at, most_allowed};
ghost use Rattle.stn_core.specs.code.Uppers.{IsUpper};

use crate::limits::{VALUE_LIMIT, Value};
use crate::literal::{Literal, holds};

/// No value is lowered below this.
const LEAST: Value = -(VALUE_LIMIT as Value);

/// What the literal allows its first point.
fn allowed(values: &[Value], literals: &[Literal], place: usize) -> Value
    requires place { place < length literals.now }
    requires over { All (IsOver (length values.now)) literals.now }
    requires upper { IsUpper (length values.now) literals.now values.now }
    ensures { result ≡ most_allowed values.now (literal_at literals.now place) }
{
    let literal = literals[place];
    values[literal.y as usize] + Value::from(literal.c)
}

/// Whether the value at the point falls by it, and it is within limits.
fn falls(values: &[Value], point: u32, now: Value) -> bool
    requires { point < length values.now }
    ensures bad { IsTrue result → now <ℤ value_at values.now point }
    ensures low { IsTrue result → neg_ℤ (pos (value_limit)) ≤ℤ now }
{
    now < values[point as usize] && now >= LEAST
}

fn put(values: &mut [Value], point: u32, now: Value)
    requires { point < length values.old }
    ensures { values.new ≡ slice_set values.old point now }
{
    values[point as usize] = now;
}

/// Lowers the first point of the literal at a place to what it allows, where it fails and the value stays within limits.
pub fn lower(values: &mut [Value], literals: &[Literal], place: usize) -> bool
    requires place { place < length literals.now }
    requires over { All (IsOver (length values.old)) literals.now }
    requires upper { IsUpper (length values.old) literals.now values.old }
    ensures upper { IsUpper (length values.old) literals.now values.new }
{
    let now = allowed(values, literals, place);
    let point = literals[place].x;
    if falls(values, point, now) {
        put(values, point, now);
        return true;
    }
    false
}

/// Whether the literal at a place fails.
pub fn fails(values: &[Value], literals: &[Literal], place: usize) -> bool
    requires place { place < length literals.now }
    requires over { All (IsOver (length values.now)) literals.now }
    requires upper { IsUpper (length values.now) literals.now values.now }
{
    let now = allowed(values, literals, place);
    falls(values, literals[place].x, now)
}

/// Whether all literals hold.
pub fn all_hold(values: &[Value], literals: &[Literal]) -> bool
    requires over { All (IsOver (length values.now)) literals.now }
    ensures { IsTrue result → HoldEach values.now literals.now }
{
    'literals: for literal in literals {
        if !holds(*literal, values) {
            return false;
        }
    }
    true
}
