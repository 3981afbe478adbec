ghost use Rattle.std.specs.Prelude.{◌≡◌};
ghost use Rattle.stn_core.specs.Limits.{points_limit, bound_limit, value_limit, value_span, named_value_limit};
ghost use Rattle.stn_core.specs.declared.limits.TheConstants.{
  POINTS_LIMIT,
  BOUND_LIMIT,
  VALUE_LIMIT,
  VALUE_SPAN,
  NAMED_VALUE_LIMIT,
};

/// The value of a time point. The sum of a value of a greatest schedule and any `i64` is one too.
pub type Value = i128;

/// The greatest count of time points.
pub const POINTS_LIMIT: u32 = 1 << 21;

/// The greatest bound of a literal. The least is one below its negative, so that negation keeps the limits.
pub const BOUND_LIMIT: u64 = 1 << 60;

/// The values of a greatest schedule lie strictly above the negative of this.
pub const VALUE_LIMIT: u128 = 1 << 81;

/// Half the count of the numbers that a `Value` can be.
pub const VALUE_SPAN: u128 = 1 << (Value::BITS - 1);

/// The greatest absolute value of a name of sort Int that is read, and in which terms are evaluated.
pub const NAMED_VALUE_LIMIT: u128 = 1 << 90;

/// The limits that the definitions state are those of the code.
pub fn limits_law()
    ensures points { points_limit ≡ POINTS_LIMIT }
    ensures bound { bound_limit ≡ BOUND_LIMIT }
    ensures value { value_limit ≡ VALUE_LIMIT }
    ensures span { value_span ≡ VALUE_SPAN }
    ensures named { named_value_limit ≡ NAMED_VALUE_LIMIT }
{}
