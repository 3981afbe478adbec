//! The limits of Int terms and of comparisons.
ghost use Rattle.std.specs.Prelude.{◌≡◌, ◌+◌};
ghost use Rattle.idl_linear.specs.Limits.{coefficient_limit, constant_limit, number_limit, points_limit};
ghost use Rattle.idl_linear.specs.declared.limits.TheConstants.{
  NAMES_LIMIT,
  COEFFICIENT_LIMIT,
  CONSTANT_LIMIT,
  NUMBER_LIMIT,
};

/// The greatest number of names, each of which has a time point behind the zero point.
pub const NAMES_LIMIT: u32 = 65_536;

/// The greatest absolute value of a coefficient of an Int term.
pub const COEFFICIENT_LIMIT: u64 = 1 << 20;

/// The greatest absolute value of a numeral, and of the constant of an Int term.
pub const CONSTANT_LIMIT: u64 = 1 << 62;

/// The greatest absolute value of a comparison's number, before strictness.
pub const NUMBER_LIMIT: u64 = 1 << 60;

/// The limits that the definitions state are those of the code.
pub fn limits_law()
    ensures coefficients { coefficient_limit ≡ COEFFICIENT_LIMIT }
    ensures constants { constant_limit ≡ CONSTANT_LIMIT }
    ensures numbers { number_limit ≡ NUMBER_LIMIT }
    ensures points { points_limit ≡ NAMES_LIMIT + 1 }
{}
