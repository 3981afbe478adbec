//! The limit of levels.
ghost use Rattle.std.specs.Prelude.{◌≡◌};
ghost use Rattle.smt_script.specs.Limits.{levels_limit};
ghost use Rattle.smt_script.specs.declared.limits.TheConstants.{LEVELS_LIMIT};

/// The greatest number of levels above the bottom.
pub const LEVELS_LIMIT: u64 = 65_536;

/// The limit that the definitions state is that of the code.
pub fn limits_law()
    ensures { levels_limit ≡ LEVELS_LIMIT }
{}
