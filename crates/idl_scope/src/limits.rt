//! The limit of names.
ghost use Rattle.std.specs.Prelude.{◌≡◌};
ghost use Rattle.idl_linear.specs.declared.limits.TheConstants.{NAMES_LIMIT};
ghost use Rattle.idl_scope.specs.Limits.{names_limit};

/// The limit that the definition states is that of the code.
pub fn limits_law()
    ensures { names_limit ≡ NAMES_LIMIT }
{}
