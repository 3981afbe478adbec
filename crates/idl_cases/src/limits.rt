//! The limit of cases.
ghost use Rattle.std.specs.Prelude.{◌≡◌};
ghost use Rattle.idl_cases.specs.Limits.{cases_limit};
ghost use Rattle.idl_cases.specs.declared.cases.TheConstants.{CASES_LIMIT};

/// The limit that the definition states is that of the code.
pub fn limits_law()
    ensures { cases_limit ≡ CASES_LIMIT }
{}
