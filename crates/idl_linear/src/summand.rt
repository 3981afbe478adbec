ghost use Rattle.std.specs.Prelude.{◌≡◌, true};
ghost use Rattle.idl_linear.specs.Limits.{coefficient_limit};
ghost use Rattle.idl_linear.specs.Linear.{negative_summand, is_within};
ghost use Rattle.std.specs.Prelude.{if◌then◌else◌};

/// A time point with its coefficient.
#[derive(Clone, Copy, Debug, PartialEq, Eq)]
pub struct Summand {
    pub point: u32,
    pub coefficient: i64,
}

impl Summand {
    pub(crate) fn negative(self) -> Self
        requires { is_within coefficient_limit self.coefficient ≡ true }
        ensures { result ≡ negative_summand self }
    {
        Summand {
            point: self.point,
            coefficient: -self.coefficient,
        }
    }

    /// The summand, or its negative.
    pub(crate) fn signed(self, is_negated: bool) -> Self
        requires { is_within coefficient_limit self.coefficient ≡ true }
        ensures { result ≡ (if is_negated then negative_summand self else self) }
    {
        if is_negated { self.negative() } else { self }
    }
}
