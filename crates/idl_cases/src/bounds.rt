//! Bounds on the linear terms of cases.
ghost use Rattle.std.specs.Prelude.{◌≡◌, ◌+◌, ◌≤◌, IfSome};
ghost use Rattle.idl_linear.specs.Limits.{coefficient_limit, constant_limit};
ghost use Rattle.idl_cases.specs.code.Bounded.{AreLimits, IsBelow, IsTogether, IsWithinBounds};

use idl_linear::{COEFFICIENT_LIMIT, CONSTANT_LIMIT, Linear};

/// Numbers that no constant and no coefficient is beyond in its absolute value. They are at most the limits of Int terms.
#[derive(Clone, Copy)]
pub(crate) struct Bounds {
    pub(crate) constant: u64,
    pub(crate) coefficient: u64,
}

impl Bounds {
    /// Of every Int term.
    pub(crate) fn limits() -> Bounds
        ensures limits { AreLimits result }
        ensures constant { result.constant ≡ constant_limit }
        ensures coefficient { result.coefficient ≡ coefficient_limit }
    {
        Bounds {
            constant: CONSTANT_LIMIT,
            coefficient: COEFFICIENT_LIMIT,
        }
    }

    /// Of a linear term.
    pub(crate) fn of(linear: &Linear) -> Bounds
        ensures limits { AreLimits result }
        ensures within { IsWithinBounds result linear.now }
    {
        Bounds {
            constant: linear.constant().unsigned_abs(),
            coefficient: linear.greatest(),
        }
    }

    /// Of what is within the one or the other.
    pub(crate) fn of_both(self, other: Bounds) -> Bounds
        requires limits { AreLimits self }
        requires other_limits { AreLimits other }
        ensures limits { AreLimits result }
        ensures first { IsBelow self result }
        ensures second { IsBelow other result }
    {
        Bounds {
            constant: self.constant.max(other.constant),
            coefficient: self.coefficient.max(other.coefficient),
        }
    }

    /// Of the sum of what is within the one and what is within the other. There are none where they are beyond the limits.
    pub(crate) fn of_sum(self, other: Bounds) -> Option<Bounds>
        requires limits { AreLimits self }
        requires other_limits { AreLimits other }
        ensures { IfSome result (λ b. AreLimits b × IsTogether self other b) }
    {
        let constant = self.constant + other.constant;
        let coefficient = self.coefficient + other.coefficient;
        if constant > CONSTANT_LIMIT || coefficient > COEFFICIENT_LIMIT {
            return None;
        }
        Some(Bounds {
            constant,
            coefficient,
        })
    }
}
