use std::alloc::{AllocError, AllocFailed};

/// Why there is no sum.
#[derive(Clone, Copy, Debug, PartialEq, Eq)]
pub enum LinearError {
    OutOfMemory,
    /// A coefficient is beyond 2^20, or the constant beyond 2^62.
    BoundTooLarge,
}

impl<T: Drop> From<AllocFailed<T>> for LinearError {
    ghost use Rattle.std.specs.Prelude.{◌≡◌};
    ghost use Rattle.idl_linear.specs.declared.error.LinearError.TheVariants.{OutOfMemory};

    ghost from_gives = { λ _ e. e ≡ OutOfMemory };

    fn from(_failed: AllocFailed<T>) -> Self {
        LinearError::OutOfMemory
    }
}

impl From<AllocError> for LinearError {
    ghost use Rattle.std.specs.Prelude.{◌≡◌};
    ghost use Rattle.idl_linear.specs.declared.error.LinearError.TheVariants.{OutOfMemory};

    ghost from_gives = { λ _ e. e ≡ OutOfMemory };

    fn from(_error: AllocError) -> Self {
        LinearError::OutOfMemory
    }
}

/// Why two compared terms are no difference of time points.
#[derive(Clone, Copy, Debug, PartialEq, Eq)]
pub enum DifferenceRefusal {
    /// Other than one name with coefficient 1 and one with -1 is left.
    NotADifference,
    /// The number that the difference is compared with is beyond 2^60.
    BoundTooLarge,
}
