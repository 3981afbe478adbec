use idl_linear::{DifferenceRefusal, LinearError};
use idl_node::{NodeError, NodeRefusal};
use std::alloc::{AllocError, AllocFailed};

/// What is left out of terms, as an error's line names it.
#[derive(Clone, Copy, Debug, PartialEq, Eq)]
pub enum LeftOutTerm {
    Forall,
    Exists,
    Match,
    As,
    /// `_`, an indexed identifier.
    Underscore,
    /// `!` anywhere but at the top of an assertion.
    Annotation,
    /// `*`.
    Times,
    Div,
    Mod,
    Abs,
    Decimal,
    Hexadecimal,
    Binary,
    String,
}

/// Why a term is refused.
#[derive(Clone, Copy, Debug, PartialEq, Eq)]
pub enum TermRefusal {
    UnknownSymbol,
    IllFormedTerm,
    WrongCount,
    WrongSort,
    /// An Int term, or a pair of them that is compared, with more than 4,096 cases.
    TooManyCases,
    /// A comparison of other than one name less another.
    NotADifference,
    /// A numeral or a constant beyond 2^62, a coefficient beyond 2^20, or a comparison's number beyond 2^60.
    BoundTooLarge,
    /// The node table has 2^20 nodes.
    TooLarge,
    LeftOut(LeftOutTerm),
}

/// Why a term isn't lowered.
#[derive(Clone, Copy, Debug, PartialEq, Eq)]
pub enum TermError {
    OutOfMemory,
    Refused(TermRefusal),
}

impl<T: Drop> From<AllocFailed<T>> for TermError {
    ghost use Rattle.std.specs.Prelude.{◌≡◌};
    ghost use Rattle.idl_apply.specs.declared.error.TermError.TheVariants.{OutOfMemory};

    ghost from_gives = { λ _ e. e ≡ OutOfMemory };

    fn from(_failed: AllocFailed<T>) -> Self {
        TermError::OutOfMemory
    }
}

impl From<AllocError> for TermError {
    ghost use Rattle.std.specs.Prelude.{◌≡◌};
    ghost use Rattle.idl_apply.specs.declared.error.TermError.TheVariants.{OutOfMemory};

    ghost from_gives = { λ _ e. e ≡ OutOfMemory };

    fn from(_error: AllocError) -> Self {
        TermError::OutOfMemory
    }
}

impl From<NodeError> for TermError {
    ghost use Rattle.std.specs.Prelude.{◌≡◌};
    ghost use Rattle.idl_apply.specs.code.Applying.{of_node};

    ghost from_gives = { λ d e. e ≡ of_node d };

    fn from(error: NodeError) -> Self {
        match error {
            NodeError::OutOfMemory => TermError::OutOfMemory,
            NodeError::Refused(NodeRefusal::TooLarge) => TermError::Refused(TermRefusal::TooLarge),
        }
    }
}

impl From<LinearError> for TermError {
    ghost use Rattle.std.specs.Prelude.{◌≡◌};
    ghost use Rattle.idl_apply.specs.code.Applying.{of_linear};

    ghost from_gives = { λ d e. e ≡ of_linear d };

    fn from(error: LinearError) -> Self {
        match error {
            LinearError::OutOfMemory => TermError::OutOfMemory,
            LinearError::BoundTooLarge => TermError::Refused(TermRefusal::BoundTooLarge),
        }
    }
}

impl From<DifferenceRefusal> for TermError {
    ghost use Rattle.std.specs.Prelude.{◌≡◌};
    ghost use Rattle.idl_apply.specs.code.Applying.{of_difference};

    ghost from_gives = { λ d e. e ≡ of_difference d };

    fn from(why: DifferenceRefusal) -> Self {
        TermError::Refused(match why {
            DifferenceRefusal::NotADifference => TermRefusal::NotADifference,
            DifferenceRefusal::BoundTooLarge => TermRefusal::BoundTooLarge,
        })
    }
}
