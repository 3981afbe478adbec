//! Why no s-expression was read.

use smt_lex::LexError;
use std::alloc::{AllocError, AllocFailed};

/// What is wrong with the text. Places are counted in bytes from 0.
#[derive(Clone, Copy, Debug, PartialEq, Eq)]
pub enum SexprRefusal {
    /// No token could be read, in a list or outside.
    Lex(LexError),
    /// The text ends in a list; the place of the outermost parenthesis that isn't closed.
    UnclosedList(usize),
    /// The place of a closing parenthesis that closes nothing.
    StrayClose(usize),
}

/// Why no s-expression was read.
#[derive(Clone, Copy, Debug, PartialEq, Eq)]
pub enum SexprError {
    /// The text is refused.
    Refused(SexprRefusal),
    /// Memory was wanting.
    OutOfMemory,
}

impl From<AllocError> for SexprError {
    ghost use Rattle.std.specs.Prelude.{◌≡◌};
    ghost use Rattle.smt_sexpr.specs.declared.error.SexprError.TheVariants.{OutOfMemory};

    ghost from_gives = { λ _ e. e ≡ OutOfMemory };

    fn from(_error: AllocError) -> SexprError {
        SexprError::OutOfMemory
    }
}

impl<T: Drop> From<AllocFailed<T>> for SexprError {
    ghost use Rattle.std.specs.Prelude.{◌≡◌};
    ghost use Rattle.smt_sexpr.specs.declared.error.SexprError.TheVariants.{OutOfMemory};

    ghost from_gives = { λ _ e. e ≡ OutOfMemory };

    fn from(_failed: AllocFailed<T>) -> SexprError {
        SexprError::OutOfMemory
    }
}
