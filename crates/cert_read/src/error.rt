//! Why no certificate was read, whole or in part.

use std::alloc::{AllocError, AllocFailed};

/// Why a text is no certificate.
#[derive(Clone, Copy, Debug, PartialEq, Eq)]
pub enum CertificateRefusal {
    /// The text doesn't begin with `(dtp-certificate 1)` or `(dtp-certificate 2)`.
    NoHeader,
    /// What stands in place of this entry, counted from 1, is no entry and not the end, or can't be read.
    IllFormed(usize),
    /// The text ends before `(end)`, outside of all lists.
    NoEnd,
    /// Anything but white space and comments stands behind `(end)`.
    TextAfterEnd,
}

/// Why no certificate was read.
#[derive(Clone, Copy, Debug, PartialEq, Eq)]
pub enum CertReadError {
    /// The text is refused.
    Refused(CertificateRefusal),
    /// Memory was wanting.
    OutOfMemory,
}

impl<T: Drop> From<AllocFailed<T>> for CertReadError {
    ghost use Rattle.std.specs.Prelude.{◌≡◌};
    ghost use Rattle.cert_read.specs.declared.error.CertReadError.TheVariants.{OutOfMemory};

    ghost from_gives = { λ _ e. e ≡ OutOfMemory };

    fn from(_failed: AllocFailed<T>) -> CertReadError {
        CertReadError::OutOfMemory
    }
}

/// Why a part of an entry was not read.
#[derive(Clone, Copy, Debug, PartialEq, Eq)]
pub enum PartError {
    /// The s-expression stands for no such part.
    IllFormed,
    /// Memory was wanting.
    OutOfMemory,
}

impl<T: Drop> From<AllocFailed<T>> for PartError {
    ghost use Rattle.std.specs.Prelude.{◌≡◌};
    ghost use Rattle.cert_read.specs.declared.error.PartError.TheVariants.{OutOfMemory};

    ghost from_gives = { λ _ e. e ≡ OutOfMemory };

    fn from(_failed: AllocFailed<T>) -> PartError {
        PartError::OutOfMemory
    }
}

impl From<AllocError> for PartError {
    ghost use Rattle.std.specs.Prelude.{◌≡◌};
    ghost use Rattle.cert_read.specs.declared.error.PartError.TheVariants.{OutOfMemory};

    ghost from_gives = { λ _ e. e ≡ OutOfMemory };

    fn from(_error: AllocError) -> PartError {
        PartError::OutOfMemory
    }
}
