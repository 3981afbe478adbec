//! Why an answer isn't written to its end.
use dtp_io::WriteFault;
use std::alloc::AllocError;

/// Why a script isn't answered to its end.
#[derive(Clone, Copy, Debug, PartialEq, Eq)]
pub enum SessionError {
    /// There was no memory. What was written before it stays: whole answers, and perhaps a front of a
    /// certificate's line.
    OutOfMemory,
    /// The sink failed. A front of the line that was to be written may have gone out.
    WriteFault,
}

impl From<AllocError> for SessionError {
    ghost use Rattle.std.specs.Prelude.{◌≡◌};
    ghost use Rattle.dtp_entry.specs.declared.error.SessionError.TheVariants.{OutOfMemory};

    ghost from_gives = { λ _ e. e ≡ OutOfMemory };

    fn from(_error: AllocError) -> Self {
        SessionError::OutOfMemory
    }
}

impl From<WriteFault> for SessionError {
    ghost use Rattle.std.specs.Prelude.{◌≡◌};
    ghost use Rattle.dtp_entry.specs.declared.error.SessionError.TheVariants.{WriteFault};

    ghost from_gives = { λ _ e. e ≡ WriteFault };

    fn from(_fault: WriteFault) -> Self {
        SessionError::WriteFault
    }
}
