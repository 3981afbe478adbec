//! Writers that say whether what they took has gone out.
ghost use Rattle.std.specs.Prelude.{Bool, true, IfOk, IsTrue};
ghost use Rattle.std.specs.Io.KnownBytes.{Keeps};

use std::io::{Printer, Result, Write};

/// A writer that tells whether it holds nothing back of what it took. One with a buffer tells so behind a flush that
/// went well, and one without, as standard output is here, always.
pub trait FlushedWrite: Write {
    /// Whether nothing is held back.
    ghost is_flushed: { Self → Bool };

    /// Hands on whatever was held back. The bytes that the writer is known to hold stay.
    fn flush_all(&mut self) -> Result<()>
        ensures bytes { Keeps (Self.contents self.old) (Self.contents self.new) }
        ensures flushed { IfOk result (λ _. IsTrue (is_flushed self.new)) };
}

/// What prints holds nothing back.
impl<P: Print> FlushedWrite for Printer<'_, P> {
    ghost is_flushed = { λ _. true };

    fn flush_all(&mut self) -> Result<()> {
        self.flush()
    }
}
