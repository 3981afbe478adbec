//! What bytes are written to.
ghost use Rattle.std.specs.Prelude.{ℕ, ◌<◌, List, length, Option, IfOk};
ghost use Rattle.std.specs.Io.{WritesAtMost};
ghost use Rattle.std.specs.Io.KnownBytes.{WriteAppends};
ghost use Rattle.dtp_io.specs.Faults.{HasCause};

use crate::source::Failed;

/// What takes bytes, one piece after the other.
pub trait Sink {
    /// The bytes that it holds, where they are known.
    ghost holds: { Self → Option (List ℕ) };

    /// How many faults there were; the count stands at its last value, 2^64 - 1.
    ghost faults: { Self → ℕ };

    /// Takes the first bytes of the piece, and says how many they are: at least one of a piece that
    /// isn't empty. A failed write adds no byte.
    fn write(&mut self, piece: &[u8]) -> Result<usize, Failed>
        ensures bound { WritesAtMost result piece.now }
        ensures some { IfOk result (λ n. 0 < length piece.now → 0 < n) }
        ensures bytes { WriteAppends (holds self.old) (holds self.new) result piece.now }
        ensures cause { HasCause (faults self.old) (faults self.new) result };
}
