//! What bytes are read from.
ghost use Rattle.std.specs.Prelude.{ℕ, ◌≤◌, List, Option};
ghost use Rattle.std.specs.Io.{ReadsAtMost};
ghost use Rattle.std.specs.Io.KnownBytes.{ReadConsumes};
ghost use Rattle.dtp_io.specs.Faults.{Rose, HasCause};

/// A read or a write that did nothing, because of a fault that was counted.
#[derive(Clone, Copy, Debug, PartialEq, Eq)]
pub struct Failed;

/// Counts a fault that ends a call.
pub(crate) fn count_fault(faults: &mut u64) -> Failed
    ensures later { faults.old ≤ faults.new }
    ensures rose { Rose faults.old faults.new }
{
    *faults = faults.saturating_add(1);
    Failed
}

/// Bytes that are read one piece after the other.
pub trait Source {
    /// The bytes that are left, where they are known.
    ghost left: { Self → Option (List ℕ) };

    /// How many faults there were; the count stands at its last value, 2^64 - 1.
    ghost faults: { Self → ℕ };

    /// Puts the next bytes at the front of the buffer, and says how many they are. Fewer than the
    /// buffer holds may come at any time; none into a buffer that isn't empty is the end. A failed
    /// read takes no byte.
    fn read(&mut self, buf: &mut [u8]) -> Result<usize, Failed>
        ensures bound { ReadsAtMost result buf.new }
        ensures bytes { ReadConsumes (left self.old) (left self.new) result buf.new }
        ensures cause { HasCause (faults self.old) (faults self.new) result };
}
