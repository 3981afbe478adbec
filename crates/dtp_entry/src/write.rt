//! A text that goes to a sink.
ghost use Rattle.std.specs.Prelude.{◌≡◌, ◌≤◌, OnOk, OnErr, IfErr};
ghost use Rattle.std.specs.Io.KnownBytes.{Appends};
ghost use Rattle.dtp_io.specs.Faults.{Rose};
ghost use Rattle.dtp_entry.specs.Written.{IsFront, Writes};

use crate::error::SessionError;
use dtp_io::{Sink, write_all_of};

/// Writes a text. Where the sink fails, a front of the text is written.
pub fn write_text<K: Sink>(sink: &mut K, text: &[u8]) -> Result<(), SessionError>
    ensures ok { OnOk result (Appends (K.holds sink.old) (K.holds sink.new) text.now) }
    ensures err { OnErr result (Writes (K.holds sink.old) (K.holds sink.new)
        (λ added. IsFront added text.now)) }
    ensures cause { IfErr result (λ why. why ≡ SessionError.WriteFault) }
    ensures fault { OnErr result (Rose (K.faults sink.old) (K.faults sink.new)) }
    ensures quiet { OnOk result (K.faults sink.new ≡ K.faults sink.old) }
    ensures later { K.faults sink.old ≤ K.faults sink.new }
{
    match write_all_of(sink, text) {
        Ok(()) => Ok(()),
        Err(fault) => Err(SessionError::from(fault)),
    }
}
