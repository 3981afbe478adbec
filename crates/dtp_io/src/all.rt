//! Reading all that a source has, and writing all of some bytes.
ghost use Rattle.std.specs.Prelude.{◌≡◌, ℕ, ◌<◌, ◌≤◌, List, [], length, Some, IfSome, OnOk, OnErr, IfOk, IfErr, IsOk, Err};
ghost use Rattle.std.specs.Io.KnownBytes.{Consumes, Appends, IsAtEnd};
ghost use Rattle.dtp_io.specs.Faults.{HasCause, AddsFront};
ghost use Rattle.dtp_io.specs.Reading.{Stops};

use crate::sink::Sink;
use crate::source::{Failed, Source};
use std::alloc::{AllocError, Global};

/// Why not all of a source's bytes were read.
#[derive(Clone, Copy, Debug, PartialEq, Eq)]
pub enum ReadError {
    /// There is no memory for the bytes.
    OutOfMemory,
    /// The source failed.
    ReadFault,
    /// More bytes came than the limit allows.
    TooLong,
}

impl From<AllocError> for ReadError {
    ghost use Rattle.std.specs.Prelude.{◌≡◌};
    ghost use Rattle.dtp_io.specs.declared.all.ReadError.TheVariants.{OutOfMemory};

    ghost from_gives = { λ _ e. e ≡ OutOfMemory };

    fn from(_error: AllocError) -> ReadError {
        ReadError::OutOfMemory
    }
}

impl From<Failed> for ReadError {
    ghost use Rattle.std.specs.Prelude.{◌≡◌};
    ghost use Rattle.dtp_io.specs.declared.all.ReadError.TheVariants.{ReadFault};

    ghost from_gives = { λ _ e. e ≡ ReadFault };

    fn from(_failed: Failed) -> ReadError {
        ReadError::ReadFault
    }
}

/// The sink failed before it had taken all of the bytes.
#[derive(Clone, Copy, Debug, PartialEq, Eq)]
pub struct WriteFault;

impl From<Failed> for WriteFault {
    fn from(_failed: Failed) -> WriteFault {
        WriteFault
    }
}

/// All the bytes that the source has left, at most `limit` of them.
///
/// At `TooLong` at most one buffer of bytes beyond the limit was taken from the source, and at each
/// error what was read so far is dropped. The memory that it takes grows by doubling.
pub fn read_all<S: Source>(alloc: Global, source: &mut S, limit: u64) -> Result<Vec<u8>, ReadError>
    ensures whole { IfOk result (λ all. Consumes (S.left source.old) (S.left source.new) all.items) }
    ensures end { OnOk result (IsAtEnd (S.left source.new)) }
    ensures within { IfOk result (λ all. length all.items ≤ limit) }
    // What the clauses on bytes come to where the source tells its bytes.
    ensures told { IfSome (S.left source.old) (λ input.
        IfOk result (λ all. (all.items ≡ input) × (S.left source.new ≡ Some []))) }
    ensures told_too_long { IfSome (S.left source.old) (λ input.
        result ≡ Err ReadError.TooLong → limit < length input) }
    ensures quiet { OnOk result (S.faults source.new ≡ S.faults source.old) }
    ensures stops { IfErr result (Stops limit
        (S.left source.old) (S.left source.new) (S.faults source.old) (S.faults source.new)) }
    ensures later { S.faults source.old ≤ S.faults source.new }
{
    let mut all = Vec::new(alloc);
    let mut buf = [0; 8192];
    'reads: loop {
        let count = source.read(&mut buf)?;
        if count == 0 {
            return Ok(all);
        }
        if count as u64 > limit - all.len() as u64 {
            return Err(ReadError::TooLong);
        }
        all.extend_from_slice(&buf[..count])?;
    }
}

/// Writes all of the bytes, in as many writes as the sink wants; none where there are no bytes.
///
/// After a fault the sink has taken a front of the bytes, and nothing more is written. It takes no
/// memory of its own.
pub fn write_all_of<K: Sink>(sink: &mut K, bytes: &[u8]) -> Result<(), WriteFault>
    ensures whole { OnOk result (Appends (K.holds sink.old) (K.holds sink.new) bytes.now) }
    ensures front { OnErr result (AddsFront (K.holds sink.old) (K.holds sink.new) bytes.now) }
    ensures cause { HasCause (K.faults sink.old) (K.faults sink.new) result }
    ensures nothing { bytes.now ≡ [] → IsOk result × (sink.new ≡ sink.old) }
{
    let mut done = 0;
    'writes: while done < bytes.len() {
        let count = sink.write(&bytes[done..])?;
        done += count;
    }
    Ok(())
}
