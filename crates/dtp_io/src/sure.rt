//! A source and a sink that never fail: their count of faults is always 0.
ghost use Rattle.std.specs.Prelude.{◌≡◌, min, length, Some, None, Ok};
ghost use Rattle.std.specs.Io.{ReadsAtMost};
ghost use Rattle.std.specs.Io.KnownBytes.{ReadConsumes};
ghost use Rattle.dtp_io.specs.Faults.{HasCause};

use crate::sink::Sink;
use crate::source::{Failed, Source};

/// Gives its bytes, each read as many as the buffer holds.
#[derive(Drop)]
pub struct SureSource<'a> {
    bytes: &'a [u8],
}

impl<'a> SureSource<'a> {
    /// A source that has these bytes left.
    pub fn new(bytes: &'a [u8]) -> Self
        ensures { result.bytes.now ≡ bytes.now }
    {
        SureSource { bytes }
    }
}

impl<'a> Source for SureSource<'a> {
    ghost left = { λ s. Some s.bytes.now };

    ghost faults = { λ _. 0 };

    fn read(&mut self, buf: &mut [u8]) -> Result<usize, Failed>
        ensures bound { ReadsAtMost result buf.new }
        ensures bytes { ReadConsumes (Some self.old.bytes.now) (Some self.new.bytes.now) result buf.new }
        ensures cause { HasCause 0 0 result }
        ensures sure { result ≡ Ok (min (length buf.old) (length self.old.bytes.now)) }
    {
        let count = buf.len().min(self.bytes.len());
        let (front, rest) = self.bytes.split_at(count);
        buf[..count].copy_from_slice(front);
        self.bytes = rest;
        Ok(count)
    }
}

/// Takes each piece whole and keeps nothing, so it tells no bytes.
#[derive(Clone, Copy, Debug)]
pub struct SureSink;

impl Sink for SureSink {
    ghost holds = { λ _. None };

    ghost faults = { λ _. 0 };

    fn write(&mut self, piece: &[u8]) -> Result<usize, Failed>
        ensures sure { result ≡ Ok (length piece.now) }
    {
        Ok(piece.len())
    }
}
