//! The process's streams. They are the trusted edge: which bytes come and go there is not told, only
//! that each error is counted and handed on.
ghost use Rattle.std.specs.Prelude.{◌≡◌, ◌<◌, length, take, None, IfOk, IsTrue};
ghost use Rattle.std.specs.Io.{WritesAtMost};
ghost use Rattle.std.specs.Io.KnownBytes.{Appends, WriteAppends};
ghost use Rattle.dtp_io.specs.Faults.{HasCause};

use crate::flushed::FlushedWrite;
use crate::sink::Sink;
use crate::source::{Failed, Source, count_fault};
use std::io::Read;

/// Reads from a reader, as `StdSource::new(rt.reader())` does from standard input. It tells the bytes
/// that its reader tells, which are none where that is standard input.
#[derive(Drop)]
pub struct StdSource<R> {
    reader: R,
    faults: u64,
}

impl<R: Read> StdSource<R> {
    /// The reader with no faults counted.
    pub fn new(reader: R) -> Self
        ensures reader { result.reader ≡ reader }
        ensures faults { result.faults ≡ 0 }
    {
        StdSource { reader, faults: 0 }
    }
}

impl<R: Read> Source for StdSource<R> {
    ghost left = { λ s. R.remaining s.reader };

    ghost faults = { λ s. s.faults };

    fn read(&mut self, buf: &mut [u8]) -> Result<usize, Failed> {
        match self.reader.read(buf) {
            Ok(count) => Ok(count),
            Err(_) => Err(count_fault(&mut self.faults)),
        }
    }
}

/// Writes to a writer, as `StdSink::new(io::writer(&rt))` does to standard output, and flushes it
/// at each write, so that nothing of what was taken is held back. A writer that takes nothing of a piece that isn't empty has failed. It tells no
/// bytes, since a flush can fail when the bytes were taken.
#[derive(Drop)]
pub struct StdSink<W> {
    writer: W,
    faults: u64,
}

impl<W: FlushedWrite> StdSink<W> {
    /// The writer with no faults counted.
    pub fn new(writer: W) -> Self
        ensures writer { result.writer ≡ writer }
        ensures faults { result.faults ≡ 0 }
    {
        StdSink { writer, faults: 0 }
    }

    /// One write, and then a flush.
    fn write_and_flush(&mut self, piece: &[u8]) -> std::io::Result<usize>
        ensures bound { WritesAtMost result piece.now }
        ensures taken { IfOk result (λ n.
            Appends (W.contents self.old.writer) (W.contents self.new.writer) (take n piece.now)) }
        ensures flushed { IfOk result (λ _. IsTrue (W.is_flushed self.new.writer)) }
        ensures faults { self.new.faults ≡ self.old.faults }
    {
        let count = self.writer.write(piece)?;
        self.writer.flush_all()?;
        Ok(count)
    }
}

impl<W: FlushedWrite> Sink for StdSink<W> {
    ghost holds = { λ _. None };

    ghost faults = { λ k. k.faults };

    fn write(&mut self, piece: &[u8]) -> Result<usize, Failed>
        ensures bound { WritesAtMost result piece.now }
        ensures some { IfOk result (λ n. 0 < length piece.now → 0 < n) }
        ensures bytes { WriteAppends None None result piece.now }
        ensures cause { HasCause self.old.faults self.new.faults result }
        ensures taken { IfOk result (λ n.
            Appends (W.contents self.old.writer) (W.contents self.new.writer) (take n piece.now)) }
        ensures flushed { IfOk result (λ _. IsTrue (W.is_flushed self.new.writer)) }
    {
        match self.write_and_flush(piece) {
            Ok(count) if count > 0 || piece.is_empty() => Ok(count),
            _ => Err(count_fault(&mut self.faults)),
        }
    }
}
