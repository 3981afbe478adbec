//! A source and a sink in memory, which fail at the calls that their maker lists.
ghost use Rattle.std.specs.Prelude.{◌≡◌, ◌==◌, ◌+◌, ◌-◌, ◌^◌, ◌↔◌, ◌<◌, length, min, false, Some, [], IsTrue, IsErr, IfOk, OnOk};
ghost use Rattle.std.specs.Io.{ReadsAtMost, WritesAtMost};
ghost use Rattle.std.specs.Io.KnownBytes.{ReadConsumes, WriteAppends};
ghost use Rattle.std.specs.List.{list_any};
ghost use Rattle.dtp_io.specs.Faults.{HasCause};

use crate::sink::Sink;
use crate::source::{Failed, Source, count_fault};
use std::alloc::Global;

/// Gives its bytes, each read as many as the buffer holds, or as many of them as its maker allows.
#[derive(Drop)]
pub struct MemSource<'a> {
    bytes: &'a [u8],
    failing: &'a [u64],
    /// How many bytes a read gives at most.
    most: usize,
    calls: u64,
    faults: u64,
    ghost some: { 0 < most },
}

impl<'a> MemSource<'a> {
    /// The reads whose numbers `failing` lists are to fail; the first read has number 0.
    pub fn new(bytes: &'a [u8], failing: &'a [u64]) -> Self
        ensures bytes { result.bytes.now ≡ bytes.now }
        ensures failing { result.failing.now ≡ failing.now }
        ensures calls { result.calls ≡ 0 }
        ensures faults { result.faults ≡ 0 }
    {
        MemSource::giving(usize::MAX, bytes, failing)
    }

    /// The same, but a read gives at most so many bytes.
    pub fn giving(most: usize, bytes: &'a [u8], failing: &'a [u64]) -> Self
        requires some { 0 < most }
        ensures most { result.most ≡ most }
        ensures bytes { result.bytes.now ≡ bytes.now }
        ensures failing { result.failing.now ≡ failing.now }
        ensures calls { result.calls ≡ 0 }
        ensures faults { result.faults ≡ 0 }
    {
        MemSource {
            bytes,
            failing,
            most,
            calls: 0,
            faults: 0,
        }
    }
}

impl<'a> Source for MemSource<'a> {
    ghost left = { λ s. Some s.bytes.now };

    ghost faults = { λ s. s.faults };

    fn read(&mut self, buf: &mut [u8]) -> Result<usize, Failed>
        ensures bound { ReadsAtMost result buf.new }
        ensures bytes { ReadConsumes (Some self.old.bytes.now) (Some self.new.bytes.now) result buf.new }
        ensures cause { HasCause self.old.faults self.new.faults result }
        ensures fails { IsErr result ↔ IsTrue (list_any (λ n. n == self.old.calls) self.old.failing.now) }
        ensures gives { IfOk result (λ n. n ≡ min (length buf.new) (min (length self.old.bytes.now) self.old.most)) }
        ensures most { self.new.most ≡ self.old.most }
        ensures failing { self.new.failing.now ≡ self.old.failing.now }
        ensures calls { self.new.calls ≡ min (self.old.calls + 1) (2 ^ 64 - 1) }
    {
        let call = self.calls;
        self.calls = self.calls.saturating_add(1);
        if self.failing.contains(&call) {
            return Err(count_fault(&mut self.faults));
        }
        let count = buf.len().min(self.bytes.len().min(self.most));
        let (front, rest) = self.bytes.split_at(count);
        buf[..count].copy_from_slice(front);
        self.bytes = rest;
        Ok(count)
    }
}

/// Takes each piece whole, or as much of it as its maker allows, and keeps it. A write that finds no memory for what it
/// takes fails too.
#[derive(Drop)]
pub struct MemSink<'a> {
    held: Vec<u8>,
    failing: &'a [u64],
    /// How many bytes a write takes at most.
    most: usize,
    calls: u64,
    faults: u64,
    ghost some: { 0 < most },
}

impl<'a> MemSink<'a> {
    /// The writes whose numbers `failing` lists are to fail; the first write has number 0.
    pub fn new(alloc: Global, failing: &'a [u64]) -> Self
        ensures held { result.held.items ≡ [] }
        ensures failing { result.failing.now ≡ failing.now }
        ensures calls { result.calls ≡ 0 }
        ensures faults { result.faults ≡ 0 }
    {
        MemSink::taking(alloc, usize::MAX, failing)
    }

    /// The same, but a write takes at most so many bytes.
    pub fn taking(alloc: Global, most: usize, failing: &'a [u64]) -> Self
        requires some { 0 < most }
        ensures most { result.most ≡ most }
        ensures held { result.held.items ≡ [] }
        ensures failing { result.failing.now ≡ failing.now }
        ensures calls { result.calls ≡ 0 }
        ensures faults { result.faults ≡ 0 }
    {
        MemSink {
            held: Vec::new(alloc),
            failing,
            most,
            calls: 0,
            faults: 0,
        }
    }

    /// All that was written.
    pub fn held(&self) -> &[u8]
        ensures { result.now ≡ self.now.held.items }
    {
        &self.held
    }
}

impl<'a> Sink for MemSink<'a> {
    ghost holds = { λ k. Some k.held.items };

    ghost faults = { λ k. k.faults };

    fn write(&mut self, piece: &[u8]) -> Result<usize, Failed>
        ensures bound { WritesAtMost result piece.now }
        ensures some { IfOk result (λ n. 0 < length piece.now → 0 < n) }
        ensures bytes { WriteAppends (Some self.old.held.items) (Some self.new.held.items) result piece.now }
        ensures cause { HasCause self.old.faults self.new.faults result }
        ensures fails { OnOk result (list_any (λ n. n == self.old.calls) self.old.failing.now ≡ false) }
        ensures takes { IfOk result (λ n. n ≡ min (length piece.now) self.old.most) }
        ensures most { self.new.most ≡ self.old.most }
        ensures failing { self.new.failing.now ≡ self.old.failing.now }
        ensures calls { self.new.calls ≡ min (self.old.calls + 1) (2 ^ 64 - 1) }
    {
        let call = self.calls;
        self.calls = self.calls.saturating_add(1);
        let count = piece.len().min(self.most);
        if self.failing.contains(&call) || self.held.extend_from_slice(&piece[..count]).is_err() {
            return Err(count_fault(&mut self.faults));
        }
        Ok(count)
    }
}
