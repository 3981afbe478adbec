//! A row that is run again and again: with each fault in turn, on each front of its source, or with little stack.
use crate::row::Row;
use dtp_io::{MemSink, MemSource};
use dtp_run::{Gate, NoGate, run};
use std::alloc::Global;
use std::num::NonZeroUsize;
use std::sync::Wait;
use std::thread;
use std::thread::{Builder, Threads};

/// The sizes of the pieces in which a row with faults is read and written.
const PIECES: [usize; 3] = [1, 7, 4_096];

/// A number of calls that no row reaches.
const CALLS: u64 = 1 << 20;

/// What a run answered, and what it wrote.
#[derive(Drop)]
pub struct Run<'a> {
    pub status: u8,
    pub sink: MemSink<'a>,
}

impl Run<'_> {
    pub fn written(&self) -> &[u8] {
        self.sink.held()
    }
}

/// Runs a row in pieces of this size, where these reads and writes fail, and workers pass this gate.
pub fn run_row<'a, R: Threads + Wait + Sync, G: Gate>(
    rt: &R,
    alloc: Global,
    words: &[String],
    source: &[u8],
    pieces: NonZeroUsize,
    failing_reads: &[u64],
    failing_writes: &'a [u64],
    gate: &G,
) -> Run<'a> {
    let mut from = MemSource::giving(pieces.get(), source, failing_reads);
    let mut sink = MemSink::taking(alloc, pieces.get(), failing_writes);
    let status = run(rt, alloc, words, &mut from, &mut sink, gate);
    Run { status, sink }
}

/// How a run with a fault went.
#[derive(Clone, Copy, PartialEq, Eq)]
enum Fault {
    /// As it has to at this fault.
    Met,
    /// No call came that was to fail.
    Missed,
    Otherwise,
}

/// Runs the row with the read of this number failing: nothing may be written.
fn at_a_read<R: Threads + Wait + Sync>(
    rt: &R,
    alloc: Global,
    row: &Row,
    pieces: NonZeroUsize,
    number: u64,
) -> Fault {
    let run = run_row(
        rt,
        alloc,
        &row.words,
        &row.source,
        pieces,
        &[number],
        &[],
        &NoGate,
    );
    if row.is_met(run.status, run.written()) {
        Fault::Missed
    } else if run.status == 3 && run.written().is_empty() {
        Fault::Met
    } else {
        Fault::Otherwise
    }
}

/// Runs the row with the write of this number failing: a front of the output may be written.
fn at_a_write<R: Threads + Wait + Sync>(
    rt: &R,
    alloc: Global,
    row: &Row,
    pieces: NonZeroUsize,
    number: u64,
) -> Fault {
    let failing = [number];
    let run = run_row(
        rt,
        alloc,
        &row.words,
        &row.source,
        pieces,
        &[],
        &failing,
        &NoGate,
    );
    if row.is_met(run.status, run.written()) {
        Fault::Missed
    } else if run.status == 4 && row.output.starts_with(run.written()) {
        Fault::Met
    } else {
        Fault::Otherwise
    }
}

/// Whether each read and each write that fails is answered as a fault.
fn is_met_in_pieces<R: Threads + Wait + Sync>(
    rt: &R,
    alloc: Global,
    row: &Row,
    pieces: NonZeroUsize,
) -> bool {
    for number in 0..CALLS {
        match at_a_read(rt, alloc, row, pieces, number) {
            Fault::Met => {}
            Fault::Missed => break,
            Fault::Otherwise => return false,
        }
    }
    for number in 0..CALLS {
        match at_a_write(rt, alloc, row, pieces, number) {
            Fault::Met => {}
            Fault::Missed => break,
            Fault::Otherwise => return false,
        }
    }
    true
}

/// Whether each read and each write that fails is answered as a fault, in small pieces and in large ones.
pub fn fails_anywhere<R: Threads + Wait + Sync>(rt: &R, alloc: Global, row: &Row) -> bool {
    for size in PIECES {
        let Some(pieces) = NonZeroUsize::new(size) else {
            return false;
        };
        if !is_met_in_pieces(rt, alloc, row, pieces) {
            return false;
        }
    }
    true
}

/// Whether the source without its last line feed is answered as the whole, and each shorter front of it is refused.
pub fn is_refused_anywhere<R: Threads + Wait + Sync>(rt: &R, alloc: Global, row: &Row) -> bool {
    let source = row.source.as_slice();
    for length in 0..source.len() {
        let front = &source[..length];
        let run = run_row(
            rt,
            alloc,
            &row.words,
            front,
            NonZeroUsize::MAX,
            &[],
            &[],
            &NoGate,
        );
        let is_right = if length + 1 == source.len() {
            row.is_met(run.status, run.written())
        } else {
            run.status == 6 && run.written().starts_with(b"refused: ")
        };
        if !is_right {
            return false;
        }
    }
    true
}

/// Whether the row goes as it is written on a thread with so many bytes of stack.
pub fn is_met_on_stack<R: Threads + Wait + Sync>(
    rt: &R,
    alloc: Global,
    row: &Row,
    bytes: usize,
) -> bool {
    thread::scope(thread::scope_env(), rt, |scope| {
        match Builder::new()
            .stack_size(bytes)
            .spawn_scoped(scope, move || is_met(rt, alloc, row))
        {
            Ok(handle) => handle.join(rt),
            Err(_) => false,
        }
    })
}

/// Whether the row goes as it is written, without faults.
fn is_met<R: Threads + Wait + Sync>(rt: &R, alloc: Global, row: &Row) -> bool {
    let run = run_row(
        rt,
        alloc,
        &row.words,
        &row.source,
        row.pieces,
        &[],
        &[],
        &NoGate,
    );
    row.is_met(run.status, run.written())
}
