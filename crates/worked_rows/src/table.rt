//! The rows of a table, run one after the other.
use crate::row::{LineError, Row};
use crate::tries::{fails_anywhere, is_met_on_stack, is_refused_anywhere, run_row};
use dtp_io::{MemSink, MemSource, Sink, WriteFault, write_all_of};
use dtp_run::{NoGate, run};
use std::alloc::{AllocError, Global};
use std::str;
use std::sync::Wait;
use std::thread::Threads;
use worker_gates::HoldSecond;

/// The greatest part of an output that is shown where another was to come.
const SHOWN: usize = 2000;

/// How often a worker that is held looks for the other one before it goes on alone.
const LOOKS: u64 = 100_000_000;

/// Why not all rows were run.
#[derive(Clone, Copy, Debug, PartialEq, Eq)]
pub enum TableError {
    /// A line isn't of the table's form; that is written.
    Refused,
    WriteFault,
    OutOfMemory,
}

impl From<AllocError> for TableError {
    fn from(_error: AllocError) -> TableError {
        TableError::OutOfMemory
    }
}

impl From<WriteFault> for TableError {
    fn from(_fault: WriteFault) -> TableError {
        TableError::WriteFault
    }
}

/// Runs the rows of the table and writes a line of each. Says whether each went as it is written.
pub fn try_rows<R: Threads + Wait + Sync, K: Sink>(
    rt: &R,
    alloc: Global,
    table: &[u8],
    sink: &mut K,
) -> Result<bool, TableError> {
    let Ok(text) = str::from_utf8(table) else {
        write_all_of(sink, b"the table is no text\n")?;
        return Err(TableError::Refused);
    };
    let mut well = true;
    let mut row: Option<Row> = None;
    for line in text.lines() {
        let (key, rest) = line.split_once(' ').unwrap_or((line, ""));
        if key == "row" {
            if let Some(done) = row.take() {
                well &= try_row(rt, alloc, done, sink)?;
            }
            row = Some(Row::new(alloc, rest)?);
        } else if key != "#" && !key.is_empty() {
            match take(row.as_mut(), alloc, key, rest) {
                Ok(()) => {}
                Err(LineError::OutOfMemory) => return Err(TableError::OutOfMemory),
                Err(LineError::Refused) => return refuse(alloc, line, sink),
            }
        }
    }
    if let Some(done) = row {
        well &= try_row(rt, alloc, done, sink)?;
    }
    Ok(well)
}

/// Takes a line of the row that has begun.
fn take(row: Option<&mut Row>, alloc: Global, key: &str, text: &str) -> Result<(), LineError> {
    match row {
        Some(row) => row.take(alloc, key, text),
        None => Err(LineError::Refused),
    }
}

/// Writes that the line is none of the table's.
fn refuse<K: Sink>(alloc: Global, line: &str, sink: &mut K) -> Result<bool, TableError> {
    let text = format!(in alloc; "no line of a table: {line}\n")?;
    write_all_of(sink, text.as_bytes())?;
    Err(TableError::Refused)
}

/// Runs the row, and writes whether it went as it is written, or else what came instead.
fn try_row<R: Threads + Wait + Sync, K: Sink>(
    rt: &R,
    alloc: Global,
    mut row: Row,
    sink: &mut K,
) -> Result<bool, TableError> {
    if !row.emitted.is_empty() {
        emit(rt, alloc, &mut row)?;
    }
    if let Some(words) = row.certified.take() {
        certify(rt, alloc, &mut row, &words)?;
    }
    let reads = &row.failing_reads;
    let writes = &row.failing_writes;
    let gate = HoldSecond::new(if row.workers_meet { LOOKS } else { 0 });
    let run = run_row(
        rt,
        alloc,
        &row.words,
        &row.source,
        row.pieces,
        reads,
        writes,
        &gate,
    );
    write_all_of(sink, &row.name)?;
    if !row.is_met(run.status, run.written()) {
        let status = run.status;
        let text = format!(in alloc; ": status {status} after:\n")?;
        write_all_of(sink, text.as_bytes())?;
        write_all_of(sink, shown(run.written()))?;
        return Ok(false);
    }
    match fault_of(rt, alloc, &row, &gate) {
        Some(fault) => {
            write_all_of(sink, fault.as_bytes())?;
            Ok(false)
        }
        None => {
            write_all_of(sink, b": as written\n")?;
            Ok(true)
        }
    }
}

/// What went wrong with a row whose run wrote and answered what stands there, where its workers passed this gate.
fn fault_of<R: Threads + Wait + Sync>(
    rt: &R,
    alloc: Global,
    row: &Row,
    gate: &HoldSecond,
) -> Option<&'static str> {
    if row.workers_meet && !gate.met() {
        return Some(": no two workers met\n");
    }
    if row.fails_anywhere && !fails_anywhere(rt, alloc, row) {
        return Some(": otherwise at a fault\n");
    }
    if row.cut_anywhere && !is_refused_anywhere(rt, alloc, row) {
        return Some(": otherwise for a front of the source\n");
    }
    if let Some(bytes) = row.stack {
        if !is_met_on_stack(rt, alloc, row, bytes) {
            return Some(": otherwise with little stack\n");
        }
    }
    None
}

/// The part of an output that is shown.
fn shown(written: &[u8]) -> &[u8] {
    &written[..written.len().min(SHOWN)]
}

/// Puts behind the row's source what these words write of it.
fn certify<R: Threads + Wait + Sync>(
    rt: &R,
    alloc: Global,
    row: &mut Row,
    words: &[String],
) -> Result<(), AllocError> {
    let mut sink = MemSink::new(alloc, &[]);
    {
        let mut source = MemSource::new(&row.source, &[]);
        run(rt, alloc, &words, &mut source, &mut sink, &NoGate);
    }
    row.source.extend_from_slice(sink.held())
}

/// Puts in the place of the row's source what the runs write of it that are to come first, one behind the other.
fn emit<R: Threads + Wait + Sync>(rt: &R, alloc: Global, row: &mut Row) -> Result<(), AllocError> {
    let mut sink = MemSink::new(alloc, &[]);
    for words in &row.emitted {
        let mut source = MemSource::new(&row.source, &[]);
        run(rt, alloc, words, &mut source, &mut sink, &NoGate);
    }
    row.source.clear();
    row.source.extend_from_slice(sink.held())
}
