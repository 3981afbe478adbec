//! Runs the rows of a table, one after the other, and says of each whether `dtp` writes and answers what stands there.
//!
//! A line of the table is a key, a space and a text:
//!
//! | Key | Text |
//! |---|---|
//! | `#`, or none | a remark |
//! | `row` | the name of the row that begins here |
//! | `words` | the words behind the program's name |
//! | `>` | a line of the source |
//! | `<` | a line of the output that must come |
//! | `>-`, `<-` | the same without the line's end |
//! | `>*`, `<*` | a number, a space and a text, which is put so many times; in it `@0` to `@9` stand for the number of the turn, from 0 on, plus 0 to 9 |
//! | `>x`, `<x` | bytes, each as a hexadecimal numeral |
//! | `certified` | the words behind `certify`, or nothing: what it writes of the source is put behind it |
//! | `emitted` | the words behind `jobshop --emit script` and `jobshop --emit certificate`: what these write of the source takes its place |
//! | `failing-reads`, `failing-writes` | the numbers of the reads and writes that fail, from 0 on |
//! | `pieces` | how many bytes a read gives and a write takes at most |
//! | `fails-anywhere` | nothing: the row is run again with each read and each write failing in turn, over pieces of 1, 7 and 4,096 bytes; nothing may be written then, or a front of the output |
//! | `cut-anywhere` | nothing: each front of the source that lacks more than a last line feed is to be refused |
//! | `workers-meet` | nothing: one of two workers is held at its second slice's end until the other ends one; it has to come |
//! | `stack` | a number: the row is run again, without faults, on a thread with so many bytes of stack |
//! | `status` | the status that must come, 0 where nothing is said |
#![tactic(auto)]

mod row;
mod table;
mod tries;

use dtp_io::{StdSink, StdSource, read_all};
use std::io;
use std::process::ExitCode;
use table::try_rows;

/// How many bytes a table may have.
const TABLE_LIMIT: u64 = 1 << 24;

fn main(rt: HostRuntime) -> ExitCode {
    let mut source = StdSource::new(rt.reader());
    let table = match read_all(rt.alloc(), &mut source, TABLE_LIMIT) {
        Ok(table) => table,
        Err(_) => return ExitCode::from(2),
    };
    let mut sink = StdSink::new(io::writer(&rt));
    match try_rows(&rt, rt.alloc(), &table, &mut sink) {
        Ok(true) => ExitCode::from(0),
        Ok(false) => ExitCode::from(1),
        Err(_) => ExitCode::from(2),
    }
}
