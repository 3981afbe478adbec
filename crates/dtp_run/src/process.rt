//! What a program does that is `dtp`: the words, the streams and the status are the process's.
ghost use Rattle.std.specs.Prelude.{◌≡◌, drop};

use crate::perform::run;
use crate::status::Status;
use dtp_io::{StdSink, StdSource};
use dtp_session::NoGate;
use std::alloc::AllocError;
use std::env::{self, Env};
use std::io::{self, Input};
use std::process::ExitCode;
use std::sync::Wait;
use std::thread::Threads;

/// The words behind the program's name.
fn behind_the_name(words: &[String]) -> &[String]
    ensures { result.now ≡ drop 1 words.now }
{
    words.get(1..).unwrap_or(&[])
}

/// The words that the process was called with; none where some word is no text.
fn all_words<R: Env + AllocGlobal>(rt: &R) -> Result<Vec<String>, AllocError> {
    match env::args(rt) {
        Ok(words) => words.collect(rt.alloc()),
        Err(error) if error.kind() == io::ErrorKind::OutOfMemory => Err(AllocError),
        Err(_) => Ok(Vec::new(rt.alloc())),
    }
}

/// Runs `dtp` on the process's words and streams: it is the whole of a program's `main`.
///
/// Nothing is said of it in a clause, since nothing is known of the process's words and streams.
pub fn start<R: Threads + Wait + Sync + Env + Input + Print + AllocGlobal>(rt: &R) -> ExitCode {
    let words = match all_words(rt) {
        Ok(words) => words,
        Err(_) => return ExitCode::from(Status::OutOfMemory.code()),
    };
    let mut source = StdSource::new(rt.reader());
    let mut sink = StdSink::new(io::writer(rt));
    let words = behind_the_name(&words);
    ExitCode::from(run(rt, rt.alloc(), words, &mut source, &mut sink, &NoGate))
}
