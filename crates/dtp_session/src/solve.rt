//! The calls that decide a script.
ghost use Rattle.dtp_entry.specs.declared.report.Report.TheVariants.{Verdicts, Certificate};
ghost use Rattle.dtp_session.specs.Solving.{IsSolved};
ghost use Rattle.dtp_session.specs.code.Asking.{MayAsk, Answers};

use crate::options::SearchOptions;
use crate::session::{Session, Solved};
use crate::writing::Writing;
use cert_text::Version;
use dtp_entry::{Report, SessionError};
use dtp_io::Sink;
use script_walk::go_through;
use smt_script::Question;
use std::alloc::Global;
use std::sync::Wait;
use std::thread::Threads;
use steal_search::Gate;

/// Writes this report of a script.
fn write_report<R: Threads + Wait + Sync, K: Sink, G: Gate>(
    rt: &R,
    alloc: Global,
    bytes: &[u8],
    sink: &mut K,
    report: Report,
    options: SearchOptions,
    gate: &G,
) -> Result<Solved, SessionError>
    ensures solved { IsSolved report bytes.now (K.holds sink.old) (K.holds sink.new)
        (K.faults sink.old) (K.faults sink.new) result }
{
    let mut writing = Writing {
        session: Session::new(alloc, bytes, report, options),
        ask: |session: &mut Session<'_>, question: Question|
            requires { MayAsk session.old question }
            ensures { Answers session.old question result session.new }
        { session.ask(rt, gate, question) },
    };
    go_through(&mut writing, sink)
}

/// Writes the transcript of a script: the answers to its commands in order, each a line, up to the end, to `(exit)` or
/// to the first refusal, whose error line it ends with.
///
/// One worker is the caller itself, and then the call returns without waiting; more search side by side, and the gate is
/// passed by each before each delivery. The verdict lines are the same for any number of workers.
pub fn solve_script<R: Threads + Wait + Sync, K: Sink, G: Gate>(
    rt: &R,
    alloc: Global,
    bytes: &[u8],
    sink: &mut K,
    options: SearchOptions,
    gate: &G,
) -> Result<Solved, SessionError>
    ensures solved { IsSolved Verdicts bytes.now (K.holds sink.old) (K.holds sink.new)
        (K.faults sink.old) (K.faults sink.new) result }
{
    write_report(rt, alloc, bytes, sink, Report::Verdicts, options, gate)
}

/// Writes the certificate of a script, of this version: a header, for each question the entry that decides it, and
/// the end, or the first refusal's error line in its place.
///
/// The arguments are those of [`solve_script`].
pub fn certify_script<R: Threads + Wait + Sync, K: Sink, G: Gate>(
    rt: &R,
    alloc: Global,
    bytes: &[u8],
    sink: &mut K,
    options: SearchOptions,
    gate: &G,
    version: Version,
) -> Result<Solved, SessionError>
    ensures solved { IsSolved (Certificate version) bytes.now (K.holds sink.old) (K.holds sink.new)
        (K.faults sink.old) (K.faults sink.new) result }
{
    write_report(
        rt,
        alloc,
        bytes,
        sink,
        Report::Certificate(version),
        options,
        gate,
    )
}
