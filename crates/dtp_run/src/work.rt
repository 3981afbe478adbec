//! What a line does that reads its input: it reads its source whole, and writes a text of it.
ghost use Rattle.std.specs.Prelude.{◌≡◌, ◌≢◌, ◌≤◌, ℕ, List, IfOk, OnErr};
ghost use Rattle.dtp_entry.specs.Written.{HasFault, Writes};
ghost use Rattle.dtp_session.specs.Solving.{IsSolved};
ghost use Rattle.dtp_run.specs.Statuses.{EndsWhole, unread_status};
ghost use Rattle.dtp_run.specs.Outcomes.{IsWorked, outside, part_of, whole_of};

use crate::status::Status;
use dtp_check::{Checked, check_pair};
use dtp_convert::convert_pair;
use dtp_entry::{Report, SessionError};
use dtp_io::{ReadError, Sink, Source, read_all};
use dtp_jobshop::{Answered, Emit, answer_shop};
use dtp_session::{Gate, SearchOptions, Solved, certify_script, solve_script};
use std::alloc::Global;
use std::sync::Wait;
use std::thread::Threads;

/// How many bytes a source may give.
const INPUT_LIMIT: u64 = 1 << 30;

/// What is written of an input.
#[derive(Clone, Copy, Debug, PartialEq, Eq)]
pub(crate) enum Work {
    /// This report of a script, which is searched so.
    Script(Report, SearchOptions),
    /// Whether a script's certificate is right.
    Check,
    /// A script's certificate in the first version, where it is right.
    Convert,
    /// This of a job shop's numbers, which is searched so.
    Jobshop(Emit, SearchOptions),
}

/// The status of a run whose source wasn't read to its end.
fn unread(error: ReadError) -> Status
    ensures { result ≡ unread_status error }
{
    match error {
        ReadError::OutOfMemory => Status::OutOfMemory,
        ReadError::ReadFault => Status::ReadFault,
        ReadError::TooLong => Status::TooLong,
    }
}

/// Reads the source whole, and writes of it what the work says.
pub(crate) fn work_on<R: Threads + Wait + Sync, S: Source, K: Sink, G: Gate>(
    rt: &R,
    alloc: Global,
    source: &mut S,
    sink: &mut K,
    work: Work,
    gate: &G,
) -> Status
    ensures worked { IsWorked (whole_of work) (part_of work)
        (outside (S.left source.old) (S.faults source.old) (K.holds sink.old) (K.faults sink.old))
        (outside (S.left source.new) (S.faults source.new) (K.holds sink.new) (K.faults sink.new))
        result }
    ensures read_later { S.faults source.old ≤ S.faults source.new }
    ensures write_later { K.faults sink.old ≤ K.faults sink.new }
{
    let bytes = match read_all(alloc, source, INPUT_LIMIT) {
        Ok(bytes) => bytes,
        Err(error) => return unread(error),
    };
    match write(rt, alloc, &bytes, sink, work, gate) {
        Ok(status) => status,
        Err(SessionError::WriteFault) => Status::WriteFault,
        Err(SessionError::OutOfMemory) => Status::OutOfMemory,
    }
}

/// Writes of the input what the work says.
fn write<R: Threads + Wait + Sync, K: Sink, G: Gate>(
    rt: &R,
    alloc: Global,
    bytes: &[u8],
    sink: &mut K,
    work: Work,
    gate: &G,
) -> Result<Status, SessionError>
    ensures ends { IfOk result EndsWhole }
    ensures whole { IfOk result (λ status. Writes (K.holds sink.old) (K.holds sink.new) (whole_of work status bytes.now)) }
    ensures part { OnErr result (Writes (K.holds sink.old) (K.holds sink.new) (part_of work bytes.now)) }
    ensures fault { HasFault (K.faults sink.old) (K.faults sink.new) result }
{
    match work {
        Work::Script(report, options) => {
            match write_report(rt, alloc, bytes, sink, report, options, gate) {
                Ok(Solved::Done) => Ok(Status::Done),
                Ok(Solved::ScriptStopped) => Ok(Status::Refused),
                Err(error) => Err(error),
            }
        }
        Work::Check => match check_pair(alloc, bytes, sink) {
            Ok(Checked::Accepted) => Ok(Status::Done),
            Ok(Checked::NotAccepted) => Ok(Status::NotAccepted),
            Err(error) => Err(error),
        },
        Work::Convert => match convert_pair(alloc, bytes, sink) {
            Ok(Checked::Accepted) => Ok(Status::Done),
            Ok(Checked::NotAccepted) => Ok(Status::NotAccepted),
            Err(error) => Err(error),
        },
        Work::Jobshop(emit, options) => {
            match answer_shop(rt, alloc, bytes, emit, options, sink, gate) {
                Ok(Answered::Whole) => Ok(Status::Done),
                Ok(Answered::Refused) => Ok(Status::Refused),
                Err(error) => Err(error),
            }
        }
    }
}

/// Writes this report of the script.
fn write_report<R: Threads + Wait + Sync, K: Sink, G: Gate>(
    rt: &R,
    alloc: Global,
    script: &[u8],
    sink: &mut K,
    report: Report,
    options: SearchOptions,
    gate: &G,
) -> Result<Solved, SessionError>
    ensures solved { IsSolved report script.now (K.holds sink.old) (K.holds sink.new)
        (K.faults sink.old) (K.faults sink.new) result }
{
    match report {
        Report::Verdicts => solve_script(rt, alloc, script, sink, options, gate),
        Report::Certificate(version) => {
            certify_script(rt, alloc, script, sink, options, gate, version)
        }
    }
}
