//! From the numbers to what is written.
ghost use Rattle.std.specs.Prelude.{◌≡◌, ◌⊎◌, [], IfOk, OnOk, OnErr};
ghost use Rattle.job_shop.specs.Shops.{IsShop};
ghost use Rattle.dtp_entry.specs.Written.{HasFault, Writes, WritesOne};
ghost use Rattle.dtp_jobshop.specs.Jobshops.{IsEmitted, IsEmittedPart, IsShopAnswer, IsShopAnswerPart, status_of};
ghost use Rattle.dtp_jobshop.specs.declared.emit.Emit.TheVariants as asked;
ghost use Rattle.job_shop.specs.Instances.{refusal_line};

use crate::emit::{Answered, Emit};
use crate::plan::least_plan;
use cert_text::Version;
use dtp_entry::{SessionError, write_text};
use dtp_io::Sink;
use dtp_session::{Gate, SearchOptions, Solved, certify_script};
use job_shop::{JobError, JobRefusal, Jobs, read_jobs, refusal_text, script_of};
use shop_law::shop_is_answered;
use std::alloc::Global;
use std::sync::Wait;
use std::thread::Threads;

/// Writes why the numbers are no job shop.
fn write_refusal<K: Sink>(
    alloc: Global,
    refusal: JobRefusal,
    sink: &mut K,
) -> Result<(), SessionError>
    ensures { WritesOne (λ text. text ≡ refusal_line refusal) (K.holds sink.old) (K.holds sink.new)
        (K.faults sink.old) (K.faults sink.new) result }
{
    let line = refusal_text(alloc, refusal)?;
    write_text(sink, &line)
}

/// Writes the script.
fn write_script<K: Sink>(alloc: Global, jobs: &Jobs, sink: &mut K) -> Result<(), SessionError>
    ensures { WritesOne (IsEmitted asked.Script jobs.now) (K.holds sink.old) (K.holds sink.new)
        (K.faults sink.old) (K.faults sink.new) result }
{
    let script = script_of(alloc, jobs)?;
    write_text(sink, &script)
}

/// Writes a plan of least makespan.
fn write_plan<R: Threads + Wait + Sync, K: Sink, G: Gate>(
    rt: &R,
    alloc: Global,
    jobs: &Jobs,
    options: SearchOptions,
    sink: &mut K,
    gate: &G,
) -> Result<(), SessionError>
    requires { IsShop jobs.now }
    ensures { WritesOne (IsEmitted asked.Plan jobs.now) (K.holds sink.old) (K.holds sink.new)
        (K.faults sink.old) (K.faults sink.new) result }
{
    let text = least_plan(rt, alloc, jobs, options, gate)?;
    write_text(sink, &text)
}

/// Writes the script's certificate.
fn write_certificate<R: Threads + Wait + Sync, K: Sink, G: Gate>(
    rt: &R,
    alloc: Global,
    jobs: &Jobs,
    options: SearchOptions,
    sink: &mut K,
    gate: &G,
) -> Result<(), SessionError>
    requires { IsShop jobs.now }
    ensures whole { OnOk result (Writes (K.holds sink.old) (K.holds sink.new) (IsEmitted asked.Certificate jobs.now)) }
    ensures part { OnErr result (Writes (K.holds sink.old) (K.holds sink.new)
        (λ text. (text ≡ []) ⊎ IsEmittedPart asked.Certificate jobs.now text)) }
    ensures fault { HasFault (K.faults sink.old) (K.faults sink.new) result }
{
    shop_is_answered();
    let script = script_of(alloc, jobs)?;
    match certify_script(rt, alloc, &script, sink, options, gate, Version::One) {
        Ok(Solved::Done) => Ok(()),
        Ok(Solved::ScriptStopped) => unreachable!(),
        Err(error) => Err(error),
    }
}

/// Writes of the job shop what is asked for.
fn write_shop<R: Threads + Wait + Sync, K: Sink, G: Gate>(
    rt: &R,
    alloc: Global,
    jobs: &Jobs,
    emit: Emit,
    options: SearchOptions,
    sink: &mut K,
    gate: &G,
) -> Result<(), SessionError>
    requires { IsShop jobs.now }
    ensures whole { OnOk result (Writes (K.holds sink.old) (K.holds sink.new) (IsEmitted emit jobs.now)) }
    ensures part { OnErr result (Writes (K.holds sink.old) (K.holds sink.new)
        (λ text. (text ≡ []) ⊎ IsEmittedPart emit jobs.now text)) }
    ensures fault { HasFault (K.faults sink.old) (K.faults sink.new) result }
{
    match emit {
        Emit::Plan => write_plan(rt, alloc, jobs, options, sink, gate),
        Emit::Script => write_script(alloc, jobs, sink),
        Emit::Certificate => write_certificate(rt, alloc, jobs, options, sink, gate),
    }
}

/// Writes of the job shop that the bytes are what is asked for, or why they are none.
///
/// The bytes are numbers in words, split at white space: how many jobs and how many machines, 1 to 40 each, then for each
/// job as many pairs of machine, from 0, and duration, up to 1,000,000, as there are machines. A plan goes out when it is proved
/// to be a least one, and nothing before; the time of the search may grow with the number of orders of the operations.
pub fn answer_shop<R: Threads + Wait + Sync, K: Sink, G: Gate>(
    rt: &R,
    alloc: Global,
    bytes: &[u8],
    emit: Emit,
    options: SearchOptions,
    sink: &mut K,
    gate: &G,
) -> Result<Answered, SessionError>
    ensures whole { IfOk result (λ end. Writes (K.holds sink.old) (K.holds sink.new)
        (λ text. IsShopAnswer emit bytes.now text (status_of end))) }
    ensures part { OnErr result (Writes (K.holds sink.old) (K.holds sink.new) (IsShopAnswerPart emit bytes.now)) }
    ensures fault { HasFault (K.faults sink.old) (K.faults sink.new) result }
{
    match read_jobs(alloc, bytes) {
        Ok(jobs) => {
            write_shop(rt, alloc, &jobs, emit, options, sink, gate)?;
            Ok(Answered::Whole)
        }
        Err(JobError::Refused(refusal)) => {
            write_refusal(alloc, refusal, sink)?;
            Ok(Answered::Refused)
        }
        Err(JobError::OutOfMemory) => Err(SessionError::OutOfMemory),
    }
}
