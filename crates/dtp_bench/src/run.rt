//! All of it, in order.
ghost use Rattle.std.specs.Prelude.{◌≡◌, IfOk};
ghost use Rattle.dtp_entry.specs.Written.{WritesOne};
ghost use Rattle.dtp_bench.specs.Benches.{IsBench, plan_of};
ghost use Rattle.dtp_bench.specs.code.Outcomes.{lines_text};

use crate::certified::{certified, check_again, verdict_in};
use crate::lines::{accepted_line, clauses_line, names_line, plan_line, verdict_line};
use crate::numbers::PlanNumbers;
use dtp_entry::{SessionError, write_text};
use dtp_gen::instance;
use dtp_io::Sink;
use dtp_session::{Gate, SearchOptions};
use script_counts::counts;
use smt_script::Satisfiability;
use std::alloc::{AllocError, Global};
use std::sync::Wait;
use std::thread::Threads;

/// What the lines say.
#[derive(Drop)]
pub struct Lines {
    pub plan: String,
    pub names: String,
    pub clauses: String,
    pub verdict: Satisfiability,
}

/// Makes the script, certifies it, checks it with its certificate, and gives what is to be written about it.
fn lines_of<R: Threads + Wait + Sync, G: Gate>(
    rt: &R,
    alloc: Global,
    plan: PlanNumbers,
    options: SearchOptions,
    gate: &G,
) -> Result<Lines, AllocError>
    ensures { IfOk result (λ lines. IsBench (plan_of plan) (lines_text lines)) }
{
    let script = instance(alloc, plan.jobs, plan.machines, plan.start, plan.deadline)?;
    let size = counts(alloc, &script)?;
    let pair = certified(rt, alloc, plan, &script, options, gate)?;
    let verdict = verdict_in(alloc, plan, &pair.held()[script.len()..])?;
    check_again(alloc, plan, pair.held())?;
    Ok(Lines {
        plan: plan_line(alloc, plan)?,
        names: names_line(alloc, size.names)?,
        clauses: clauses_line(alloc, size.clauses)?,
        verdict,
    })
}

/// Writes the lines, each by a write of its own.
fn write_lines<K: Sink>(lines: &Lines, sink: &mut K) -> Result<(), SessionError>
    ensures { WritesOne (λ text. text ≡ lines_text lines.now) (K.holds sink.old) (K.holds sink.new)
        (K.faults sink.old) (K.faults sink.new) result }
{
    write_text(sink, lines.plan.as_bytes())?;
    write_text(sink, lines.names.as_bytes())?;
    write_text(sink, lines.clauses.as_bytes())?;
    write_text(sink, verdict_line(lines.verdict))?;
    write_text(sink, accepted_line())
}

/// Makes the job shop's script, certifies it, checks it with its certificate, and writes five lines: the numbers, how many
/// names and clauses the script has, its verdict, and that the certificate is accepted.
///
/// Script and certificate are held in memory. By the laws of `bench_law` no command of the script is refused, and it is
/// accepted with its certificate.
pub fn bench<R: Threads + Wait + Sync, K: Sink, G: Gate>(
    rt: &R,
    alloc: Global,
    plan: PlanNumbers,
    options: SearchOptions,
    sink: &mut K,
    gate: &G,
) -> Result<(), SessionError>
    ensures { WritesOne (IsBench (plan_of plan)) (K.holds sink.old) (K.holds sink.new)
        (K.faults sink.old) (K.faults sink.new) result }
{
    let lines = lines_of(rt, alloc, plan, options, gate)?;
    write_lines(&lines, sink)
}
