//! The top call: from the words and the source to the sink and a status.
ghost use Rattle.std.specs.Prelude.{◌≡◌, ◌≤◌, ℕ, List, Option};
ghost use Rattle.command_line.specs.Lines.{IsSearchInRange, IsShopInRange, line_of};
ghost use Rattle.dtp_run.specs.Outcomes.{emit_of, version_of, IsRun, IsOutcome, IsBenched, WritesUsage, outside, plan_of, texts};

use crate::status::Status;
use crate::work::{Work, work_on};
use cert_text::Version;
use command_line::{Emit as EmitWord, Format, Line, LineError, Search, Shop, read_line};
use dtp_bench::PlanNumbers;
use dtp_entry::{Report, SessionError};
use dtp_io::{Sink, Source, write_all_of};
use dtp_jobshop::Emit;
use dtp_session::{Gate, SearchOptions};
use std::alloc::Global;
use std::sync::Wait;
use std::thread::Threads;

const USAGE: &[u8] =
    b"usage: dtp solve [--workers N] [--slice B], dtp certify [--workers N] [--slice B] [--format F], dtp check, dtp convert, dtp bench J M S D [--workers N], dtp jobshop [--emit E] [--workers N] [--slice B]\n";

/// Does what the words ask for, and gives the status that the program ends with.
pub fn run<R: Threads + Wait + Sync, S: Source, K: Sink, G: Gate>(
    rt: &R,
    alloc: Global,
    words: &[String],
    source: &mut S,
    sink: &mut K,
    gate: &G,
) -> u8
    ensures headline { IsRun (texts words.now)
        (outside (S.left source.old) (S.faults source.old) (K.holds sink.old) (K.faults sink.old))
        (outside (S.left source.new) (S.faults source.new) (K.holds sink.new) (K.faults sink.new))
        result }
{
    perform(rt, alloc, words, source, sink, gate).code()
}

/// Does what the words ask for.
fn perform<R: Threads + Wait + Sync, S: Source, K: Sink, G: Gate>(
    rt: &R,
    alloc: Global,
    words: &[String],
    source: &mut S,
    sink: &mut K,
    gate: &G,
) -> Status
    ensures outcome { IsOutcome (line_of (texts words.now))
        (outside (S.left source.old) (S.faults source.old) (K.holds sink.old) (K.faults sink.old))
        (outside (S.left source.new) (S.faults source.new) (K.holds sink.new) (K.faults sink.new))
        result }
    ensures read_later { S.faults source.old ≤ S.faults source.new }
    ensures write_later { K.faults sink.old ≤ K.faults sink.new }
{
    match read_line(alloc, words) {
        Ok(Line::Solve(search)) => {
            let work = Work::Script(Report::Verdicts, options_of(search));
            work_on(rt, alloc, source, sink, work, gate)
        }
        Ok(Line::Certify(search, format)) => {
            let report = Report::Certificate(version_of(format));
            let work = Work::Script(report, options_of(search));
            work_on(rt, alloc, source, sink, work, gate)
        }
        Ok(Line::Check) => work_on(rt, alloc, source, sink, Work::Check, gate),
        Ok(Line::Convert) => work_on(rt, alloc, source, sink, Work::Convert, gate),
        Ok(Line::Bench(shop, workers)) => bench(rt, alloc, shop, workers, sink, gate),
        Ok(Line::Jobshop(search, emit)) => {
            let work = Work::Jobshop(emit_of(emit), options_of(search));
            work_on(rt, alloc, source, sink, work, gate)
        }
        Err(LineError::Refused) => usage(sink),
        Err(LineError::OutOfMemory) => Status::OutOfMemory,
    }
}

/// The version of the certificate that is asked for.
fn version_of(format: Format) -> Version
    ensures { result ≡ version_of format }
{
    match format {
        Format::One => Version::One,
        Format::Two => Version::Two,
    }
}

/// What is to be written of a job shop.
fn emit_of(emit: EmitWord) -> Emit
    ensures { result ≡ emit_of emit }
{
    match emit {
        EmitWord::Plan => Emit::Plan,
        EmitWord::Script => Emit::Script,
        EmitWord::Certificate => Emit::Certificate,
    }
}

/// How the line says to search.
fn options_of(search: Search) -> SearchOptions
    requires range { IsSearchInRange search }
{
    SearchOptions {
        workers: search.workers,
        slice: search.slice,
    }
}

/// Writes the usage line. A fault in writing it changes nothing of the status.
#[tactic(auto, unfolding(crate::specs::Outcomes::usage_line))]
fn usage<K: Sink>(sink: &mut K) -> Status
    ensures status { result ≡ Status.Usage }
    ensures written { WritesUsage (K.holds sink.old) (K.holds sink.new)
        (K.faults sink.old) (K.faults sink.new) }
    ensures write_later { K.faults sink.old ≤ K.faults sink.new }
{
    match write_all_of(sink, USAGE) {
        Ok(()) => Status::Usage,
        Err(_) => Status::Usage,
    }
}

/// Makes a job shop's script, and writes what its certificate comes to.
fn bench<R: Threads + Wait + Sync, K: Sink, G: Gate>(
    rt: &R,
    alloc: Global,
    shop: Shop,
    workers: u32,
    sink: &mut K,
    gate: &G,
) -> Status
    requires shop { IsShopInRange shop }
    requires workers { (1 ≤ workers) × (workers ≤ 64) }
    ensures benched { (left : Option (List ℕ)) (read_faults : ℕ) → IsBenched (plan_of shop)
        (outside left read_faults (K.holds sink.old) (K.faults sink.old))
        (outside left read_faults (K.holds sink.new) (K.faults sink.new)) result }
    ensures write_later { K.faults sink.old ≤ K.faults sink.new }
{
    let plan = PlanNumbers {
        jobs: shop.jobs,
        machines: shop.machines,
        start: shop.start,
        deadline: shop.deadline,
    };
    let options = SearchOptions {
        workers,
        slice: 1_000,
    };
    match dtp_bench::bench(rt, alloc, plan, options, sink, gate) {
        Ok(()) => Status::Done,
        Err(SessionError::WriteFault) => Status::WriteFault,
        Err(SessionError::OutOfMemory) => Status::OutOfMemory,
    }
}
