//! A script with its certificate behind it, in memory. That the script isn't refused and has one entry, and that it is
//! accepted with its certificate, are laws (`plan_law`), so that no other case is answered.
ghost use Rattle.std.specs.Prelude.{◌≡◌, ◌++◌, IfOk, OnOk};
ghost use Rattle.cert_text.specs.declared.entry.Version.TheVariants.{One};
ghost use Rattle.dtp_gen.specs.Scripts.{script};
ghost use Rattle.dtp_entry.specs.declared.report.Report.TheVariants.{Certificate};
ghost use Rattle.dtp_entry.specs.Transcripts.{IsReport};
ghost use Rattle.dtp_check.specs.declared.judgement.Judgement.TheVariants.{Accepted};
ghost use Rattle.dtp_check.specs.Judged.{IsJudged};
ghost use Rattle.dtp_bench.specs.Benches.{plan_of};
ghost use Rattle.dtp_bench.specs.code.Outcomes.{IsPair, HasVerdict};

use crate::laws::plan_law;
use crate::numbers::PlanNumbers;
use cert_text::{Version, write_header};
use dtp_check::{Checked, check_pair, one_judgement};
use dtp_io::{MemSink, write_all_of};
use dtp_session::{Gate, SearchOptions, Solved, certify_script};
use smt_script::Satisfiability;
use std::alloc::{AllocError, Global};
use std::sync::Wait;
use std::thread::Threads;

/// The plan's script, and behind it its certificate.
pub fn certified<'a, R: Threads + Wait + Sync, G: Gate>(
    rt: &R,
    alloc: Global,
    plan: PlanNumbers,
    text: &[u8],
    options: SearchOptions,
    gate: &G,
) -> Result<MemSink<'a>, AllocError>
    requires { text.now ≡ script (plan_of plan) }
    ensures { IfOk result (λ pair. IsPair (script (plan_of plan)) pair.held.items) }
{
    plan_law(plan);
    let mut pair = MemSink::new(alloc, &[]);
    write_all_of(&mut pair, text).or(Err(AllocError))?;
    match certify_script(rt, alloc, text, &mut pair, options, gate, Version::One) {
        Ok(Solved::Done) => Ok(pair),
        Ok(Solved::ScriptStopped) => unreachable!(),
        Err(_) => Err(AllocError),
    }
}

/// The verdict of the certificate's one entry, by which its line begins, behind the header's.
pub fn verdict_in(
    alloc: Global,
    plan: PlanNumbers,
    certificate: &[u8],
) -> Result<Satisfiability, AllocError>
    requires { IsReport (Certificate One) (script (plan_of plan)) certificate.now 0 }
    ensures { IfOk result (HasVerdict (script (plan_of plan)) certificate.now) }
{
    plan_law(plan);
    let mut header = Vec::new(alloc);
    write_header(Version::One, &mut header)?;
    let line = &certificate[header.len()..];
    if line.starts_with(b"(unsat") {
        return Ok(Satisfiability::Unsat);
    }
    Ok(Satisfiability::Sat)
}

/// Checks the plan's script with its certificate behind it.
pub fn check_again(alloc: Global, plan: PlanNumbers, pair: &[u8]) -> Result<(), AllocError>
    requires { IsPair (script (plan_of plan)) pair.now }
    ensures { OnOk result (IsJudged pair.now Accepted) }
{
    plan_law(plan);
    one_judgement();
    let mut line = MemSink::new(alloc, &[]);
    match check_pair(alloc, pair, &mut line) {
        Ok(Checked::Accepted) => Ok(()),
        Ok(Checked::NotAccepted) => unreachable!(),
        Err(_) => Err(AllocError),
    }
}
