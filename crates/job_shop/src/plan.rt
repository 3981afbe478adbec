//! How a plan is written.
ghost use Rattle.std.specs.Prelude.{◌≡◌, ◌++◌, ◌*◌, ◌<◌, length, IfOk, OnOk};
ghost use Rattle.job_shop.specs.Scripts.{each};
ghost use Rattle.job_shop.specs.PlanTexts.{start_text, job_text, plan_text};

use crate::shop::Jobs;
use crate::text::{push_number, push_signed};
use bstr::ByteVec;
use std::alloc::{AllocError, Global};

#[tactic(auto, unfolding(crate::specs::PlanTexts::start_text))]
fn push_start(
    jobs: &Jobs,
    starts: &[i128],
    job: u32,
    k: u32,
    out: &mut Vec<u8>,
) -> Result<(), AllocError>
    requires many { length starts.now ≡ length jobs.now.jobs * jobs.now.machines }
    requires job { job < length jobs.now.jobs }
    requires place { k < jobs.now.machines }
    ensures { OnOk result (out.new.items ≡ out.old.items ++ start_text jobs.now starts.now job k) }
{
    let start = starts[(job * jobs.machines() + k) as usize];
    out.push_str(b" ")?;
    push_signed(start, out)
}

fn push_starts(jobs: &Jobs, starts: &[i128], job: u32, out: &mut Vec<u8>) -> Result<(), AllocError>
    requires many { length starts.now ≡ length jobs.now.jobs * jobs.now.machines }
    requires job { job < length jobs.now.jobs }
    ensures { OnOk result (out.new.items ≡ out.old.items ++ each jobs.now.machines (start_text jobs.now starts.now job)) }
{
    'operations: for k in 0..jobs.machines() {
        push_start(jobs, starts, job, k, out)?;
    }
    Ok(())
}

#[tactic(auto, unfolding(crate::specs::PlanTexts::job_text))]
fn push_job(jobs: &Jobs, starts: &[i128], job: u32, out: &mut Vec<u8>) -> Result<(), AllocError>
    requires many { length starts.now ≡ length jobs.now.jobs * jobs.now.machines }
    requires job { job < length jobs.now.jobs }
    ensures { OnOk result (out.new.items ≡ out.old.items ++ job_text jobs.now starts.now job) }
{
    out.push_str(b"job ")?;
    push_number(job, out)?;
    out.push_str(b":")?;
    push_starts(jobs, starts, job, out)?;
    out.push_str(b"\n")
}

fn push_jobs(jobs: &Jobs, starts: &[i128], out: &mut Vec<u8>) -> Result<(), AllocError>
    requires { length starts.now ≡ length jobs.now.jobs * jobs.now.machines }
    ensures { OnOk result (out.new.items ≡ out.old.items ++ each (length jobs.now.jobs) (job_text jobs.now starts.now)) }
{
    'jobs: for job in 0..jobs.count() {
        push_job(jobs, starts, job, out)?;
    }
    Ok(())
}

/// A line with the makespan, and one for each job with the starts of its operations.
#[tactic(auto, unfolding(crate::specs::PlanTexts::plan_text))]
pub fn plan_text(
    alloc: Global,
    jobs: &Jobs,
    m: i128,
    starts: &[i128],
) -> Result<Vec<u8>, AllocError>
    requires { length starts.now ≡ length jobs.now.jobs * jobs.now.machines }
    ensures { IfOk result (λ text. text.items ≡ plan_text jobs.now m starts.now) }
{
    let mut out = Vec::new(alloc);
    out.push_str(b"makespan ")?;
    push_signed(m, &mut out)?;
    out.push_str(b"\n")?;
    push_jobs(jobs, starts, &mut out)?;
    Ok(out)
}
