//! The script of a job shop.
ghost use Rattle.std.specs.Prelude.{◌≡◌, ◌++◌, ◌+◌, ◌-◌, ◌<◌, ◌≤◌, length, IfOk, IfSome, OnOk};
ghost use Rattle.smt_sexpr.specs.Printing.{text_of};
ghost use Rattle.job_shop.specs.Scripts.{each, difference, before, apart, asserts, line_of, operation_on, script};
ghost use Rattle.job_shop.specs.code.Lines.{name_line, name_lines, begins_line, goes_on_line, ends_line, bound_lines, apart_lines, later_lines, machine_lines};

use crate::shop::{COUNT_LIMIT, Jobs};
use crate::text::{push_less, push_number, push_point};
use bstr::ByteVec;
use std::alloc::{AllocError, Global};

// ---- names

fn declare(job: u32, k: u32, out: &mut Vec<u8>) -> Result<(), AllocError>
    ensures { OnOk result (out.new.items ≡ out.old.items ++ name_line job k) }
{
    out.push_str(b"(declare-const ")?;
    push_point(job, k, out)?;
    out.push_str(b" Int)\n")?;
    Ok(())
}

#[tactic(auto, unfolding(crate::specs::code::Lines::name_lines))]
fn declare_job(jobs: &Jobs, job: u32, out: &mut Vec<u8>) -> Result<(), AllocError>
    ensures { OnOk result (out.new.items ≡ out.old.items ++ name_lines jobs.now job) }
{
    'operations: for k in 0..jobs.machines() {
        declare(job, k, out)?;
    }
    Ok(())
}

fn declare_all(jobs: &Jobs, out: &mut Vec<u8>) -> Result<(), AllocError>
    ensures { OnOk result (out.new.items ≡ out.old.items ++ each (length jobs.now.jobs) (name_lines jobs.now)) }
{
    'jobs: for job in 0..jobs.count() {
        declare_job(jobs, job, out)?;
    }
    Ok(())
}

// ---- terms

fn push_difference(a: u32, i: u32, b: u32, j: u32, out: &mut Vec<u8>) -> Result<(), AllocError>
    ensures { OnOk result (out.new.items ≡ out.old.items ++ text_of (difference a i b j)) }
{
    out.push_str(b"(- ")?;
    push_point(a, i, out)?;
    out.push_str(b" ")?;
    push_point(b, j, out)?;
    out.push_str(b")")?;
    Ok(())
}

fn push_before(
    jobs: &Jobs,
    a: u32,
    i: u32,
    b: u32,
    j: u32,
    out: &mut Vec<u8>,
) -> Result<(), AllocError>
    requires job { a < length jobs.now.jobs }
    requires place { i < jobs.now.machines }
    ensures { OnOk result (out.new.items ≡ out.old.items ++ text_of (before jobs.now a i b j)) }
{
    out.push_str(b"(<= ")?;
    push_difference(a, i, b, j, out)?;
    out.push_str(b" ")?;
    push_less(jobs.operation(a, i).duration, out)?;
    out.push_str(b")")?;
    Ok(())
}

// ---- jobs

fn begin_job(job: u32, out: &mut Vec<u8>) -> Result<(), AllocError>
    ensures { OnOk result (out.new.items ≡ out.old.items ++ begins_line job) }
{
    out.push_str(b"(assert (>= ")?;
    push_point(job, 0, out)?;
    out.push_str(b" 0))\n")?;
    Ok(())
}

fn follow(jobs: &Jobs, job: u32, k: u32, out: &mut Vec<u8>) -> Result<(), AllocError>
    requires job { job < length jobs.now.jobs }
    requires place { k < jobs.now.machines }
    requires few { k < COUNT_LIMIT }
    ensures { OnOk result (out.new.items ≡ out.old.items ++ goes_on_line jobs.now job k) }
{
    out.push_str(b"(assert (>= ")?;
    push_difference(job, k + 1, job, k, out)?;
    out.push_str(b" ")?;
    push_number(jobs.operation(job, k).duration, out)?;
    out.push_str(b"))\n")?;
    Ok(())
}

fn follow_all(jobs: &Jobs, job: u32, out: &mut Vec<u8>) -> Result<(), AllocError>
    requires { job < length jobs.now.jobs }
    ensures { OnOk result (out.new.items ≡ out.old.items ++ each (jobs.now.machines - 1) (goes_on_line jobs.now job)) }
{
    'operations: for k in 0..jobs.machines() - 1 {
        follow(jobs, job, k, out)?;
    }
    Ok(())
}

fn end_job(jobs: &Jobs, job: u32, last: u32, out: &mut Vec<u8>) -> Result<(), AllocError>
    requires job { job < length jobs.now.jobs }
    requires last { last ≡ jobs.now.machines - 1 }
    requires place { last < jobs.now.machines }
    ensures { OnOk result (out.new.items ≡ out.old.items ++ ends_line jobs.now job) }
{
    out.push_str(b"(assert (<= (- ")?;
    push_point(job, last, out)?;
    out.push_str(b" m) ")?;
    push_less(jobs.operation(job, last).duration, out)?;
    out.push_str(b"))\n")?;
    Ok(())
}

fn bound_job(jobs: &Jobs, job: u32, out: &mut Vec<u8>) -> Result<(), AllocError>
    requires { job < length jobs.now.jobs }
    ensures { OnOk result (out.new.items ≡ out.old.items ++ bound_lines jobs.now job) }
{
    begin_job(job, out)?;
    follow_all(jobs, job, out)?;
    end_job(jobs, job, jobs.machines() - 1, out)?;
    Ok(())
}

fn bound_all(jobs: &Jobs, out: &mut Vec<u8>) -> Result<(), AllocError>
    ensures { OnOk result (out.new.items ≡ out.old.items ++ each (length jobs.now.jobs) (bound_lines jobs.now)) }
{
    'jobs: for job in 0..jobs.count() {
        bound_job(jobs, job, out)?;
    }
    Ok(())
}

// ---- machines

/// Which of the job's operations is on the machine.
#[tactic(auto, using(crate::proofs::Searching::found_at, crate::proofs::Searching::none_more))]
fn operation_on(jobs: &Jobs, machine: u32, job: u32) -> Option<u32>
    requires { job < length jobs.now.jobs }
    ensures found { result ≡ operation_on jobs.now.machines jobs.now machine job }
    ensures within { IfSome result (λ k. k < jobs.now.machines) }
{
    'operations: for k in 0..jobs.machines() {
        if jobs.operation(job, k).machine == machine {
            return Some(k);
        }
    }
    None
}

fn push_apart(
    jobs: &Jobs,
    a: u32,
    i: u32,
    b: u32,
    j: u32,
    out: &mut Vec<u8>,
) -> Result<(), AllocError>
    requires first { a < length jobs.now.jobs }
    requires place { i < jobs.now.machines }
    requires second { b < length jobs.now.jobs }
    requires other { j < jobs.now.machines }
    ensures { OnOk result (out.new.items ≡ out.old.items ++ line_of (asserts (apart jobs.now a i b j))) }
{
    out.push_str(b"(assert (or ")?;
    push_before(jobs, a, i, b, j, out)?;
    out.push_str(b" ")?;
    push_before(jobs, b, j, a, i, out)?;
    out.push_str(b"))\n")?;
    Ok(())
}

// The operations on a machine of the job and of the one that comes so much later than the next.
#[tactic(auto, using(crate::proofs::Wholes::both_on, crate::proofs::Wholes::first_none, crate::proofs::Wholes::second_none))]
fn part(jobs: &Jobs, machine: u32, a: u32, later: u32, out: &mut Vec<u8>) -> Result<(), AllocError>
    requires jobs { a + 1 + later < length jobs.now.jobs }
    requires few { length jobs.now.jobs ≤ COUNT_LIMIT }
    ensures { OnOk result (out.new.items ≡ out.old.items ++ apart_lines jobs.now machine a later) }
{
    let b = a + 1 + later;
    match operation_on(jobs, machine, a) {
        None => Ok(()),
        Some(i) => match operation_on(jobs, machine, b) {
            None => Ok(()),
            Some(j) => {
                push_apart(jobs, a, i, b, j, out)?;
                Ok(())
            }
        },
    }
}

#[tactic(auto, unfolding(crate::specs::code::Lines::later_lines))]
fn part_from_later(jobs: &Jobs, machine: u32, a: u32, out: &mut Vec<u8>) -> Result<(), AllocError>
    requires { a < length jobs.now.jobs }
    ensures { OnOk result (out.new.items ≡ out.old.items ++ later_lines jobs.now machine a) }
{
    'later: for later in 0..jobs.count() - 1 - a {
        part(jobs, machine, a, later, out)?;
    }
    Ok(())
}

#[tactic(auto, unfolding(crate::specs::code::Lines::machine_lines))]
fn part_machine(jobs: &Jobs, machine: u32, out: &mut Vec<u8>) -> Result<(), AllocError>
    ensures { OnOk result (out.new.items ≡ out.old.items ++ machine_lines jobs.now machine) }
{
    'jobs: for a in 0..jobs.count() {
        part_from_later(jobs, machine, a, out)?;
    }
    Ok(())
}

fn part_all(jobs: &Jobs, out: &mut Vec<u8>) -> Result<(), AllocError>
    ensures { OnOk result (out.new.items ≡ out.old.items ++ each jobs.now.machines (machine_lines jobs.now)) }
{
    'machines: for machine in 0..jobs.machines() {
        part_machine(jobs, machine, out)?;
    }
    Ok(())
}

// ---- the whole

fn push_script(jobs: &Jobs, out: &mut Vec<u8>) -> Result<(), AllocError>
    ensures { OnOk result (out.new.items ≡ out.old.items ++ script jobs.now) }
{
    out.push_str(b"(set-logic QF_IDL)\n(declare-const m Int)\n")?;
    declare_all(jobs, out)?;
    bound_all(jobs, out)?;
    part_all(jobs, out)?;
    out.push_str(b"(minimize m)\n(exit)\n")?;
    Ok(())
}

/// The script whose least `m` is the least makespan. Its size is in proportion to the machines times the square of the
/// jobs: 40 of each make some 3 MB.
pub fn script_of(alloc: Global, jobs: &Jobs) -> Result<Vec<u8>, AllocError>
    ensures { IfOk result (λ text. text.items ≡ script jobs.now) }
{
    let mut out = Vec::new(alloc);
    push_script(jobs, &mut out)?;
    Ok(out)
}
