ghost use Rattle.std.specs.Prelude.{◌≡◌, ◌++◌, ◌+◌, ◌-◌, ◌<◌, ◌≤◌, IfOk, OnOk};
ghost use Rattle.dtp_gen.specs.Scripts.{declaration, job_declarations, declarations, begins, difference, follows};
ghost use Rattle.dtp_gen.specs.Scripts.{end, ends, follow_each_other, job_bounds, bounds, before, apart, apart_on};
ghost use Rattle.dtp_gen.specs.Scripts.{apart_from_later, machine_orders, orders, script};

use crate::shop::{COUNT_LIMIT, Shop};
use crate::text::{push_name, push_number};
use bstr::ByteVec;
use std::alloc::{AllocError, Global};

#[tactic(auto, unfolding(crate::specs::Scripts::declaration))]
fn push_declaration(job: u32, k: u32, out: &mut Vec<u8>) -> Result<(), AllocError>
    ensures { OnOk result (out.new.items ≡ out.old.items ++ declaration job k) }
{
    out.push_str(b"(declare-const ")?;
    push_name(job, k, out)?;
    out.push_str(b" Int)\n")?;
    Ok(())
}

#[tactic(auto, unfolding(crate::specs::Scripts::job_declarations))]
fn declare_job(shop: &Shop, job: u32, out: &mut Vec<u8>) -> Result<(), AllocError>
    ensures { OnOk result (out.new.items ≡ out.old.items ++ job_declarations shop.now job) }
{
    'operations: for k in 0..shop.machines() {
        push_declaration(job, k, out)?;
    }
    Ok(())
}

#[tactic(auto, unfolding(crate::specs::Scripts::declarations))]
fn declare_all(shop: &Shop, out: &mut Vec<u8>) -> Result<(), AllocError>
    ensures { OnOk result (out.new.items ≡ out.old.items ++ declarations shop.now) }
{
    'jobs: for job in 0..shop.jobs() {
        declare_job(shop, job, out)?;
    }
    Ok(())
}

#[tactic(auto, unfolding(crate::specs::Scripts::begins))]
fn begin_job(job: u32, out: &mut Vec<u8>) -> Result<(), AllocError>
    ensures { OnOk result (out.new.items ≡ out.old.items ++ begins job) }
{
    out.push_str(b"(assert (>= ")?;
    push_name(job, 0, out)?;
    out.push_str(b" 0))\n")?;
    Ok(())
}

// How much later operation i of job a starts than operation j of job b.
#[tactic(auto, unfolding(crate::specs::Scripts::difference))]
fn push_difference(a: u32, i: u32, b: u32, j: u32, out: &mut Vec<u8>) -> Result<(), AllocError>
    ensures { OnOk result (out.new.items ≡ out.old.items ++ difference a i b j) }
{
    out.push_str(b"(- ")?;
    push_name(a, i, out)?;
    out.push_str(b" ")?;
    push_name(b, j, out)?;
    out.push_str(b")")?;
    Ok(())
}

#[tactic(auto, unfolding(crate::specs::Scripts::follows))]
fn follow(shop: &Shop, job: u32, k: u32, out: &mut Vec<u8>) -> Result<(), AllocError>
    requires job { job < shop.now.jobs }
    requires place { k < shop.now.machines }
    requires few { k < COUNT_LIMIT }
    ensures { OnOk result (out.new.items ≡ out.old.items ++ follows shop.now job k) }
{
    out.push_str(b"(assert (>= ")?;
    push_difference(job, k + 1, job, k, out)?;
    out.push_str(b" ")?;
    push_number(shop.duration(job, k), out)?;
    out.push_str(b"))\n")?;
    Ok(())
}

// When the operation ends.
#[tactic(auto, unfolding(crate::specs::Scripts::end))]
fn push_end(shop: &Shop, job: u32, k: u32, out: &mut Vec<u8>) -> Result<(), AllocError>
    requires job { job < shop.now.jobs }
    requires place { k < shop.now.machines }
    ensures { OnOk result (out.new.items ≡ out.old.items ++ end shop.now job k) }
{
    out.push_str(b"(+ ")?;
    push_name(job, k, out)?;
    out.push_str(b" ")?;
    push_number(shop.duration(job, k), out)?;
    out.push_str(b")")?;
    Ok(())
}

#[tactic(auto, unfolding(crate::specs::Scripts::ends))]
fn end_job(shop: &Shop, job: u32, out: &mut Vec<u8>) -> Result<(), AllocError>
    requires { job < shop.now.jobs }
    ensures { OnOk result (out.new.items ≡ out.old.items ++ ends shop.now job) }
{
    out.push_str(b"(assert (<= ")?;
    push_end(shop, job, shop.machines() - 1, out)?;
    out.push_str(b" ")?;
    push_number(shop.deadline(), out)?;
    out.push_str(b"))\n")?;
    Ok(())
}

#[tactic(auto, unfolding(crate::specs::Scripts::follow_each_other))]
fn follow_all(shop: &Shop, job: u32, out: &mut Vec<u8>) -> Result<(), AllocError>
    requires { job < shop.now.jobs }
    ensures { OnOk result (out.new.items ≡ out.old.items ++ follow_each_other shop.now job) }
{
    'operations: for k in 0..shop.machines() - 1 {
        follow(shop, job, k, out)?;
    }
    Ok(())
}

#[tactic(auto, unfolding(crate::specs::Scripts::job_bounds))]
fn bound_job(shop: &Shop, job: u32, out: &mut Vec<u8>) -> Result<(), AllocError>
    requires { job < shop.now.jobs }
    ensures { OnOk result (out.new.items ≡ out.old.items ++ job_bounds shop.now job) }
{
    begin_job(job, out)?;
    follow_all(shop, job, out)?;
    end_job(shop, job, out)
}

#[tactic(auto, unfolding(crate::specs::Scripts::bounds))]
fn bound_all(shop: &Shop, out: &mut Vec<u8>) -> Result<(), AllocError>
    ensures { OnOk result (out.new.items ≡ out.old.items ++ bounds shop.now) }
{
    'jobs: for job in 0..shop.jobs() {
        bound_job(shop, job, out)?;
    }
    Ok(())
}

// Operation i of job a before operation j of job b.
#[tactic(auto, unfolding(crate::specs::Scripts::before))]
fn push_before(
    shop: &Shop,
    a: u32,
    i: u32,
    b: u32,
    j: u32,
    out: &mut Vec<u8>,
) -> Result<(), AllocError>
    requires job { a < shop.now.jobs }
    requires place { i < shop.now.machines }
    ensures { OnOk result (out.new.items ≡ out.old.items ++ before shop.now a i b j) }
{
    out.push_str(b"(<= ")?;
    push_difference(a, i, b, j, out)?;
    out.push_str(b" (- ")?;
    push_number(shop.duration(a, i), out)?;
    out.push_str(b"))")?;
    Ok(())
}

// Operation i of job a before or after operation j of job b.
#[tactic(auto, unfolding(crate::specs::Scripts::apart))]
fn push_apart(
    shop: &Shop,
    a: u32,
    i: u32,
    b: u32,
    j: u32,
    out: &mut Vec<u8>,
) -> Result<(), AllocError>
    requires first { a < shop.now.jobs }
    requires place { i < shop.now.machines }
    requires second { b < shop.now.jobs }
    requires other { j < shop.now.machines }
    ensures { OnOk result (out.new.items ≡ out.old.items ++ apart shop.now a i b j) }
{
    out.push_str(b"(assert (or ")?;
    push_before(shop, a, i, b, j, out)?;
    out.push_str(b" ")?;
    push_before(shop, b, j, a, i, out)?;
    out.push_str(b"))\n")?;
    Ok(())
}

// The operations on a machine of the job and of the one that comes so much later than the next.
#[tactic(auto, unfolding(crate::specs::Scripts::apart_on))]
fn part(shop: &Shop, machine: u32, a: u32, later: u32, out: &mut Vec<u8>) -> Result<(), AllocError>
    requires machine { machine < shop.now.machines }
    requires jobs { a + 1 + later < shop.now.jobs }
    requires few { shop.now.jobs ≤ COUNT_LIMIT }
    ensures { OnOk result (out.new.items ≡ out.old.items ++ apart_on shop.now machine a later) }
{
    let b = a + 1 + later;
    let i = shop.operation_on(machine, a);
    let j = shop.operation_on(machine, b);
    push_apart(shop, a, i, b, j, out)
}

#[tactic(auto, unfolding(crate::specs::Scripts::apart_from_later))]
fn part_from_later(shop: &Shop, machine: u32, a: u32, out: &mut Vec<u8>) -> Result<(), AllocError>
    requires machine { machine < shop.now.machines }
    requires job { a < shop.now.jobs }
    ensures { OnOk result (out.new.items ≡ out.old.items ++ apart_from_later shop.now machine a) }
{
    'later: for later in 0..shop.jobs() - 1 - a {
        part(shop, machine, a, later, out)?;
    }
    Ok(())
}

#[tactic(auto, unfolding(crate::specs::Scripts::machine_orders))]
fn part_machine(shop: &Shop, machine: u32, out: &mut Vec<u8>) -> Result<(), AllocError>
    requires { machine < shop.now.machines }
    ensures { OnOk result (out.new.items ≡ out.old.items ++ machine_orders shop.now machine) }
{
    'jobs: for a in 0..shop.jobs() {
        part_from_later(shop, machine, a, out)?;
    }
    Ok(())
}

#[tactic(auto, unfolding(crate::specs::Scripts::orders))]
fn part_all(shop: &Shop, out: &mut Vec<u8>) -> Result<(), AllocError>
    ensures { OnOk result (out.new.items ≡ out.old.items ++ orders shop.now) }
{
    'machines: for machine in 0..shop.machines() {
        part_machine(shop, machine, out)?;
    }
    Ok(())
}

#[tactic(auto, unfolding(crate::specs::Scripts::script))]
fn push_script(shop: &Shop, out: &mut Vec<u8>) -> Result<(), AllocError>
    ensures { OnOk result (out.new.items ≡ out.old.items ++ script shop.now) }
{
    out.push_str(b"(set-logic QF_IDL)\n")?;
    declare_all(shop, out)?;
    bound_all(shop, out)?;
    part_all(shop, out)?;
    out.push_str(b"(check-sat)\n(exit)\n")?;
    Ok(())
}

/// The script of a job shop. Jobs and machines are 1 to 40; `start` is any number, and so is the deadline. Its size is
/// in proportion to the machines times the square of the jobs: 40 of each make 3.5 MB. The one error is want of memory.
pub fn instance(
    alloc: Global,
    jobs: u32,
    machines: u32,
    start: u32,
    deadline: u32,
) -> Result<Vec<u8>, AllocError>
    requires jobs { jobs ≤ COUNT_LIMIT }
    requires some { 1 ≤ machines }
    requires machines { machines ≤ COUNT_LIMIT }
    ensures { IfOk result (λ text. text.items ≡ script
        (record { jobs = jobs; machines = machines; start = start; deadline = deadline })) }
{
    let shop = Shop::new(alloc, jobs, machines, start, deadline)?;
    let mut out = Vec::new(alloc);
    push_script(&shop, &mut out)?;
    Ok(out)
}
