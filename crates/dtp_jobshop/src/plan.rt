//! A plan of least makespan.
ghost use Rattle.std.specs.Prelude.{◌≡◌, ◌*◌, IfOk, drop, length};
ghost use Rattle.job_shop.specs.Shops.{IsShop};
ghost use Rattle.job_shop.specs.PlanTexts.{plan_text};
ghost use Rattle.job_shop.specs.Plans.{IsLeastPlan, start_in};
ghost use Rattle.job_shop.specs.Tight.{IsTight};
ghost use Rattle.dtp_jobshop.specs.Jobshops.{IsEmitted};
ghost use Rattle.dtp_jobshop.specs.declared.emit.Emit.TheVariants.{Plan};
ghost use Rattle.dtp_jobshop.specs.code.Starts.{numbers_of};

use dtp_session::{Gate, Minimum, SearchOptions, least_of};
use job_shop::{Jobs, plan_text, script_of, tightened};
use shop_law::shop_is_answered;
use std::alloc::{AllocError, Global};
use std::sync::Wait;
use std::thread::Threads;
use stn_core::{NamedValue, Value};

/// The whole numbers among the values, in order.
fn numbers_of(alloc: Global, values: &[NamedValue]) -> Result<Vec<Value>, AllocError>
    ensures { IfOk result (λ numbers. numbers.items ≡ numbers_of values.now) }
{
    let mut numbers = Vec::new(alloc);
    for value in values {
        match value {
            NamedValue::Int(number) => numbers.push(*number)?,
            NamedValue::Truth(_) => {}
        }
    }
    Ok(numbers)
}

/// The values behind the first one.
fn behind_first(values: &[NamedValue]) -> &[NamedValue]
    ensures { result.now ≡ drop 1 values.now }
{
    values.get(1..).unwrap_or(&[])
}

/// The starts of a least plan, each as early as the operations before it let it be.
fn tight_starts(
    alloc: Global,
    jobs: &Jobs,
    minimum: &Minimum,
    starts: &[Value],
) -> Result<Vec<Value>, AllocError>
    requires { IsLeastPlan jobs.now starts.now minimum.now.value }
    ensures least { IfOk result (λ v. IsLeastPlan jobs.now v.items minimum.now.value) }
    ensures tight { IfOk result (λ v. IsTight jobs.now (start_in jobs.now v.items)) }
{
    tightened(alloc, jobs, minimum.value, starts)
}

/// The text of a plan with this makespan.
fn text_of(
    alloc: Global,
    jobs: &Jobs,
    minimum: &Minimum,
    starts: &[Value],
) -> Result<Vec<u8>, AllocError>
    requires { length starts.now ≡ length jobs.now.jobs * jobs.now.machines }
    ensures { IfOk result (λ text. text.items ≡ plan_text jobs.now minimum.now.value starts.now) }
{
    plan_text(alloc, jobs, minimum.value, starts)
}

/// The text of a plan of least makespan. The first of the script's values is the makespan, behind it stand the starts.
pub fn least_plan<R: Threads + Wait + Sync, G: Gate>(
    rt: &R,
    alloc: Global,
    jobs: &Jobs,
    options: SearchOptions,
    gate: &G,
) -> Result<Vec<u8>, AllocError>
    requires { IsShop jobs.now }
    ensures { IfOk result (λ text. IsEmitted Plan jobs.now text.items) }
{
    shop_is_answered();
    let script = script_of(alloc, jobs)?;
    let Some(minimum) = least_of(rt, alloc, &script, options, gate)? else {
        unreachable!()
    };
    let found = numbers_of(alloc, behind_first(minimum.schedule.as_slice()))?;
    let starts = tight_starts(alloc, jobs, &minimum, &found)?;
    let text = text_of(alloc, jobs, &minimum, &starts)?;
    Ok(text)
}
