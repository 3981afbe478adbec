//! Summands of a leaf.
ghost use Rattle.std.specs.Prelude.{◌≡◌, ◌<◌, ◌≤◌, ◌≤ℤ◌, ◌+ℤ◌, ◌++◌, ◌^◌, neg_ℤ, pos, length, take, drop, true, IfOk, IfErr};
ghost use Rattle.idl_linear.specs.code.Trees.{AllWithin};
ghost use Rattle.idl_linear.specs.Limits.{coefficient_limit};
ghost use Rattle.idl_linear.specs.Linear.{with_summand, put_before, is_within};
ghost use Rattle.idl_linear.specs.Forms.{AscendAbove};
ghost use Rattle.idl_linear.specs.code.Steps.{IsRest, Refuses};
ghost use Rattle.idl_linear.specs.code.Trees.{coefficient_at, AllFrom, AllUpTo};

use crate::error::LinearError;
use crate::limits::COEFFICIENT_LIMIT;
use crate::summand::Summand;
use crate::within::within;
use std::alloc::Global;

/// How many summands are below a time point.
pub(crate) fn count_below(items: &[Summand], point: u32) -> usize
    requires { AscendAbove 0 items.now }
    ensures len { result ≤ length items.now }
    ensures below { AllUpTo point (take result items.now) }
    ensures from { AllFrom point (drop result items.now) }
{
    items.partition_point(|summand| summand.point < point)
}

/// The greatest absolute value of a coefficient, or 0 where there is none.
pub(crate) fn greatest_of(items: &[Summand]) -> u64
    ensures { AllWithin result items.now }
{
    let mut greatest = 0u64;
    for summand in items {
        greatest = greatest.max(summand.coefficient.unsigned_abs());
    }
    greatest
}

/// A coefficient, and how many summands stand up to it.
#[derive(Clone, Copy)]
struct Met {
    coefficient: i128,
    behind: usize,
}

/// So much more of a time point, below which there are so many summands.
fn meeting(items: &[Summand], before: usize, point: u32, more: i128) -> Met
    requires rest { IsRest items.now }
    requires len { before ≤ length items.now }
    requires below { AllUpTo point (take before items.now) }
    requires from { AllFrom point (drop before items.now) }
    requires low { neg_ℤ (pos (2 ^ 100)) ≤ℤ more }
    requires high { more ≤ℤ pos (2 ^ 100) }
    ensures len { result.behind ≤ length items.now }
    ensures coefficient { result.coefficient ≡ coefficient_at point items.now +ℤ more }
    ensures with { with_summand (record { point = point; coefficient = more }) items.now
        ≡ take before items.now ++ put_before (record { point = point; coefficient = result.coefficient }) (drop result.behind items.now) }
{
    if before < items.len() && items[before].point == point {
        return Met {
            coefficient: more + i128::from(items[before].coefficient),
            behind: before + 1,
        };
    }
    Met {
        coefficient: more,
        behind: before,
    }
}

/// The summands with so much more of a time point, in memory of their own.
pub(crate) fn leaf_with(
    alloc: Global,
    items: &[Summand],
    point: u32,
    more: i128,
) -> Result<Vec<Summand>, LinearError>
    requires rest { IsRest items.now }
    requires low { neg_ℤ (pos (2 ^ 100)) ≤ℤ more }
    requires high { more ≤ℤ pos (2 ^ 100) }
    ensures ok { IfOk result (λ v. v.items ≡ with_summand (record { point = point; coefficient = more }) items.now) }
    ensures limited { IfOk result (λ _. is_within coefficient_limit (coefficient_at point items.now +ℤ more) ≡ true) }
    ensures refused { IfErr result (λ why. Refuses why (is_within coefficient_limit (coefficient_at point items.now +ℤ more))) }
{
    let before = count_below(items, point);
    let total = meeting(items, before, point, more);
    let coefficient = match within(COEFFICIENT_LIMIT, total.coefficient) {
        Some(coefficient) => coefficient,
        None => return Err(LinearError::BoundTooLarge),
    };
    let mut made = Vec::from_slice(alloc, &items[..before])?;
    if coefficient != 0 {
        made.push(Summand { point, coefficient })?;
    }
    made.extend_from_slice(&items[total.behind..])?;
    Ok(made)
}
