//! Runs of equal time points in sorted summands.
ghost use Rattle.std.specs.Prelude.{◌≡◌, ◌<◌, ◌≤◌, ◌++◌, ◌+ℤ◌, length, drop, option_map, true, OnOk, IfOk, IfErr};
ghost use Rattle.std.specs.List.{AllByRecursion};
ghost use Rattle.idl_linear.specs.Linear.{collected, put_before, with_summand, is_within, are_limited};
ghost use Rattle.idl_linear.specs.Differences.{ends_of};
ghost use Rattle.idl_linear.specs.Forms.{IsSummand};
ghost use Rattle.idl_linear.specs.Limits.{coefficient_limit};
ghost use Rattle.idl_linear.specs.code.Steps.{IsRest, RiseFrom, Refuses};
ghost use Rattle.idl_linear.specs.code.Trees.{coefficient_at, signed};
ghost use Rattle.idl_linear.specs.code.FirstRuns.{IsFirstRun, IsSmallRun, signed_run};

use crate::difference::Ends;
use crate::error::LinearError;
use crate::limits::COEFFICIENT_LIMIT;
use crate::summand::Summand;
use crate::tree::Tree;
use crate::within::within;
use std::alloc::Global;
use std::sync::Arc;

/// The first so many summands, which have one time point, and the sum of their coefficients.
#[derive(Clone, Copy)]
struct Run {
    len: usize,
    point: u32,
    sum: i128,
}

fn first_run(summands: &[Summand]) -> Run
    requires some { 0 < length summands.now }
    requires each { AllByRecursion IsSummand summands.now }
    requires rises { RiseFrom 1 summands.now }
    ensures some { 0 < result.len }
    ensures len { result.len ≤ length summands.now }
    ensures run { IsFirstRun summands.now result }
    ensures sum { collected summands.now
        ≡ put_before (record { point = result.point; coefficient = result.sum })
        (collected (drop result.len summands.now)) }
{
    let point = summands[0].point;
    let mut len = 0;
    let mut sum = 0i128;
    while len < summands.len() && summands[len].point == point {
        sum += i128::from(summands[len].coefficient);
        len += 1;
    }
    Run { len, point, sum }
}

/// Collects summands that are sorted by time points, in place. Where a coefficient is beyond its limit, what is left of
/// them says nothing.
pub(crate) fn combine(summands: &mut Vec<Summand>) -> Result<(), LinearError>
    requires each { AllByRecursion IsSummand summands.old.items }
    requires rises { RiseFrom 1 summands.old.items }
    ensures collected { OnOk result (summands.new.items ≡ collected summands.old.items) }
    ensures limited { OnOk result (are_limited (collected summands.old.items) ≡ true) }
    ensures refused { IfErr result (λ why. Refuses why (are_limited (collected summands.old.items))) }
{
    let mut kept = 0;
    let mut start = 0;
    while start < summands.len() {
        let run = first_run(&summands[start..]);
        let coefficient = match within(COEFFICIENT_LIMIT, run.sum) {
            Some(coefficient) => coefficient,
            None => return Err(LinearError::BoundTooLarge),
        };
        if coefficient != 0 {
            summands[kept] = Summand {
                point: run.point,
                coefficient,
            };
            kept += 1;
        }
        start += run.len;
    }
    summands.truncate(kept);
    Ok(())
}

/// The ends of a difference in summands that are sorted by time points, where they are one.
pub(crate) fn ends_of_runs(summands: &[Summand]) -> Option<Ends>
    requires each { AllByRecursion IsSummand summands.now }
    requires rises { RiseFrom 1 summands.now }
    ensures { option_map (λ e. (e.x, e.y)) result ≡ ends_of (collected summands.now) }
{
    let mut ends = Ends { x: 0, y: 0 };
    let mut start = 0;
    while start < summands.len() {
        let run = first_run(&summands[start..]);
        ends = ends.with_any(run.point, run.sum)?;
        start += run.len;
    }
    Some(ends)
}

/// The tree with a run, or with its negative.
fn put_run(alloc: Global, tree: &Tree, run: Run, is_negated: bool) -> Result<Arc<Tree>, LinearError>
    requires rest { IsRest tree.now.summands }
    requires run { IsSmallRun run }
    ensures ok { IfOk result (λ t. t.value.summands ≡ with_summand (signed_run is_negated run) tree.now.summands) }
    ensures limited { IfOk result (λ _. is_within coefficient_limit
        (coefficient_at run.point tree.now.summands +ℤ (signed_run is_negated run).coefficient) ≡ true) }
    ensures refused { IfErr result (λ why. Refuses why (is_within coefficient_limit
        (coefficient_at run.point tree.now.summands +ℤ (signed_run is_negated run).coefficient))) }
{
    let more = if is_negated { -run.sum } else { run.sum };
    let tree = tree.with(alloc, run.point, more)?;
    let shared = Arc::new(alloc, tree)?;
    Ok(shared)
}

/// The tree with sorted summands, or with their negatives. They go in by runs.
pub(crate) fn put_runs(
    alloc: Global,
    tree: Arc<Tree>,
    summands: &[Summand],
    is_negated: bool,
) -> Result<Arc<Tree>, LinearError>
    requires each { AllByRecursion IsSummand summands.now }
    requires rises { RiseFrom 1 summands.now }
    requires rest { IsRest tree.value.summands }
    ensures ok { IfOk result (λ t. t.value.summands ≡ collected (signed is_negated summands.now ++ tree.value.summands)) }
    ensures rest { IfOk result (λ t. IsRest t.value.summands) }
    ensures refused { IfErr result (λ why. Refuses why (are_limited (collected (signed is_negated summands.now ++ tree.value.summands)))) }
{
    let mut tree = tree;
    let mut start = 0;
    while start < summands.len() {
        let run = first_run(&summands[start..]);
        tree = put_run(alloc, &tree, run, is_negated)?;
        start += run.len;
    }
    Ok(tree)
}
