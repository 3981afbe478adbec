//! The early end by a model.
ghost use Rattle.std.specs.Prelude.{◌≡◌, ◌≤◌, length, take, min, IfOk, IfSome, OnOk};
ghost use Rattle.stn_core.specs.Limits.{adds_limit};
ghost use Rattle.stn_core.specs.Solution.{IsSolution};

use crate::clauses::false_clause;
use conflict_analysis::is_over;
use search_guide::{Guide, LiteralNumber};
use std::alloc::{AllocError, Global};
use stn_core::{Literal, Net, Problem, Schedule};

/// The net's schedule, where all clauses hold on it.
pub fn model_of<N: Net>(
    alloc: Global,
    problem: &Problem,
    net: &N,
) -> Result<Option<Schedule>, AllocError>
    requires points { N.points_of net.now ≡ problem.now.points }
    ensures model { IfOk result (λ found. IfSome found (IsSolution problem.now)) }
{
    let values = net.schedule();
    match false_clause(problem.clauses.as_slice(), values, 0) {
        Some(_) => Ok(None),
        None => {
            let schedule = Schedule::new(Vec::from_slice(alloc, values)?);
            Ok(Some(schedule))
        }
    }
}

// The literal with the number, where it is pure and true.
fn pure_literal<N: Net>(guide: &Guide, net: &N, number: usize) -> Option<Literal> {
    let Ok(number) = LiteralNumber::try_from(number) else {
        return None;
    };
    if guide.is_pure(number) && guide.side(number, net.schedule()) {
        return guide.literal(number);
    }
    None
}

// The pure literals that are true go into the net, those that are consistent with it.
fn add_pure<N: Net>(guide: &Guide, net: &mut N) -> Result<(), AllocError>
    ensures points { N.points_of net.new ≡ N.points_of net.old }
    ensures literals { take (length (N.literals_of net.old)) (N.literals_of net.new) ≡ N.literals_of net.old }
    ensures counts { OnOk result (min (N.adds_of net.old) adds_limit ≤ N.adds_of net.new) }
{
    let points = net.points();
    'numbers: for number in 0..guide.literals() {
        if let Some(literal) = pure_literal(guide, net, number) {
            if is_over(literal, points) {
                net.add(literal)?;
            }
        }
    }
    Ok(())
}

/// The schedule on which all clauses hold, if the net's is one when it has the pure literals that are true
/// too.
pub fn try_model<N: Net>(
    alloc: Global,
    problem: &Problem,
    guide: &Guide,
    net: &mut N,
) -> Result<Option<Schedule>, AllocError>
    requires points { N.points_of net.old ≡ problem.now.points }
    ensures points { N.points_of net.new ≡ N.points_of net.old }
    ensures literals { OnOk result (N.literals_of net.new ≡ N.literals_of net.old) }
    ensures model { IfOk result (λ found. IfSome found (IsSolution problem.now)) }
    ensures counts { OnOk result (min (N.adds_of net.old) adds_limit ≤ N.adds_of net.new) }
{
    let mark = net.mark();
    add_pure(guide, net)?;
    let found = model_of(alloc, problem, net)?;
    net.retract(mark);
    Ok(found)
}
