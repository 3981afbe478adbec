ghost use Rattle.std.specs.Prelude.{◌≡◌, ◌<◌, length, All, IfOk};
ghost use Rattle.stn_core.specs.Literal.{IsOver};
ghost use Rattle.prune_rules.specs.Fates.{IsFate, AreFates, IsFirstImplied};

use crate::fate::{Fate, Fates, Subsumed};
use std::alloc::{AllocError, Global};
use stn_core::{Added, Clause, Literal, Net, negate};

/// The fate of one literal: it is added and taken back.
fn fate_of<N: Net>(net: &mut N, literal: Literal) -> Result<Fate, AllocError>
    requires { IsOver (N.points_of net.old) literal }
    ensures fate { IfOk result (IsFate (N.points_of net.old) (N.literals_of net.old) literal) }
    ensures kept { N.literals_of net.new ≡ N.literals_of net.old }
    ensures points { N.points_of net.new ≡ N.points_of net.old }
{
    let mark = net.mark();
    match net.add(literal)? {
        Added::Yes => {
            net.retract(mark);
            Ok(Fate::Live)
        }
        Added::Cycle(cycle) => Ok(Fate::Dead(cycle)),
    }
}

/// For each literal of the clause, whether the net is consistent with it, or a negative cycle that it closes.
///
/// The literals' points are among the net's, and their bounds are from `-BOUND_LIMIT - 1` to `BOUND_LIMIT`. Each literal is added to the
/// net once and taken back, so the net's list is as before, also after an error, and its count of adds moves on. The one
/// error is want of memory.
pub fn forward_check<N: Net>(
    alloc: Global,
    net: &mut N,
    clause: &Clause,
) -> Result<Fates, AllocError>
    requires { All (IsOver (N.points_of net.old)) clause.now }
    ensures fates { IfOk result (AreFates (N.points_of net.old) (N.literals_of net.old) clause.now) }
    ensures kept { N.literals_of net.new ≡ N.literals_of net.old }
    ensures points { N.points_of net.new ≡ N.points_of net.old }
{
    let mut fates = Vec::new(alloc);
    'literals: for literal in clause.as_slice() {
        fates.push(fate_of(net, *literal)?)?;
    }
    Ok(Fates::new(fates))
}

/// The first literal of the clause that the net implies, if it implies one. Such a clause needs no choice.
///
/// The literals' points are among the net's, and their bounds are from `-BOUND_LIMIT - 1` to `BOUND_LIMIT`. The negation of each literal,
/// up to that one, is added to the net once and taken back, so the net's list is as before, also after an error, and its
/// count of adds moves on. The one error is want of memory.
pub fn is_subsumed<N: Net>(net: &mut N, clause: &Clause) -> Result<Option<Subsumed>, AllocError>
    requires { All (IsOver (N.points_of net.old)) clause.now }
    ensures first { IfOk result (IsFirstImplied (N.points_of net.old) (N.literals_of net.old) clause.now) }
    ensures kept { N.literals_of net.new ≡ N.literals_of net.old }
    ensures points { N.points_of net.new ≡ N.points_of net.old }
{
    let literals = clause.as_slice();
    'literals: for place in 0..literals.len() {
        if let Fate::Dead(cycle) = fate_of(net, negate(literals[place]))? {
            return Ok(Some(Subsumed { place, cycle }));
        }
    }
    Ok(None)
}
