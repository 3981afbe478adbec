ghost use Rattle.std.specs.Prelude.{◌≡◌, ◌≤◌, ◌<◌, ℕ, List, All, length, min, true, IfOk, OnErr};
ghost use Rattle.stn_core.specs.declared.literal.Literal.{Literal as Bound};
ghost use Rattle.stn_core.specs.Literal.{IsOver};
ghost use Rattle.net_batch.specs.Batches.{IsBatchAdded, IsBatchTried, IsLonger, IsPart, IsPlaceTried};
ghost use Rattle.net_batch.specs.Batches.{is_marked, HasRisen, IsMarkedRisen, IsTriedRisen};
ghost use Rattle.stn_core.specs.Limits.{adds_limit};

use crate::order::first_places;
use std::alloc::{AllocError, Global};
use stn_core::{Added, Greatest, Literal, Literals, Net, greatest};

// The literal at a place, if there is one, goes into the net, if it isn't marked as one that is in it.
fn add_at<N: Net>(
    net: &mut N,
    literals: &[Literal],
    marks: &mut [bool],
    place: usize,
) -> Result<Option<Literals>, AllocError>
    requires over { All (IsOver (N.points_of net.old)) literals.now }
    requires count { length marks.old ≡ length literals.now }
    ensures points { N.points_of net.new ≡ N.points_of net.old }
    ensures counts { min (N.adds_of net.old) adds_limit ≤ N.adds_of net.new }
    ensures part { (old : List Bound) → IsPart old literals.now marks.old (N.literals_of net.old)
        → IsPart old literals.now marks.new (N.literals_of net.new) }
    ensures tried { (old : List Bound) → IsPart old literals.now marks.old (N.literals_of net.old)
        → IfOk result (IsPlaceTried old literals.now marks.new place) }
    ensures risen { (old : List Bound) (before : ℕ)
        → IsMarkedRisen old literals.now before marks.old (N.literals_of net.old) (N.adds_of net.old)
        → IfOk result (IsTriedRisen old literals.now before marks.new (N.literals_of net.new) (N.adds_of net.new)) }
    ensures marked { (j : ℕ) → is_marked marks.old j ≡ true → is_marked marks.new j ≡ true }
{
    if place >= literals.len() || marks[place] {
        return Ok(None);
    }
    match net.add(literals[place])? {
        Added::Yes => {
            marks[place] = true;
            Ok(None)
        }
        Added::Cycle(cycle) => Ok(Some(cycle)),
    }
}

// All literals, first those at the places that are named.
fn add_in_order<N: Net>(
    alloc: Global,
    net: &mut N,
    literals: &[Literal],
    places: &[usize],
) -> Result<Option<Literals>, AllocError>
    requires over { All (IsOver (N.points_of net.old)) literals.now }
    ensures points { N.points_of net.new ≡ N.points_of net.old }
    ensures counts { min (N.adds_of net.old) adds_limit ≤ N.adds_of net.new }
    ensures longer { IsLonger (N.literals_of net.old) literals.now (N.literals_of net.new) }
    ensures tried { IfOk result (IsBatchTried (N.literals_of net.old) literals.now (N.literals_of net.new)) }
    ensures risen { IfOk result (HasRisen (N.literals_of net.old) literals.now (N.adds_of net.old)
        (N.literals_of net.new) (N.adds_of net.new)) }
{
    let mut marks = vec![in alloc; false; literals.len()]?;
    'first: for place in places {
        if let Some(cycle) = add_at(net, literals, &mut marks, *place)? {
            return Ok(Some(cycle));
        }
    }
    'others: for place in 0..literals.len() {
        if let Some(cycle) = add_at(net, literals, &mut marks, place)? {
            return Ok(Some(cycle));
        }
    }
    Ok(None)
}

/// All of the literals go into the net, each once, behind those that it has, in an order of its own; or none does, since some of
/// them and of the net's are the negative cycle that it answers. Their points are among the net's, and their bounds from
/// `-BOUND_LIMIT - 1` to `BOUND_LIMIT`. The one error is want of memory, and leaves the net's literals as they were.
///
/// What it does before the first add is `greatest` over the literals. Where the net had none, each point is lowered once.
pub fn add_all<N: Net>(
    alloc: Global,
    net: &mut N,
    literals: &[Literal],
) -> Result<Option<Literals>, AllocError>
    requires over { All (IsOver (N.points_of net.old)) literals.now }
    ensures points { N.points_of net.new ≡ N.points_of net.old }
    ensures counts { min (N.adds_of net.old) adds_limit ≤ N.adds_of net.new }
    ensures added { IfOk result (IsBatchAdded (N.literals_of net.old) literals.now (N.literals_of net.new)) }
    ensures risen { IfOk result (HasRisen (N.literals_of net.old) literals.now (N.adds_of net.old)
        (N.literals_of net.new) (N.adds_of net.new)) }
    ensures err { OnErr result (N.literals_of net.new ≡ N.literals_of net.old) }
{
    let schedule = match greatest(alloc, net.points(), literals)? {
        Greatest::Negative(cycle) => return Ok(Some(cycle)),
        Greatest::Greatest(schedule) => schedule,
    };
    let places = first_places(alloc, schedule.as_slice(), literals)?;
    let mark = net.mark();
    match add_in_order(alloc, net, literals, &places) {
        Ok(None) => Ok(None),
        Ok(Some(cycle)) => {
            net.retract(mark);
            Ok(Some(cycle))
        }
        Err(error) => {
            net.retract(mark);
            Err(error)
        }
    }
}
