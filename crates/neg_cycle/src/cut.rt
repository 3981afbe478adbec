ghost use Rattle.std.specs.Prelude.{◌≡◌, ◌<◌, ◌≤◌, [], ◌∷◌, ◌++◌, length, drop, slice_index, All, Contains, IfOk, OnOk, IfSome, IfNone};
ghost use Rattle.stn_core.specs.Cycle.{IsNegativeCycle, weight_of};
ghost use Rattle.neg_cycle.specs.Simple.{IsSimple, LacksPoint};

use indexmap::IndexSet;
use std::alloc::AllocError;
use stn_core::{Literal, Literals};

/// The sum of the bounds from a place on.
fn sum_from(literals: &[Literal], place: usize) -> i128
    requires { place ≤ length literals.now }
    ensures { result ≡ weight_of (drop place literals.now) }
{
    let mut sum = 0i128;
    'bounds: for i in place..literals.len() {
        sum += i128::from(literals[i].c);
    }
    sum
}

/// The place of a point.
fn place_of(points: &IndexSet<u32>, point: u32) -> Option<usize>
    ensures some { IfSome result (λ k. (k < length points.now.keys) × (slice_index points.now.keys k ≡ point)) }
    ensures none { IfNone result (LacksPoint points.now.keys point) }
{
    points.get_index_of(&point)
}

/// One more point, at the end.
fn append(points: &mut IndexSet<u32>, point: u32) -> Result<(), AllocError>
    requires { LacksPoint points.old.keys point }
    ensures { OnOk result (points.new.keys ≡ points.old.keys ++ point ∷ []) }
{
    points.insert(point)?;
    Ok(())
}

/// A simple negative cycle, on which no time point comes twice, out of the literals of a closed negative walk: chained as
/// a negative cycle is, with points that may come again.
///
/// It goes along the walk and keeps the path since the start. Where the path comes back to a point of its own, the part
/// since then is a simple cycle: a negative one is the answer, and another is cut out, which leaves a walk with no
/// greater a sum. So it takes time and memory in proportion to the walk. The one error is want of memory.
pub fn cut_walk(walk: Literals) -> Result<Literals, AllocError>
    requires { IsNegativeCycle walk }
    ensures negative { IfOk result (λ cycle. IsNegativeCycle cycle) }
    ensures simple { IfOk result (λ cycle. IsSimple cycle) }
    ensures given { IfOk result (λ cycle. All (Contains walk) cycle) }
{
    let literals = walk.into_vec();
    let alloc = *literals.allocator();
    // the path, and the first points of its literals
    let mut path = Vec::new(alloc);
    let mut points = IndexSet::new(alloc);
    'walk: for literal in &literals {
        path.push(*literal)?;
        append(&mut points, literal.x)?;
        if let Some(place) = place_of(&points, literal.y) {
            if sum_from(&path, place) < 0 {
                return Ok(Literals::new(path.split_off(place)?));
            }
            path.truncate(place);
            points.truncate(place);
        }
    }
    unreachable!()
}
