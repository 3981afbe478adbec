ghost use Rattle.std.specs.Prelude.{◌≡◌, ◌<◌, ◌≤◌, length, IfOk, IfSome, IsSome};
ghost use Rattle.stn_core.specs.Limits.{points_limit};
ghost use Rattle.stn_core.specs.code.Rounds.{round_of, AreFallen, IsCycleOf};

use crate::label::Label;
use crate::literal::Literals;
use std::alloc::{AllocError, Global};

/// Goes from a point to the one that its last literal leads to, and on, until a point comes up again: the walk
/// between is a negative cycle. There may be none, where a point comes up that no round has lowered.
pub fn cycle_from(
    alloc: Global,
    labels: &[Label],
    start: u32,
) -> Result<Option<Literals>, AllocError>
    requires fallen { AreFallen labels.now }
    requires few { length labels.now ≤ points_limit }
    requires start { start < length labels.now }
    ensures cycle { IfOk result (λ found. IfSome found (λ cycle. IsCycleOf labels.now cycle)) }
    ensures late { IfOk result (λ found. length labels.now ≤ round_of labels.now start → IsSome found) }
{
    // 1 more than the place on the walk of the literal that leads from the point, or 0
    let mut places = vec![in alloc; 0u32; labels.len()]?;
    let mut walk = Vec::new(alloc);
    let mut point = start;
    'steps: while places[point as usize] == 0 {
        let label = labels[point as usize];
        if label.round == 0 {
            return Ok(None);
        }
        walk.push(label.by)?;
        places[point as usize] = walk.len() as u32;
        point = label.by.y;
    }
    let place = places[point as usize] - 1;
    Ok(Some(Literals::new(walk.split_off(place as usize)?)))
}
