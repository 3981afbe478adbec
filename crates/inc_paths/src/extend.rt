ghost use Rattle.std.specs.Prelude.{◌≡◌, ◌≤◌, [], ◌∷◌, length, All, IfOk, IfSome, IfNone};
ghost use Rattle.stn_core.specs.Answer.{IsBest, IsCycleAmong};
ghost use Rattle.stn_core.specs.Limits.{points_limit};
ghost use Rattle.stn_core.specs.Literal.{IsOver};
ghost use Rattle.inc_paths.specs.code.Work.{IsExtending, IsKept};

use crate::arcs::Arcs;
use crate::labels::Labels;
use crate::relax::settle;
use std::alloc::{AllocError, Global};
use stn_core::{Literal, Literals};

fn single(alloc: Global, literal: Literal) -> Result<Literals, AllocError>
    ensures { IfOk result (λ literals. literals ≡ literal ∷ []) }
{
    let mut literals = Vec::new(alloc);
    literals.push(literal)?;
    Ok(Literals::new(literals))
}

/// From the greatest schedule of all literals but the last, which is new, to that of all of them; or a negative cycle, if
/// there is none. In every case the trail leads back to the schedule before.
pub fn extend(
    arcs: &Arcs,
    labels: &mut Labels,
    new: Literal,
) -> Result<Option<Literals>, AllocError>
    requires few { arcs.now.points ≤ points_limit }
    requires over { All (IsOver arcs.now.points) arcs.now.literals }
    requires extending { IsExtending arcs.now.points arcs.now.literals new labels.old.values }
    ensures kept { IsKept (length labels.old.trail) labels.old.values labels.old.trail
        labels.new.trail labels.new.values }
    ensures none { IfOk result (λ cycle.
        IfNone cycle (IsBest arcs.now.points arcs.now.literals labels.new.values)) }
    ensures some { IfOk result (λ cycle. IfSome cycle (IsCycleAmong arcs.now.literals)) }
{
    labels.begin();
    if !labels.fails(new) {
        return Ok(None);
    }
    if new.x == new.y {
        return Ok(Some(single(arcs.alloc(), new)?));
    }
    labels.lower(new, 0)?;
    let cycle = settle(arcs, labels, new)?;
    Ok(cycle)
}
