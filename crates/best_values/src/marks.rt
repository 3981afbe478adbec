//! A set of points as marks, one for each point.
ghost use Rattle.std.specs.Prelude.{◌<◌, IfOk, All};
ghost use Rattle.best_values.specs.FreeSets.{AreMarks};

use std::alloc::{AllocError, Global};

/// So many marks, of which those of the set's points are true.
pub(crate) fn marks_of(alloc: Global, points: u32, set: &[u32]) -> Result<Vec<bool>, AllocError>
    requires { All (λ point. point < points) set.now }
    ensures { IfOk result (λ marks. AreMarks points set.now marks.items) }
{
    let mut marks = vec![in alloc; false; points as usize]?;
    for point in set {
        marks[*point as usize] = true;
    }
    Ok(marks)
}
