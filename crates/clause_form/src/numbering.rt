//! The fresh points.
ghost use Rattle.std.specs.Prelude.{◌≡◌, ◌+◌, ◌≤◌, ℕ, List, length, IfOk};
ghost use Rattle.stn_core.specs.Limits.{points_limit};
ghost use Rattle.clause_form.specs.code.Marking.{AreMarks, IsNumbering};
ghost use Rattle.clause_form.specs.ClauseForm.{fresh_point};

use std::alloc::{AllocError, Global};

/// The points of a problem.
pub struct Numbering {
    /// For each node the point that is next: an inner node's fresh point.
    pub fresh: Vec<u32>,
    /// How many there are, the fresh ones among them.
    pub points: u32,
}

impl Drop for Numbering {
    fn drop(self) {
        let Numbering { fresh, points: _ } = self;
        drop(fresh);
    }
}

/// Fresh points follow so many points, by ascending node numbers.
pub fn number_points(alloc: Global, points: u32, inner: &[bool]) -> Result<Numbering, AllocError>
    requires few { points + length inner.now ≤ points_limit }
    ensures points { IfOk result (λ numbering. (numbers : List ℕ)
        → AreMarks (length inner.now) inner.now numbers
        → numbering.points ≡ fresh_point points numbers (length inner.now)) }
    ensures count { IfOk result (λ numbering. length numbering.fresh.items ≡ length inner.now) }
    ensures few { IfOk result (λ numbering. numbering.points ≤ points + length inner.now) }
    ensures fresh { IfOk result (λ numbering. (numbers : List ℕ)
        → AreMarks (length inner.now) inner.now numbers
        → IsNumbering points numbers (length inner.now) numbering.fresh.items) }
{
    let mut fresh = Vec::with_capacity(alloc, inner.len())?;
    let mut next = points;
    for is_inner in inner {
        fresh.push(next)?;
        if *is_inner {
            next += 1;
        }
    }
    Ok(Numbering {
        fresh,
        points: next,
    })
}
