//! Literals of which each begins where the one before it ends, kept as their points and their bounds.
ghost use Rattle.std.specs.Prelude.{◌≡◌, ◌++◌, ◌∷◌, [], IsTrue, OnOk, take, vec_len};
ghost use Rattle.refute_tree.specs.code.Paths.{IsNarrow, IsShortPath, points_of, bounds_of};

use std::alloc::AllocError;
use stn_core::Literal;

/// Whether the literal's points are below 2^16, and its bound is of 32 bits.
pub fn is_narrow(literal: Literal) -> bool
    ensures { IsTrue result → IsNarrow literal }
{
    let is_bound = -(1 << 31) <= literal.c && literal.c < 1 << 31;
    literal.x < 1 << 16 && literal.y < 1 << 16 && is_bound
}

/// Whether the literals are a path of some narrow ones.
pub fn is_short_path(literals: &[Literal]) -> bool
    ensures { IsTrue result → IsShortPath literals.now }
{
    if literals.is_empty() || literals.len() >= 1 << 32 {
        return false;
    }
    let mut point = literals[0].x;
    for literal in literals {
        if literal.x != point || !is_narrow(*literal) {
            return false;
        }
        point = literal.y;
    }
    true
}

/// Appends the points of a path.
pub fn push_points(literals: &[Literal], points: &mut Vec<u16>) -> Result<(), AllocError>
    requires { IsShortPath literals.now }
    ensures ok { OnOk result (points.new.items ≡ points.old.items ++ points_of literals.now) }
    ensures front { take (vec_len points.old) points.new.items ≡ points.old.items }
{
    points.push(literals[0].x as u16)?;
    for literal in literals {
        points.push(literal.y as u16)?;
    }
    Ok(())
}

/// Appends the bounds of a path.
pub fn push_bounds(literals: &[Literal], bounds: &mut Vec<i32>) -> Result<(), AllocError>
    requires { IsShortPath literals.now }
    ensures ok { OnOk result (bounds.new.items ≡ bounds.old.items ++ bounds_of literals.now) }
    ensures front { take (vec_len bounds.old) bounds.new.items ≡ bounds.old.items }
{
    for literal in literals {
        bounds.push(literal.c as i32)?;
    }
    Ok(())
}
