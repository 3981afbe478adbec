ghost use Rattle.std.specs.Prelude.{◌≡◌, ◌+◌, ◌<◌, ◌↔◌, length, slice_get, Some, IsTrue};
ghost use Rattle.stn_core.specs.Cycle.{IsNegativeCycle};
ghost use Rattle.refute_tree.specs.code.Paths.{path_of};
ghost use Rattle.refute_tree.specs.code.Views.{literals_of};

use crate::path::Path;
use stn_core::{Literal, is_cycle};

/// The literals of a cycle as they are read: as they are, or by their points and bounds.
#[derive(Clone, Copy)]
pub enum Cycle<'a> {
    Literals(&'a [Literal]),
    Path(Path<'a>),
}

impl<'a> Cycle<'a> {
    /// How many literals there are.
    pub fn len(self) -> usize
        ensures { result ≡ length (literals_of self.entry) }
    {
        match self {
            Cycle::Literals(literals) => literals.len(),
            Cycle::Path(path) => path.bounds.len(),
        }
    }

    /// The literal at this place.
    pub fn at(self, place: usize) -> Literal
        requires { place < length (literals_of self) }
        ensures { slice_get (literals_of self.entry) place ≡ Some result }
    {
        match self {
            Cycle::Literals(literals) => literals[place],
            Cycle::Path(path) => literal_of(path.points, path.bounds, place),
        }
    }

    /// Whether it is a negative cycle.
    pub fn is_negative(self) -> bool
        ensures { IsTrue result ↔ IsNegativeCycle (literals_of self.entry) }
    {
        match self {
            Cycle::Literals(literals) => is_cycle(literals),
            Cycle::Path(path) => is_negative_path(path.points, path.bounds),
        }
    }
}

// The literal of a path at this place.
fn literal_of(points: &[u16], bounds: &[i32], place: usize) -> Literal
    requires shape { length points.now ≡ length bounds.now + 1 }
    requires place { place < length bounds.now }
    ensures { slice_get (path_of points.now bounds.now) place ≡ Some result }
{
    Literal {
        x: u32::from(points[place]),
        y: u32::from(points[place + 1]),
        c: i64::from(bounds[place]),
    }
}

// Whether the path is a negative cycle.
fn is_negative_path(points: &[u16], bounds: &[i32]) -> bool
    requires { length points.now ≡ length bounds.now + 1 }
    ensures { IsTrue result ↔ IsNegativeCycle (path_of points.now bounds.now) }
{
    if bounds.is_empty() {
        return false;
    }
    let mut sum = 0i128;
    for bound in bounds {
        sum += i128::from(*bound);
    }
    points[0] == points[bounds.len()] && sum < 0
}
