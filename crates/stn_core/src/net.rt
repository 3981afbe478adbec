ghost use Rattle.std.specs.Prelude.{◌≡◌, ℕ, ◌≤◌, ◌<◌, ◌+◌, List, length, take, min, IfOk, OnErr, OnOk};
ghost use Rattle.stn_core.specs.declared.literal.Literal.{Literal as Bound};
ghost use Rattle.stn_core.specs.Answer.{IsBest};
ghost use Rattle.stn_core.specs.Limits.{points_limit};
ghost use Rattle.stn_core.specs.Literal.{IsOver};
ghost use Rattle.stn_core.specs.Net.{IsAdded};

use crate::limits::Value;
use crate::literal::{Literal, Literals};
use std::alloc::AllocError;

/// How long a net's list of literals was. It is a mark of each net whose list is at least as long.
#[derive(Clone, Copy, Debug, PartialEq, Eq)]
pub struct Mark {
    pub length: usize,
}

/// Whether a net took a literal.
#[derive(Drop)]
pub enum Added {
    /// The literal is the last of the net's list now.
    Yes,
    /// The literal would close this negative cycle with literals of the net.
    Cycle(Literals),
}

/// A Simple Temporal Network that is changed at its end: a count of time points, a consistent list of literals over
/// them, and their greatest schedule. Which algorithm keeps the schedule is the implementation's choice.
///
/// The points are 1 to `POINTS_LIMIT`. The one error is want of memory.
pub trait Net {
    /// The count of time points, which no call changes.
    ghost points_of: { Self → ℕ };

    /// The literals, in the order in which they were added.
    ghost literals_of: { Self → List Bound };

    /// How many calls of `add` were answered.
    ghost adds_of: { Self → ℕ };

    /// The count of time points.
    fn points(&self) -> u32
        ensures points { result ≡ points_of self.now }
        ensures some { 1 ≤ points_of self.now }
        ensures few { points_of self.now ≤ points_limit };

    /// The length of the list as it is now, to come back to by `retract`.
    fn mark(&self) -> Mark
        ensures { result.length ≡ length (literals_of self.now) };

    /// The literal goes to the list's end, unless it would close a negative cycle. Its points are among the net's, and
    /// its bound is from `-BOUND_LIMIT - 1` to `BOUND_LIMIT`.
    fn add(&mut self, literal: Literal) -> Result<Added, AllocError>
        requires { IsOver (points_of self.old) literal }
        ensures points { points_of self.new ≡ points_of self.old }
        ensures ok { IfOk result
            (IsAdded (points_of self.old) (literals_of self.old) literal (literals_of self.new)) }
        ensures err { OnErr result (literals_of self.new ≡ literals_of self.old) }
        ensures err_adds { OnErr result (adds_of self.new ≡ adds_of self.old) }
        ensures counts { OnOk result (adds_of self.new ≡ min (adds_of self.old + 1) u64.MAX) };

    /// The list is cut to the length that it had at the mark. It takes no memory.
    fn retract(&mut self, mark: Mark)
        requires { mark.length ≤ length (literals_of self.old) }
        ensures points { points_of self.new ≡ points_of self.old }
        ensures literals { literals_of self.new ≡ take mark.length (literals_of self.old) }
        ensures adds { adds_of self.new ≡ adds_of self.old };

    /// The greatest schedule of the list: one value for each point, above `-VALUE_LIMIT` and at most 0.
    fn schedule(&self) -> &[Value]
        ensures { IsBest (points_of self.now) (literals_of self.now) result.now };

    /// How many calls of `add` were answered, by Yes or by Cycle. It stands at 2^64 - 1 where it would go past that.
    fn adds(&self) -> u64
        ensures { result ≡ adds_of self.now };
}
