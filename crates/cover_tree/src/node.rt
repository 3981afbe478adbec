//! What stands in a cover.
use stn_core::Literal;

/// What stands at a number of a cover.
#[derive(Clone, Copy, Debug, PartialEq, Eq)]
pub enum Node {
    /// A leaf that nobody works on.
    Free,
    /// A leaf that the seat with this number works on.
    Held(u32),
    /// A leaf on whose cube the lemma with this number has no literal that may hold.
    Shut(usize),
    /// An inner node: its literal, and the number of the branch for it; the branch for its negation has the
    /// next one.
    Split(Literal, usize),
}
