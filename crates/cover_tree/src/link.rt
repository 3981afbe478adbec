//! From a number of the table to its parent.
use stn_core::Literal;

/// How a number of a cover hangs on its parent: by the literal of its branch.
#[derive(Clone, Copy)]
pub struct Link {
    pub parent: usize,
    pub literal: Literal,
}
