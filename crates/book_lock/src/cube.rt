//! What a seat takes.
use stn_core::Literals;

/// The cube that a seat holds.
#[derive(Drop)]
pub struct Cube {
    pub id: usize,
    pub literals: Literals,
}

/// What a `take` answers. The cube is in the seat.
#[derive(Clone, Copy, Debug, PartialEq, Eq)]
pub enum Dealt {
    Cube,
    Idle,
    Done,
}
