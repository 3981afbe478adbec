use stn_core::Literals;

/// What a `take` answers.
#[derive(Drop)]
pub enum Answer {
    /// The cube with this number, which the seat holds now, and its literals.
    Cube(usize, Literals),
    /// No cube is free now, and some are held.
    Idle,
    /// Nothing is left to do.
    Done,
}
