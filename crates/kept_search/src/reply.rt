use stn_core::Schedule;

/// What is known of a cube of literals.
#[derive(Drop)]
pub enum Reply {
    /// The problem holds on this schedule, and so does each literal of the cube.
    Holds(Schedule),
    /// The lemma with this number, from 0, has only negations of the cube's literals.
    Denied(usize),
    /// Nothing yet.
    Open,
}
