use refute_tree::Batch;
use stn_core::{Literal, Schedule};

/// The answer of a slice, with its lemmas.
#[derive(Drop)]
pub enum Slice {
    /// All clauses hold on the schedule.
    Model(Schedule, Batch),
    /// The batch's lemma with this number, from 0, has only negations of the cube's literals.
    Refuted(Batch, usize),
    /// The budget is spent. The cube with the literal, and the cube with its negation, are each consistent.
    Split(Literal, Batch),
}

/// What a part of a slice comes to, where it may pause.
#[derive(Drop)]
pub enum Part {
    /// The slice's answer.
    Ended(Slice),
    /// Nothing is said of the cube: the search goes on there once others know its lemmas, and it theirs.
    Paused(Batch),
}
