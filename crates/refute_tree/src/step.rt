use stn_core::{Literal, Literals};

/// A node of a refutation tree, as contracts speak of it. A tree is a list of these in preorder.
#[derive(Drop)]
pub enum Step {
    /// A leaf: a negative cycle of assumed literals, in the order of the cycle.
    Cycle(Literals),
    /// The cases of the clause with this number in the problem, from 0.
    Input(usize),
    /// The cases of the clause of the earlier lemma with this number, from 0.
    Lemma(usize),
    /// A leaf: the clause with this number in the problem, from 0, whose literals' negations are all assumed.
    Clash(usize),
    /// Two cases: the literal, then its negation.
    Either(Literal),
}
