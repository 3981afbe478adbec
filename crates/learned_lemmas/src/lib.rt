//! What a search has learned, for the searches of later problems.
//!
//! A refutation's lemmas say more than that its problem has no solution: those that rest on clauses which a later problem has too hold
//! there. [`Learned`] keeps the refutation and a choice of its other lemmas, and gives what a later problem takes over: the refutation, or an opening of
//! its search. The choice is a hint: short lemmas, since these cost a search little where they don't help it, and what they cite.
#![tactic(auto)]

mod choice;
mod learned;

pub use choice::Choice;
pub use learned::{Learned, TakenOver};
