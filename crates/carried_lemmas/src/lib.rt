//! The lemmas of an earlier problem that a new one takes over.
//!
//! A lemma follows from the clauses that its tree names, and from those that the lemmas rest on which it cites: its support. Where
//! these are clauses of the new problem too, [`carry`] takes it over with the new problem's numbers, so that a search begins with
//! what an earlier one has learned. `specs/Carried.antt` has which lemmas these are.
#![tactic(auto)]

mod carrying;
mod flags;
mod laws;
mod numbers;

pub use carrying::carry;
pub use laws::{carried_law, example_law};
