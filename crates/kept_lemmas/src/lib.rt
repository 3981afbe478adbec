//! The items of a certificate's entry: lemmas of its own, and lemmas that it keeps of earlier entries.
//!
//! A lemma follows from the clauses that its tree names, so it may be used again wherever these are clauses of the problem:
//! its support. `specs/Facts.antt` has what an item states and rests on, `specs/Entries.antt` when the items of an entry
//! refute its problem.
#![tactic(auto)]

mod item;
mod laws;

pub use item::{Item, Items, Kept};
pub use laws::{entries_law, own_law, usable_law};
