//! A shelf of checked entries, from which later entries keep lemmas.
//!
//! An entry's items are checked against its problem, one after the other, and go to the shelf when they refute it. A kept
//! lemma isn't checked again: it is enough that its time points are the problem's, and that the clauses which it rests on
//! are clauses of the problem. `specs/ItemFlaws.antt` has the first flaw of items.
#![tactic(auto)]

mod adding;
mod book;
mod check;
mod citing;
mod entry;
mod laws;
mod lowering;
mod needs;
mod present;
mod reached;
mod shelf;
mod stated;
mod table;
mod tree_shelf;
mod trees;
mod walk;

pub use check::check_items;
pub use laws::{examples_law, flaw_law};
pub use shelf::Shelf;
pub use tree_shelf::TreeShelf;
