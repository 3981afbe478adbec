//! From a conflict on the trail of a search to a learned clause with the tree that refutes it.
//!
//! A [`Conflict`] is a clause whose literals are all denied on the trail, or a negative cycle of the trail's
//! literals. [`analyze`] goes back over the literals that it rests on, each by its [`Reason`], and states what
//! is left as a lemma. What a guide proposes is tested before it is believed: that a clause is denied at once ([`is_conflict`]), that a
//! literal follows from a clause where a conflict comes to rest on it.
//!
//! Source: Marques Silva and Sakallah, "GRASP: a search algorithm for propositional satisfiability", IEEE
//! Transactions on Computers 48 (1999): reasons, implication points, learned clauses.
#![tactic(auto)]

mod analysis;
mod citing;
mod denial;
mod entry;
mod graph;
mod leaves;
mod marking;
mod places;
mod reading;
mod redundancy;
mod spine;
mod tables;

pub use analysis::analyze;
pub use denial::{is_conflict, unit_of, unit_place};
pub use entry::{Conflict, Entry, Level, Reason, Source};
pub use graph::ImplicationGraph;
pub use reading::{
    clause_of, is_over, is_same, is_standing, literal_on, literal_place, number_of, numbers_of,
    reason_on, source_of,
};
pub use tables::Tables;
