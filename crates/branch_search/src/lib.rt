//! A slice of conflict-driven search for a schedule of a Disjunctive Temporal Problem, which leaves
//! refutations. What a conflict teaches is the work of `conflict_analysis`.
//!
//! Source: Marques Silva and Sakallah, "GRASP: a search algorithm for propositional satisfiability", IEEE
//! Transactions on Computers 48 (1999): trail, implication points, learned clauses; Ganzinger, Hagen,
//! Nieuwenhuis, Oliveras and Tinelli, "DPLL(T): fast decision procedures", CAV 2004: the same beside a
//! theory's own solver, which is a network here.
#![tactic(auto)]

mod answer;
mod both;
mod clauses;
mod conflict;
mod cube;
mod delivery;
mod distances;
mod divide;
mod hearing;
mod model;
mod propagate;
mod roots;
mod search;
mod slicing;
mod state;
mod task;
mod vivify;
mod waiting;

pub use answer::{Part, Slice};
pub use slicing::{Searcher, slice};
