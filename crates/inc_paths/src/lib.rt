//! Incremental shortest paths: the greatest schedule of a Simple Temporal Network, kept while literals are added and
//! taken back.
//!
//! Source: Ramalingam and Reps, "An incremental algorithm for a generalization of the shortest-path problem", Journal of
//! Algorithms 21 (1996); Cotton and Maler, "Fast and flexible difference constraint propagation for DPLL(T)", SAT 2006.
#![tactic(auto)]

mod arcs;
mod extend;
mod labels;
mod network;
mod relax;

pub use network::Network;
