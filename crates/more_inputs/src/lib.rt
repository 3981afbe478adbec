//! Refutations stay refutations when clauses are added at the problem's end.
#![tactic(auto)]

mod laws;

pub use laws::more_inputs_law;
