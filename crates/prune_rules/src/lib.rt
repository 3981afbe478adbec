//! What a Simple Temporal Network says of a clause: forward checking of its literals, and whether it is subsumed.
//!
//! Source: Tsamardinos and Pollack, "Efficient solution techniques for disjunctive temporal reasoning problems",
//! Artificial Intelligence 151 (2003), section 4: forward checking and removal of subsumed variables.
#![tactic(auto)]

mod fate;
mod rules;

pub use fate::{Fate, Fates, Subsumed};
pub use rules::{forward_check, is_subsumed};
