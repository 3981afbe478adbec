//! What cases of an Int term are worth, where their guards and points have values.
#![tactic(auto)]

mod evaluation;
mod pending;

pub use evaluation::{eval_int, eval_int_on};
