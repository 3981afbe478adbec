//! A plain program that decides whether a delivery is justified, and calls on a book whose conditions are
//! tested first.
#![tactic(auto)]

mod calls;
mod judging;
mod limits;
mod outcomes;

pub use calls::{deliver_justified, release_held, take_cube};
pub use judging::{Fault, judge};
