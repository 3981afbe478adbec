//! Deciding a Disjunctive Temporal Problem by slices of search over the cubes of a book, by one worker.
#![tactic(auto)]

mod base;
mod clauses;
mod finding;
mod pacing;
mod scattering;
mod solve;
mod solved;
mod tools;
mod units;
mod walk;

pub use base::{decide_units, refute_along};
pub use finding::Finding;
pub use pacing::Pacing;
pub use solve::{finish, search_one, solve_one, solve_one_with};
pub use solved::{Solved, conclude};
pub use tools::Tools;
