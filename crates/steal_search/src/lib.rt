//! Deciding a Disjunctive Temporal Problem by workers that share the cubes of a desk.
//!
//! What several workers do is in no clause on the answer: it is right however their calls fall. `book_search` is
//! the way of one worker.
#![tactic(auto)]

mod beside;
mod dealing;
mod shared;
mod team;
mod worker;

pub use book_search::{Solved, search_one, solve_one, solve_one_with};
pub use shared::{Worker, search_shared, solve_shared, solve_shared_over, solve_shared_with};
pub use team::Team;
pub use worker::work;
pub use worker_gates::{Gate, HoldSecond, NoGate};
