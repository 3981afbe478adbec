//! The best value of an objective, the difference of two time points, over a Disjunctive Temporal Problem.
//!
//! Each question is the problem with one more clause, by which the objective is below a bound. A schedule that answers it
//! is first made as good as the literals that hold on it allow; a refutation raises the bound below which nothing is asked
//! for, or, where the bound is the best schedule's value, shows that this is the least.
//!
//! `better_schedules` has what is asked and how a schedule is made better, `best_values` what is best.
#![tactic(auto)]

mod answer;
mod asking;
mod hearing;
mod one;
mod questions;
mod shared;

pub use answer::{Best, best_law};
pub use one::{best_one, best_one_with};
pub use shared::{best_shared, best_shared_with};
