//! A job shop's script from four numbers, certified and checked in one go, and five lines about it: [`bench`].
#![tactic(auto)]

mod certified;
mod laws;
mod lines;
mod numbers;
mod run;

pub use numbers::PlanNumbers;
pub use run::bench;
