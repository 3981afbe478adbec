//! Job-shop scripts from four numbers: large valid input, the same for the same numbers.
//!
//! Each of some jobs is a row of operations, one on each machine, in the order of the row; no machine works on two
//! operations at once; each job ends by the deadline. Order and durations are drawn from a start.
#![tactic(auto)]

mod draws;
mod examples;
mod laws;
mod script;
mod shop;
mod text;

pub use examples::worked_script;
pub use laws::machine_law;
pub use script::instance;
