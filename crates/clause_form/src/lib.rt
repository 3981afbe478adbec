//! The clause form of asserted nodes, and the schedule that a solution of it gives.
#![tactic(auto)]

mod clauses;
mod examples;
mod form;
mod laws;
mod marks;
mod numbering;
mod schedule;
mod sourcing;
mod writing;

pub use clauses::problem_of;
pub use examples::worked_clause_form;
pub use laws::{clause_form_law, polarity_law, sources_law};
pub use schedule::restrict;
pub use sourcing::sources;
