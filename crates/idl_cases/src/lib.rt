//! Int terms with conditions, as the cases that `ite` makes: what a term is worth where nodes of the table are true.
#![tactic(auto)]

mod bounds;
mod case_parts;
mod cases;
mod choices;
mod limits;
mod listed;
mod places;
mod same;
mod shape;
mod summing;

pub use case_parts::CaseParts;
pub use cases::{CASES_LIMIT, Cases};
pub use choices::Choices;
pub use limits::limits_law;
pub use listed::Case;
pub use shape::{Chosen, Form};
pub use summing::Summing;
