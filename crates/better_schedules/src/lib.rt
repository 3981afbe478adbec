//! How a schedule is made better for an objective, the difference of two time points, and what is asked for next: the parts
//! of a branch and bound that are no search.
//!
//! A schedule is moved to the best one of the literals that hold on it, by one more greatest schedule. What is asked for
//! next lies between a bound that was refuted and the best schedule's value. Where that value lies further below 0 than any
//! that can be best, the points that can be lowered without end are read off the schedule.
//!
//! Source: branch and bound on an objective by a bound on each next solution is old (Land and Doig 1960); that a schedule
//! is moved to the best one of its own literals before the next question, and the set that is read off a gap of its values
//! that is wider than any bound, are this project's own.
#![tactic(auto)]

mod above;
mod ascent;
mod choice;
mod descent;
mod incumbent;
mod laws;
mod lower_bound;
mod set;
mod tight;
mod unbounded;

pub use descent::{Descent, Question};
pub use incumbent::Incumbent;
pub use laws::{near_law, width_law};
pub use lower_bound::Bound;
pub use unbounded::unbounded_set;
