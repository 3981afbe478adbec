//! Best values: the least difference of two time points on which a Disjunctive Temporal Problem holds, how it is seen that
//! none is less, and how it is seen that there is no least one.
//!
//! A best value comes with values that attain it, and with a refutation of the problem with one more clause, that the
//! difference is less. Where there is none, some points, the first of the two among them, can be lowered together without
//! end.
//!
//! Source: that a problem over differences has no best value where such points are there is this project's own wording of a
//! negative cut (a set of points into which no chosen literal leads from outside).
#![tactic(auto)]

mod asking;
mod free_set;
mod laws;
mod limit;
mod marks;
mod points;

pub use asking::{below, question};
pub use free_set::first_not_kept;
pub use laws::{asked_law, best_law, examples_law, kept_law, unbounded_law};
pub use limit::{OBJECTIVE_LIMIT, fits, width};
pub use points::Points;
