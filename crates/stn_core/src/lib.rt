//! Simple Temporal Networks: bounds on differences of time points, and the greatest schedule on which they hold.
//!
//! Source: Dechter, Meiri, Pearl, "Temporal constraint networks", Artificial Intelligence 49 (1991), section 3.
#![tactic(auto)]

mod cycle;
mod label;
mod laws;
mod limits;
mod literal;
mod loops;
mod lowering;
mod named;
mod negative;
mod net;
mod order;
mod plain;
mod problem;
mod rounds_net;
mod scan;
mod schedule;
mod solve;
mod tables;

pub use laws::{cycle_law, greatest_range_law, negation_kept, negation_law, one_greatest_law};
pub use limits::{
    BOUND_LIMIT, NAMED_VALUE_LIMIT, POINTS_LIMIT, VALUE_LIMIT, VALUE_SPAN, Value, limits_law,
};
pub use literal::{Literal, Literals, holds, negate};
pub use named::{NamedValue, NamedValues};
pub use negative::is_cycle;
pub use net::{Added, Mark, Net};
pub use problem::{Clause, Clauses, Problem};
pub use rounds_net::RoundsNet;
pub use schedule::{Greatest, Schedule};
pub use solve::greatest;
