//! Many literals at once into a net, in an order in which each point is lowered once.
//!
//! One by one a chain `x1 - x0 <= -1, x2 - x1 <= -1, ..` from its far end takes time of the order of the square of its
//! length in any net that keeps its schedule: each literal lowers all points behind it again. From its near end each
//! literal lowers one point.
#![tactic(auto)]

mod add;
mod order;

pub use add::add_all;
