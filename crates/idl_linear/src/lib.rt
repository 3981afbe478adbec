//! Linear terms over whole numbers: sums of time points with coefficients, and a constant; and two of them compared.
#![tactic(auto)]

mod cursor;
mod difference;
mod error;
mod examples;
mod few;
mod held;
mod laws;
mod leaf;
mod limits;
mod linear;
mod linear_sum;
mod merge;
mod runs;
mod same;
mod summand;
mod sums;
mod tree;
mod within;

pub use cursor::Cursor;
pub use difference::{Difference, compare, compare_less};
pub use error::{DifferenceRefusal, LinearError};
pub use examples::{worked_comparisons, worked_linear_terms};
pub use laws::{comparison_law, linear_law};
pub use limits::{COEFFICIENT_LIMIT, CONSTANT_LIMIT, NAMES_LIMIT, NUMBER_LIMIT, limits_law};
pub use linear::Linear;
pub use same::mixed;
pub use summand::Summand;
pub use sums::sum_less;
