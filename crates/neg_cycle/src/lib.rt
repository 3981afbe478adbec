//! Negative cycles of literals: the test for one, its rotations, and a simple one out of a closed walk.
//!
//! Source: Dechter, Meiri, Pearl, "Temporal constraint networks", Artificial Intelligence 49 (1991), section 3.
#![tactic(auto)]

mod cut;
mod rotation;

pub use cut::cut_walk;
pub use rotation::{rotate_to, rotation_law};
pub use stn_core::is_cycle;
