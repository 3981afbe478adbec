//! A cover: a binary tree of cubes (lists of literals), whose leaves divide all lists of point values among
//! them.
//!
//! A search in parallel deals out its leaves: a leaf is free, held by a seat that works on it, or shut by a
//! lemma. A seat that doesn't decide its cube soon has it divided by a literal and its negation (semantic
//! branching: Tsamardinos and Pollack 2003).
//!
//! `specs/Covers.antt` has the cover and what each call makes of it; `specs/Partition.antt` says that each
//! list of point values satisfies the cube of exactly one leaf ([`partition_law`]). Every call but `new`,
//! `split` and `cube_of` takes no memory, and constant time.
#![tactic(auto)]

mod cover;
mod laws;
mod link;
mod members;
mod node;

pub use cover::Cover;
pub use laws::{branches_law, partition_law};
pub use node::Node;
