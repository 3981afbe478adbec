//! Which literals follow from those of a net, by the distances between points. All of it is
//! advice, as that of `search_guide`: no contract says what an answer means, and a search tests each path
//! before it uses it. Every call is safe, and returns, for any numbers and in any order of calls.
#![tactic(auto)]

mod distances;
mod edges;
mod later;
mod rows;
mod rungs;
mod searches;
mod side;
mod table;
mod tree;

pub use distances::Distances;
