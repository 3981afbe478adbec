//! What a conflict-driven search over literals `x - y <= c` looks at next: numbers of literals, ladders,
//! watches, activities, phases, restarts and forgetting. All of it is advice. No contract says what an answer
//! means, so that each policy can be changed freely: a search tests every hint before it uses it. Every call
//! is safe, and returns, for any numbers and in any order of calls.
#![tactic(auto)]

mod activities;
mod assignment;
mod boxes;
mod claims;
mod clauses;
mod closing;
mod common;
mod distances_worth;
mod dividing;
mod forgetting;
mod guide;
mod hall_set;
mod ladders;
mod load_set;
mod loads;
mod numbers;
mod patience;
mod phases;
mod policy;
mod probing;
mod restarts;
mod targets;
mod vivification;
mod watches;

pub use clauses::Source;
pub use guide::Guide;
pub use numbers::LiteralNumber;
pub use policy::Policy;
pub use vivification::Denial;
pub use watches::Proposal;
