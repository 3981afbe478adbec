//! One worker's search over a Disjunctive Temporal Problem, kept from question to question: what a question assumes is a cube
//! of literals, and the lemmas that it leaves hold whatever was assumed, so that the next question begins with all of them.
#![tactic(auto)]

mod closing;
mod kept;
mod reply;

pub use kept::KeptSearch;
pub use reply::Reply;
