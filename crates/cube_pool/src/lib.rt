//! Numbers of open cubes that workers hand to each other: a deque for each worker, to which that one alone
//! pushes, and from which all fetch, first in first out.
//!
//! What was pushed is what was fetched and what is left, and of each deque the oldest number was fetched first. A
//! number that was fetched is no more than a hint: a cube is taken from the book, which knows whether it is free.
#![tactic(auto)]

mod closing;
mod hand;
mod lane;
mod opening;
mod pool;
mod slip;

pub use hand::Hand;
pub use lane::{Fair, Full};
pub use pool::Pool;
pub use slip::{Event, Slip};
