//! A schedule by dispatching, for problems of points one of which is to stand before the other, pair by pair, as the operations of a machine are: the
//! points get their least values one after the other, each time one that can start first, and those that exclude it move behind it.
//!
//! Where deadlines are loose such a schedule meets them, and a search of thousands of pairs is spared; where they are tighter, orders of pairs are turned
//! round as long as that helps; and where that doesn't meet them either, a search begins better from these values than from none. The values are a hint: [`schedule_by`] tests them.
//!
//! Source: Panwalkar and Iskander, "A survey of scheduling rules", Operations Research 25 (1977): a rule that takes the operation that can start first, here
//! with some weight on the work behind it and on its deadline; Giffler and Thompson, "Algorithms for solving production-scheduling problems", Operations
//! Research 8 (1960), for schedules that are made operation by operation.
#![tactic(auto)]

mod bounds;
mod dispatching;
mod gaps;
mod improving;
mod orders;
mod rules;
mod schedule;
mod shop;

pub use rules::dispatched;
pub use schedule::schedule_by;
