//! A schedule of a problem, looked for by local search: values of the time points are changed one at a time, so that a clause
//! that doesn't hold comes to hold and few others cease to (Selman, Kautz and Cohen, "Noise strategies for improving local search",
//! AAAI 1994), and clauses that don't hold where no change helps weigh more from then on (Morris, "The breakout method for
//! escaping from local minima", AAAI 1993).
//!
//! On random problems near their threshold that have a schedule it finds one in a hundredth of the time that a search by
//! conflicts takes; of a problem without a schedule it says nothing. What it finds is a hint, which is tested by whoever asked.
#![tactic(auto)]

mod clauses;
mod search;
mod violated;

pub use search::LocalSearch;
