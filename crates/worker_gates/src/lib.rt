//! Where a worker can be held between its search and its delivery, so that a test can see that two of them run
//! at once.
#![tactic(auto)]

mod hold;
mod meeting;

pub use hold::HoldSecond;
pub use meeting::Meeting;

/// Called by each worker before each delivery, while it has nothing for which another waits.
pub trait Gate: Sync {
    /// The worker, counted from 0, has finished its slice of this number.
    fn pass(&self, worker: u32, slice: u64);
}

/// Holds nobody.
#[derive(Clone, Copy, Debug)]
pub struct NoGate;

impl Gate for NoGate {
    fn pass(&self, _worker: u32, _slice: u64) {}
}
