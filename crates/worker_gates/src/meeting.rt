//! A place where one is held until another comes.
use std::sync::atomic::{AtomicU64, Ordering};
use std::thread;

// What the word of a meeting says: nobody was held yet; one is held; another came meanwhile; nobody came in time.
const NOBODY: u64 = 0;

const HELD: u64 = 1;

const MET: u64 = 2;

const OVER: u64 = 3;

/// Holds one thread, the first that is to be held, until another one joins it, or so many looks are over.
pub struct Meeting {
    looks: u64,
    state: AtomicU64,
}

impl Drop for Meeting {
    fn drop(self) {
        let Meeting { looks: _, state } = self;
        drop(state);
    }
}

impl Meeting {
    /// Nobody was held yet. Between two looks the one that is held yields.
    pub fn new(looks: u64) -> Self {
        Meeting {
            looks,
            state: AtomicU64::new(NOBODY),
        }
    }

    /// Whether somebody joined the one that was held.
    pub fn met(&self) -> bool {
        self.state.load(Ordering::SeqCst) == MET
    }

    // The step from one word to another: whether this call made it.
    fn steps(&self, from: u64, to: u64) -> bool {
        self.state
            .compare_exchange(from, to, Ordering::SeqCst, Ordering::SeqCst)
            .is_ok()
    }

    /// Whether somebody is held, who goes on now.
    pub fn join(&self) -> bool {
        self.steps(HELD, MET)
    }

    /// Looks and yields until another one joins, unless somebody was held before.
    pub fn hold(&self) {
        if !self.steps(NOBODY, HELD) {
            return;
        }
        for _ in 0..self.looks {
            if self.state.load(Ordering::SeqCst) != HELD {
                return;
            }
            thread::yield_now();
        }
        let _ = self.steps(HELD, OVER);
    }
}
