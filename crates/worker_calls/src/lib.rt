//! What workers that have nothing to do tell those that search.
#![tactic(auto)]

use std::sync::atomic::{AtomicU64, Ordering};
use worker_gates::Meeting;

/// Calls between the workers of one problem, which a search can hear in the middle of a slice: how many of them wait for
/// a part of its work, and whether nothing is left to do. They are advice: who hears one ends its slice sooner, and
/// answers by the same contract.
pub struct Calls {
    waiting: AtomicU64,
    over: AtomicU64,
    // whether somebody divided its work for one that waited
    divided: AtomicU64,
    // where one that searches is held
    meeting: Option<Meeting>,
}

impl Drop for Calls {
    fn drop(self) {
        let Calls {
            waiting,
            over,
            divided,
            meeting,
        } = self;
        drop(waiting);
        drop(over);
        drop(divided);
        drop(meeting);
    }
}

impl Calls {
    /// Nobody waits, and there is work.
    pub fn new() -> Self {
        Calls {
            waiting: AtomicU64::new(0),
            over: AtomicU64::new(0),
            divided: AtomicU64::new(0),
            meeting: None,
        }
    }

    /// The same for a test. Once somebody has divided its work for one that waited, the first that asks in the middle of
    /// its slice whether nothing is left to do is held there, until another one asks that in the middle of a slice as well,
    /// or so many looks are over. Workers that search one after the other never meet there.
    pub fn meeting(looks: u64) -> Self {
        Calls {
            waiting: AtomicU64::new(0),
            over: AtomicU64::new(0),
            divided: AtomicU64::new(0),
            meeting: Some(Meeting::new(looks)),
        }
    }

    /// Whether one searched while another was held in the middle of its slice.
    pub fn met(&self) -> bool {
        match &self.meeting {
            Some(meeting) => meeting.met(),
            None => false,
        }
    }

    /// One worker more waits for a part of the work.
    pub fn ask(&self) {
        self.waiting.fetch_add(1, Ordering::SeqCst);
    }

    /// Somebody divides its work: whether one waited for it, who is counted no more.
    pub fn answer(&self) -> bool {
        let waiting = self.waiting.load(Ordering::SeqCst);
        let Some(rest) = waiting.checked_sub(1) else {
            return false;
        };
        let has_answered = self
            .waiting
            .compare_exchange(waiting, rest, Ordering::SeqCst, Ordering::SeqCst)
            .is_ok();
        if has_answered {
            self.divided.store(1, Ordering::SeqCst);
        }
        has_answered
    }

    /// Nothing is left to do.
    pub fn end(&self) {
        self.over.store(1, Ordering::SeqCst);
    }

    /// Whether somebody found that nothing is left to do.
    pub fn is_over(&self) -> bool {
        if let Some(meeting) = &self.meeting {
            self.meet(meeting);
        }
        self.over.load(Ordering::SeqCst) == 1
    }

    // Joins who is held there, or is held, once there is work for two.
    fn meet(&self, meeting: &Meeting) {
        if self.divided.load(Ordering::SeqCst) == 1 && !meeting.join() {
            meeting.hold();
        }
    }
}
