//! A gate that holds one worker until another comes.
use crate::Gate;
use crate::meeting::Meeting;
use std::sync::atomic::{AtomicU64, Ordering};

/// Holds the one of workers 0 and 1 that comes first to its second pass, until the other makes a pass that
/// begins after that, or so many looks are over. Workers that run one after the other never meet there.
pub struct HoldSecond {
    meeting: Meeting,
    first_passes: AtomicU64,
    second_passes: AtomicU64,
}

impl Drop for HoldSecond {
    fn drop(self) {
        let HoldSecond {
            meeting,
            first_passes,
            second_passes,
        } = self;
        drop(meeting);
        drop(first_passes);
        drop(second_passes);
    }
}

impl HoldSecond {
    /// A gate that nobody has passed.
    pub fn new(looks: u64) -> Self {
        HoldSecond {
            meeting: Meeting::new(looks),
            first_passes: AtomicU64::new(0),
            second_passes: AtomicU64::new(0),
        }
    }

    /// Whether one of the two made a pass while the other was held.
    pub fn met(&self) -> bool {
        self.meeting.met()
    }

    // Who is held makes no pass, so that this one is the other's.
    fn come(&self, passes: &AtomicU64) {
        let before = passes.fetch_add(1, Ordering::SeqCst);
        if !self.meeting.join() && before == 1 {
            self.meeting.hold();
        }
    }
}

impl Gate for HoldSecond {
    fn pass(&self, worker: u32, _slice: u64) {
        match worker {
            0 => self.come(&self.first_passes),
            1 => self.come(&self.second_passes),
            _ => {}
        }
    }
}
