//! When to look for a model again: a look that said yes and was wrong makes the next one wait, each time for
//! twice as many decisions.

/// How many decisions a look waits for at most.
const PAUSE_LIMIT: u32 = 1023;

#[derive(Clone, Copy)]
pub struct Patience {
    /// how many looks are still passed by
    wait: u32,
    /// how many were, after the last yes
    pause: u32,
}

impl Patience {
    pub fn new() -> Self {
        Patience { wait: 0, pause: 0 }
    }

    /// Whether to look now.
    pub fn is_over(&mut self) -> bool {
        let is_over = self.wait == 0;
        self.wait = self.wait.saturating_sub(1);
        is_over
    }

    /// The look says yes. If it is asked for again, that was wrong.
    pub fn said_yes(&mut self) {
        self.pause = self
            .pause
            .saturating_mul(2)
            .saturating_add(1)
            .min(PAUSE_LIMIT);
        self.wait = self.pause;
    }
}
