//! When a search ends its slice for other workers.
use std::sync::Arc;
use worker_calls::Calls;

/// So many conflicts a slice has at least before it ends for a worker that waits: with fewer its cube is divided badly,
/// and the lemmas that come from it are few.
const FEWEST: u64 = 100;

/// After so many conflicts a slice that may pause does, so that the others know its lemmas sooner, and it theirs.
const PAUSE: u64 = 100;

/// And after one more for each so many lemmas that it was handed: a pause goes over all of them.
const LEMMAS_A_CONFLICT: u64 = 200;

/// What a searcher hears of other workers, where there are some. Whatever it hears, it answers by the same contract.
pub struct Hearing {
    calls: Option<Arc<Calls>>,
    /// how many conflicts there were before this slice
    before: u64,
    /// how many conflicts it meets before it pauses
    until_pause: u64,
    /// whether this slice answered one that waits
    has_answered: bool,
}

impl Drop for Hearing {
    fn drop(self) {
        let Hearing {
            calls,
            before: _,
            until_pause: _,
            has_answered: _,
        } = self;
        drop(calls);
    }
}

impl Hearing {
    /// Nobody is there.
    pub fn nobody() -> Self {
        Hearing {
            calls: None,
            before: 0,
            until_pause: PAUSE,
            has_answered: false,
        }
    }

    /// Of the workers that share these calls.
    pub fn of(calls: Arc<Calls>) -> Self {
        Hearing {
            calls: Some(calls),
            ..Hearing::nobody()
        }
    }

    /// A slice begins, after so many conflicts, and it was handed so many lemmas.
    pub fn renew(&mut self, conflicts: u64, lemmas: usize) {
        self.before = conflicts;
        self.until_pause = PAUSE.saturating_add(lemmas as u64 / LEMMAS_A_CONFLICT);
        self.has_answered = false;
    }

    /// Whether there are others, and the slice has met so many conflicts by this one that it is time to tell them of its
    /// lemmas.
    pub fn wants_pause(&self, conflicts: u64) -> bool {
        self.calls.is_some() && conflicts.saturating_sub(self.before) >= self.until_pause
    }

    /// Whether nothing is left to do.
    pub fn is_over(&self) -> bool {
        match &self.calls {
            Some(calls) => calls.is_over(),
            None => false,
        }
    }

    /// Whether the slice ends at this conflict: nothing is left to do, its budget is spent, or one waits. A plan is
    /// carried out first.
    pub fn ends_slice(&mut self, conflicts: u64, is_spent: bool, is_in_plan: bool) -> bool {
        if self.is_over() {
            return true;
        }
        if is_in_plan {
            return false;
        }
        is_spent || self.is_asked(conflicts)
    }

    // Whether one waits, and is answered now: the slice has met enough conflicts by this one.
    fn is_asked(&mut self, conflicts: u64) -> bool {
        if conflicts.saturating_sub(self.before) >= FEWEST {
            self.answer();
        }
        self.has_answered
    }

    /// The cube is divided: one of those that wait has a half, unless one was answered already.
    pub fn answer(&mut self) {
        if self.has_answered {
            return;
        }
        if let Some(calls) = &self.calls {
            self.has_answered = calls.answer();
        }
    }
}
