//! Restarts: after so many conflicts the search goes back, keeping what it learned, its activities and its
//! phases, and all decisions that it would make again. The waits are 15 conflicts times the sequence 1, 1, 2,
//! 1, 1, 2, 4, 1, .. (Luby, Sinclair, Zuckerman 1993), made one by one as in Knuth's The Art of Computer
//! Programming 4B, 7.2.2.2. Restarts that follow the levels of learned clauses instead took 1.3 times as long
//! on disjunctive temporal problems. Since a restart keeps most decisions, it is cheap: waits of 100 conflicts
//! took 1.2 to 2 times as long on circuits and mutual exclusion, and about the same on job shops. But with many
//! atoms a schedule is found by one long descent with few conflicts, whose order each restart upsets: there the
//! waits are 100 conflicts times the sequence, and beyond 25,000 atoms the more, the deeper the descents are. Where hardly
//! anything follows by distances, as on circuits and mutual exclusion, they are 7.
use crate::numbers::{MANY_ATOMS, VAST};

/// How many conflicts the sequence's 1 stands for.
const UNIT: u64 = 15;

/// And where clauses alone lead to most conflicts.
const SHORT_UNIT: u64 = 7;

/// And where there are many atoms.
const LONG_UNIT: u64 = 100;

/// And at most where there are more: a quarter of the level at which conflicts are met in the mean.
const LONGEST_UNIT: u64 = 1_000;

const LEVELS: u64 = 4;

/// The mean is over about so many conflicts.
const WINDOW: u64 = 32;

#[derive(Clone, Copy)]
pub struct Restarts {
    /// how many conflicts the sequence's 1 stands for, at least and at most
    least: u64,
    most: u64,
    /// the mean level of the last conflicts, times their count
    levels: u64,
    /// which wait this is, from 1
    turn: u64,
    /// its length in units, a power of two
    length: u64,
    /// conflicts since the last restart
    conflicts: u64,
}

impl Restarts {
    /// Of a search over so many atoms.
    pub fn new(atoms: usize) -> Self {
        let least = if atoms > MANY_ATOMS { LONG_UNIT } else { UNIT };
        Restarts {
            least,
            most: if atoms > VAST { LONGEST_UNIT } else { least },
            levels: 0,
            turn: 1,
            length: 1,
            conflicts: 0,
        }
    }

    /// One more conflict, at this level.
    pub fn count_conflict(&mut self, level: usize) {
        let is_first = self.levels == 0;
        let level = level as u64;
        self.conflicts = self.conflicts.saturating_add(1);
        self.levels = if is_first {
            level.saturating_mul(WINDOW)
        } else {
            (self.levels - self.levels / WINDOW).saturating_add(level)
        };
    }

    /// How many conflicts the sequence's 1 stands for.
    fn unit(&self, is_clausal: bool) -> u64 {
        if is_clausal && self.most == UNIT {
            return SHORT_UNIT;
        }
        (self.levels / WINDOW / LEVELS)
            .max(self.least)
            .min(self.most)
    }

    /// Whether the wait is over; if so, the next one begins.
    pub fn is_due(&mut self, is_clausal: bool) -> bool {
        if self.conflicts < self.length.saturating_mul(self.unit(is_clausal)) {
            return false;
        }
        self.conflicts = 0;
        let lowest = self.turn & self.turn.wrapping_neg();
        if lowest == self.length {
            self.turn = self.turn.wrapping_add(1);
            self.length = 1;
        } else {
            self.length = self.length.saturating_mul(2);
        }
        true
    }
}
