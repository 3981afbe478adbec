//! Forgetting: a search learns a lemma a conflict, and each that is watched makes every step slower. After
//! 2,000 conflicts, and then after 2,000 + 300 k more, half of the lemmas that matter least, where distances were let go
//! two thirds of them, are taken out of the watches; they stay with their owner, since refutations cite them. A lemma matters the more, the fewer
//! levels its literals had when they were denied (Audemard, Simon 2009), and then the more it took part in
//! late conflicts. Lemmas of two literals or of at most two levels stay for ever, and so does a lemma that
//! may be the reason of a literal of the trail.
use crate::assignment::{Assignment, Truth};
use crate::clauses::Clauses;
use crate::closing::Closing;
use crate::numbers::LiteralNumber;
use std::alloc::{AllocError, Global};

/// Conflicts before the first time, and how many more lie between each two times than between the two before.
const FIRST: u64 = 2_000;

const MORE: u64 = 300;

/// Of so many lemmas that may go one stays, and where distances were let go.
const SHARE: usize = 2;

const SMALL_SHARE: usize = 3;

/// A lemma's activity grows by an increment that grows by a thousandth with each conflict.
const START: u64 = 1 << 20;

const LARGE: u64 = 1 << 60;

const SHIFT: u32 = 40;

/// At most so many levels, and a lemma stays.
const FEW_LEVELS: u32 = 2;

/// What is known of a lemma.
#[derive(Clone, Copy)]
struct Merit {
    levels: u32,
    activity: u64,
    /// whether it was looked at for a shorter one, or is one
    is_tried: bool,
}

/// A lemma that can be forgotten; the least is the best.
#[derive(Clone, Copy, PartialEq, Eq, PartialOrd, Ord)]
struct Candidate {
    levels: u32,
    idleness: u64,
    lemma: usize,
}

pub struct Forgetting {
    merits: Vec<Merit>,
    increment: u64,
    conflicts: u64,
    due: u64,
    wait: u64,
    /// for each level the last count of levels in which it came up
    stamps: Vec<u64>,
    stamp: u64,
}

impl Drop for Forgetting {
    fn drop(self) {
        let Forgetting {
            merits,
            increment: _,
            conflicts: _,
            due: _,
            wait: _,
            stamps,
            stamp: _,
        } = self;
        drop(merits);
        drop(stamps);
    }
}

impl Forgetting {
    pub fn new(alloc: Global) -> Self {
        Forgetting {
            merits: Vec::new(alloc),
            increment: START,
            conflicts: 0,
            due: FIRST,
            wait: FIRST,
            stamps: Vec::new(alloc),
            stamp: 0,
        }
    }

    /// Room for one more level.
    pub fn push_level(&mut self) -> Result<(), AllocError> {
        self.stamps.push(0)?;
        Ok(())
    }

    /// How many conflicts there were.
    pub fn conflicts(&self) -> u64 {
        self.conflicts
    }

    pub fn count_conflict(&mut self) {
        self.conflicts = self.conflicts.saturating_add(1);
    }

    /// How many levels the literals have; a level beyond the table counts each time.
    fn count_levels(&mut self, literals: &[LiteralNumber], assignment: &Assignment) -> u32 {
        self.stamp = self.stamp.wrapping_add(1);
        let mut count = 0u32;
        for literal in literals {
            match self.stamps.get_mut(assignment.level(*literal)) {
                Some(stamp) if *stamp == self.stamp => {}
                Some(stamp) => {
                    *stamp = self.stamp;
                    count = count.saturating_add(1);
                }
                None => count = count.saturating_add(1),
            }
        }
        count
    }

    /// One more lemma. Where two of its literals aren't denied, it counts as if each had a level of its own.
    pub fn push(
        &mut self,
        literals: &[LiteralNumber],
        assignment: &Assignment,
    ) -> Result<(), AllocError> {
        let denied = literals
            .iter()
            .filter(|literal| assignment.truth(**literal) == Truth::False)
            .count();
        let levels = if denied.saturating_add(1) < literals.len() {
            crate::numbers::narrow(literals.len())
        } else {
            self.count_levels(literals, assignment)
        };
        self.merits.push(Merit {
            levels,
            activity: self.increment,
            is_tried: false,
        })?;
        Ok(())
    }

    /// The lemma at this place of the table took part in a conflict: its literals are denied, but at most one.
    pub fn bump(&mut self, lemma: usize, literals: &[LiteralNumber], assignment: &Assignment) {
        let Some(merit) = self.merits.get(lemma).copied() else {
            return;
        };
        let mut levels = merit.levels;
        if levels > FEW_LEVELS {
            levels = levels.min(self.count_levels(literals, assignment));
        }
        let activity = merit.activity.saturating_add(self.increment);
        if let Some(slot) = self.merits.get_mut(lemma) {
            *slot = Merit {
                levels,
                activity,
                is_tried: merit.is_tried,
            };
        }
        if activity > LARGE {
            self.scale();
        }
    }

    fn scale(&mut self) {
        for merit in self.merits.iter_mut() {
            merit.activity >>= SHIFT;
        }
        self.increment = (self.increment >> SHIFT).max(START);
    }

    /// The last lemma before the place, of at most so many levels, that wasn't looked at yet for a shorter one. Now it is.
    pub fn next_untried(&mut self, before: usize, most_levels: u32) -> Option<usize> {
        let end = before.min(self.merits.len());
        for back in 0..end {
            let place = end - 1 - back;
            if let Some(merit) = self.merits.get_mut(place) {
                if !merit.is_tried && merit.levels <= most_levels {
                    merit.is_tried = true;
                    return Some(place);
                }
            }
        }
        None
    }

    /// The lemma at one place takes the place of a longer one.
    pub fn take_over(&mut self, old: usize, new: usize) {
        let Some(longer) = self.merits.get(old).copied() else {
            return;
        };
        if let Some(merit) = self.merits.get_mut(new) {
            merit.levels = merit.levels.min(longer.levels);
            merit.is_tried = true;
        }
    }

    pub fn decay(&mut self) {
        self.increment = self.increment.saturating_add(self.increment / 1_000);
        if self.increment > LARGE {
            self.scale();
        }
    }

    /// The clauses have other indices, of which the problem's are the first so many.
    pub fn close_up(&mut self, inputs: usize, closing: &Closing) {
        let mut kept = 0usize;
        for lemma in 0..self.merits.len() {
            let clause = crate::numbers::narrow(inputs.saturating_add(lemma));
            if closing.place(clause).is_none() {
                continue;
            }
            let merit = self.merits.get(lemma).copied();
            if let (Some(merit), Some(slot)) = (merit, self.merits.get_mut(kept)) {
                *slot = merit;
            }
            kept = kept.saturating_add(1);
        }
        self.merits.truncate(kept);
    }

    /// Whether it is time; if so, the next wait begins.
    pub fn is_due(&mut self) -> bool {
        if self.conflicts < self.due {
            return false;
        }
        self.wait = self.wait.saturating_add(MORE);
        self.due = self.conflicts.saturating_add(self.wait);
        true
    }

    /// For each lemma of the table whether it is kept, and how many aren't that were.
    pub fn select(
        &self,
        alloc: Global,
        clauses: &Clauses,
        assignment: &Assignment,
        is_clausal: bool,
    ) -> Result<(Vec<bool>, usize), AllocError> {
        let mut kept = Vec::with_capacity(alloc, self.merits.len())?;
        let mut candidates = Vec::new(alloc);
        for (lemma, merit) in self.merits.iter().enumerate() {
            let literals = clauses.literals(clauses.entry(lemma));
            kept.push(!literals.is_empty())?;
            if merit.levels > FEW_LEVELS
                && literals.len() > 2
                && !may_be_reason(literals, assignment)
            {
                candidates.push(Candidate {
                    levels: merit.levels,
                    idleness: u64::MAX - merit.activity,
                    lemma,
                })?;
            }
        }
        candidates.sort_unstable();
        let staying = if is_clausal {
            candidates.len() / SMALL_SHARE
        } else {
            candidates.len() / SHARE
        };
        let mut dropped = 0usize;
        for candidate in candidates.iter().skip(staying) {
            if let Some(slot) = kept.get_mut(candidate.lemma) {
                *slot = false;
                dropped = dropped.saturating_add(1);
            }
        }
        Ok((kept, dropped))
    }
}

/// Whether one literal holds and all others are denied.
fn may_be_reason(literals: &[LiteralNumber], assignment: &Assignment) -> bool {
    let mut holding = 0u32;
    for literal in literals {
        match assignment.truth(*literal) {
            Truth::True => holding = holding.saturating_add(1),
            Truth::False => {}
            Truth::Open => return false,
        }
    }
    holding == 1
}
