//! Lemmas made shorter (Piette, Hamadi and Sais, "Vivifying propositional clausal formulae", ECAI 2008; of lemmas, Luo and
//! others, IJCAI 2017): the literals of one are denied one after the other, the most active first, while nothing follows
//! from the lemma itself. Where that leads to a conflict, those that were decided make a lemma alone, which takes its place
//! where it is shorter.
//!
//! It is done every 250 conflicts, from 1,000 on. On circuits and mutual exclusion a tenth of the literals goes; where it is
//! less than a thirtieth, as on random problems and plans, it is given up.
use crate::assignment::Truth;
use crate::clauses::Source;
use crate::guide::Guide;
use crate::numbers::{LiteralNumber, negated};

/// Conflicts before the first time, and between two of them.
const FIRST: u64 = 1_000;

const WAIT: u64 = 250;

/// A lemma of more levels is seldom used again, and one of more literals takes its length for each of them.
const MOST_LEVELS: u32 = 4;

const MOST_LITERALS: usize = 100;

/// So many literals are looked at in any case, and more where so many of them make a literal less.
const TRIAL: usize = 1_500;

const WORTH: usize = 30;

/// What comes next where the literals of a lemma are denied.
#[derive(Clone, Copy, Debug, PartialEq, Eq)]
pub enum Denial {
    /// This literal is to be decided.
    Deny(LiteralNumber),
    /// A literal of the lemma holds.
    Holds,
    /// All are denied.
    All,
}

/// Which lemmas are looked at.
#[derive(Clone, Copy)]
pub struct Vivification {
    is_under_way: bool,
    /// the count of conflicts from which on it is time
    due: u64,
    /// the lemma that is looked at, by its place in the table; those before it weren't yet
    place: usize,
    /// how many literals the lemmas had that were looked at, and how many of these are gone
    looked_at: usize,
    gone: usize,
}

impl Vivification {
    pub fn new() -> Self {
        Vivification {
            is_under_way: false,
            due: FIRST,
            place: 0,
            looked_at: 0,
            gone: 0,
        }
    }

    /// Whether lemmas are looked at now.
    pub fn is_under_way(&self) -> bool {
        self.is_under_way
    }

    /// Whether it was worth it so far, or isn't known yet.
    fn pays(&self) -> bool {
        self.looked_at < TRIAL || self.looked_at / WORTH <= self.gone
    }
}

impl Guide {
    /// Whether it is time to look at lemmas, where nothing is decided.
    pub fn wants_vivification(&self) -> bool {
        self.vivification.due <= self.forgetting.conflicts()
            && self.vivification.pays()
            && !self.has_plan()
    }

    /// Where it is time, lemmas are looked at from now on, the last first.
    pub fn begins_vivification(&mut self) -> bool {
        if !self.wants_vivification() {
            return false;
        }
        self.vivification.is_under_way = true;
        self.vivification.due = self.forgetting.conflicts().saturating_add(WAIT);
        self.vivification.place = self.clauses.entries();
        true
    }

    /// No lemma is looked at any more.
    pub fn end_vivification(&mut self) {
        self.vivification.is_under_way = false;
    }

    /// The next lemma to look at. From now on nothing follows from it, up to `end_denials`.
    pub fn next_to_shorten(&mut self) -> Option<Source> {
        for _turn in 0..self.clauses.entries() {
            let place = self
                .forgetting
                .next_untried(self.vivification.place, MOST_LEVELS)?;
            self.vivification.place = place;
            let clause = self.clauses.entry(place);
            let count = self.clauses.literals(clause).len();
            if count > 2 && count <= MOST_LITERALS {
                self.vivification.looked_at = self.vivification.looked_at.saturating_add(count);
                self.watches.mute(Some(self.clauses.start(clause)));
                return Some(self.clauses.source(clause));
            }
        }
        None
    }

    /// What comes next with the lemma that is looked at.
    pub fn next_denial(&self) -> Denial {
        let mut found: Option<LiteralNumber> = None;
        let clause = self.clauses.entry(self.vivification.place);
        for literal in self.clauses.literals(clause) {
            match self.assignment.truth(*literal) {
                Truth::True => return Denial::Holds,
                Truth::False => {}
                Truth::Open => {
                    let is_first = match found {
                        Some(other) => self.activities.is_before(*literal, other / 2),
                        None => true,
                    };
                    if is_first {
                        found = Some(*literal);
                    }
                }
            }
        }
        match found {
            Some(literal) => Denial::Deny(negated(literal)),
            None => Denial::All,
        }
    }

    /// Something follows from the lemma again.
    pub fn end_denials(&mut self) {
        self.watches.mute(None);
    }

    /// The last lemma takes the place of the one that is looked at, which is forgotten.
    pub fn take_over(&mut self) {
        let old = self.clauses.entry(self.vivification.place);
        let last = self.clauses.entries().saturating_sub(1);
        let before = self.clauses.literals(old).len();
        let now = self.clauses.literals(self.clauses.entry(last)).len();
        let gone = before.saturating_sub(now);
        self.vivification.gone = self.vivification.gone.saturating_add(gone);
        self.forgetting.take_over(self.vivification.place, last);
        self.clauses.forget(old);
    }
}
