//! New literals: a bound that follows whichever literal of a clause holds becomes a literal of the search,
//! whose lemma a few conflicts teach. Its negation is decided, then the clause's literals one by one: each
//! leads to a conflict with the negation, and the last one to the lemma that the bound holds. So a chain of
//! clauses, each of which offers some ways from one point to the next, is refuted in time of its length, where
//! a search without new literals tries all ways.
//!
//! It is done once, at the root, up to so many steps of propagation.
use crate::assignment::Truth;
use crate::common::Common;
use crate::guide::Guide;
use crate::numbers::{LiteralNumber, narrow, negated};
use crate::watches::Proposal;
use std::alloc::{AllocError, Global};
use stn_core::Literal;

/// A clause has at most so many open literals, and each brings about at most so many literals.
const MOST_ALTERNATIVES: usize = 4;

const MOST_LITERALS: usize = 64;

/// So many propagations, and as many for each atom.
const LEAST_WORK: usize = 20_000;

const WORK: usize = 4;

/// To read so many literals of long clauses is as much as one.
const READ: usize = 64;

/// How often a bound's negation is decided.
const ATTEMPTS: usize = 8;

/// Which new literals are made, one after the other.
pub struct Probing {
    /// the clause of the problem that is looked at next
    next: usize,
    /// how many propagations are left, once they were counted
    work: Option<usize>,
    is_over: bool,
    common: Common,
    /// the literals of the clause that is looked at
    alternatives: Vec<LiteralNumber>,
    /// for each literal the alternative from which it followed last, as the alternatives of all clauses are
    /// counted, where it follows from those of its clause before that
    met: Vec<usize>,
    /// the literals that follow from all of them, and the bounds that do, which are still to be learned
    shared: Vec<LiteralNumber>,
    bounds: Vec<Literal>,
    /// what is decided for one of them, how much of it was, and how often from the start
    plan: Vec<LiteralNumber>,
    place: usize,
    attempts: usize,
    /// the literals that an alternative brings about
    reached: Vec<LiteralNumber>,
}

impl Drop for Probing {
    fn drop(self) {
        let Probing {
            next: _,
            work,
            is_over: _,
            common,
            alternatives,
            met,
            shared,
            bounds,
            plan,
            place: _,
            attempts: _,
            reached,
        } = self;
        drop(work);
        drop(common);
        drop(alternatives);
        drop(met);
        drop(shared);
        drop(bounds);
        drop(plan);
        drop(reached);
    }
}

impl Probing {
    /// Of a search over so many time points, which makes new literals or doesn't.
    pub fn new(alloc: Global, points: u32, new_literals: bool) -> Result<Self, AllocError> {
        Ok(Probing {
            next: 0,
            work: None,
            is_over: !new_literals,
            common: Common::new(alloc, points)?,
            alternatives: Vec::new(alloc),
            met: Vec::new(alloc),
            shared: Vec::new(alloc),
            bounds: Vec::new(alloc),
            plan: Vec::new(alloc),
            place: 0,
            attempts: 0,
            reached: Vec::new(alloc),
        })
    }

    /// Whether the literals that are decided now are those of a plan.
    pub fn is_under_way(&self) -> bool {
        self.place > 0
    }

    fn give_up(&mut self) {
        self.place = 0;
        self.plan.truncate(0);
    }

    /// A propagation that read so many literals of clauses. Where a literal stands in a long clause many times, or most
    /// of its literals are denied at the root, each alternative that denies one of the others reads it whole.
    fn spend(&mut self, read: usize) {
        let spent = (read / READ).saturating_add(1);
        let work = self.work.unwrap_or(0);
        self.work = Some(work.saturating_sub(spent));
    }
}

impl Guide {
    /// The next literal to decide for a new literal's sake, if there is one.
    pub(crate) fn probe(&mut self) -> Option<LiteralNumber> {
        if self.probing.is_over {
            return None;
        }
        if self.above_root > 0 {
            return self.next_planned();
        }
        match self.begin_plan() {
            Ok(Some(number)) => Some(number),
            Ok(None) | Err(_) => {
                self.probing.is_over = true;
                self.probing.give_up();
                None
            }
        }
    }

    /// The plan's next literal that is open. Where the last one that was decided holds still, the plan was no
    /// good.
    fn next_planned(&mut self) -> Option<LiteralNumber> {
        let last = self.probing.place.checked_sub(1)?;
        let number = self.probing.plan.get(last).copied()?;
        if last > 0 && self.truth(number) == Truth::True {
            self.probing.give_up();
            return None;
        }
        for place in self.probing.place..self.probing.plan.len() {
            let number = self.probing.plan.get(place).copied()?;
            if self.truth(number) == Truth::Open {
                self.probing.place = place.wrapping_add(1);
                return Some(number);
            }
        }
        self.probing.give_up();
        None
    }

    /// The first literal of a plan: of the same one as before, where its bound is still open, or else of the
    /// next.
    fn begin_plan(&mut self) -> Result<Option<LiteralNumber>, AllocError> {
        self.probing.attempts = self.probing.attempts.wrapping_add(1);
        if let Some(number) = self.probing.plan.first().copied() {
            if self.truth(number) == Truth::Open && self.probing.attempts < ATTEMPTS {
                self.probing.place = 1;
                return Ok(Some(number));
            }
        }
        self.probing.give_up();
        for _turn in 0..self.clauses.inputs() {
            if let Some(number) = self.probing.shared.pop() {
                if let Some(number) = self.make_plan(number)? {
                    return Ok(Some(number));
                }
            } else if let Some(bound) = self.probing.bounds.pop() {
                let number = self.add_literal(bound)?;
                if let Some(number) = self.make_plan(number)? {
                    return Ok(Some(number));
                }
            } else if !self.look_at_next()? {
                return Ok(None);
            }
        }
        Ok(None)
    }

    /// The literal's negation, and then the alternatives; nothing where the literal is known.
    fn make_plan(&mut self, number: LiteralNumber) -> Result<Option<LiteralNumber>, AllocError> {
        let number = negated(number);
        if self.truth(number) != Truth::Open {
            return Ok(None);
        }
        self.probing.plan.push(number)?;
        for k in 0..self.probing.alternatives.len() {
            if let Some(alternative) = self.probing.alternatives.get(k).copied() {
                self.probing.plan.push(alternative)?;
            }
        }
        self.probing.place = 1;
        self.probing.attempts = 0;
        Ok(Some(number))
    }

    /// Looks for the bounds that follow from the next clause, if there is one and work is left.
    fn look_at_next(&mut self) -> Result<bool, AllocError> {
        let most = LEAST_WORK.saturating_add(self.numbers.len().saturating_mul(WORK));
        let work = self.probing.work.unwrap_or(most);
        self.probing.work = Some(work);
        let clause = self.probing.next;
        if work == 0 || clause >= self.clauses.inputs() {
            return Ok(false);
        }
        self.probing.next = clause.wrapping_add(1);
        // the last clause first: the names of outer terms come last
        let clause = self.clauses.inputs().saturating_sub(self.probing.next);
        if self.read_alternatives(narrow(clause))? && self.try_alternatives()? {
            self.probing.common.bounds(&mut self.probing.bounds)?;
        }
        Ok(true)
    }

    /// Whether the clause has few open literals and none that holds.
    fn read_alternatives(&mut self, clause: u32) -> Result<bool, AllocError> {
        self.probing.alternatives.truncate(0);
        for number in self.clauses.literals(clause) {
            match self.assignment.truth(*number) {
                Truth::True => return Ok(false),
                Truth::False => {}
                Truth::Open => self.probing.alternatives.push(*number)?,
            }
            if self.probing.alternatives.len() > MOST_ALTERNATIVES {
                return Ok(false);
            }
        }
        Ok(self.probing.alternatives.len() >= 2)
    }

    /// Whether each of them brings about some literals that aren't pure.
    fn try_alternatives(&mut self) -> Result<bool, AllocError> {
        self.probing.common.start();
        let mut least = MOST_LITERALS;
        for k in 0..self.probing.alternatives.len() {
            let Some(number) = self.probing.alternatives.get(k).copied() else {
                return Ok(false);
            };
            let is_consistent = self.reach(number);
            let count = self.tell_reached(k)?;
            self.take_back();
            if !is_consistent? {
                self.probing.shared.push(negated(number))?;
                return Ok(false);
            }
            if count > MOST_LITERALS {
                return Ok(false);
            }
            least = least.min(count);
        }
        Ok(least > 0)
    }

    /// What the literal brings about, by ladders and clauses alone, is set; whether that is consistent.
    fn reach(&mut self, number: LiteralNumber) -> Result<bool, AllocError> {
        self.reach_one(number)?;
        let limit = self.literals();
        for place in 0..limit {
            let Some(number) = self.probing.reached.get(place).copied() else {
                return Ok(true);
            };
            let before = self.watches.read();
            let is_consistent = self.reach_from(number)?;
            self.probing.spend(self.watches.read().wrapping_sub(before));
            if !is_consistent {
                return Ok(false);
            }
        }
        Ok(true)
    }

    fn reach_one(&mut self, number: LiteralNumber) -> Result<(), AllocError> {
        self.probing.reached.push(number)?;
        self.assignment.set(number, self.probing.reached.len(), 1);
        Ok(())
    }

    /// The same for what follows from one of them.
    fn reach_from(&mut self, number: LiteralNumber) -> Result<bool, AllocError> {
        self.begin(number);
        for _turn in 0..self.literals() {
            let next = match self.next()? {
                Proposal::Nothing => return Ok(true),
                Proposal::Conflict(_) => return Ok(false),
                Proposal::Weaker(weaker) => Some(weaker),
                Proposal::Unit(_, _, number) => Some(number),
            };
            let Some(next) = next else {
                return Ok(false);
            };
            match self.truth(next) {
                Truth::True => {}
                Truth::False => return Ok(false),
                Truth::Open => self.reach_one(next)?,
            }
        }
        Ok(true)
    }

    /// The literals that were set and aren't pure are what an alternative brings about.
    fn tell_reached(&mut self, alternative: usize) -> Result<usize, AllocError> {
        let is_last = alternative.wrapping_add(1) == self.probing.alternatives.len();
        let before = self
            .probing
            .next
            .wrapping_mul(MOST_ALTERNATIVES)
            .wrapping_add(alternative);
        for _missing in self.probing.met.len()..self.literals() {
            self.probing.met.push(0)?;
        }
        self.probing.shared.truncate(0);
        for k in (0..self.probing.reached.len()).rev() {
            let Some(number) = self.probing.reached.get(k).copied() else {
                continue;
            };
            if let Some(met) = self.probing.met.get_mut(number as usize) {
                if alternative == 0 || *met == before {
                    *met = before.wrapping_add(1);
                    if is_last {
                        self.probing.shared.push(number)?;
                    }
                }
            }
            if !self.phases.is_pure(number) {
                if let Some(literal) = self.numbers.literal(number) {
                    self.probing.common.push(literal)?;
                }
            }
        }
        self.probing.common.end_alternative()
    }

    /// They are open again.
    fn take_back(&mut self) {
        for number in &self.probing.reached {
            self.assignment.unset(*number);
        }
        self.probing.reached.truncate(0);
    }
}
