//! The search itself.
use crate::clauses::{Clauses, entry, narrow};
use crate::violated::Violated;
use std::alloc::{AllocError, Global};
use stn_core::{Literal, Problem, Value};

/// No value goes further from 0.
const FARTHEST: i64 = 1 << 60;

/// Of so many steps one is drawn, and not the best.
const DRAWN: u64 = 200;

/// The weights are lowered once for so many times that they were raised.
const RAISES: u64 = 64;

/// What the numbers are drawn from at first.
const SEED: u64 = 0x2545_f491_4f6c_dd1d;

/// A value for a time point, and by how much more the clauses weigh then that don't hold.
#[derive(Clone, Copy)]
struct Move {
    point: u32,
    value: i64,
    loss: i64,
}

/// The literal's first point is lowered, or its second one raised.
#[derive(Clone, Copy)]
enum Way {
    Lower,
    Raise,
}

const WAYS: [Way; 2] = [Way::Lower, Way::Raise];

/// Values of a problem's time points, all 0 at first, and what is known of the clauses on them.
///
/// It takes memory in the literals of the problem. Its steps are the same in each run.
pub struct LocalSearch {
    clauses: Clauses,
    values: Vec<i64>,
    /// for each literal whether it holds
    truths: Vec<bool>,
    /// for each clause how many of its literals hold
    counts: Vec<u32>,
    violated: Violated,
    drawn: u64,
    raised: u64,
    /// how many literals were looked at
    looked_at: u64,
    /// how few clauses didn't hold in the search so far
    fewest: usize,
}

impl Drop for LocalSearch {
    fn drop(self) {
        let LocalSearch {
            clauses,
            values,
            truths,
            counts,
            violated,
            drawn: _,
            raised: _,
            looked_at: _,
            fewest: _,
        } = self;
        drop(clauses);
        drop(values);
        drop(truths);
        drop(counts);
        drop(violated);
    }
}

impl LocalSearch {
    /// The one error is want of memory.
    pub fn new(alloc: Global, problem: &Problem) -> Result<Self, AllocError> {
        let points = problem.points as usize;
        let clauses = Clauses::new(alloc, problem.clauses.as_slice(), points)?;
        let mut made = LocalSearch {
            values: vec![in alloc; 0i64; points]?,
            truths: vec![in alloc; false; clauses.literals()]?,
            counts: vec![in alloc; 0u32; clauses.count()]?,
            violated: Violated::new(alloc, clauses.count())?,
            clauses,
            drawn: SEED,
            raised: 0,
            looked_at: 0,
            fewest: usize::MAX,
        };
        for clause in 0..made.counts.len() {
            made.count(clause);
            made.note(clause)?;
        }
        Ok(made)
    }

    /// How few clauses didn't hold at some time in the last search.
    pub fn fewest(&self) -> usize {
        self.fewest
    }

    /// How many literals were looked at, in all searches.
    pub fn looked_at(&self) -> u64 {
        self.looked_at
    }

    /// The values, none above 0, in memory of their own.
    pub fn values(&self, alloc: Global) -> Result<Vec<Value>, AllocError> {
        let mut most = i64::MIN;
        for value in self.values.iter() {
            most = most.max(*value);
        }
        let mut values = Vec::with_capacity(alloc, self.values.len())?;
        for value in self.values.iter() {
            values.push(Value::from(*value) - Value::from(most))?;
        }
        Ok(values)
    }

    /// Steps until all clauses hold, or so many literals were looked at. Whether all hold. The one error is want of memory.
    pub fn search(&mut self, effort: u64) -> Result<bool, AllocError> {
        let limit = self.looked_at.saturating_add(effort);
        self.fewest = self.violated.count();
        for _step in 0..effort {
            if self.fewest == 0 {
                return Ok(true);
            }
            if self.looked_at >= limit {
                return Ok(false);
            }
            self.step()?;
            self.fewest = self.fewest.min(self.violated.count());
        }
        Ok(self.fewest == 0)
    }

    // A number that is drawn (Marsaglia, "Xorshift RNGs", 2003).
    fn draw(&mut self) -> u64 {
        let mut drawn = self.drawn;
        drawn ^= drawn << 13;
        drawn ^= drawn >> 7;
        drawn ^= drawn << 17;
        self.drawn = drawn;
        drawn
    }

    // One clause that doesn't hold comes to hold.
    fn step(&mut self) -> Result<(), AllocError> {
        self.looked_at = self.looked_at.saturating_add(1);
        let number = self.draw();
        let Some(clause) = self.violated.drawn(number >> 8) else {
            return Ok(());
        };
        let is_drawn = number % DRAWN == 0;
        let Some(best) = self.best(clause, is_drawn) else {
            return Ok(());
        };
        if !is_drawn && best.loss >= 0 {
            self.weigh();
        }
        self.make(best)
    }

    // Clauses that don't hold weigh more.
    fn weigh(&mut self) {
        self.violated.raise();
        self.raised = self.raised.saturating_add(1);
        if self.raised >= RAISES {
            self.violated.lower();
            self.raised = 0;
        }
    }

    // The change that loses least, of those by which the clause comes to hold, or one that is drawn.
    fn best(&mut self, clause: usize, is_drawn: bool) -> Option<Move> {
        let (start, end) = self.clauses.span(clause);
        let mut best: Option<Move> = None;
        let mut alike = 0u64;
        for literal in start..end {
            for way in WAYS.iter() {
                if let Some(change) = self.change(literal, *way, is_drawn) {
                    best = self.better(best, change, &mut alike);
                }
            }
        }
        best
    }

    // The one that loses less; of those that lose alike, of which there were so many, each as likely as another.
    fn better(&mut self, best: Option<Move>, change: Move, alike: &mut u64) -> Option<Move> {
        let Some(other) = best else {
            *alike = 1;
            return Some(change);
        };
        if change.loss < other.loss {
            *alike = 1;
            return Some(change);
        }
        if change.loss > other.loss {
            return best;
        }
        *alike = alike.saturating_add(1);
        if self.draw().checked_rem(*alike) == Some(0) {
            return Some(change);
        }
        best
    }

    // How the literal comes to hold, and what is lost by that, unless one is drawn.
    fn change(&mut self, literal: usize, way: Way, is_drawn: bool) -> Option<Move> {
        let bound = self.clauses.literal(literal)?;
        let (point, value) = match way {
            Way::Lower => (bound.x, self.value(bound.y).wrapping_add(bound.c)),
            Way::Raise => (bound.y, self.value(bound.x).wrapping_sub(bound.c)),
        };
        if value < -FARTHEST || value > FARTHEST {
            return None;
        }
        if is_drawn {
            return Some(Move {
                point,
                value,
                loss: 0,
            });
        }
        let count = self.clauses.of_point(point).len() as u64;
        self.looked_at = self.looked_at.saturating_add(count);
        let loss = self.loss(point, value);
        Some(Move { point, value, loss })
    }

    // By how much more the clauses weigh that don't hold, once the point has the value.
    fn loss(&self, point: u32, value: i64) -> i64 {
        let mut loss = 0i64;
        let mut clause = u32::MAX;
        let mut before = 0usize;
        let mut now = 0usize;
        for touch in self.clauses.of_point(point) {
            if touch.clause != clause {
                loss = loss.wrapping_add(self.gained(clause, before, now));
                clause = touch.clause;
                before = entry(self.counts.as_slice(), clause as usize);
                now = before;
            }
            let held = self.truth(touch.literal);
            let holds = touch.holds(value, self.values.as_slice());
            if holds && !held {
                now = now.wrapping_add(1);
            } else if held && !holds {
                now = now.wrapping_sub(1);
            }
        }
        loss.wrapping_add(self.gained(clause, before, now))
    }

    // By how much more the clauses weigh that don't hold, where so many literals of this one held, and so many do.
    fn gained(&self, clause: u32, before: usize, now: usize) -> i64 {
        if before > 0 && now == 0 {
            self.violated.weight(clause as usize)
        } else if before == 0 && now > 0 {
            self.violated.weight(clause as usize).wrapping_neg()
        } else {
            0
        }
    }

    // The point has the value from now on.
    fn make(&mut self, change: Move) -> Result<(), AllocError> {
        if let Some(value) = self.values.get_mut(change.point as usize) {
            *value = change.value;
        }
        let count = self.clauses.of_point(change.point).len();
        for place in 0..count {
            if let Some(touch) = self.clauses.of_point(change.point).get(place).copied() {
                let holds = touch.holds(change.value, self.values.as_slice());
                self.set(touch.literal, touch.clause, holds);
            }
        }
        for place in 0..count {
            if let Some(touch) = self.clauses.of_point(change.point).get(place).copied() {
                self.note(touch.clause as usize)?;
            }
        }
        Ok(())
    }

    // The literal of the clause holds, or doesn't, and so many of the clause's do.
    fn set(&mut self, literal: u32, clause: u32, holds: bool) {
        if holds == self.truth(literal) {
            return;
        }
        if let Some(truth) = self.truths.get_mut(literal as usize) {
            *truth = holds;
        }
        if let Some(count) = self.counts.get_mut(clause as usize) {
            *count = if holds {
                count.saturating_add(1)
            } else {
                count.saturating_sub(1)
            };
        }
    }

    // Which literals of the clause hold.
    fn count(&mut self, clause: usize) {
        let (start, end) = self.clauses.span(clause);
        for place in start..end {
            if let Some(literal) = self.clauses.literal(place) {
                let holds = self.holds(literal);
                self.set(narrow(place), narrow(clause), holds);
            }
        }
    }

    // Whether the clause holds now.
    fn note(&mut self, clause: usize) -> Result<(), AllocError> {
        let holds = entry(self.counts.as_slice(), clause) > 0;
        self.violated.set(clause, holds)
    }

    fn value(&self, point: u32) -> i64 {
        self.values.get(point as usize).copied().unwrap_or(0)
    }

    // Whether the literal was found to hold.
    fn truth(&self, literal: u32) -> bool {
        self.truths.get(literal as usize).copied().unwrap_or(false)
    }

    fn holds(&self, bound: Literal) -> bool {
        self.value(bound.x).wrapping_sub(self.value(bound.y)) <= bound.c
    }
}
