//! A plan for points that are pairwise apart in an interval with fewer values than there are of them. A search over
//! their order tries all orders; this plan has it learn, for each subset of m of them, that one is at least
//! m - 1 above the interval's start. What is known of the subsets with one point less leads to that in some m
//! conflicts, so that n points take some n 2^n of them in place of n!, and what is known of them all lies
//! beyond the interval's end.
//!
//! The bounds are new literals.
use crate::assignment::{Assignment, Truth};
use crate::boxes;
use crate::boxes::Overfull;
use crate::guide::Guide;
use crate::numbers::{LiteralNumber, Numbers, negated};
use std::alloc::{AllocError, Global};
use stn_core::{BOUND_LIMIT, Literal, Problem};

/// There is a clause for each subset, of at most so many points.
const MOST_POINTS: u32 = 14;

/// The clause of fewer points follows without a plan.
const LEAST_SUBSET: u32 = 3;

/// What comes next of the plan for a subset.
#[derive(Clone, Copy)]
enum Turn {
    Decide(LiteralNumber),
    /// Its clause is known.
    Known,
    /// Its clause isn't learned: something that leads to it was forgotten.
    Failed,
}

/// The plan for one such set.
pub struct HallSet {
    /// how many points it has; none where there is no set, or its plan is over
    points: u32,
    /// for each point the numbers of the bounds that it is at least 1, 2, .. above the interval's start, up to its
    /// end
    bounds: Vec<LiteralNumber>,
    /// the subset whose clause is learned now, a bit for each point
    subset: u32,
    /// whether literals are decided for another subset
    is_stale: bool,
}

impl Drop for HallSet {
    fn drop(self) {
        let HallSet {
            points: _,
            bounds,
            subset: _,
            is_stale: _,
        } = self;
        drop(bounds);
    }
}

impl HallSet {
    pub fn none(alloc: Global) -> Self {
        HallSet {
            points: 0,
            bounds: Vec::new(alloc),
            subset: 0,
            is_stale: false,
        }
    }

    /// The plan for such points of the problem, if there are any. Their bounds get numbers.
    pub fn find(
        alloc: Global,
        problem: &Problem,
        numbers: &mut Numbers,
    ) -> Result<Self, AllocError> {
        let mut set = HallSet::none(alloc);
        if let Some(overfull) = boxes::find(alloc, problem)? {
            set.begin(&overfull, numbers)?;
        }
        Ok(set)
    }

    /// The plan begins. There is none where a bound is beyond the limits.
    fn begin(&mut self, overfull: &Overfull, numbers: &mut Numbers) -> Result<(), AllocError> {
        for point in &overfull.points {
            for above in 1..overfull.range.saturating_add(1) {
                let bound = overfull.lower.saturating_add(i64::from(above));
                if bound.unsigned_abs() > BOUND_LIMIT {
                    return Ok(());
                }
                let number = numbers.insert(Literal {
                    x: overfull.origin,
                    y: *point,
                    c: 0i64.saturating_sub(bound),
                })?;
                self.bounds.push(number)?;
            }
        }
        self.points = overfull.range.saturating_add(2).min(MOST_POINTS);
        self.next_subset();
        Ok(())
    }

    pub fn is_under_way(&self) -> bool {
        self.points > 0
    }

    /// To the next subset of enough points: all subsets of one come before it. Behind the last one the plan is over.
    fn next_subset(&mut self) {
        let limit = 1u32.checked_shl(self.points).unwrap_or(0);
        for subset in self.subset.saturating_add(1)..limit {
            if subset.count_ones() >= LEAST_SUBSET {
                self.subset = subset;
                return;
            }
        }
        self.points = 0;
    }

    /// The bound that a point is at least so much above the interval's start. None for 0, and beyond the end.
    fn bound(&self, point: u32, above: u32) -> Option<LiteralNumber> {
        let range = self.points.saturating_sub(2);
        if above == 0 || above > range {
            return None;
        }
        let place = point.saturating_mul(range).saturating_add(above - 1);
        self.bounds.get(place as usize).copied()
    }

    /// The first bound of one of the subset's points, so much above the start, that stands so.
    fn bound_that_is(
        &self,
        truth: Truth,
        above: u32,
        assignment: &Assignment,
    ) -> Option<LiteralNumber> {
        for point in 0..self.points {
            let is_member = self.subset.checked_shr(point).unwrap_or(0) % 2 == 1;
            if let (true, Some(number)) = (is_member, self.bound(point, above)) {
                if assignment.truth(number) == truth {
                    return Some(number);
                }
            }
        }
        None
    }

    /// First each point of the subset is below what its clause says, and then one of them as near to that as it can be.
    fn turn(&self, assignment: &Assignment) -> Turn {
        let above = self.subset.count_ones().saturating_sub(1);
        if self.bound_that_is(Truth::True, above, assignment).is_some() {
            return Turn::Known;
        }
        if let Some(number) = self.bound_that_is(Truth::Open, above, assignment) {
            return Turn::Decide(negated(number));
        }
        match self.bound_that_is(Truth::Open, above.saturating_sub(1), assignment) {
            Some(number) => Turn::Decide(number),
            None => Turn::Failed,
        }
    }

    /// Whether the trail is to go back to the root: the subset's clause is known, and the next subset's turn comes, or
    /// something is decided that isn't of its plan.
    pub fn wants_root(&mut self, assignment: &Assignment) -> bool {
        let mut wants = self.is_stale;
        self.is_stale = false;
        if let Turn::Known = self.turn(assignment) {
            self.next_subset();
            wants = true;
        }
        wants
    }
}

impl Guide {
    /// The next literal to decide for points that have no schedule, if there are any.
    pub(crate) fn next_of_hall_set(&mut self) -> Option<LiteralNumber> {
        for _turn in 0..1u32 << MOST_POINTS {
            if !self.hall_set.is_under_way() {
                return None;
            }
            match self.hall_set.turn(&self.assignment) {
                Turn::Decide(number) => return Some(number),
                Turn::Known | Turn::Failed => {
                    self.hall_set.is_stale = self.above_root > 0;
                    self.hall_set.next_subset();
                }
            }
        }
        None
    }
}
