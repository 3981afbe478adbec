//! How long slices are. Budgets are hints: no answer rests on them.

/// The greatest budget of a slice, where none was given that is greater.
const LIMIT: u64 = 1_000_000;

/// How many times the last budget the next one is. Without a conflict slices are steps of one descent to a schedule, and
/// so the next one is no more than twice as long.
const GROWTH: u64 = 2;

/// How many times it is, once there was a conflict, for one that works alone. Nobody waits for a part of the work, and
/// each division costs: with 2 in place of 32 random problems and mutual exclusion took 1.3 times as many conflicts.
const GROWTH_ALONE: u64 = 32;

/// And for one of several workers.
const GROWTH_BESIDE: u64 = 8;

/// The greatest budget of one of several workers, once there was a conflict: the others wait for the slice's end, for its
/// lemmas and for half of its cube.
const LIMIT_BESIDE: u64 = 32_000;

/// How many times the first budget a first slice has once there was a conflict: on a large problem a slice of the first
/// budget can end before it comes to another one.
const GROWTH_AT_FIRST: u64 = 4;

/// The budget of a worker's next slice, and how it grows: the first slice has the budget that is given, and the slice
/// after one that divided its cube twice the last budget, up to 1,000,000. Once there was a conflict it has a greater
/// multiple.
#[derive(Clone, Copy)]
pub struct Pacing {
    budget: u64,
    growth: u64,
    limit: u64,
}

impl Pacing {
    /// Of one that works alone.
    pub fn alone(budget: u64) -> Self {
        Pacing {
            budget,
            growth: GROWTH_ALONE,
            limit: LIMIT,
        }
    }

    /// Of one of several workers.
    pub fn beside(budget: u64) -> Self {
        Pacing {
            budget,
            growth: GROWTH_BESIDE,
            limit: LIMIT_BESIDE,
        }
    }

    /// Of one of the first slices, before there are several workers.
    pub fn at_first(budget: u64, met_conflict: bool) -> Self {
        if met_conflict {
            Pacing::beside(budget.saturating_mul(GROWTH_AT_FIRST))
        } else {
            Pacing::beside(budget)
        }
    }

    /// The next slice's budget.
    pub fn budget(&self) -> u64 {
        self.budget
    }

    /// After a slice that divided its cube.
    pub fn grow(&mut self, met_conflict: bool) {
        let (growth, limit) = if met_conflict {
            (self.growth, self.limit)
        } else {
            (GROWTH, LIMIT)
        };
        self.budget = self
            .budget
            .saturating_mul(growth)
            .min(limit.max(self.budget));
    }
}
