//! Whether the distances between points are worth their time: on mutual exclusion and circuits, where clauses alone lead to
//! most conflicts, one rests on a literal that follows by them in five to twenty conflicts, and adding to them takes a fifth of
//! the time; on job shops, plans and random problems five to nine such literals stand in each conflict.
use crate::guide::Guide;

/// So many conflicts are looked at in any case.
const TRIAL: u64 = 250;

/// What is known of it.
#[derive(Clone, Copy)]
pub struct DistancesWorth {
    /// on how many literals that follow by distances the conflicts rested, on the level on which each was met
    used: u64,
}

impl DistancesWorth {
    pub fn new() -> Self {
        DistancesWorth { used: 0 }
    }
}

impl Guide {
    /// A conflict rests on a literal that follows by distances.
    pub fn use_distances(&mut self) {
        self.distances_worth.used = self.distances_worth.used.saturating_add(1);
    }

    /// Whether clauses alone lead to most conflicts.
    pub(crate) fn is_clausal(&self) -> bool {
        !self.wants_distances()
    }

    /// Whether distances are to be kept: few conflicts were met, or there are half as many such literals as conflicts.
    pub fn wants_distances(&self) -> bool {
        let conflicts = self.forgetting.conflicts();
        conflicts < TRIAL || conflicts / 2 <= self.distances_worth.used || self.has_plan()
    }
}
