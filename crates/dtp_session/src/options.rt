//! How a script is to be decided.
ghost use Rattle.std.specs.Prelude.{◌≤◌};

/// How questions are searched.
#[derive(Clone, Copy, Debug, PartialEq, Eq)]
pub struct SearchOptions {
    /// How many workers search.
    pub workers: u32,
    /// How many literals a slice of search may add.
    pub slice: u32,
    pub ghost workers_in: { (1 ≤ workers) × (workers ≤ 64) },
    pub ghost slice_in: { (1 ≤ slice) × (slice ≤ 1000000) },
}
