//! The four numbers of a job shop.
ghost use Rattle.std.specs.Prelude.{◌≤◌};

/// What a job shop's script is made from.
#[derive(Clone, Copy, Debug, PartialEq, Eq)]
pub struct PlanNumbers {
    /// How many jobs, 1 to 40.
    pub jobs: u32,
    /// How many machines, 1 to 40.
    pub machines: u32,
    /// What orders and durations are drawn from, any.
    pub start: u32,
    /// When all jobs must have ended, any.
    pub deadline: u32,
    pub ghost jobs_in: { (1 ≤ jobs) × (jobs ≤ 40) },
    pub ghost machines_in: { (1 ≤ machines) × (machines ≤ 40) },
}
