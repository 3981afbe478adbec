use refute_tree::Refutation;
use stn_core::Schedule;

/// What a book comes to.
#[derive(Drop)]
pub enum Verdict {
    /// The problem holds on this schedule, the one that was found first.
    Sat(Schedule),
    /// The problem has no solution.
    Unsat(Refutation),
}
