ghost use Rattle.best_bound.specs.Answers.{BestAnswerLaw};

use best_values::Points;
use refute_tree::Refutation;
use stn_core::Schedule;

/// What an objective comes to.
#[derive(Drop)]
pub enum Best {
    /// The problem holds on no schedule.
    Nothing(Refutation),
    /// A schedule, its value, and a refutation of the problem with one more clause, the last: the objective is less.
    Least(Schedule, i64, Refutation),
    /// A schedule, and points, the objective's first among them, that can be lowered together without end.
    Unbounded(Schedule, Points),
}

/// What the answers say of the best value: there is none where the problem holds on no values; this is it; there is none,
/// though the problem holds.
pub fn best_law()
    ensures { BestAnswerLaw }
{
    refute_tree::refutation_law();
    best_values::best_law();
    best_values::unbounded_law();
}
