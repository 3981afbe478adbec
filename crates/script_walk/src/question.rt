//! Why a question is refused.
ghost use Rattle.std.specs.Prelude.{◌≡◌};
ghost use Rattle.smt_sexpr.specs.Tree.{Sexpr};
ghost use Rattle.smt_script.specs.States.{State};
ghost use Rattle.script_walk.specs.Questions.{points_of, problem_of, refusal_of};

use crate::kind::kind_of;
use best_values::fits;
use smt_answer::Kind;
use smt_script::{Question, Refusal};
use stn_core::Problem;

/// Why the question isn't taken, where this is the problem of the assertions. It takes the time of a look at each literal.
pub fn refusal_of(question: Question, problem: &Problem) -> Option<Kind>
    ensures { (s : State) (x : Sexpr) → problem.now.points ≡ points_of s.context
        → problem.now.clauses ≡ problem_of s.context → result ≡ refusal_of question s x }
{
    match question {
        Question::CheckSat => None,
        Question::Minimize(_) => {
            if fits(problem) {
                None
            } else {
                Some(kind_of(Refusal::ObjectiveTooLarge))
            }
        }
    }
}
