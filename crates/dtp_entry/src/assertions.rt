//! What the assertions of a state come to.
ghost use Rattle.std.specs.Prelude.{◌≡◌, IfOk};
ghost use Rattle.smt_script.specs.States.{State as Meaning};
ghost use Rattle.dtp_entry.specs.Entries.{points_of, problem_of};
ghost use Rattle.script_walk.specs.code.Standing.{Stands};

use clause_form::problem_of;
use smt_script::State;
use std::alloc::{AllocError, Global};
use stn_core::Problem;

/// The problem of the assertions.
pub fn problem(alloc: Global, state: &State) -> Result<Problem, AllocError>
    requires { (s : Meaning) × Stands state.now s }
    ensures { IfOk result (λ problem. (s : Meaning) → Stands state.now s
        → (problem.points ≡ points_of s.context) × (problem.clauses ≡ problem_of s.context)) }
{
    idl_term::context_law();
    clause_form::clause_form_law();
    let points = state.names().len() as u32 + 1;
    problem_of(alloc, points, state.nodes(), state.roots())
}
