//! The problem of a script's assertions, which is made once as long as nothing is changed.
ghost use Rattle.std.specs.Prelude.{◌≡◌, ◌≢◌, IfOk, None};
ghost use Rattle.smt_script.specs.States.{State as Meaning};
ghost use Rattle.script_walk.specs.code.Standing.{Stands};
ghost use Rattle.dtp_check.specs.code.Made.{IsProblemOf, IsMadeOf, IsMadeStill};

use dtp_entry::problem;
use smt_script::{Mode, State};
use std::alloc::{AllocError, Global};
use stn_core::Problem;

/// Lets the problem go that was made, where something was changed since the last question.
pub fn let_go_if_changed(state: &State, made: &mut Option<Problem>)
    requires { IsMadeStill state.now made.old }
    ensures { IsMadeOf state.now made.new }
{
    match state.mode() {
        Mode::Nothing => *made = None,
        Mode::Sat | Mode::Unsat => {}
    }
}

/// Lets the problem go that was made, where it is of assumptions too: behind the answer these aren't asserted any more.
pub fn let_go_if_assumed(state: &State, made: &mut Option<Problem>)
    requires { IsMadeOf state.now made.old }
    ensures made { IsMadeOf state.now made.new }
    ensures gone { state.now.assumed ≢ None → made.new ≡ None }
{
    if state.assumptions().is_some() {
        *made = None;
    }
}

/// The problem of the state's assertions: that which was made, or else made now.
pub fn take_or_make(
    alloc: Global,
    state: &State,
    made: &mut Option<Problem>,
) -> Result<Problem, AllocError>
    requires stands { (s : Meaning) × Stands state.now s }
    requires made { IsMadeOf state.now made.old }
    ensures problem { IfOk result (IsProblemOf state.now) }
    ensures taken { made.new ≡ None }
{
    match made.take() {
        Some(problem) => Ok(problem),
        None => problem(alloc, state),
    }
}
