//! Which clauses hold.
ghost use Rattle.std.specs.Prelude.{◌≡◌, length, All, true};
ghost use Rattle.stn_core.specs.Literal.{IsOver};
ghost use Rattle.stn_core.specs.Problem.{ClauseHolds, ProblemHolds};

use stn_core::{Clause, Value, holds};

fn clause_holds(clause: &Clause, values: &[Value]) -> bool
    requires { All (IsOver (length values.now)) clause.now }
    ensures { result ≡ true → ClauseHolds values.now clause.now }
{
    for literal in clause.as_slice() {
        if holds(*literal, values) {
            return true;
        }
    }
    false
}

/// Whether all of the clauses hold on the values.
pub(crate) fn all_hold(clauses: &[Clause], values: &[Value]) -> bool
    requires { All (λ clause. All (IsOver (length values.now)) clause) clauses.now }
    ensures { result ≡ true → ProblemHolds values.now clauses.now }
{
    for clause in clauses {
        if !clause_holds(clause, values) {
            return false;
        }
    }
    true
}
