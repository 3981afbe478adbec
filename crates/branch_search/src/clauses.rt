//! Which clauses hold.
ghost use Rattle.std.specs.Prelude.{◌≡◌, ◌<◌, ◌≤◌, ℕ, [], length, All, true, false, MatchOption, IfSome};
ghost use Rattle.std.specs.Prelude.{Some, slice_get};
ghost use Rattle.stn_core.specs.Literal.{IsOver};
ghost use Rattle.stn_core.specs.Problem.{ClauseHolds, ProblemHolds};
ghost use Rattle.branch_search.specs.code.Clauses.{HoldBetween, IsFalse, IsFalseAt, IsNext, IsNotEmpty};

use stn_core::{Clause, Value, holds};

pub fn clause_holds(clause: &Clause, values: &[Value]) -> bool
    requires { All (IsOver (length values.now)) clause.now }
    ensures holds { result ≡ true → ClauseHolds values.now clause.now }
    ensures fails { result ≡ false → IsFalse values.now clause.now }
{
    for literal in clause.as_slice() {
        if holds(*literal, values) {
            return true;
        }
    }
    false
}

// The first clause from one number up to another that doesn't hold on the values.
fn false_between(clauses: &[Clause], values: &[Value], low: usize, high: usize) -> Option<usize>
    requires over { All (λ clause. All (IsOver (length values.now)) clause) clauses.now }
    requires high { high ≤ length clauses.now }
    ensures found { MatchOption result (HoldBetween values.now clauses.now low high)
        (IsFalseAt values.now clauses.now) }
    ensures first { IfSome result (λ i. (low ≤ i) × (i < high) × HoldBetween values.now clauses.now low i) }
{
    for i in low..high {
        if !clause_holds(&clauses[i], values) {
            return Some(i);
        }
    }
    None
}

// A clause that doesn't hold on the values: the first from a number on, or else the first of all.
pub fn false_clause(clauses: &[Clause], values: &[Value], from: usize) -> Option<usize>
    requires over { All (λ clause. All (IsOver (length values.now)) clause) clauses.now }
    requires from { from ≤ length clauses.now }
    ensures found { MatchOption result (ProblemHolds values.now clauses.now)
        (IsFalseAt values.now clauses.now) }
    ensures next { IfSome result (IsNext values.now clauses.now from) }
{
    match false_between(clauses, values, from, clauses.len()) {
        Some(i) => Some(i),
        None => false_between(clauses, values, 0, from),
    }
}
