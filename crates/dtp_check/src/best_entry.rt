//! What is wrong with a best entry.
ghost use Rattle.std.specs.Prelude.{◌≡◌, ◌↔◌, ◌<◌, ◌+◌, [], ◌∷◌, ◌++◌, Bool, List, length, IfOk, IsTrue, MatchOption, Some, None, ◌+ℤ◌, ◌-ℤ◌};
ghost use Rattle.kept_lemmas.specs.Entries.{Placed as Place};
ghost use Rattle.cert_text.specs.declared.entry.FileEntry.{FileEntry as Shown};
ghost use Rattle.stn_core.specs.Literal.{value_at};
ghost use Rattle.best_values.specs.Widths.{IsWithinLimit};
ghost use Rattle.idl_node.specs.Truth.{point_values};
ghost use Rattle.smt_sexpr.specs.Tree.{Sexpr};
ghost use Rattle.smt_script.specs.declared.state.Question.TheVariants.{Minimize};
ghost use Rattle.smt_script.specs.States.{State as Meaning};
ghost use Rattle.dtp_check.specs.declared.judgement.EntryFlaw.TheVariants.{OutOfRange};
ghost use Rattle.dtp_check.specs.MinimizeFlaws.{range_flaw};
ghost use Rattle.dtp_check.specs.Judged.{refutation_flaw, entry_flaw, placed_items, placed};
ghost use Rattle.dtp_check.specs.code.Asked.{IsAsked, IsLeastFound, asked_clauses};
ghost use Rattle.dtp_check.specs.code.Earlier.{Holds, HoldsTrees, Suffices};
ghost use Rattle.dtp_check.specs.code.Made.{IsMadeOf};

use crate::asking::{with_question, without_question};
use crate::earlier::Earlier;
use crate::judgement::EntryFlaw;
use crate::made::take_or_make;
use crate::sat_entry::values_flaw;
use best_values::OBJECTIVE_LIMIT;
use cert_check::CheckError;
use idl_node::point_value;
use kept_lemmas::Items;
use smt_script::{Objective, State};
use std::alloc::{AllocError, Global};
use stn_core::{NamedValue, NamedValues, Problem, Value};

/// Whether x - y + k is m. The values may be any: where x - y is no `Value`, x + k is one if the whole is.
fn is_sum(x: Value, y: Value, k: i64, m: Value) -> bool
    ensures { IsTrue result ↔ (((x -ℤ y) +ℤ k) ≡ m) }
{
    let offset = Value::from(k);
    match x.checked_sub(y) {
        Some(rest) => match rest.checked_add(offset) {
            Some(sum) => sum == m,
            None => false,
        },
        None => match x.checked_add(offset) {
            Some(sum) => match sum.checked_sub(y) {
                Some(rest) => rest == m,
                None => false,
            },
            None => false,
        },
    }
}

/// Whether the objective has the value m where the names have these values.
fn is_attained(objective: Objective, values: &[NamedValue], m: Value) -> bool
    requires x { objective.x < length values.now + 1 }
    requires y { objective.y < length values.now + 1 }
    ensures { IsTrue result ↔ (((value_at (point_values values.now) objective.x
        -ℤ value_at (point_values values.now) objective.y) +ℤ objective.k) ≡ m) }
{
    let x = point_value(values, objective.x);
    let y = point_value(values, objective.y);
    is_sum(x, y, objective.k, m)
}

/// The value of the objective's difference of points where the objective has the value m, if that is within the limit.
fn difference(objective: Objective, m: Value) -> Option<Value>
    ensures { MatchOption result (range_flaw (m -ℤ objective.k) ≡ Some OutOfRange)
        (λ d. (range_flaw (m -ℤ objective.k) ≡ None) × (d ≡ m -ℤ objective.k) × IsWithinLimit d) }
{
    match m.checked_sub(Value::from(objective.k)) {
        Some(d) => {
            if d.unsigned_abs() <= u128::from(OBJECTIVE_LIMIT) {
                Some(d)
            } else {
                None
            }
        }
        None => None,
    }
}

/// What is wrong with a best entry's values or its value, or else the value of the objective's difference of points.
pub fn least_flaw(
    alloc: Global,
    state: &State,
    objective: Objective,
    m: Value,
    values: &NamedValues,
) -> Result<Result<Value, EntryFlaw>, AllocError>
    requires asked { (s : Meaning) × (x : Sexpr) × IsAsked state.now (Minimize objective) x s }
    ensures { IfOk result (λ found. (s : Meaning) (x : Sexpr) → IsAsked state.now (Minimize objective) x s
        → IsLeastFound x objective s.context m values.now found) }
{
    idl_term::context_law();
    smt_script::objective_law();
    match values_flaw(alloc, state, values)? {
        Some(flaw) => return Ok(Err(flaw)),
        None => {}
    }
    if !is_attained(objective, values.as_slice(), m) {
        return Ok(Err(EntryFlaw::NotAttained));
    }
    match difference(objective, m) {
        Some(d) => Ok(Ok(d)),
        None => Ok(Err(EntryFlaw::OutOfRange)),
    }
}

/// What is wrong with the items of a best entry, whose value makes the objective's difference of points this.
fn least_items_flaw(
    alloc: Global,
    state: &State,
    objective: Objective,
    made: &mut Option<Problem>,
    earlier: &mut Earlier,
    difference: Value,
    items: &Items,
) -> Result<Option<EntryFlaw>, AllocError>
    requires asked { (s : Meaning) × (x : Sexpr) × IsAsked state.now (Minimize objective) x s }
    requires made { IsMadeOf state.now made.old }
    requires within { IsWithinLimit difference }
    requires suffices { Suffices earlier.old (Shown.Unsat items.now ∷ []) }
    ensures made { IsMadeOf state.now made.new }
    ensures flaw { IfOk result (λ flaw. (s : Meaning) (x : Sexpr) (before : List Place)
        → IsAsked state.now (Minimize objective) x s → Holds earlier.old before
        → flaw ≡ refutation_flaw before s.context (asked_clauses s.context objective difference) items.now) }
    ensures held { IfOk result (λ flaw. flaw ≡ None → (s : Meaning) (x : Sexpr) (before : List Place)
        → IsAsked state.now (Minimize objective) x s → Holds earlier.old before
        → Holds earlier.new (before ++ placed_items s.context (asked_clauses s.context objective difference) items.now ∷ [])) }
    ensures suffices { (entries : List Shown) → Suffices earlier.old entries → Suffices earlier.new entries }
    ensures trees { (wanted : Bool) → HoldsTrees wanted earlier.old → HoldsTrees wanted earlier.new }
{
    smt_script::objective_law();
    clause_form::clause_form_law();
    let problem = take_or_make(alloc, state, made)?;
    let asked = with_question(alloc, problem, objective.x, objective.y, difference)?;
    let checked = earlier.check(alloc, &asked, items.as_slice());
    *made = Some(without_question(asked));
    match checked {
        Ok(()) => Ok(None),
        Err(CheckError::Refused(flaw)) => Ok(Some(EntryFlaw::Flawed(flaw))),
        Err(CheckError::OutOfMemory) => Err(AllocError),
    }
}

/// What is wrong with a best entry. Where nothing is, it is held for those that come.
pub fn best_flaw(
    alloc: Global,
    state: &State,
    objective: Objective,
    made: &mut Option<Problem>,
    earlier: &mut Earlier,
    m: Value,
    values: &NamedValues,
    items: &Items,
) -> Result<Option<EntryFlaw>, AllocError>
    requires asked { (s : Meaning) × (x : Sexpr) × IsAsked state.now (Minimize objective) x s }
    requires made { IsMadeOf state.now made.old }
    requires suffices { Suffices earlier.old (Shown.Best m values.now items.now ∷ []) }
    ensures made { IsMadeOf state.now made.new }
    ensures flaw { IfOk result (λ flaw. (s : Meaning) (x : Sexpr) (before : List Place)
        → IsAsked state.now (Minimize objective) x s → Holds earlier.old before
        → flaw ≡ entry_flaw before (Minimize objective) x s.context (Shown.Best m values.now items.now)) }
    ensures held { IfOk result (λ flaw. flaw ≡ None → (s : Meaning) (x : Sexpr) (before : List Place)
        → IsAsked state.now (Minimize objective) x s → Holds earlier.old before
        → Holds earlier.new (before ++ placed (Minimize objective) s.context (Shown.Best m values.now items.now) ∷ [])) }
    ensures suffices { (entries : List Shown) → Suffices earlier.old entries → Suffices earlier.new entries }
    ensures trees { (wanted : Bool) → HoldsTrees wanted earlier.old → HoldsTrees wanted earlier.new }
{
    match least_flaw(alloc, state, objective, m, values)? {
        Err(flaw) => Ok(Some(flaw)),
        Ok(difference) => {
            let flaw = least_items_flaw(alloc, state, objective, made, earlier, difference, items)?;
            Ok(flaw)
        }
    }
}
