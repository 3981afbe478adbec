//! One entry, as the first version shows it.
ghost use Rattle.std.specs.Prelude.{◌≡◌, [], ◌∷◌, ◌++◌, Bool, true, List, IfOk, IsOk, OnOk};
ghost use Rattle.smt_sexpr.specs.Tree.{Sexpr};
ghost use Rattle.stn_core.specs.Named.{AreWithinLimit};
ghost use Rattle.best_values.specs.Widths.{IsWithinLimit};
ghost use Rattle.cert_text.specs.declared.entry.FileEntry.{FileEntry as Shown};
ghost use Rattle.kept_lemmas.specs.Entries.{Placed as Place};
ghost use Rattle.smt_script.specs.declared.state.Question.TheVariants.{Minimize};
ghost use Rattle.smt_script.specs.States.{State as Meaning};
ghost use Rattle.dtp_check.specs.code.Asked.{IsAsked, asked_clauses};
ghost use Rattle.dtp_check.specs.code.Earlier.{Holds, HoldsTrees, Suffices};
ghost use Rattle.dtp_check.specs.Judged.{placed, placed_items};
ghost use Rattle.dtp_check.specs.code.Made.{IsMadeOf};
ghost use Rattle.dtp_convert.specs.code.Shown.{AreItemsShown, IsShown};
ghost use Rattle.dtp_entry.specs.Entries.{points_of};

use crate::fitting::{are_values_within, is_whole_within};
use crate::free_set::converted_set;
use crate::lemmas::shown_lemmas;
use best_values::Points;
use cert_text::{Entry, FileEntry};
use dtp_check::{
    Earlier, EntryFlaw, Keeps, KeepsNothing, least_flaw, take_or_make, with_question,
    without_question,
};
use kept_lemmas::Items;
use refute_tree::Refutation;
use smt_script::{Objective, Question, State};
use std::alloc::{AllocError, Global};
use stn_core::{NamedValues, Problem, Schedule, Value};

/// The values of an entry.
fn converted_values(alloc: Global, values: &NamedValues) -> Result<NamedValues, AllocError>
    ensures same { IfOk result (λ shown. shown ≡ values.now) }
    ensures within { OnOk result (AreWithinLimit values.now) }
{
    let given = values.as_slice();
    // values that can be read are within it, so this doesn't come
    if !are_values_within(given) {
        return Err(AllocError);
    }
    let mut shown = Vec::new(alloc);
    shown.extend_from_slice(given)?;
    Ok(NamedValues::new(shown))
}

/// The values of an entry, where nothing is wrong with them.
fn shown_values(
    alloc: Global,
    state: &State,
    question: Question,
    made: &mut Option<Problem>,
    earlier: &mut Earlier,
    entry: &FileEntry,
    values: &NamedValues,
) -> Result<Result<Entry, EntryFlaw>, AllocError>
    requires entry { entry.now ≡ Shown.Sat values.now }
    requires asked { (s : Meaning) × (x : Sexpr) × IsAsked state.now question x s }
    requires made { IsMadeOf state.now made.old }
    requires suffices { Suffices earlier.old (entry.now ∷ []) }
    requires trees { HoldsTrees true earlier.old }
    ensures made { IsMadeOf state.now made.new }
    ensures shown { IfOk result (λ found. (s : Meaning) (x : Sexpr) (before : List Place) → IsAsked state.now question x s
        → Holds earlier.old before → IsShown before question x s.context entry.now found) }
    ensures held { IfOk result (λ found. IsOk found → (s : Meaning) (x : Sexpr) (before : List Place) → IsAsked state.now question x s
        → Holds earlier.old before → Holds earlier.new (before ++ placed question s.context entry.now ∷ [])) }
    ensures suffices { (entries : List Shown) → Suffices earlier.old entries → Suffices earlier.new entries }
    ensures trees { (wanted : Bool) → HoldsTrees wanted earlier.old → HoldsTrees wanted earlier.new }
{
    dtp_entry::right_is_so();
    match KeepsNothing.keep(alloc, state, question, made, earlier, entry)? {
        Some(flaw) => Ok(Err(flaw)),
        None => {
            let shown = converted_values(alloc, values)?;
            Ok(Ok(Entry::Sat(shown)))
        }
    }
}

/// The items of an unsat entry as lemmas of its own, where nothing is wrong with them.
fn shown_items(
    alloc: Global,
    state: &State,
    question: Question,
    made: &mut Option<Problem>,
    earlier: &mut Earlier,
    items: &Items,
) -> Result<Result<Entry, EntryFlaw>, AllocError>
    requires asked { (s : Meaning) × (x : Sexpr) × IsAsked state.now question x s }
    requires made { IsMadeOf state.now made.old }
    requires suffices { Suffices earlier.old (Shown.Unsat items.now ∷ []) }
    requires trees { HoldsTrees true earlier.old }
    ensures made { IsMadeOf state.now made.new }
    ensures shown { IfOk result (λ found. (s : Meaning) (x : Sexpr) (before : List Place) → IsAsked state.now question x s
        → Holds earlier.old before → IsShown before question x s.context (Shown.Unsat items.now) found) }
    ensures held { IfOk result (λ found. IsOk found → (s : Meaning) (x : Sexpr) (before : List Place) → IsAsked state.now question x s
        → Holds earlier.old before → Holds earlier.new (before ++ placed question s.context (Shown.Unsat items.now) ∷ [])) }
    ensures suffices { (entries : List Shown) → Suffices earlier.old entries → Suffices earlier.new entries }
    ensures trees { (wanted : Bool) → HoldsTrees wanted earlier.old → HoldsTrees wanted earlier.new }
{
    dtp_entry::right_is_so();
    let problem = take_or_make(alloc, state, made)?;
    let found = shown_lemmas(alloc, &problem, earlier, items)?;
    *made = Some(problem);
    match found {
        Ok(lemmas) => Ok(Ok(Entry::Unsat(lemmas))),
        Err(flaw) => Ok(Err(flaw)),
    }
}

/// The items of a best entry as lemmas of its own, where nothing is wrong with them over the problem in which the objective's
/// difference of points is below this one.
fn shown_below(
    alloc: Global,
    state: &State,
    objective: Objective,
    made: &mut Option<Problem>,
    earlier: &mut Earlier,
    difference: Value,
    items: &Items,
) -> Result<Result<Refutation, EntryFlaw>, AllocError>
    requires asked { (s : Meaning) × (x : Sexpr) × IsAsked state.now (Minimize objective) x s }
    requires made { IsMadeOf state.now made.old }
    requires within { IsWithinLimit difference }
    requires suffices { Suffices earlier.old (Shown.Unsat items.now ∷ []) }
    requires trees { HoldsTrees true earlier.old }
    ensures made { IsMadeOf state.now made.new }
    ensures shown { IfOk result (λ found. (s : Meaning) (x : Sexpr) (before : List Place)
        → IsAsked state.now (Minimize objective) x s → Holds earlier.old before
        → AreItemsShown before (points_of s.context) (asked_clauses s.context objective difference) items.now found) }
    ensures held { IfOk result (λ found. IsOk found → (s : Meaning) (x : Sexpr) (before : List Place)
        → IsAsked state.now (Minimize objective) x s → Holds earlier.old before
        → Holds earlier.new (before ++ placed_items s.context (asked_clauses s.context objective difference) items.now ∷ [])) }
    ensures suffices { (entries : List Shown) → Suffices earlier.old entries → Suffices earlier.new entries }
    ensures trees { (wanted : Bool) → HoldsTrees wanted earlier.old → HoldsTrees wanted earlier.new }
{
    smt_script::objective_law();
    clause_form::clause_form_law();
    let problem = take_or_make(alloc, state, made)?;
    let asked = with_question(alloc, problem, objective.x, objective.y, difference)?;
    let found = shown_lemmas(alloc, &asked, earlier, items)?;
    *made = Some(without_question(asked));
    Ok(found)
}

/// The value, the values and the items of a best entry, where nothing is wrong with them.
fn shown_best(
    alloc: Global,
    state: &State,
    objective: Objective,
    made: &mut Option<Problem>,
    earlier: &mut Earlier,
    m: Value,
    values: &NamedValues,
    items: &Items,
) -> Result<Result<Entry, EntryFlaw>, AllocError>
    requires asked { (s : Meaning) × (x : Sexpr) × IsAsked state.now (Minimize objective) x s }
    requires made { IsMadeOf state.now made.old }
    requires suffices { Suffices earlier.old (Shown.Best m values.now items.now ∷ []) }
    requires trees { HoldsTrees true earlier.old }
    ensures made { IsMadeOf state.now made.new }
    ensures shown { IfOk result (λ found. (s : Meaning) (x : Sexpr) (before : List Place) → IsAsked state.now (Minimize objective) x s
        → Holds earlier.old before → IsShown before (Minimize objective) x s.context (Shown.Best m values.now items.now) found) }
    ensures held { IfOk result (λ found. IsOk found → (s : Meaning) (x : Sexpr) (before : List Place) → IsAsked state.now (Minimize objective) x s
        → Holds earlier.old before
        → Holds earlier.new (before ++ placed (Minimize objective) s.context (Shown.Best m values.now items.now) ∷ [])) }
    ensures suffices { (entries : List Shown) → Suffices earlier.old entries → Suffices earlier.new entries }
    ensures trees { (wanted : Bool) → HoldsTrees wanted earlier.old → HoldsTrees wanted earlier.new }
{
    dtp_entry::right_is_so();
    let difference = match least_flaw(alloc, state, objective, m, values)? {
        Ok(difference) => difference,
        Err(flaw) => return Ok(Err(flaw)),
    };
    // as with its values below, a value that can be read is within the limit
    if !is_whole_within(m) {
        return Err(AllocError);
    }
    let shown = converted_values(alloc, values)?;
    match shown_below(alloc, state, objective, made, earlier, difference, items)? {
        Ok(lemmas) => Ok(Ok(Entry::Best(m, shown, lemmas))),
        Err(flaw) => Ok(Err(flaw)),
    }
}

/// The values and the set of an unbounded entry, where nothing is wrong with them.
fn shown_unbounded(
    alloc: Global,
    state: &State,
    question: Question,
    made: &mut Option<Problem>,
    earlier: &mut Earlier,
    entry: &FileEntry,
    values: &Schedule,
    set: &Points,
) -> Result<Result<Entry, EntryFlaw>, AllocError>
    requires entry { entry.now ≡ Shown.Unbounded values.now set.now }
    requires asked { (s : Meaning) × (x : Sexpr) × IsAsked state.now question x s }
    requires made { IsMadeOf state.now made.old }
    requires suffices { Suffices earlier.old (entry.now ∷ []) }
    requires trees { HoldsTrees true earlier.old }
    ensures made { IsMadeOf state.now made.new }
    ensures shown { IfOk result (λ found. (s : Meaning) (x : Sexpr) (before : List Place) → IsAsked state.now question x s
        → Holds earlier.old before → IsShown before question x s.context entry.now found) }
    ensures held { IfOk result (λ found. IsOk found → (s : Meaning) (x : Sexpr) (before : List Place) → IsAsked state.now question x s
        → Holds earlier.old before → Holds earlier.new (before ++ placed question s.context entry.now ∷ [])) }
    ensures suffices { (entries : List Shown) → Suffices earlier.old entries → Suffices earlier.new entries }
    ensures trees { (wanted : Bool) → HoldsTrees wanted earlier.old → HoldsTrees wanted earlier.new }
{
    dtp_entry::right_is_so();
    match KeepsNothing.keep(alloc, state, question, made, earlier, entry)? {
        Some(flaw) => Ok(Err(flaw)),
        None => {
            let problem = take_or_make(alloc, state, made)?;
            *made = Some(problem);
            let shown = converted_set(alloc, values, set)?;
            Ok(Ok(shown))
        }
    }
}

/// An entry as the first version shows it, or what is wrong with it. Where nothing is, it is held for those that come.
pub fn shown_entry(
    alloc: Global,
    state: &State,
    question: Question,
    made: &mut Option<Problem>,
    earlier: &mut Earlier,
    entry: &FileEntry,
) -> Result<Result<Entry, EntryFlaw>, AllocError>
    requires asked { (s : Meaning) × (x : Sexpr) × IsAsked state.now question x s }
    requires made { IsMadeOf state.now made.old }
    requires suffices { Suffices earlier.old (entry.now ∷ []) }
    requires trees { HoldsTrees true earlier.old }
    ensures made { IsMadeOf state.now made.new }
    ensures shown { IfOk result (λ found. (s : Meaning) (x : Sexpr) (before : List Place) → IsAsked state.now question x s
        → Holds earlier.old before → IsShown before question x s.context entry.now found) }
    ensures held { IfOk result (λ found. IsOk found → (s : Meaning) (x : Sexpr) (before : List Place) → IsAsked state.now question x s
        → Holds earlier.old before → Holds earlier.new (before ++ placed question s.context entry.now ∷ [])) }
    ensures suffices { (entries : List Shown) → Suffices earlier.old entries → Suffices earlier.new entries }
    ensures trees { (wanted : Bool) → HoldsTrees wanted earlier.old → HoldsTrees wanted earlier.new }
{
    match entry {
        FileEntry::Sat(values) => {
            let found = shown_values(alloc, state, question, made, earlier, entry, values)?;
            Ok(found)
        }
        FileEntry::Unsat(items) => {
            let found = shown_items(alloc, state, question, made, earlier, items)?;
            Ok(found)
        }
        FileEntry::Best(m, values, items) => match question {
            Question::CheckSat => Ok(Err(EntryFlaw::WrongKind)),
            Question::Minimize(objective) => {
                let found = shown_best(alloc, state, objective, made, earlier, *m, values, items)?;
                Ok(found)
            }
        },
        FileEntry::Unbounded(values, set) => {
            let found = shown_unbounded(alloc, state, question, made, earlier, entry, values, set)?;
            Ok(found)
        }
    }
}
