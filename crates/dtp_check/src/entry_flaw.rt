//! What an entry says, and what is wrong with it.
ghost use Rattle.std.specs.Prelude.{◌≡◌, [], ◌∷◌, ◌++◌, Bool, List, IfOk, None};
ghost use Rattle.kept_lemmas.specs.Entries.{Placed as Place};
ghost use Rattle.cert_text.specs.declared.entry.FileEntry.{FileEntry as Shown};
ghost use Rattle.smt_sexpr.specs.Tree.{Sexpr};
ghost use Rattle.smt_script.specs.declared.state.Question.TheVariants.{CheckSat, Minimize};
ghost use Rattle.smt_script.specs.States.{State as Meaning};
ghost use Rattle.script_walk.specs.code.Standing.{Stands};
ghost use Rattle.dtp_entry.specs.Entries.{problem_of};
ghost use Rattle.dtp_check.specs.code.Asked.{IsAsked};
ghost use Rattle.dtp_check.specs.code.Earlier.{Holds, HoldsTrees, Suffices};
ghost use Rattle.dtp_check.specs.Judged.{refutation_flaw, entry_flaw, placed_items, placed, told_by};
ghost use Rattle.dtp_check.specs.code.Made.{IsMadeOf};

use crate::best_entry::best_flaw;
use crate::earlier::Earlier;
use crate::judgement::EntryFlaw;
use crate::made::take_or_make;
use crate::sat_entry::values_flaw;
use crate::unbounded_entry::unbounded_flaw;
use cert_check::CheckError;
use cert_text::FileEntry;
use kept_lemmas::Items;
use smt_script::{Objective, Question, Satisfiability, State};
use std::alloc::{AllocError, Global};
use stn_core::Problem;

/// What an entry says of the assertions.
pub fn told_by(entry: &FileEntry) -> Satisfiability
    ensures { result ≡ told_by entry.now }
{
    match entry {
        FileEntry::Sat(_) => Satisfiability::Sat,
        FileEntry::Unsat(_) => Satisfiability::Unsat,
        FileEntry::Best(_, _, _) => Satisfiability::Sat,
        FileEntry::Unbounded(_, _) => Satisfiability::Sat,
    }
}

/// What is wrong with the entry of a question that was asked in this state. Where nothing is, it is held for those that come. It
/// takes time of the order of the entry and the state, and of what it keeps with what that cites; of a refutation without kept
/// items, of the order of the entry where the problem was made before.
pub fn entry_flaw(
    alloc: Global,
    state: &State,
    question: Question,
    made: &mut Option<Problem>,
    earlier: &mut Earlier,
    entry: &FileEntry,
) -> Result<Option<EntryFlaw>, AllocError>
    requires asked { (s : Meaning) × (x : Sexpr) × IsAsked state.now question x s }
    requires made { IsMadeOf state.now made.old }
    requires suffices { Suffices earlier.old (entry.now ∷ []) }
    ensures made { IsMadeOf state.now made.new }
    ensures flaw { IfOk result (λ flaw. (s : Meaning) (x : Sexpr) (before : List Place) → IsAsked state.now question x s
        → Holds earlier.old before → flaw ≡ entry_flaw before question x s.context entry.now) }
    ensures held { IfOk result (λ flaw. flaw ≡ None → (s : Meaning) (x : Sexpr) (before : List Place)
        → IsAsked state.now question x s → Holds earlier.old before
        → Holds earlier.new (before ++ placed question s.context entry.now ∷ [])) }
    ensures suffices { (entries : List Shown) → Suffices earlier.old entries → Suffices earlier.new entries }
    ensures trees { (wanted : Bool) → HoldsTrees wanted earlier.old → HoldsTrees wanted earlier.new }
{
    match question {
        Question::CheckSat => {
            let flaw = check_sat_flaw(alloc, state, made, earlier, entry)?;
            Ok(flaw)
        }
        Question::Minimize(objective) => {
            let flaw = minimize_flaw(alloc, state, objective, made, earlier, entry)?;
            Ok(flaw)
        }
    }
}

/// What is wrong with the entry of a check-sat.
fn check_sat_flaw(
    alloc: Global,
    state: &State,
    made: &mut Option<Problem>,
    earlier: &mut Earlier,
    entry: &FileEntry,
) -> Result<Option<EntryFlaw>, AllocError>
    requires asked { (s : Meaning) × (x : Sexpr) × IsAsked state.now CheckSat x s }
    requires made { IsMadeOf state.now made.old }
    requires suffices { Suffices earlier.old (entry.now ∷ []) }
    ensures made { IsMadeOf state.now made.new }
    ensures flaw { IfOk result (λ flaw. (s : Meaning) (x : Sexpr) (before : List Place) → IsAsked state.now CheckSat x s
        → Holds earlier.old before → flaw ≡ entry_flaw before CheckSat x s.context entry.now) }
    ensures held { IfOk result (λ flaw. flaw ≡ None → (s : Meaning) (x : Sexpr) (before : List Place)
        → IsAsked state.now CheckSat x s → Holds earlier.old before
        → Holds earlier.new (before ++ placed CheckSat s.context entry.now ∷ [])) }
    ensures suffices { (entries : List Shown) → Suffices earlier.old entries → Suffices earlier.new entries }
    ensures trees { (wanted : Bool) → HoldsTrees wanted earlier.old → HoldsTrees wanted earlier.new }
{
    match entry {
        FileEntry::Sat(values) => {
            let flaw = values_flaw(alloc, state, values)?;
            earlier.skip()?;
            Ok(flaw)
        }
        FileEntry::Unsat(items) => {
            let flaw = items_flaw(alloc, state, made, earlier, items)?;
            Ok(flaw)
        }
        FileEntry::Best(_, _, _) => Ok(Some(EntryFlaw::WrongKind)),
        FileEntry::Unbounded(_, _) => Ok(Some(EntryFlaw::WrongKind)),
    }
}

/// What is wrong with the entry of a minimize.
fn minimize_flaw(
    alloc: Global,
    state: &State,
    objective: Objective,
    made: &mut Option<Problem>,
    earlier: &mut Earlier,
    entry: &FileEntry,
) -> Result<Option<EntryFlaw>, AllocError>
    requires asked { (s : Meaning) × (x : Sexpr) × IsAsked state.now (Minimize objective) x s }
    requires made { IsMadeOf state.now made.old }
    requires suffices { Suffices earlier.old (entry.now ∷ []) }
    ensures made { IsMadeOf state.now made.new }
    ensures flaw { IfOk result (λ flaw. (s : Meaning) (x : Sexpr) (before : List Place) → IsAsked state.now (Minimize objective) x s
        → Holds earlier.old before → flaw ≡ entry_flaw before (Minimize objective) x s.context entry.now) }
    ensures held { IfOk result (λ flaw. flaw ≡ None → (s : Meaning) (x : Sexpr) (before : List Place)
        → IsAsked state.now (Minimize objective) x s → Holds earlier.old before
        → Holds earlier.new (before ++ placed (Minimize objective) s.context entry.now ∷ [])) }
    ensures suffices { (entries : List Shown) → Suffices earlier.old entries → Suffices earlier.new entries }
    ensures trees { (wanted : Bool) → HoldsTrees wanted earlier.old → HoldsTrees wanted earlier.new }
{
    match entry {
        FileEntry::Sat(_) => Ok(Some(EntryFlaw::WrongKind)),
        FileEntry::Unsat(items) => {
            let flaw = items_flaw(alloc, state, made, earlier, items)?;
            Ok(flaw)
        }
        FileEntry::Best(m, values, items) => {
            let flaw = best_flaw(alloc, state, objective, made, earlier, *m, values, items)?;
            Ok(flaw)
        }
        FileEntry::Unbounded(values, set) => {
            let flaw = unbounded_flaw(alloc, state, objective, made, values, set)?;
            earlier.skip()?;
            Ok(flaw)
        }
    }
}

/// What is wrong with the items of an unsat entry.
fn items_flaw(
    alloc: Global,
    state: &State,
    made: &mut Option<Problem>,
    earlier: &mut Earlier,
    items: &Items,
) -> Result<Option<EntryFlaw>, AllocError>
    requires stands { (s : Meaning) × Stands state.now s }
    requires made { IsMadeOf state.now made.old }
    requires suffices { Suffices earlier.old (Shown.Unsat items.now ∷ []) }
    ensures made { IsMadeOf state.now made.new }
    ensures flaw { IfOk result (λ flaw. (s : Meaning) (before : List Place) → Stands state.now s
        → Holds earlier.old before → flaw ≡ refutation_flaw before s.context (problem_of s.context) items.now) }
    ensures held { IfOk result (λ flaw. flaw ≡ None → (s : Meaning) (before : List Place) → Stands state.now s
        → Holds earlier.old before → Holds earlier.new (before ++ placed_items s.context (problem_of s.context) items.now ∷ [])) }
    ensures suffices { (entries : List Shown) → Suffices earlier.old entries → Suffices earlier.new entries }
    ensures trees { (wanted : Bool) → HoldsTrees wanted earlier.old → HoldsTrees wanted earlier.new }
{
    let problem = take_or_make(alloc, state, made)?;
    let checked = earlier.check(alloc, &problem, items.as_slice());
    *made = Some(problem);
    match checked {
        Ok(()) => Ok(None),
        Err(CheckError::Refused(flaw)) => Ok(Some(EntryFlaw::Flawed(flaw))),
        Err(CheckError::OutOfMemory) => Err(AllocError),
    }
}
