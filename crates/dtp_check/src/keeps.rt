//! What is done with the entries of a certificate that are found right, one after the other.
ghost use Rattle.std.specs.Prelude.{◌≡◌, [], ◌∷◌, ◌++◌, Bool, false, List, IfOk, None};
ghost use Rattle.cert_text.specs.declared.entry.FileEntry.{FileEntry as Shown};
ghost use Rattle.smt_sexpr.specs.Tree.{Sexpr};
ghost use Rattle.idl_term.specs.Contexts.{Context};
ghost use Rattle.kept_lemmas.specs.Entries.{Placed as Place};
ghost use Rattle.smt_script.specs.States.{State as Meaning};
ghost use Rattle.smt_script.specs.declared.state.Question.{Question as Asked};
ghost use Rattle.dtp_check.specs.code.Asked.{IsAsked};
ghost use Rattle.dtp_check.specs.code.Earlier.{Holds, HoldsTrees, Suffices};
ghost use Rattle.dtp_check.specs.Judged.{entry_flaw, placed};
ghost use Rattle.dtp_check.specs.code.Made.{IsMadeOf};

use crate::earlier::Earlier;
use crate::entry_flaw::entry_flaw;
use crate::judgement::EntryFlaw;
use cert_text::FileEntry;
use smt_script::{Question, State};
use std::alloc::{AllocError, Global};
use stn_core::Problem;

/// Takes each right entry.
pub trait Keeps {
    /// How what is kept before an entry leads to what is kept behind it, of the question of a command, behind these entries
    /// and where these assertions are active.
    ghost leads: { Self → Self → List Place → Asked → Sexpr → Context → Shown → Type 0 };

    /// Whether entries are written out, so that what is held of them needs their trees.
    ghost trees: { Bool };

    /// Whether entries are written out.
    fn wants_trees(&self) -> bool
        ensures { result ≡ trees };

    /// What is wrong with the entry of a question that was asked in this state. Where nothing is, it is kept, and held for those that come.
    /// The problem of the state's assertions is given where it was made before, and is held where it is made.
    fn keep(
        &mut self,
        alloc: Global,
        state: &State,
        question: Question,
        made: &mut Option<Problem>,
        earlier: &mut Earlier,
        entry: &FileEntry,
    ) -> Result<Option<EntryFlaw>, AllocError>
        requires asked { (s : Meaning) × (x : Sexpr) × IsAsked state.now question x s }
        requires made { IsMadeOf state.now made.old }
        requires suffices { Suffices earlier.old (entry.now ∷ []) }
        requires trees { HoldsTrees trees earlier.old }
        ensures made { IsMadeOf state.now made.new }
        ensures flaw { IfOk result (λ flaw. (s : Meaning) (x : Sexpr) (before : List Place) → IsAsked state.now question x s
            → Holds earlier.old before → flaw ≡ entry_flaw before question x s.context entry.now) }
        ensures held { IfOk result (λ flaw. flaw ≡ None → (s : Meaning) (x : Sexpr) (before : List Place) → IsAsked state.now question x s
            → Holds earlier.old before → Holds earlier.new (before ++ placed question s.context entry.now ∷ [])) }
        ensures suffices { (entries : List Shown) → Suffices earlier.old entries → Suffices earlier.new entries }
        ensures trees { (wanted : Bool) → HoldsTrees wanted earlier.old → HoldsTrees wanted earlier.new }
        ensures kept { IfOk result (λ flaw. flaw ≡ None → (s : Meaning) (x : Sexpr) (before : List Place) → IsAsked state.now question x s
            → Holds earlier.old before → leads self.old self.new before question x s.context entry.now) };
}

/// Takes nothing of them.
#[derive(Clone, Copy, Debug)]
pub struct KeepsNothing;

impl Keeps for KeepsNothing {
    ghost leads = { λ _ _ _ _ _ _ _. Unit {0} };

    ghost trees = { false };

    fn wants_trees(&self) -> bool {
        false
    }

    fn keep(
        &mut self,
        alloc: Global,
        state: &State,
        question: Question,
        made: &mut Option<Problem>,
        earlier: &mut Earlier,
        entry: &FileEntry,
    ) -> Result<Option<EntryFlaw>, AllocError> {
        let flaw = entry_flaw(alloc, state, question, made, earlier, entry)?;
        Ok(flaw)
    }
}
