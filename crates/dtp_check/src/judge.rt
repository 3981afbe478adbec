//! The commands of a script, with the entries of its certificate.
ghost use Rattle.std.specs.Prelude.{◌≡◌, ◌+◌, ◌-◌, ◌<◌, ◌≤◌, ◌^◌, [], ◌∷◌, List, length, IfOk, None};
ghost use Rattle.smt_sexpr.specs.Tree.{Sexpr};
ghost use Rattle.cert_text.specs.declared.entry.FileEntry.{FileEntry as Shown};
ghost use Rattle.smt_script.specs.States.{State as Meaning};
ghost use Rattle.script_walk.specs.Questions.{refusal_of};
ghost use Rattle.kept_lemmas.specs.Entries.{Placed};
ghost use Rattle.script_walk.specs.code.Events.{IsStart};
ghost use Rattle.script_walk.specs.code.Standing.{Stands};
ghost use Rattle.dtp_check.specs.code.Asked.{IsAsked};
ghost use Rattle.dtp_check.specs.code.Earlier.{Holds, HoldsTrees, Suffices, SufficesFrom};
ghost use Rattle.dtp_check.specs.Judged.{surplus_of, entry_flaw};
ghost use Rattle.dtp_check.specs.code.Made.{IsMadeOf, IsMadeStill, GoesOn as More};
ghost use Rattle.dtp_check.specs.code.Parts.{IsNext, GoesOn};
ghost use Rattle.dtp_check.specs.code.Turns.{IsSoOfAll, IsRightTurn, IsAnswerTurn, IsQuestionTurn};
ghost use Rattle.dtp_check.specs.code.Turns.{ScriptComesTo, IsJudgedBy};

use crate::earlier::Earlier;
use crate::entry_flaw::told_by;
use crate::judgement::{EntryFlaw, Judgement};
use crate::keeps::Keeps;
use crate::made::{let_go_if_assumed, let_go_if_changed, take_or_make};
use crate::script_part::{Next, PartEnd, next_command};
use cert_read::{CertReadError, EntryReader};
use cert_text::FileEntry;
use script_walk::{Event, Visitor, Walk, go_through, refusal_of};
use smt_answer::Kind;
use smt_script::{Notice, Question, State};
use smt_sexpr::SexprId;
use std::alloc::{AllocError, Global};
use stn_core::Problem;

/// What a question leads to.
#[derive(Clone, Copy)]
pub enum Progress {
    /// The script goes on.
    Going,
    /// This is the judgement, where what is left of the certificate's text is read to its end.
    Judged(Judgement),
}

/// Behind the script no entry may be left.
fn surplus(alloc: Global, entries: &mut EntryReader) -> Result<Judgement, AllocError>
    ensures { IfOk result (λ judgement. IsSoOfAll entries.old entries.new
        (λ all. judgement ≡ surplus_of (entries.old.count + 1) all)) }
{
    cert_read::one_certificate();
    match entries.skip(alloc) {
        Ok(true) => Ok(Judgement::Surplus(entries.count())),
        Ok(false) => Ok(Judgement::Accepted),
        Err(CertReadError::Refused(why)) => Ok(Judgement::Certificate(why)),
        Err(CertReadError::OutOfMemory) => Err(AllocError),
    }
}

/// Why the question isn't taken, if it isn't.
fn refusal(
    alloc: Global,
    state: &State,
    question: Question,
    made: &mut Option<Problem>,
) -> Result<Option<Kind>, AllocError>
    requires stands { (s : Meaning) × Stands state.now s }
    requires made { IsMadeOf state.now made.old }
    ensures made { IsMadeOf state.now made.new }
    ensures refusal { IfOk result (λ found. (s : Meaning) (x : Sexpr) → Stands state.now s
        → found ≡ refusal_of question s x) }
{
    match question {
        Question::CheckSat => Ok(None),
        Question::Minimize(_) => {
            let problem = take_or_make(alloc, state, made)?;
            let found = refusal_of(question, &problem);
            *made = Some(problem);
            Ok(found)
        }
    }
}

/// The entry of a question that is taken. Where nothing is wrong with it, the script goes on behind what it says.
fn judge_entry<K: Keeps>(
    alloc: Global,
    walk: &mut Walk,
    question: Question,
    made: &mut Option<Problem>,
    earlier: &mut Earlier,
    entry: &FileEntry,
    keeps: &mut K,
) -> Result<Option<EntryFlaw>, AllocError>
    requires asked { (s : Meaning) × (x : Sexpr) × IsAsked walk.old.state question x s }
    requires made { IsMadeOf walk.old.state made.old }
    requires few { walk.old.number < 2 ^ 64 - 1 }
    requires suffices { Suffices earlier.old (entry.now ∷ []) }
    requires trees { HoldsTrees K.trees earlier.old }
    ensures flaw { IfOk result (λ flaw. (s : Meaning) (x : Sexpr) (before : List Placed) → IsAsked walk.old.state question x s
        → Holds earlier.old before → flaw ≡ entry_flaw before question x s.context entry.now) }
    ensures right { IfOk result (λ flaw. flaw ≡ None → (s : Meaning) (x : Sexpr) (before : List Placed)
        → IsAsked walk.old.state question x s → Holds earlier.old before
        → IsRightTurn K.leads keeps.old keeps.new question x s before entry.now walk.new.state earlier.new) }
    ensures made { IfOk result (λ flaw. flaw ≡ None → IsMadeStill walk.new.state made.new) }
    ensures number { IfOk result (λ flaw. flaw ≡ None → walk.new.number ≡ walk.old.number + 1) }
    ensures suffices { (entries : List Shown) → Suffices earlier.old entries → Suffices earlier.new entries }
    ensures trees { HoldsTrees K.trees earlier.new }
    ensures lexer { walk.new.lexer ≡ walk.old.lexer }
    ensures sexprs { walk.new.sexprs ≡ walk.old.sexprs }
{
    match keeps.keep(alloc, &walk.state, question, made, earlier, entry)? {
        Some(flaw) => Ok(Some(flaw)),
        None => {
            let_go_if_assumed(&walk.state, made);
            walk.settle(told_by(entry));
            Ok(None)
        }
    }
}

/// A question that is taken, with its entry.
fn judge_answer<K: Keeps>(
    alloc: Global,
    walk: &mut Walk,
    question: Question,
    made: &mut Option<Problem>,
    earlier: &mut Earlier,
    entries: &mut EntryReader,
    keeps: &mut K,
) -> Result<Progress, AllocError>
    requires asked { (s : Meaning) × (x : Sexpr) × IsAsked walk.old.state question x s }
    requires made { IsMadeOf walk.old.state made.old }
    requires few { walk.old.number < 2 ^ 64 - 1 }
    requires suffices { SufficesFrom earlier.old entries.old }
    requires trees { HoldsTrees K.trees earlier.old }
    ensures turn { IfOk result (λ progress. (s : Meaning) (x : Sexpr) (before : List Placed)
        → IsAsked walk.old.state question x s → Holds earlier.old before
        → IsAnswerTurn K.leads keeps.old keeps.new question x s walk.old.number before entries.old entries.new
        walk.new.number walk.new.state earlier.new progress) }
    ensures made { IfOk result (λ progress. More progress → IsMadeStill walk.new.state made.new) }
    ensures suffices { IfOk result (λ progress. More progress → SufficesFrom earlier.new entries.new) }
    ensures trees { HoldsTrees K.trees earlier.new }
    ensures lexer { walk.new.lexer ≡ walk.old.lexer }
    ensures sexprs { walk.new.sexprs ≡ walk.old.sexprs }
{
    cert_read::one_certificate();
    match entries.next(alloc) {
        Ok(Some(entry)) => {
            match judge_entry(alloc, walk, question, made, earlier, &entry, keeps)? {
                Some(flaw) => Ok(Progress::Judged(Judgement::Entry(entries.count(), flaw))),
                None => Ok(Progress::Going),
            }
        }
        Ok(None) => Ok(Progress::Judged(Judgement::Missing(entries.count() + 1))),
        Err(CertReadError::Refused(why)) => Ok(Progress::Judged(Judgement::Certificate(why))),
        Err(CertReadError::OutOfMemory) => Err(AllocError),
    }
}

/// A question, which is refused like a command, or taken.
fn judge_question<K: Keeps>(
    alloc: Global,
    walk: &mut Walk,
    question: Question,
    made: &mut Option<Problem>,
    earlier: &mut Earlier,
    entries: &mut EntryReader,
    keeps: &mut K,
) -> Result<Progress, AllocError>
    requires asked { (s : Meaning) × (x : Sexpr) × IsAsked walk.old.state question x s }
    requires made { IsMadeStill walk.old.state made.old }
    requires few { walk.old.number < 2 ^ 64 - 1 }
    requires suffices { SufficesFrom earlier.old entries.old }
    requires trees { HoldsTrees K.trees earlier.old }
    ensures turn { IfOk result (λ progress. (s : Meaning) (x : Sexpr) (before : List Placed)
        → IsAsked walk.old.state question x s → Holds earlier.old before
        → IsQuestionTurn K.leads keeps.old keeps.new question x s walk.old.number before entries.old entries.new
        walk.new.number walk.new.state earlier.new progress) }
    ensures made { IfOk result (λ progress. More progress → IsMadeStill walk.new.state made.new) }
    ensures suffices { IfOk result (λ progress. More progress → SufficesFrom earlier.new entries.new) }
    ensures trees { HoldsTrees K.trees earlier.new }
    ensures lexer { walk.new.lexer ≡ walk.old.lexer }
    ensures sexprs { walk.new.sexprs ≡ walk.old.sexprs }
{
    let_go_if_changed(&walk.state, made);
    match refusal(alloc, &walk.state, question, made)? {
        Some(kind) => Ok(Progress::Judged(Judgement::Script(walk.number, kind))),
        None => {
            let progress = judge_answer(alloc, walk, question, made, earlier, entries, keeps)?;
            Ok(progress)
        }
    }
}

/// Reads what stands next in the script's part.
fn read_on(walk: &mut Walk) -> Result<Next, AllocError>
    requires fresh { walk.old.lexer.failed ≡ None }
    requires same { walk.old.lexer.bytes ≡ walk.old.sexprs.bytes }
    ensures next { IfOk result (IsNext walk.old.lexer.bytes walk.old.lexer.place walk.new.sexprs walk.new.lexer.place) }
    ensures fresh { IfOk result (λ next. GoesOn next → walk.new.lexer.failed ≡ None) }
    ensures forward { IfOk result (λ next. GoesOn next → walk.old.lexer.place < walk.new.lexer.place) }
    ensures within { IfOk result (λ next. GoesOn next → walk.new.lexer.place ≤ length walk.new.lexer.bytes) }
    ensures lexer_bytes { walk.new.lexer.bytes ≡ walk.old.lexer.bytes }
    ensures table_bytes { walk.new.sexprs.bytes ≡ walk.old.sexprs.bytes }
    ensures state { walk.new.state ≡ walk.old.state }
    ensures number { walk.new.number ≡ walk.old.number }
{
    let next = next_command(&mut walk.sexprs, &mut walk.lexer)?;
    Ok(next)
}

/// A script's part of a source, judged with the entries of its certificate.
#[derive(Drop)]
pub struct Judging<'a> {
    alloc: Global,
    walk: Walk<'a>,
    /// The problem of the assertions, where it was made.
    made: Option<Problem>,
    earlier: Earlier,
    entries: EntryReader<'a>,
}

impl<'a, K: Keeps> Visitor<K> for Judging<'a> {
    ghost use Rattle.dtp_check.specs.code.Judging.{IsPartEvent, IsJudgingSoFar};

    type End = Judgement;

    type Fault = AllocError;

    ghost starts = { λ j _. IsStart j.walk × (j.made ≡ None) × (j.entries.count ≡ 0) × Holds j.earlier []
        × SufficesFrom j.earlier j.entries × HoldsTrees K.trees j.earlier };

    ghost so_far = { λ first before now after. IsJudgingSoFar K.leads K.trees first.walk.lexer.bytes first.entries before
        now.walk now.made now.earlier now.entries after };

    ghost comes = { λ before now event. IsPartEvent before.walk now.walk event × (now ≡ record before { walk = now.walk }) };

    ghost ends = { λ first before now after judgement. IsSoOfAll first.entries now.entries
        (ScriptComesTo K.leads before after first.walk.lexer.bytes judgement) };

    ghost breaks = { λ _ _ _ _ _. Unit {0} };

    ghost left = { λ j. length j.walk.lexer.bytes - j.walk.lexer.place };

    fn begin(&mut self, _keeps: &mut K) -> Result<(), AllocError> {
        Ok(())
    }

    fn next(&mut self) -> Result<Event, AllocError> {
        match read_on(&mut self.walk)? {
            Next::Command(id) => {
                let event = self.walk.carry_out(id)?;
                Ok(event)
            }
            Next::Ended(PartEnd::Unread(kind)) => Ok(Event::Failed(kind)),
            Next::Ended(_) => Ok(Event::Ended),
        }
    }

    fn told(&mut self, _keeps: &mut K, _id: SexprId, _notice: Notice) -> Result<(), AllocError> {
        smt_sexpr::one_outcome();
        smt_script::exit_law();
        smt_script::mode_law();
        Ok(())
    }

    fn asked(
        &mut self,
        keeps: &mut K,
        _id: SexprId,
        question: Question,
    ) -> Result<Option<Judgement>, AllocError> {
        smt_sexpr::one_outcome();
        smt_script::exit_law();
        smt_script::mode_law();
        let progress = judge_question(
            self.alloc,
            &mut self.walk,
            question,
            &mut self.made,
            &mut self.earlier,
            &mut self.entries,
            keeps,
        )?;
        match progress {
            Progress::Going => Ok(None),
            Progress::Judged(judgement) => Ok(Some(judgement)),
        }
    }

    fn ended(&mut self, _keeps: &mut K) -> Result<Judgement, AllocError> {
        smt_sexpr::one_outcome();
        let judgement = surplus(self.alloc, &mut self.entries)?;
        Ok(judgement)
    }

    fn failed(&mut self, _keeps: &mut K, kind: Kind) -> Result<Judgement, AllocError> {
        smt_sexpr::one_outcome();
        Ok(Judgement::Script(self.walk.number, kind))
    }
}

/// What the script comes to with the entries that the reader gives, each of which is kept where it is right. The script is read
/// again, command by command, and each entry when its question is asked; what is left of the certificate is read to its end,
/// since a fault of its text comes before all else.
pub fn judge_script<'a, K: Keeps>(
    alloc: Global,
    bytes: &'a [u8],
    entries: EntryReader<'a>,
    keeps: &mut K,
) -> Result<Judgement, AllocError>
    requires { entries.count ≡ 0 }
    ensures { IfOk result (IsJudgedBy K.leads keeps.old keeps.new bytes.now entries.entry) }
{
    let mut judging = Judging {
        alloc,
        walk: Walk::new(alloc, bytes),
        made: None,
        earlier: Earlier::new(alloc, &entries, keeps.wants_trees()),
        entries,
    };
    let judgement = go_through(&mut judging, keeps)?;
    match judging.entries.skip_rest(alloc) {
        Ok(()) => Ok(judgement),
        Err(CertReadError::Refused(why)) => Ok(Judgement::Certificate(why)),
        Err(CertReadError::OutOfMemory) => Err(AllocError),
    }
}
