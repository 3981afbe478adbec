//! A script that is being answered: how its questions are.
ghost use Rattle.std.specs.Prelude.{◌≡◌, ◌≢◌, ◌<◌, ◌-◌, ◌^◌, List, false, IsTrue, IfOk, IfSome, OnOk, None};
ghost use Rattle.smt_sexpr.specs.Tree.{Sexpr};
ghost use Rattle.smt_script.specs.States.{State as Meaning};
ghost use Rattle.smt_script.specs.declared.state.Mode.TheVariants as mode;
ghost use Rattle.smt_script.specs.declared.state.Question.{Question as Asked};
ghost use Rattle.smt_script.specs.declared.state.Question.TheVariants as asked;
ghost use Rattle.script_walk.specs.code.Standing.{Stands};
ghost use Rattle.refute_tree.specs.declared.lemma.Lemma.{Lemma};
ghost use Rattle.cert_text.specs.declared.entry.Entry.TheVariants.{Unsat};
ghost use Rattle.cert_text.specs.declared.entry.Version.TheVariants.{Two};
ghost use Rattle.stn_core.specs.Named.{AreWithinLimit};
ghost use Rattle.dtp_entry.specs.Bests.{Satisfies};
ghost use Rattle.dtp_entry.specs.Reports.{version_of};
ghost use Rattle.dtp_session.specs.code.Decisions.{IsTaken};
ghost use Rattle.dtp_session.specs.code.Sessions.{Holds, IsStart, IsAskedIn, AreCitedIn, KeepsPlace, IsChecked, IsAnswered};
ghost use Rattle.dtp_session.specs.code.Forms.{version_wanted};
ghost use Rattle.dtp_session.specs.code.Keeping.{IsLastOf};

use crate::decision::{Decision, decide};
use crate::earlier::Earlier;
use crate::found::Found;
use crate::options::SearchOptions;
use crate::piece::Piece;
use crate::shown::Shown;
use crate::shown_items::ShownItems;
use crate::wanted::{LastWords, Wanted};
use cert_text::{Entry, Version};
use dtp_entry::{Report, problem};
use idl_term::context_law;
use kept_lemmas::Kept;
use kept_schedule::KeptSchedule;
use script_walk::{Walk, refusal_of};
use smt_script::{Mode, Question, Satisfiability};
use std::alloc::{AllocError, Global};
use std::sync::Wait;
use std::thread::Threads;
use steal_search::Gate;
use stn_core::{NamedValues, Problem};
use unsat_cores::cited_roots;

/// From so many nodes on the schedule of zeros is tried before a problem is made of them: this costs a walk over the nodes, and a problem takes more memory
/// than they do.
const LARGE_TABLE: usize = 1 << 14;

/// A script that is being answered.
#[derive(Drop)]
pub struct Session<'a> {
    /// Where all that it makes is allocated.
    pub alloc: Global,
    /// What is written of the script.
    pub report: Report,
    /// How questions are searched.
    pub options: SearchOptions,
    /// What is read of the script, and what it has led to.
    pub walk: Walk<'a>,
    /// What the mode holds: the entry that decided the last question.
    pub held: Option<Found>,
    /// Where that entry has values of the time points: the schedule that they give.
    pub given: Option<NamedValues>,
    /// Behind which places of the script no proof is asked for, and no question, where that was looked up.
    pub last_words: Option<LastWords>,
    /// The truth of the table's first nodes on a schedule that is held, of as many as values were asked for.
    pub marks: Vec<bool>,
    /// The schedule of the last question that had one.
    pub kept: KeptSchedule,
    /// What the entries of earlier questions leave to later ones.
    pub earlier: Earlier,
    /// In a certificate of the second version: what stands in the place of the lemmas of the entry that is held.
    pub items: ShownItems,
    /// There, where these are a refutation: the last of them, which is kept where nothing is changed before the next question.
    pub last: Option<Kept>,
    /// Where the last question had assumptions and was answered `unsat`: for each assertion, and behind the active ones for
    /// each assumption, whether the refutation rests on it.
    pub cited: Vec<bool>,
    /// What is told of the last command.
    pub text: Vec<u8>,
}

/// How a script ended that was answered to its end.
#[derive(Clone, Copy, Debug, PartialEq, Eq)]
pub enum Solved {
    /// Without an error.
    Done,
    /// At a command that is refused.
    ScriptStopped,
}

impl<'a> Session<'a> {
    /// A session before the first command. It takes no memory yet.
    pub fn new(alloc: Global, bytes: &'a [u8], report: Report, options: SearchOptions) -> Self
        ensures start { IsStart result }
        ensures report { result.report ≡ report }
        ensures bytes { result.walk.lexer.bytes ≡ bytes.now }
    {
        Session {
            alloc,
            report,
            options,
            walk: Walk::new(alloc, bytes),
            held: None,
            given: None,
            last_words: None,
            marks: Vec::new(alloc),
            kept: KeptSchedule::new(alloc),
            earlier: Earlier::new(alloc),
            items: ShownItems::none(),
            last: None,
            cited: Vec::new(alloc),
            text: Vec::new(alloc),
        }
    }

    /// Answers a question, or says why it isn't taken.
    pub fn ask<R: Threads + Wait + Sync, G: Gate>(
        &mut self,
        rt: &R,
        gate: &G,
        question: Question,
    ) -> Result<Piece, AllocError>
        requires holds { (s : Meaning) × (x : Sexpr) × Holds self.old s × IsAskedIn question x s }
        requires few { self.old.walk.number < 2 ^ 64 - 1 }
        ensures answered { IfOk result (λ piece. (s : Meaning) (x : Sexpr) → Holds self.old s → IsAskedIn question x s
            → IsAnswered question x self.old self.new s piece) }
        ensures keeps { KeepsPlace self.old self.new }
    {
        let piece = match question {
            Question::CheckSat => self.ask_verdict(rt, gate)?,
            Question::Minimize(_) => self.ask_problem(rt, gate, question)?,
        };
        Ok(piece)
    }

    /// Answers a check-sat: by what is held where nothing was changed since the last answer, and else anew.
    fn ask_verdict<R: Threads + Wait + Sync, G: Gate>(
        &mut self,
        rt: &R,
        gate: &G,
    ) -> Result<Piece, AllocError>
        requires holds { (s : Meaning) × (x : Sexpr) × Holds self.old s × IsAskedIn asked.CheckSat x s }
        requires few { self.old.walk.number < 2 ^ 64 - 1 }
        ensures answered { IfOk result (λ piece. (s : Meaning) (x : Sexpr) → Holds self.old s → IsAskedIn asked.CheckSat x s
            → IsAnswered asked.CheckSat x self.old self.new s piece) }
        ensures keeps { KeepsPlace self.old self.new }
    {
        match self.walk.state.mode() {
            Mode::Sat => {
                self.satisfy_again()?;
                Ok(Piece::Decision)
            }
            Mode::Unsat => {
                if self.refute_again()? {
                    return Ok(Piece::Decision);
                }
                let piece = self.ask_anew(rt, gate)?;
                Ok(piece)
            }
            Mode::Nothing => {
                let piece = self.ask_anew(rt, gate)?;
                Ok(piece)
            }
        }
    }

    /// Answers a check-sat by the schedule of an earlier question, where a few steps from it lead to one that satisfies the assertions, and else by their
    /// problem.
    fn ask_anew<R: Threads + Wait + Sync, G: Gate>(
        &mut self,
        rt: &R,
        gate: &G,
    ) -> Result<Piece, AllocError>
        requires holds { (s : Meaning) × (x : Sexpr) × Holds self.old s × IsAskedIn asked.CheckSat x s }
        requires few { self.old.walk.number < 2 ^ 64 - 1 }
        ensures answered { IfOk result (λ piece. (s : Meaning) (x : Sexpr) → Holds self.old s → IsAskedIn asked.CheckSat x s
            → IsAnswered asked.CheckSat x self.old self.new s piece) }
        ensures keeps { KeepsPlace self.old self.new }
    {
        if let Some(values) = self.satisfying()? {
            self.satisfy_by(values)?;
            return Ok(Piece::Decision);
        }
        let piece = self.ask_problem(rt, gate, Question::CheckSat)?;
        Ok(piece)
    }

    /// Answers a check-sat by the schedule that is held.
    fn satisfy_again(&mut self) -> Result<(), AllocError>
        requires holds { (s : Meaning) × Holds self.old s }
        requires sat { self.old.walk.state.mode ≡ mode.Sat }
        requires few { self.old.walk.number < 2 ^ 64 - 1 }
        ensures checked { OnOk result ((s : Meaning) (x : Sexpr) → Holds self.old s → IsAskedIn asked.CheckSat x s
            → IsChecked asked.CheckSat x self.old self.new s) }
        ensures keeps { KeepsPlace self.old self.new }
    {
        let Some(found) = self.held.take() else {
            unreachable!()
        };
        self.held = Some(found.satisfying(self.given.take()));
        self.earlier.pass(self.alloc, self.report.version())?;
        self.walk.settle(Satisfiability::Sat);
        Ok(())
    }

    /// The schedule of an earlier question, or where there is none and the table of nodes is large the one of zeros, changed by a few steps, where these
    /// lead to one that satisfies the assertions.
    fn satisfying(&mut self) -> Result<Option<NamedValues>, AllocError>
        requires { (s : Meaning) × Stands self.old.walk.state s }
        ensures found { IfOk result (λ found. IfSome found (λ values. (s : Meaning) → Stands self.old.walk.state s
            → Satisfies s.context values × AreWithinLimit values)) }
        ensures same { self.new ≡ record self.old { kept = self.new.kept } }
    {
        context_law();
        let state = &self.walk.state;
        let table = state.nodes();
        if self.kept.is_empty() && table.len() < LARGE_TABLE {
            return Ok(None);
        }
        let sorts = state.names().sorts();
        self.kept.satisfying(table, state.roots(), sorts)
    }

    /// Answers a check-sat by this schedule.
    fn satisfy_by(&mut self, values: NamedValues) -> Result<(), AllocError>
        requires holds { (s : Meaning) × Holds self.old s }
        requires few { self.old.walk.number < 2 ^ 64 - 1 }
        ensures checked { OnOk result ((s : Meaning) (x : Sexpr) → Holds self.old s → IsAskedIn asked.CheckSat x s
            → Satisfies s.context values → AreWithinLimit values → IsChecked asked.CheckSat x self.old self.new s) }
        ensures keeps { KeepsPlace self.old self.new }
    {
        self.held = Some(Found::shown(Entry::Sat(values)));
        self.given = None;
        self.marks.clear();
        self.earlier.pass(self.alloc, self.report.version())?;
        self.walk.settle(Satisfiability::Sat);
        Ok(())
    }

    /// Answers a question by the refutation that is held, unless a certificate of the second version can't keep its last lemma.
    fn refute_again(&mut self) -> Result<bool, AllocError>
        requires holds { (s : Meaning) × Holds self.old s }
        requires unsat { self.old.walk.state.mode ≡ mode.Unsat }
        requires few { self.old.walk.number < 2 ^ 64 - 1 }
        ensures checked { IfOk result (λ again. IsTrue again
            → (s : Meaning) (x : Sexpr) (question : Asked) → Holds self.old s → IsAskedIn question x s
            → IsChecked question x self.old self.new s) }
        ensures untouched { IfOk result (λ again. again ≡ false → self.new ≡ self.old) }
        ensures keeps { KeepsPlace self.old self.new }
    {
        match self.report.version() {
            Version::One => {
                self.walk.settle(Satisfiability::Unsat);
                Ok(true)
            }
            Version::Two => self.keep_refutation(),
        }
    }

    /// The same in a certificate of the second version: the last lemma of the last refutation is kept.
    fn keep_refutation(&mut self) -> Result<bool, AllocError>
        requires holds { (s : Meaning) × Holds self.old s }
        requires unsat { self.old.walk.state.mode ≡ mode.Unsat }
        requires few { self.old.walk.number < 2 ^ 64 - 1 }
        requires version { version_of self.old.report ≡ Two }
        ensures checked { IfOk result (λ again. IsTrue again
            → (s : Meaning) (x : Sexpr) (question : Asked) → Holds self.old s → IsAskedIn question x s
            → IsChecked question x self.old self.new s) }
        ensures untouched { IfOk result (λ again. again ≡ false → self.new ≡ self.old) }
        ensures keeps { KeepsPlace self.old self.new }
    {
        let Some(place) = self.last else {
            return Ok(false);
        };
        let Some(items) = self.earlier.again(self.alloc, place)? else {
            return Ok(false);
        };
        self.last = self.last_item(&items);
        self.items = items;
        self.walk.settle(Satisfiability::Unsat);
        Ok(true)
    }

    /// The place of the last of these items, which stand in the last entry of a certificate of the second version.
    fn last_item(&self, items: &ShownItems) -> Option<Kept>
        ensures { IsLastOf (version_of self.now.report) self.now.earlier items.now result }
    {
        match self.report.version() {
            Version::One => None,
            Version::Two => self.earlier.last_of(items),
        }
    }

    /// Answers a question over the problem of the assertions, which may refuse it. Where a refutation is held, it answers.
    fn ask_problem<R: Threads + Wait + Sync, G: Gate>(
        &mut self,
        rt: &R,
        gate: &G,
        question: Question,
    ) -> Result<Piece, AllocError>
        requires holds { (s : Meaning) × (x : Sexpr) × Holds self.old s × IsAskedIn question x s }
        requires few { self.old.walk.number < 2 ^ 64 - 1 }
        ensures answered { IfOk result (λ piece. (s : Meaning) (x : Sexpr) → Holds self.old s → IsAskedIn question x s
            → IsAnswered question x self.old self.new s piece) }
        ensures keeps { KeepsPlace self.old self.new }
    {
        let problem = problem(self.alloc, &self.walk.state)?;
        if let Some(kind) = refusal_of(question, &problem) {
            return Ok(Piece::Error(kind));
        }
        if let Mode::Unsat = self.walk.state.mode() {
            if self.refute_again()? {
                return Ok(Piece::Decision);
            }
        }
        self.decide_anew(rt, gate, question, problem)?;
        Ok(Piece::Decision)
    }

    /// Decides a question over the problem of the assertions, and holds what was found in place of what was held before.
    fn decide_anew<R: Threads + Wait + Sync, G: Gate>(
        &mut self,
        rt: &R,
        gate: &G,
        question: Question,
        problem: Problem,
    ) -> Result<(), AllocError>
        requires holds { (s : Meaning) × (x : Sexpr) × Holds self.old s × IsAskedIn question x s × IsTaken question x s problem }
        requires few { self.old.walk.number < 2 ^ 64 - 1 }
        ensures checked { OnOk result ((s : Meaning) (x : Sexpr) → Holds self.old s → IsAskedIn question x s → IsTaken question x s problem
            → IsChecked question x self.old self.new s) }
        ensures keeps { KeepsPlace self.old self.new }
    {
        self.held = None;
        self.given = None;
        self.marks.clear();
        let wanted = self.wanted();
        let Decision { shown, given } = decide(
            rt,
            self.alloc,
            &self.walk.state,
            question,
            problem,
            &self.kept,
            &mut self.earlier,
            wanted,
            self.options,
            gate,
        )?;
        let Shown { found, items } = shown;
        self.keep_schedule(&found, &given)?;
        let cited = self.cited_by(&found)?;
        self.last = self.last_item(&items);
        self.walk.settle(found.verdict());
        self.held = Some(found);
        self.items = items;
        self.given = given;
        self.cited = cited;
        Ok(())
    }

    /// Keeps the schedule of what was found, where it has one, for the questions to come.
    fn keep_schedule(
        &mut self,
        found: &Found,
        given: &Option<NamedValues>,
    ) -> Result<(), AllocError>
        ensures { self.new ≡ record self.old { kept = self.new.kept } }
    {
        match found.schedule(given) {
            Some(schedule) => self.kept.keep(schedule.as_slice()),
            None => Ok(()),
        }
    }

    /// Where there are assumptions: what a refutation rests on. It is told when they aren't asserted any more.
    fn cited_by(&self, found: &Found) -> Result<Vec<bool>, AllocError>
        requires { (s : Meaning) × Stands self.now.walk.state s }
        ensures cites { IfOk result (λ cited. (s : Meaning) (lemmas : List Lemma) → Stands self.now.walk.state s
            → s.assumed ≢ None → found.now ≡ Unsat lemmas → AreCitedIn s.context lemmas cited.items) }
    {
        context_law();
        match (self.walk.state.assumptions(), found.refutation()) {
            (Some(_), Some(refutation)) => {
                let state = &self.walk.state;
                cited_roots(self.alloc, state.nodes(), state.roots(), refutation)
            }
            _ => Ok(Vec::new(self.alloc)),
        }
    }

    /// Where words stand for the last time, looked up once.
    fn last_words(&mut self) -> LastWords
        ensures same { self.new ≡ record self.old { last_words = self.new.last_words } }
    {
        let last = match self.last_words {
            Some(last) => last,
            None => LastWords::of(self.walk.lexer.bytes()),
        };
        self.last_words = Some(last);
        last
    }

    /// What the next question is decided for. In a transcript its entry shows where a proof is asked for later. Where no question may come behind it nothing is
    /// learned of it.
    fn wanted(&mut self) -> Wanted
        ensures version { version_wanted result ≡ version_of self.old.report }
        ensures same { self.new ≡ record self.old { last_words = self.new.last_words } }
    {
        let last = self.last_words();
        let place = self.walk.lexer.place();
        self.earlier.expect(place <= last.question);
        match self.report {
            Report::Certificate(version) => Wanted::Entry(version),
            Report::Verdicts => {
                if place <= last.proof {
                    Wanted::Entry(Version::One)
                } else {
                    Wanted::Verdict
                }
            }
        }
    }
}
