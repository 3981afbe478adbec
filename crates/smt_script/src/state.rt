//! The state after the commands.
ghost use Rattle.std.specs.Prelude.{◌≡◌, ◌≢◌, true, map, MatchOption, ◌≤◌, ◌<◌, ℕ, length, [], false, Some, slice_get, slice_index_or, None, IfOk, OnErr, Err, Option, Result};
ghost use Rattle.smt_sexpr.specs.Tree.{Sexpr, Items, list};
ghost use Rattle.smt_sexpr.specs.Table.{Means, HasMeaning};
ghost use Rattle.stn_core.specs.Named.{AreWithinLimit};
ghost use Rattle.idl_node.specs.Truth.{point_values, AreTruths};
ghost use Rattle.idl_term.specs.Contexts.{IsScheduleFor, environment, scope_of};
ghost use Rattle.idl_term.specs.Limits.{names_limit};
ghost use Rattle.idl_term.specs.Lowered.{lowered};
ghost use Rattle.idl_apply.specs.declared.error.TermRefusal.{TermRefusal};
ghost use Rattle.smt_script.specs.Commands.{Command, are_literals};
ghost use Rattle.smt_script.specs.code.Kept.{StandsFor, Steps, nothing_kept, cut_to, cut_off};
ghost use Rattle.smt_script.specs.Options.{option_effect};
ghost use Rattle.smt_script.specs.code.Shapes.{shown_name, literal_pair, ValueIs, HasValue, IsSignature, HasSignature, CountIs, CommandIs, Agrees, Carries};
ghost use Rattle.smt_script.specs.States.{State as Meaning, start_state, after_logic, after_option, sort_of, after_declaration, after_definition, after_assertion, after_naming, after_push, after_pop, with_model, with_proof, with_core, with_assumed, telling, unassumed, after_assuming, after_minimizing, after_values, informed_by, after_by, after, released, settled, IsMadeState};
ghost use Rattle.smt_script.specs.declared.state.Mode.{Mode as Mood};
ghost use Rattle.smt_script.specs.Informing.{information_of};
ghost use Rattle.smt_script.specs.declared.state.Notice.TheVariants.{Model, Proof, Core, Assumptions};
ghost use Rattle.smt_script.specs.declared.state.Effect.TheVariants.{Ask};
ghost use Rattle.smt_script.specs.code.TermValues.{IsAccepted, IsRefused, IsValue};
ghost use Rattle.smt_script.specs.declared.error.Refusal.{Refusal as Why};
ghost use Rattle.smt_script.specs.declared.state.Level.{Level as Before};

use crate::asked::items_of;
use crate::assumption::{AssumedLiteral, literals_of};
use crate::command::{Request, Signature, request_of};
use crate::error::{Refusal, ScriptError};
use crate::information::{Information, information_of};
use crate::limits::LEVELS_LIMIT;
use crate::lowering::{assume_each, lower_formula, lower_of_sort, test_terms};
use crate::objective::{Objective, objective_in};
use crate::option::{OptionEffect, option_effect};
use crate::sorts::signature_sort;
use crate::taken::{is_taken, refusal_when_full};
use crate::value::{TermValue, term_value};
use idl_node::{Nodes, truth_law};
use idl_scope::NAMES_LIMIT;
use idl_term::{Lowered, Names, Scope, TermError, context_law, is_reserved, lower, lowered_law};
use smt_sexpr::{SexprId, Sexprs};
use std::alloc::Global;
use std::marker::Model;
use stn_core::NamedValues;

/// What is told of a command that is carried out, where nothing else answers it.
#[derive(Clone, Copy, Debug, PartialEq, Eq)]
pub enum Notice {
    /// `success`, where that is to be printed.
    Success,
    /// `unsupported`.
    Unsupported,
    /// The values of all declared names.
    Model,
    /// The values of the terms that were asked for ([`crate::asked_terms`]).
    Values,
    /// Why the assertions have no solution.
    Proof,
    /// The names of assertions that have no solution together.
    Core,
    /// Assumptions that have no solution together with the assertions.
    Assumptions,
    Inform(Information),
    /// The text that was given ([`crate::echoed_text`]).
    Echo,
}

/// What a command asks to be decided of the state behind it.
#[derive(Clone, Copy, Debug, PartialEq, Eq)]
pub enum Question {
    /// Whether some schedule satisfies all that is asserted.
    CheckSat,
    /// The least value of a term on all schedules that satisfy it.
    Minimize(Objective),
}

/// What a command is to be answered.
#[derive(Clone, Copy, Debug, PartialEq, Eq)]
pub enum Effect {
    /// The answer to a question.
    Ask(Question),
    /// Nothing, and the script ends.
    Exit,
    Tell(Notice),
}

/// What a command without another answer is answered.
const SUCCESS: Effect = Effect::Tell(Notice::Success);

/// What the last question was answered, where nothing was changed since (SMT-LIB 2.6, section 4.1.1).
#[derive(Clone, Copy, Debug, PartialEq, Eq)]
pub enum Mode {
    Nothing,
    Sat,
    Unsat,
}

/// A verdict.
#[derive(Clone, Copy, Debug, PartialEq, Eq)]
pub enum Satisfiability {
    Sat,
    Unsat,
}

/// How much is active without the assumptions of a question.
#[derive(Clone, Copy, Debug, PartialEq, Eq)]
pub struct Active {
    pub nodes: usize,
    pub roots: usize,
}

/// The last question, where nothing was changed since.
#[derive(Clone, Copy, Debug, PartialEq, Eq)]
pub struct Last {
    /// What it was answered.
    pub mode: Mode,
    /// Where it is a check-sat-assuming: how much is active without its assumptions.
    pub assumed: Option<Active>,
}

/// There is none, or something was changed since.
const NOTHING: Last = Last {
    mode: Mode::Nothing,
    assumed: None,
};

/// How much there was at a push.
#[derive(Clone, Copy, Debug, PartialEq, Eq)]
pub struct Level {
    pub names: usize,
    pub defined: usize,
    pub nodes: usize,
    pub roots: usize,
}

/// What is declared, defined and asserted, with the node table of the terms, and where each level begins. The names are
/// borrowed from the script; terms aren't kept.
pub struct State<'a> {
    alloc: Global,
    scope: Scope<'a>,
    nodes: Nodes,
    // the number of each assertion's node, in order
    roots: Vec<u32>,
    // its name, where it has one
    labels: Vec<Option<&'a [u8]>>,
    levels: Vec<Level>,
    last: Last,
    // the assumptions of the last question, where it had any
    literals: Vec<AssumedLiteral<'a>>,
    print_success: bool,
}

impl Drop for State<'_> {
    fn drop(self) {
        let State {
            alloc: _,
            scope,
            nodes,
            roots,
            labels,
            levels,
            last,
            literals,
            print_success: _,
        } = self;
        drop(scope);
        drop(nodes);
        drop(roots);
        drop(labels);
        drop(levels);
        drop(last);
        drop(literals);
    }
}

impl<'a> Model for State<'a> {
    ghost use Rattle.std.specs.Prelude.{map};
    ghost use Rattle.smt_script.specs.code.Kept.{Kept, IsKept};
    ghost use Rattle.smt_script.specs.code.Shapes.{shown_name, literal_pair};

    ghost Value = { Kept };

    ghost view = { λ s. record {
      scope = s.scope;
      nodes = s.nodes;
      roots = s.roots.items;
      labels = map shown_name s.labels.items;
      levels = s.levels.items;
      mode = s.last.mode;
      literals = map literal_pair s.literals.items;
      assumed = s.last.assumed;
      print_success = s.print_success;
    } };

    ghost invariant = { λ s. IsKept (record {
      scope = s.scope;
      nodes = s.nodes;
      roots = s.roots.items;
      labels = map shown_name s.labels.items;
      levels = s.levels.items;
      mode = s.last.mode;
      literals = map literal_pair s.literals.items;
      assumed = s.last.assumed;
      print_success = s.print_success;
    }) };
}

impl<'a> State<'a> {
    /// The state before the first command. It takes no memory yet.
    pub fn new(alloc: Global) -> Self
        ensures { result ≡ nothing_kept }
    {
        State {
            alloc,
            scope: Scope::new(alloc),
            nodes: Nodes::new(alloc),
            roots: Vec::new(alloc),
            labels: Vec::new(alloc),
            levels: Vec::new(alloc),
            last: NOTHING,
            literals: Vec::new(alloc),
            print_success: false,
        }
    }

    /// `set-logic`.
    fn set_logic(&self, sexprs: &Sexprs<'a>, logic: SexprId) -> Result<Effect, ScriptError>
        requires { HasMeaning sexprs.now logic }
        ensures { Carries (Means sexprs.now logic) after_logic self.now self.now result }
    {
        match sexprs.symbol(logic) {
            Some(name) if name == b"QF_IDL".as_slice() => Ok(SUCCESS),
            _ => Err(ScriptError::Refused(Refusal::LogicNotSupported)),
        }
    }

    /// `set-option`.
    fn set_option(
        &mut self,
        sexprs: &Sexprs<'a>,
        keyword: &[u8],
        value: Option<SexprId>,
    ) -> Result<Effect, ScriptError>
        requires { HasValue sexprs.now value }
        ensures agrees { Carries (ValueIs sexprs.now value)
            (λ s v. after_option s (option_effect keyword.now v)) self.old self.new result }
        ensures err { OnErr result (self.new ≡ self.old) }
    {
        match option_effect(sexprs, keyword, value) {
            OptionEffect::PrintSuccess(on) => {
                self.print_success = on;
                Ok(SUCCESS)
            }
            OptionEffect::Nothing => Ok(SUCCESS),
            OptionEffect::Unsupported => Ok(Effect::Tell(Notice::Unsupported)),
            OptionEffect::IllFormed => Err(ScriptError::Refused(Refusal::IllFormedCommand)),
        }
    }

    /// `declare-const` and `declare-fun`.
    fn declare(
        &mut self,
        sexprs: &Sexprs<'a>,
        signature: Signature<'a>,
    ) -> Result<Effect, ScriptError>
        requires { HasSignature sexprs.now signature }
        ensures agrees { (s : Meaning) (parameters : Items) (x : Sexpr) → StandsFor self.old s
            → IsSignature sexprs.now signature.entry parameters x
            → Agrees (after_declaration s signature.entry.name.now parameters (sort_of x)) self.new result }
        ensures err { OnErr result (self.new ≡ self.old) }
    {
        let sort = signature_sort(sexprs, signature)?;
        if self.scope.names().len() >= NAMES_LIMIT as usize {
            return Err(ScriptError::Refused(refusal_when_full(&self.scope, signature.name)));
        }
        if is_reserved(signature.name) {
            return Err(ScriptError::Refused(Refusal::AlreadyDeclared));
        }
        let new = self.scope.declare(signature.name, sort)?;
        if !new {
            return Err(ScriptError::Refused(Refusal::AlreadyDeclared));
        }
        self.last = NOTHING;
        Ok(SUCCESS)
    }

    /// `define-fun`.
    fn define(
        &mut self,
        sexprs: &Sexprs<'a>,
        signature: Signature<'a>,
        term: SexprId,
    ) -> Result<Effect, ScriptError>
        requires signature { HasSignature sexprs.now signature }
        requires term { HasMeaning sexprs.now term }
        ensures agrees { (s : Meaning) (parameters : Items) (x t : Sexpr) → StandsFor self.old s
            → IsSignature sexprs.now signature.entry parameters x → Means sexprs.now term t
            → Agrees (after_definition s signature.entry.name.now parameters (sort_of x) t) self.new result }
        ensures err { OnErr result (self.new ≡ self.old) }
    {
        let sort = signature_sort(sexprs, signature)?;
        if is_taken(&self.scope, signature.name) {
            return Err(ScriptError::Refused(Refusal::AlreadyDeclared));
        }
        let before = self.nodes.len();
        let stands = lower_of_sort(self.alloc, sexprs, term, sort, &self.scope, &mut self.nodes)?;
        match self.scope.define(signature.name, stands) {
            Ok(()) => {
                self.last = NOTHING;
                Ok(SUCCESS)
            }
            Err(_) => {
                self.nodes.cut(before);
                Err(ScriptError::OutOfMemory)
            }
        }
    }

    /// `assert`.
    fn assert_term(&mut self, sexprs: &Sexprs<'a>, term: SexprId) -> Result<Effect, ScriptError>
        requires { HasMeaning sexprs.now term }
        ensures agrees { Carries (Means sexprs.now term) after_assertion self.old self.new result }
        ensures err { OnErr result (self.new ≡ self.old) }
    {
        self.roots.reserve(1)?;
        self.labels.reserve(1)?;
        let root = lower_formula(self.alloc, sexprs, term, &self.scope, &mut self.nodes)?;
        self.roots.push_reserved(root);
        self.labels.push_reserved(None);
        self.last = NOTHING;
        Ok(SUCCESS)
    }

    /// `assert` of a term that is named.
    fn assert_named(
        &mut self,
        sexprs: &Sexprs<'a>,
        term: SexprId,
        name: &'a [u8],
    ) -> Result<Effect, ScriptError>
        requires { HasMeaning sexprs.now term }
        ensures agrees { Carries (Means sexprs.now term) (λ s t. after_naming s name.now t)
            self.old self.new result }
        ensures err { OnErr result (self.new ≡ self.old) }
    {
        self.roots.reserve(1)?;
        self.labels.reserve(1)?;
        let before = self.nodes.len();
        let root = lower_formula(self.alloc, sexprs, term, &self.scope, &mut self.nodes)?;
        if is_taken(&self.scope, name) {
            self.nodes.cut(before);
            return Err(ScriptError::Refused(Refusal::AlreadyDeclared));
        }
        match self.scope.define(name, Lowered::Truth(root)) {
            Ok(()) => {
                self.roots.push_reserved(root);
                self.labels.push_reserved(Some(name));
                self.last = NOTHING;
                Ok(SUCCESS)
            }
            Err(_) => {
                self.nodes.cut(before);
                Err(ScriptError::OutOfMemory)
            }
        }
    }

    /// `push`: so many levels on top.
    fn push(&mut self, count: Option<u64>) -> Result<Effect, ScriptError>
        ensures agrees { Carries (CountIs count) after_push self.old self.new result }
        ensures err { OnErr result (self.new ≡ self.old) }
    {
        let Some(count) = count else {
            return Err(ScriptError::Refused(Refusal::TooManyLevels));
        };
        let depth = count.saturating_add(self.levels.len() as u64);
        if depth > LEVELS_LIMIT {
            return Err(ScriptError::Refused(Refusal::TooManyLevels));
        }
        let level = Level {
            names: self.scope.names().len(),
            defined: self.scope.defined(),
            nodes: self.nodes.len(),
            roots: self.roots.len(),
        };
        self.levels.resize(depth as usize, level)?;
        self.last = NOTHING;
        Ok(SUCCESS)
    }

    /// Back to what there was at a push. It takes time in proportion to what goes.
    fn cut(&mut self, left: usize)
        requires { left < length self.old.levels }
        ensures { (level : Before) → slice_get self.old.levels left ≡ Some level
            → self.new ≡ cut_to self.old left level }
    {
        let level = self.levels[left];
        self.scope.cut(level.names, level.defined);
        self.nodes.cut(level.nodes);
        self.roots.truncate(level.roots);
        self.labels.truncate(level.roots);
        self.levels.truncate(left);
        self.last = NOTHING;
    }

    /// `pop`: back to what there was so many levels below.
    fn pop(&mut self, count: Option<u64>) -> Result<Effect, ScriptError>
        ensures agrees { Carries (CountIs count) after_pop self.old self.new result }
        ensures err { OnErr result (self.new ≡ self.old) }
    {
        let depth = self.levels.len();
        match count {
            Some(0) => {
                self.last = NOTHING;
                Ok(SUCCESS)
            }
            Some(count) if count <= depth as u64 => {
                self.cut(depth - count as usize);
                Ok(SUCCESS)
            }
            _ => Err(ScriptError::Refused(Refusal::PopBelowTheBottom)),
        }
    }

    /// Nothing is declared, defined or asserted any more. What took memory keeps it for what comes.
    fn clear(&mut self, print_success: bool)
        ensures { StandsFor self.new (record start_state { print_success = print_success }) }
    {
        self.scope.cut(0, 0);
        self.nodes.cut(0);
        self.roots.truncate(0);
        self.labels.truncate(0);
        self.levels.truncate(0);
        self.last = NOTHING;
        self.print_success = print_success;
    }

    /// `reset-assertions`: the options stay.
    fn reset_assertions(&mut self)
        ensures { (s : Meaning) → StandsFor self.old s
            → StandsFor self.new (record start_state { print_success = s.print_success }) }
    {
        let print_success = self.print_success;
        self.clear(print_success);
    }

    /// `reset`.
    fn reset(&mut self)
        ensures { StandsFor self.new start_state }
    {
        self.clear(false);
    }

    /// A question of its own: what was assumed for the last one is gone.
    fn ask(&mut self, question: Question) -> Effect
        ensures effect { result ≡ Ask question }
        ensures state { (s : Meaning) → StandsFor self.old s → StandsFor self.new (unassumed s) }
    {
        if self.last.assumed.is_some() {
            self.last = NOTHING;
        }
        Effect::Ask(question)
    }

    /// `check-sat-assuming`: until it is answered, the assumptions are assertions behind the others.
    fn assume(&mut self, sexprs: &Sexprs<'a>, literals: SexprId) -> Result<Effect, ScriptError>
        requires { (ts : Items) × Means sexprs.now literals (list ts) × (are_literals ts ≡ true) }
        ensures agrees { (s : Meaning) (ts : Items) → StandsFor self.old s → Means sexprs.now literals (list ts)
            → are_literals ts ≡ true → Agrees (after_assuming s ts) self.new result }
        ensures err { OnErr result (self.new ≡ self.old) }
    {
        let terms = items_of(sexprs, literals);
        let literals = literals_of(self.alloc, sexprs, terms)?;
        let before = Active {
            nodes: self.nodes.len(),
            roots: self.roots.len(),
        };
        let Some(count) = before.roots.checked_add(terms.len()) else {
            return Err(ScriptError::OutOfMemory);
        };
        self.labels.resize(count, None)?;
        if let Err(error) = assume_each(
            self.alloc,
            sexprs,
            terms,
            &self.scope,
            &mut self.nodes,
            &mut self.roots,
        ) {
            self.labels.truncate(before.roots);
            return Err(error);
        }
        self.literals = literals;
        self.last = Last {
            mode: Mode::Nothing,
            assumed: Some(before),
        };
        Ok(Effect::Ask(Question::CheckSat))
    }

    /// `minimize`: the term is read, and none of its nodes is kept.
    fn ask_minimum(&mut self, sexprs: &Sexprs<'a>, term: SexprId) -> Result<Effect, ScriptError>
        requires { HasMeaning sexprs.now term }
        ensures agrees { Carries (Means sexprs.now term) after_minimizing self.old self.new result }
        ensures err { OnErr result (self.new ≡ self.old) }
    {
        let objective = objective_in(self.alloc, sexprs, term, &self.scope, &mut self.nodes)?;
        Ok(self.ask(Question::Minimize(objective)))
    }

    /// `get-model`.
    fn ask_model(&self) -> Result<Effect, ScriptError>
        ensures { (s : Meaning) → StandsFor self.now s
            → Agrees (with_model s.mode (telling s Model)) self.now result }
    {
        match self.last.mode {
            Mode::Sat => Ok(Effect::Tell(Notice::Model)),
            _ => Err(ScriptError::Refused(Refusal::NoModel)),
        }
    }

    /// `get-proof`.
    fn ask_proof(&self) -> Result<Effect, ScriptError>
        ensures { (s : Meaning) → StandsFor self.now s
            → Agrees (with_proof s.mode (telling s Proof)) self.now result }
    {
        match self.last.mode {
            Mode::Unsat => Ok(Effect::Tell(Notice::Proof)),
            _ => Err(ScriptError::Refused(Refusal::NoProof)),
        }
    }

    /// `get-unsat-core`.
    fn ask_core(&self) -> Result<Effect, ScriptError>
        ensures { (s : Meaning) → StandsFor self.now s
            → Agrees (with_core s.mode (telling s Core)) self.now result }
    {
        match self.last.mode {
            Mode::Unsat => Ok(Effect::Tell(Notice::Core)),
            _ => Err(ScriptError::Refused(Refusal::NoCore)),
        }
    }

    /// `get-unsat-assumptions`.
    fn ask_assumptions(&self) -> Result<Effect, ScriptError>
        ensures { (s : Meaning) → StandsFor self.now s
            → Agrees (with_assumed s.mode s.assumed (telling s Assumptions)) self.now result }
    {
        match (self.last.mode, self.last.assumed) {
            (Mode::Unsat, Some(_)) => Ok(Effect::Tell(Notice::Assumptions)),
            _ => Err(ScriptError::Refused(Refusal::NoAssumptions)),
        }
    }

    /// `get-value`: the terms are tested, and none of their nodes is kept.
    fn ask_values(&mut self, sexprs: &Sexprs<'a>, terms: SexprId) -> Result<Effect, ScriptError>
        requires { (ts : Items) × Means sexprs.now terms (list ts) }
        ensures agrees { (s : Meaning) (ts : Items) → StandsFor self.old s
            → Means sexprs.now terms (list ts) → Agrees (after_values s ts) self.new result }
        ensures err { OnErr result (self.new ≡ self.old) }
    {
        let Mode::Sat = self.last.mode else {
            return Err(ScriptError::Refused(Refusal::NoModel));
        };
        let terms = items_of(sexprs, terms);
        test_terms(self.alloc, sexprs, terms, &self.scope, &mut self.nodes)?;
        Ok(Effect::Tell(Notice::Values))
    }

    /// `get-info`.
    fn ask_information(&self, keyword: &[u8]) -> Result<Effect, ScriptError>
        ensures { (s : Meaning) → StandsFor self.now s
            → Agrees (informed_by s (information_of keyword.now)) self.now result }
    {
        match information_of(keyword) {
            Some(information) => Ok(Effect::Tell(Notice::Inform(information))),
            None => Ok(Effect::Tell(Notice::Unsupported)),
        }
    }

    /// What a command asks for.
    fn carry_out(
        &mut self,
        sexprs: &Sexprs<'a>,
        request: Request<'a>,
    ) -> Result<Effect, ScriptError>
        requires { (meant : Result Command Why) × CommandIs sexprs.now request meant }
        ensures agrees { Carries (CommandIs sexprs.now request.entry) after_by self.old self.new result }
        ensures err { OnErr result (self.new ≡ self.old) }
    {
        match request {
            Request::SetLogic(logic) => self.set_logic(sexprs, logic),
            Request::SetOption(keyword, value) => self.set_option(sexprs, keyword, value),
            Request::SetInfo => Ok(SUCCESS),
            Request::Declare(signature) => self.declare(sexprs, signature),
            Request::Define(signature, term) => self.define(sexprs, signature, term),
            Request::Assert(term) => self.assert_term(sexprs, term),
            Request::AssertNamed(term, name) => self.assert_named(sexprs, term, name),
            Request::Push(count) => self.push(count),
            Request::Pop(count) => self.pop(count),
            Request::CheckSat => Ok(self.ask(Question::CheckSat)),
            Request::CheckSatAssuming(literals) => self.assume(sexprs, literals),
            Request::Minimize(term) => self.ask_minimum(sexprs, term),
            Request::Model => self.ask_model(),
            Request::Values(terms) => self.ask_values(sexprs, terms),
            Request::Proof => self.ask_proof(),
            Request::Core => self.ask_core(),
            Request::Assumptions => self.ask_assumptions(),
            Request::Information(keyword) => self.ask_information(keyword),
            Request::Echo(_) => Ok(Effect::Tell(Notice::Echo)),
            Request::ResetAssertions => {
                self.reset_assertions();
                Ok(SUCCESS)
            }
            Request::Reset => {
                self.reset();
                Ok(SUCCESS)
            }
            Request::Exit => Ok(Effect::Exit),
            Request::Unsupported => Ok(Effect::Tell(Notice::Unsupported)),
        }
    }

    /// One command, whose s-expression is in the table. The table may be cleared afterwards.
    pub fn step(&mut self, sexprs: &Sexprs<'a>, id: SexprId) -> Result<Effect, ScriptError>
        requires { HasMeaning sexprs.now id }
        ensures ok { IfOk result (λ effect. (s : Meaning) (x : Sexpr)
            → StandsFor self.old s → Means sexprs.now id x → Steps s x effect self.new) }
        ensures refused { (why : Why) → result ≡ Err (ScriptError.Refused why) → (s : Meaning) (x : Sexpr)
            → StandsFor self.old s → Means sexprs.now id x → after s x ≡ Err why }
        ensures err { OnErr result (self.new ≡ self.old) }
    {
        let request = request_of(sexprs, id)?;
        let effect = self.carry_out(sexprs, request)?;
        Ok(effect)
    }

    /// Back to what is active without the assumptions of the last question. It takes time in proportion to what goes.
    fn release(&mut self)
        ensures cut { self.new ≡ cut_off self.old self.old.assumed }
        ensures stands { (s : Meaning) (m : Mood) → StandsFor self.old s
            → StandsFor (record self.new { mode = m }) (record (released s s.assumed) { mode = m }) }
    {
        let Some(active) = self.last.assumed else {
            return;
        };
        self.nodes.cut(active.nodes);
        self.roots.truncate(active.roots);
        self.labels.truncate(active.roots);
    }

    /// What the answer to the question that was the last command says. What it assumed isn't asserted any more. It takes no memory.
    pub fn settle(&mut self, verdict: Satisfiability)
        ensures { (s : Meaning) → StandsFor self.old s → StandsFor self.new (settled verdict s) }
    {
        self.release();
        self.last.mode = match verdict {
            Satisfiability::Sat => Mode::Sat,
            Satisfiability::Unsat => Mode::Unsat,
        };
    }

    /// The value of a term, where the names have these values: one of its sort for each, an Int name's within
    /// `stn_core::NAMED_VALUE_LIMIT`. The state is as before.
    ///
    /// `marks` tells the truth of the node table's first nodes on these values, as many as there are marks (none, at first), and
    /// then perhaps of more of them: so the values of many terms in one state together take time of the order of the table and
    /// the terms.
    pub fn value(
        &mut self,
        sexprs: &Sexprs<'a>,
        id: SexprId,
        values: &NamedValues,
        marks: &mut Vec<bool>,
    ) -> Result<TermValue, TermError>
        requires meaning { HasMeaning sexprs.now id }
        requires state { (s : Meaning) × StandsFor self.old s × IsMadeState s
            × IsScheduleFor s.context values.now }
        requires within { AreWithinLimit values.now }
        requires marks { AreTruths self.old.nodes (point_values values.now) marks.old.items }
        ensures accepted { IfOk result (λ v. (s : Meaning) (x : Sexpr)
            → StandsFor self.old s → Means sexprs.now id x → IsAccepted s x) }
        ensures ok { IfOk result (λ v. (s : Meaning) (x : Sexpr)
            → StandsFor self.old s → Means sexprs.now id x → IsMadeState s
            → IsScheduleFor s.context values.now → IsValue s values.now x v) }
        ensures refused { (why : TermRefusal) → result ≡ Err (TermError.Refused why)
            → (s : Meaning) (x : Sexpr)
            → StandsFor self.old s → Means sexprs.now id x → IsRefused s x why }
        ensures same { self.new ≡ self.old }
        ensures marks { AreTruths self.old.nodes (point_values values.now) marks.new.items }
        ensures unmarked { OnErr result (marks.new.items ≡ marks.old.items) }
    {
        context_law();
        lowered_law();
        truth_law();
        let before = self.nodes.len();
        let term = lower(self.alloc, sexprs, id, &self.scope, &mut self.nodes)?;
        let value = term_value(&term, &self.nodes, values, marks);
        self.nodes.cut(before);
        marks.truncate(before);
        Ok(value?)
    }

    /// The declared names, in order of declaration.
    pub fn names(&self) -> &Names<'a>
        ensures names { result.now ≡ self.now.scope.declared }
        ensures few { length result.now ≤ names_limit }
    {
        self.scope.names()
    }

    /// The node table of the active definitions and assertions.
    pub fn nodes(&self) -> &Nodes
        ensures { result.now ≡ self.now.nodes }
    {
        &self.nodes
    }

    /// The number of each assertion's node, in order.
    pub fn roots(&self) -> &[u32]
        ensures { result.now ≡ self.now.roots }
    {
        &self.roots
    }

    /// The name of the assertion of this number, from 0, where it has one. It takes no memory.
    pub fn label(&self, number: usize) -> Option<&[u8]>
        ensures { shown_name result ≡ slice_index_or self.now.labels number None }
    {
        match self.labels.get(number) {
            Some(label) => *label,
            None => None,
        }
    }

    /// Whether `success` is to be printed.
    pub fn print_success(&self) -> bool
        ensures { result ≡ self.now.print_success }
    {
        self.print_success
    }

    /// What the last question was answered, where nothing was changed since.
    pub fn mode(&self) -> Mode
        ensures { result ≡ self.now.mode }
    {
        self.last.mode
    }

    /// The assumptions of the last question, where it is a check-sat-assuming and nothing was changed since, as they are written.
    pub fn assumptions(&self) -> Option<&[AssumedLiteral<'a>]>
        ensures { MatchOption result (self.now.assumed ≡ None)
            (λ literals. (self.now.assumed ≢ None) × (map literal_pair literals.now ≡ self.now.literals)) }
    {
        match self.last.assumed {
            Some(_) => Some(self.literals.as_slice()),
            None => None,
        }
    }

    /// The number of levels above the bottom.
    pub fn levels(&self) -> usize
        ensures { result ≡ length self.now.levels }
    {
        self.levels.len()
    }
}
