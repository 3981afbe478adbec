//! A script that is walked through, command by command.
ghost use Rattle.std.specs.Prelude.{◌≡◌, ◌<◌, ◌+◌, ◌-◌, ◌^◌, IfOk};
ghost use Rattle.smt_sexpr.specs.Tree.{Sexpr};
ghost use Rattle.smt_sexpr.specs.Table.{Means, HasMeaning};
ghost use Rattle.smt_script.specs.States.{State as Meaning, settled};
ghost use Rattle.script_walk.specs.code.Events.{IsStart, IsReady, Carries, IsNextEvent};
ghost use Rattle.script_walk.specs.code.Standing.{Stands};

use crate::kind::kind_of;
use crate::reader::{Next, read_next};
use smt_answer::Kind;
use smt_lex::Lexer;
use smt_script::{Effect, Notice, Question, Satisfiability, ScriptError, State, state_law};
use smt_sexpr::{SexprId, Sexprs};
use std::alloc::{AllocError, Global};

/// What a script comes to next.
#[derive(Clone, Copy, Debug, PartialEq, Eq)]
pub enum Event {
    /// This is to be told of a command.
    Told(SexprId, Notice),
    /// A command asks this. Who answers it may refuse it first ([`crate::refusal_of`]); the walk goes on behind
    /// [`Walk::settle`].
    Asked(SexprId, Question),
    /// The script ends: by `(exit)`, or with its text.
    Ended,
    /// A command, or what can't be read in place of one, is refused.
    Failed(Kind),
}

/// A script that is walked through: what is read of it, and what it has led to.
pub struct Walk<'a> {
    /// Reads the script.
    pub lexer: Lexer<'a>,
    /// The command that was read last.
    pub sexprs: Sexprs<'a>,
    /// What the commands have led to.
    pub state: State<'a>,
    /// The number of the next command, from 1; of a command that is refused, and of a question without an answer, its own.
    pub number: u64,
}

impl Drop for Walk<'_> {
    fn drop(self) {
        let Walk {
            lexer,
            sexprs,
            state,
            number: _,
        } = self;
        drop(lexer);
        drop(sexprs);
        drop(state);
    }
}

impl<'a> Walk<'a> {
    /// Before the first command. It takes no memory yet.
    pub fn new(alloc: Global, bytes: &'a [u8]) -> Self
        ensures start { IsStart result }
        ensures bytes { result.lexer.bytes ≡ bytes.now }
    {
        state_law();
        Walk {
            lexer: Lexer::new(bytes),
            sexprs: Sexprs::new(alloc, bytes),
            state: State::new(alloc),
            number: 1,
        }
    }

    /// Carries out a command that was read into the table.
    pub fn carry_out(&mut self, id: SexprId) -> Result<Event, AllocError>
        requires meaning { HasMeaning self.old.sexprs id }
        requires stands { (s : Meaning) × Stands self.old.state s }
        requires few { self.old.number < 2 ^ 64 - 1 }
        ensures carries { IfOk result (λ event. (s : Meaning) (x : Sexpr)
            → Stands self.old.state s → Means self.old.sexprs id x → Carries self.old self.new s x event) }
        ensures lexer { self.new.lexer ≡ self.old.lexer }
        ensures sexprs { self.new.sexprs ≡ self.old.sexprs }
    {
        state_law();
        match self.state.step(&self.sexprs, id) {
            Ok(Effect::Tell(notice)) => {
                self.number += 1;
                Ok(Event::Told(id, notice))
            }
            Ok(Effect::Ask(question)) => Ok(Event::Asked(id, question)),
            Ok(Effect::Exit) => Ok(Event::Ended),
            Err(ScriptError::Refused(why)) => Ok(Event::Failed(kind_of(why))),
            Err(ScriptError::OutOfMemory) => Err(AllocError),
        }
    }

    /// Reads the next command and carries it out.
    pub fn next(&mut self) -> Result<Event, AllocError>
        requires { IsReady self.old }
        ensures { IfOk result (IsNextEvent self.old self.new) }
    {
        match read_next(&mut self.sexprs, &mut self.lexer)? {
            Next::Command(id) => {
                let event = self.carry_out(id)?;
                Ok(event)
            }
            Next::End => Ok(Event::Ended),
            Next::Unread(kind) => Ok(Event::Failed(kind)),
        }
    }

    /// The answer to the question that was asked last, which is counted now. It takes no memory.
    pub fn settle(&mut self, verdict: Satisfiability)
        requires few { self.old.number < 2 ^ 64 - 1 }
        ensures stands { (s : Meaning) → Stands self.old.state s → Stands self.new.state (settled verdict s) }
        ensures rest { self.new ≡ record self.old { state = self.new.state; number = self.old.number + 1 } }
    {
        state_law();
        self.state.settle(verdict);
        self.number += 1;
    }
}
