//! A session that writes what it answers.
ghost use Rattle.std.specs.Prelude.{◌≡◌, ◌-◌, length};
ghost use Rattle.dtp_session.specs.code.Asking.{TakesAt, GivesAt, IsAsker, MayAsk, Answers};

use crate::piece::Piece;
use crate::session::{Session, Solved};
use dtp_entry::SessionError;
use dtp_io::Sink;
use script_walk::{Event, Visitor};
use smt_answer::Kind;
use smt_script::{Notice, Question};
use smt_sexpr::SexprId;
use std::alloc::AllocError;

/// Answers a question by what was handed in.
pub fn ask_by<'a, D: Fn(&mut Session<'a>, Question) -> Result<Piece, AllocError>>(
    session: &mut Session<'a>,
    ask: &D,
    question: Question,
) -> Result<Piece, AllocError>
    requires asker { IsAsker (TakesAt D.Fn ask.now) (GivesAt D.Fn ask.now) }
    requires may { MayAsk session.old question }
    ensures { Answers session.old question result session.new }
{
    ask(session, question)
}

/// A session that writes the report of its script: what opens it, the commands' answers in order, and what closes it or the line of
/// the first error. Each piece goes out by a write of its own. Its questions are answered by what is handed in, which may search by threads.
#[derive(Drop)]
pub struct Writing<'a, D> {
    pub session: Session<'a>,
    pub ask: D,
}

impl<'a, D: Fn(&mut Session<'a>, Question) -> Result<Piece, AllocError>, K: Sink> Visitor<K>
    for Writing<'a, D> {
    ghost use Rattle.dtp_session.specs.code.Sessions.{IsStart};
    ghost use Rattle.dtp_session.specs.code.Answering.{IsWalkedOn, IsAnswering, IsWrittenOut, IsBrokenOff};

    type End = Solved;

    type Fault = SessionError;

    ghost starts = { λ a _. IsStart a.session × IsAsker (TakesAt D.Fn a.ask) (GivesAt D.Fn a.ask) };

    ghost so_far = { λ first before now after.
        IsAnswering first.session now.session (K.holds before) (K.holds after) (K.faults before) (K.faults after)
        × IsAsker (TakesAt D.Fn now.ask) (GivesAt D.Fn now.ask) };

    ghost comes = { λ before now event. IsWalkedOn before.session now.session event × (now.ask ≡ before.ask) };

    ghost ends = { λ first before now after end.
        IsWrittenOut first.session (K.holds before) (K.holds after) (K.faults before) (K.faults after) end };

    ghost breaks = { λ first before now after why.
        IsBrokenOff first.session (K.holds before) (K.holds after) (K.faults before) (K.faults after) why };

    ghost left = { λ a. length a.session.walk.lexer.bytes - a.session.walk.lexer.place };

    fn begin(&mut self, sink: &mut K) -> Result<(), SessionError> {
        self.session.write(Piece::Opening, sink)?;
        Ok(())
    }

    fn next(&mut self) -> Result<Event, SessionError> {
        let event = self.session.walk.next()?;
        Ok(event)
    }

    fn told(&mut self, sink: &mut K, id: SexprId, notice: Notice) -> Result<(), SessionError> {
        smt_script::mode_law();
        let piece = self.session.tell(id, notice)?;
        self.session.write(piece, sink)?;
        Ok(())
    }

    fn asked(
        &mut self,
        sink: &mut K,
        _id: SexprId,
        question: Question,
    ) -> Result<Option<Solved>, SessionError> {
        smt_script::mode_law();
        smt_script::objective_law();
        let piece = ask_by(&mut self.session, &self.ask, question)?;
        self.session.write(piece, sink)?;
        match piece {
            Piece::Error(_) => Ok(Some(Solved::ScriptStopped)),
            _ => Ok(None),
        }
    }

    fn ended(&mut self, sink: &mut K) -> Result<Solved, SessionError> {
        self.session.write(Piece::Closing, sink)?;
        Ok(Solved::Done)
    }

    fn failed(&mut self, sink: &mut K, kind: Kind) -> Result<Solved, SessionError> {
        self.session.write(Piece::Error(kind), sink)?;
        Ok(Solved::ScriptStopped)
    }
}
