//! What the last minimize of a script comes to, for whoever wants the value and no text.
ghost use Rattle.std.specs.Prelude.{◌≡◌, ◌-◌, length, None, IfOk};
ghost use Rattle.dtp_entry.specs.declared.report.Report.TheVariants.{Verdicts};
ghost use Rattle.dtp_session.specs.Leasts.{IsLeastOf};
ghost use Rattle.dtp_session.specs.code.Asking.{TakesAt, GivesAt, IsAsker, MayAsk, Answers};
ghost use Rattle.dtp_session.specs.code.Leading.{minimum_held};

use crate::options::SearchOptions;
use crate::piece::Piece;
use crate::session::Session;
use crate::writing::ask_by;
use dtp_entry::Report;
use script_walk::{Event, Visitor, go_through};
use smt_answer::Kind;
use smt_script::{Notice, Question};
use smt_sexpr::SexprId;
use std::alloc::{AllocError, Global};
use std::sync::Wait;
use std::thread::Threads;
use steal_search::Gate;
use stn_core::{NamedValues, Value};

/// A least value, and a schedule that has it: the declared names' values in the order of their declaration.
#[derive(Drop)]
pub struct Minimum {
    pub value: Value,
    pub schedule: NamedValues,
}

impl<'a> Session<'a> {
    /// What the entry that is held tells.
    fn minimum(&self) -> Result<Option<Minimum>, AllocError>
        ensures { IfOk result (λ minimum. minimum ≡ minimum_held self.now.held) }
    {
        match &self.held {
            Some(found) => found.minimum(self.alloc),
            None => Ok(None),
        }
    }
}

/// A session that writes nothing, and what the last minimize came to. Its questions are answered by what is handed in.
#[derive(Drop)]
struct Seeking<'a, D> {
    session: Session<'a>,
    least: Option<Minimum>,
    ask: D,
}

impl<'a, D: Fn(&mut Session<'a>, Question) -> Result<Piece, AllocError>> Visitor<()>
    for Seeking<'a, D> {
    ghost use Rattle.dtp_session.specs.code.Sessions.{IsStart};
    ghost use Rattle.dtp_session.specs.code.Answering.{IsWalkedOn};
    ghost use Rattle.dtp_session.specs.code.Leading.{IsSeeking};
    ghost use Rattle.dtp_session.specs.Leasts.{IsLeastOf};

    type End = Option<Minimum>;

    type Fault = AllocError;

    ghost starts = { λ s _. IsStart s.session × (s.session.report ≡ Verdicts) × (s.least ≡ None)
        × IsAsker (TakesAt D.Fn s.ask) (GivesAt D.Fn s.ask) };

    ghost so_far = { λ first _ now _. IsSeeking first.session now.session now.least
        × IsAsker (TakesAt D.Fn now.ask) (GivesAt D.Fn now.ask) };

    ghost comes = { λ before now event. IsWalkedOn before.session now.session event × (now.least ≡ before.least)
        × (now.ask ≡ before.ask) };

    ghost ends = { λ first _ _ _ least. IsLeastOf first.session.walk.lexer.bytes least };

    ghost breaks = { λ _ _ _ _ _. Unit {0} };

    ghost left = { λ s. length s.session.walk.lexer.bytes - s.session.walk.lexer.place };

    fn begin(&mut self, _lent: &mut ()) -> Result<(), AllocError> {
        Ok(())
    }

    fn next(&mut self) -> Result<Event, AllocError> {
        self.session.walk.next()
    }

    fn told(&mut self, _lent: &mut (), id: SexprId, notice: Notice) -> Result<(), AllocError> {
        smt_script::mode_law();
        self.session.tell(id, notice)?;
        Ok(())
    }

    fn asked(
        &mut self,
        _lent: &mut (),
        _id: SexprId,
        question: Question,
    ) -> Result<Option<Option<Minimum>>, AllocError> {
        smt_script::mode_law();
        smt_script::objective_law();
        let piece = ask_by(&mut self.session, &self.ask, question)?;
        match (piece, question) {
            (Piece::Error(_), _) => Ok(Some(None)),
            (_, Question::CheckSat) => Ok(None),
            (_, Question::Minimize(_)) => {
                self.least = self.session.minimum()?;
                Ok(None)
            }
        }
    }

    fn ended(&mut self, _lent: &mut ()) -> Result<Option<Minimum>, AllocError> {
        Ok(self.least.take())
    }

    fn failed(&mut self, _lent: &mut (), _kind: Kind) -> Result<Option<Minimum>, AllocError> {
        Ok(None)
    }
}

/// The value of the script's last minimize, with a schedule that has it. There is none where a command is refused, where
/// nothing is minimized, and where that minimize is answered by `unsat` or `unbounded`.
///
/// The arguments are those of [`crate::solve_script`]; nothing is written.
pub fn least_of<R: Threads + Wait + Sync, G: Gate>(
    rt: &R,
    alloc: Global,
    bytes: &[u8],
    options: SearchOptions,
    gate: &G,
) -> Result<Option<Minimum>, AllocError>
    ensures { IfOk result (IsLeastOf bytes.now) }
{
    let mut seeking = Seeking {
        session: Session::new(alloc, bytes, Report::Verdicts, options),
        least: None,
        ask: |session: &mut Session<'_>, question: Question|
            requires { MayAsk session.old question }
            ensures { Answers session.old question result session.new }
        { session.ask(rt, gate, question) },
    };
    go_through(&mut seeking, &mut ())
}
