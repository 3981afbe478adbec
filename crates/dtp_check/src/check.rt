//! The call that accepts or refuses.
ghost use Rattle.std.specs.Prelude.{◌≡◌, ◌≢◌, ◌≤◌, IfOk, OnErr, Err};
ghost use Rattle.dtp_io.specs.Faults.{Rose};
ghost use Rattle.dtp_entry.specs.Written.{Writes};
ghost use Rattle.dtp_check.specs.Judged.{IsJudged};
ghost use Rattle.dtp_check.specs.Answered.{IsAnswer, IsAnswerPart};

use crate::certificate_behind::{Behind, open_behind};
use crate::judge::judge_script;
use crate::judgement::Judgement;
use crate::keeps::KeepsNothing;
use crate::script_part::{PartEnd, read_part};
use crate::text::judgement_line;
use dtp_entry::{SessionError, write_text};
use dtp_io::Sink;
use smt_lex::Lexer;
use std::alloc::{AllocError, Global};

/// How a source ended that was answered.
#[derive(Clone, Copy, Debug, PartialEq, Eq)]
pub enum Checked {
    Accepted,
    NotAccepted,
}

/// What the source comes to.
fn judgement_of(alloc: Global, bytes: &[u8]) -> Result<Judgement, AllocError>
    ensures { IfOk result (IsJudged bytes.now) }
{
    let mut lexer = Lexer::new(bytes);
    let part = read_part(alloc, &mut lexer)?;
    match part.end {
        PartEnd::Unread(kind) => return Ok(Judgement::Script(part.commands + 1, kind)),
        _ => {}
    }
    let behind = open_behind(alloc, lexer, part.end)?;
    match behind {
        Behind::Opened(entries) => {
            let judgement = judge_script(alloc, bytes, entries, &mut KeepsNothing)?;
            Ok(judgement)
        }
        Behind::Refused(why) => Ok(Judgement::Certificate(why)),
    }
}

/// Writes the line that accepts or refuses a script with its certificate, which stand one behind the other.
///
/// It takes time of the order of the source, beside what the script's largest state takes at each check-sat. Of the
/// certificate no entry but the one that is judged takes memory, and where an entry may keep a lemma of those before it
/// what their lemmas state and name: a fifth to a quarter of their text, which is cycles for the most part.
pub fn check_pair<K: Sink>(
    alloc: Global,
    bytes: &[u8],
    sink: &mut K,
) -> Result<Checked, SessionError>
    ensures whole { IfOk result (λ checked. Writes (K.holds sink.old) (K.holds sink.new)
        (λ added. IsAnswer bytes.now added checked)) }
    ensures part { OnErr result (Writes (K.holds sink.old) (K.holds sink.new) (IsAnswerPart bytes.now)) }
    ensures fault { result ≡ Err SessionError.WriteFault → Rose (K.faults sink.old) (K.faults sink.new) }
    ensures quiet { result ≢ Err SessionError.WriteFault → K.faults sink.new ≡ K.faults sink.old }
    ensures later { K.faults sink.old ≤ K.faults sink.new }
{
    let judgement = judgement_of(alloc, bytes)?;
    let line = judgement_line(alloc, judgement)?;
    write_text(sink, &line)?;
    match judgement {
        Judgement::Accepted => Ok(Checked::Accepted),
        _ => Ok(Checked::NotAccepted),
    }
}
