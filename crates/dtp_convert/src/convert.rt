//! The call that converts or refuses.
ghost use Rattle.std.specs.Prelude.{◌≡◌, ◌≢◌, ◌≤◌, IfOk, OnErr, Err};
ghost use Rattle.dtp_io.specs.Faults.{Rose};
ghost use Rattle.dtp_entry.specs.Written.{Writes};
ghost use Rattle.dtp_convert.specs.Converted.{IsConversion, IsConversionPart};
ghost use Rattle.dtp_convert.specs.code.Examining.{IsExamined};

use crate::converting::Converting;
use crate::lines::write_lines;
use cert_text::Entry;
use dtp_check::{
    Behind, Checked, Judgement, PartEnd, judge_script, judgement_line, open_behind, read_part,
};
use dtp_entry::{SessionError, write_text};
use dtp_io::Sink;
use smt_lex::Lexer;
use std::alloc::{AllocError, Global};

/// What a source comes to.
#[derive(Drop)]
pub enum Examined {
    /// It is accepted, and these entries decide the script's check-sats, each in the form of the first version.
    Converted(Vec<Entry>),
    /// It isn't, for this reason.
    Refused(Judgement),
}

/// What the source comes to, with its certificate converted: each entry is checked once, and where one is wrong, those that were
/// converted before it go.
fn examine(alloc: Global, bytes: &[u8]) -> Result<Examined, AllocError>
    ensures { IfOk result (IsExamined bytes.now) }
{
    let mut lexer = Lexer::new(bytes);
    let part = read_part(alloc, &mut lexer)?;
    match part.end {
        PartEnd::Unread(kind) => {
            return Ok(Examined::Refused(Judgement::Script(part.commands + 1, kind)));
        }
        _ => {}
    }
    let behind = open_behind(alloc, lexer, part.end)?;
    match behind {
        Behind::Opened(entries) => {
            let mut converting = Converting::new(alloc);
            let judgement = judge_script(alloc, bytes, entries, &mut converting)?;
            match judgement {
                Judgement::Accepted => Ok(Examined::Converted(converting.entries)),
                _ => Ok(Examined::Refused(judgement)),
            }
        }
        Behind::Refused(why) => Ok(Examined::Refused(Judgement::Certificate(why))),
    }
}

/// Writes the certificate that stands behind a script anew, in the first version, where the two are accepted; else the line
/// that refuses them.
///
/// It takes the time of checking the pair and of writing it, and memory for the certificate as it is written, beside what checking the pair takes.
pub fn convert_pair<K: Sink>(
    alloc: Global,
    bytes: &[u8],
    sink: &mut K,
) -> Result<Checked, SessionError>
    ensures whole { IfOk result (λ checked. Writes (K.holds sink.old) (K.holds sink.new)
        (λ added. IsConversion bytes.now added checked)) }
    ensures part { OnErr result (Writes (K.holds sink.old) (K.holds sink.new) (IsConversionPart bytes.now)) }
    ensures fault { result ≡ Err SessionError.WriteFault → Rose (K.faults sink.old) (K.faults sink.new) }
    ensures quiet { result ≢ Err SessionError.WriteFault → K.faults sink.new ≡ K.faults sink.old }
    ensures later { K.faults sink.old ≤ K.faults sink.new }
{
    match examine(alloc, bytes)? {
        Examined::Converted(entries) => {
            write_lines(alloc, &entries, sink)?;
            Ok(Checked::Accepted)
        }
        Examined::Refused(judgement) => {
            let line = judgement_line(alloc, judgement)?;
            write_text(sink, &line)?;
            Ok(Checked::NotAccepted)
        }
    }
}
