//! The pieces of what is written.
ghost use Rattle.std.specs.Prelude.{◌≡◌, ◌≢◌, ◌++◌, List, ℕ, IfOk, OnOk};
ghost use Rattle.dtp_entry.specs.Transcripts.{decision_line};
ghost use Rattle.dtp_entry.specs.Written.{WritesOne};
ghost use Rattle.dtp_entry.specs.declared.report.Report.TheVariants.{Verdicts};
ghost use Rattle.dtp_session.specs.declared.piece.Piece.TheVariants.{Decision, Proof, Told};
ghost use Rattle.dtp_session.specs.code.Keeping.{line_shown};
ghost use Rattle.dtp_session.specs.code.Sessions.{IsText};

use crate::found::Found;
use crate::session::Session;
use cert_text::{Version, write_end, write_header};
use dtp_entry::{Report, SessionError, write_text};
use dtp_io::Sink;
use kept_lemmas::Item;
use smt_answer::{Kind, error_text};
use std::alloc::{AllocError, Global};

/// A piece of what is written of a script.
#[derive(Clone, Copy, Debug, PartialEq, Eq)]
pub enum Piece {
    /// What stands before the first command's answer.
    Opening,
    /// The line of a question, by the entry that is held.
    Decision,
    /// The line of the entry that is held.
    Proof,
    /// The text that the session has made.
    Told,
    /// What stands behind the last answer of a script without an error.
    Closing,
    /// The line of an error.
    Error(Kind),
}

/// Writes what is answered to a question.
fn write_verdict<K: Sink>(alloc: Global, found: &Found, sink: &mut K) -> Result<(), SessionError>
    ensures { WritesOne (λ text. text ≡ decision_line Verdicts found.now) (K.holds sink.old) (K.holds sink.new)
        (K.faults sink.old) (K.faults sink.new) result }
{
    let mut text = Vec::new(alloc);
    found.answer_text(&mut text)?;
    write_text(sink, &text)
}

/// Writes the line of a question: of a certificate in pieces, and else whole.
fn write_line<K: Sink>(
    alloc: Global,
    report: Report,
    found: &Found,
    items: &[Item],
    sink: &mut K,
) -> Result<(), SessionError>
    ensures { WritesOne (λ text. text ≡ line_shown report found.now items.now) (K.holds sink.old) (K.holds sink.new)
        (K.faults sink.old) (K.faults sink.new) result }
{
    match report {
        Report::Verdicts => write_verdict(alloc, found, sink),
        Report::Certificate(Version::One) => found.write(alloc, sink),
        Report::Certificate(Version::Two) => found.write_with(alloc, items, sink),
    }
}

impl<'a> Session<'a> {
    /// Appends a piece that isn't made of what is held or of the session's text.
    fn append(&self, piece: Piece, text: &mut Vec<u8>) -> Result<(), AllocError>
        requires decision { piece ≢ Decision }
        requires proof { piece ≢ Proof }
        requires told { piece ≢ Told }
        ensures { OnOk result ((added : List ℕ) × IsText self.now piece added
            × (text.new.items ≡ text.old.items ++ added)) }
    {
        match piece {
            Piece::Opening => match self.report {
                Report::Verdicts => Ok(()),
                Report::Certificate(version) => write_header(version, text),
            },
            Piece::Decision | Piece::Proof | Piece::Told => Ok(()),
            Piece::Closing => match self.report {
                Report::Verdicts => Ok(()),
                Report::Certificate(_) => write_end(text),
            },
            Piece::Error(kind) => error_text(self.walk.number, kind, text),
        }
    }

    fn write_text_of<K: Sink>(&self, piece: Piece, sink: &mut K) -> Result<(), SessionError>
        requires decision { piece ≢ Decision }
        requires proof { piece ≢ Proof }
        requires told { piece ≢ Told }
        ensures { WritesOne (IsText self.now piece) (K.holds sink.old) (K.holds sink.new)
            (K.faults sink.old) (K.faults sink.new) result }
    {
        let text = self.text_of(piece)?;
        write_text(sink, &text)
    }

    /// The text of a piece that isn't made of what is held or of the session's text.
    fn text_of(&self, piece: Piece) -> Result<Vec<u8>, AllocError>
        requires decision { piece ≢ Decision }
        requires proof { piece ≢ Proof }
        requires told { piece ≢ Told }
        ensures { IfOk result (λ text. IsText self.now piece text.items) }
    {
        let mut text = Vec::new(self.alloc);
        self.append(piece, &mut text)?;
        Ok(text)
    }

    fn write_decision<K: Sink>(&self, sink: &mut K) -> Result<(), SessionError>
        ensures { WritesOne (IsText self.now Decision) (K.holds sink.old) (K.holds sink.new)
            (K.faults sink.old) (K.faults sink.new) result }
    {
        match &self.held {
            Some(found) => write_line(self.alloc, self.report, found, self.items.as_slice(), sink),
            None => Ok(()),
        }
    }

    /// Writes the entry that is held, lemma by lemma.
    fn write_proof<K: Sink>(&self, sink: &mut K) -> Result<(), SessionError>
        ensures { WritesOne (IsText self.now Proof) (K.holds sink.old) (K.holds sink.new)
            (K.faults sink.old) (K.faults sink.new) result }
    {
        match &self.held {
            Some(found) => found.write(self.alloc, sink),
            None => Ok(()),
        }
    }

    fn write_told<K: Sink>(&self, sink: &mut K) -> Result<(), SessionError>
        ensures { WritesOne (IsText self.now Told) (K.holds sink.old) (K.holds sink.new)
            (K.faults sink.old) (K.faults sink.new) result }
    {
        write_text(sink, &self.text)
    }

    /// Writes a piece.
    pub fn write<K: Sink>(&self, piece: Piece, sink: &mut K) -> Result<(), SessionError>
        ensures { WritesOne (IsText self.now piece) (K.holds sink.old) (K.holds sink.new)
            (K.faults sink.old) (K.faults sink.new) result }
    {
        match piece {
            Piece::Decision => self.write_decision(sink),
            Piece::Proof => self.write_proof(sink),
            Piece::Told => self.write_told(sink),
            _ => self.write_text_of(piece, sink),
        }
    }
}
