//! The line that answers a script with its certificate.
ghost use Rattle.std.specs.Prelude.{◌≡◌, string_bytes, codes, IfOk};
ghost use Rattle.dtp_check.specs.declared.judgement.Judgement.TheVariants.{Script};
ghost use Rattle.dtp_check.specs.Texts.{flaw_text, certificate_line, step_line, entry_line, judgement_line};

use crate::judgement::{EntryFlaw, Judgement};
use bstr::ByteVec;
use cert_check::FlawKind;
use cert_read::CertificateRefusal;
use itoa::Buffer;
use smt_answer::{Kind, kind_text};
use std::alloc::{AllocError, Global};

/// What a flaw's line says of its kind. The last kind is written without the numbers of a lemma and a step.
fn flaw_text(kind: FlawKind) -> &'static str
    ensures { result.now ≡ flaw_text kind }
{
    match kind {
        FlawKind::NoSuchPoint => "no such point",
        FlawKind::NoSuchClause => "no such clause",
        FlawKind::NotAssumed => "not assumed",
        FlawKind::NotACycle => "not a cycle",
        FlawKind::NotDenied => "not denied",
        FlawKind::StepsMissing => "steps missing",
        FlawKind::StepsLeftOver => "steps left over",
        FlawKind::NoSuchKeptLemma => "no such kept lemma",
        FlawKind::NotActive => "not active",
        FlawKind::LastLemmaNotEmpty => "last lemma not empty",
    }
}

/// The line for a text that is no certificate.
fn certificate_line(alloc: Global, why: CertificateRefusal) -> Result<String, AllocError>
    ensures { IfOk result (λ line. string_bytes line ≡ certificate_line why) }
{
    match why {
        CertificateRefusal::NoHeader => format!(in alloc; "refused: certificate: no header\n"),
        CertificateRefusal::IllFormed(entry) => {
            format!(in alloc; "refused: certificate: entry {entry} is ill-formed\n")
        }
        CertificateRefusal::NoEnd => format!(in alloc; "refused: certificate: no end\n"),
        CertificateRefusal::TextAfterEnd => {
            format!(in alloc; "refused: certificate: text after the end\n")
        }
    }
}

/// The line for what is wrong with a step of a lemma.
fn step_line(
    alloc: Global,
    entry: usize,
    lemma: usize,
    step: usize,
    text: &str,
) -> Result<String, AllocError>
    ensures { IfOk result (λ line. string_bytes line ≡ step_line entry lemma step text.now) }
{
    format!(in alloc; "refused: entry {entry}: lemma {lemma}: step {step}: {text}\n")
}

/// The line for an entry that isn't right.
fn entry_line(alloc: Global, entry: usize, flaw: EntryFlaw) -> Result<String, AllocError>
    ensures { IfOk result (λ line. string_bytes line ≡ entry_line entry flaw) }
{
    match flaw {
        EntryFlaw::WrongKind => format!(in alloc; "refused: entry {entry}: wrong kind of entry\n"),
        EntryFlaw::WrongCount => format!(in alloc;
            "refused: entry {entry}: wrong count of values\n"
        ),
        EntryFlaw::WrongSort(k) => {
            format!(in alloc; "refused: entry {entry}: value {k} has the wrong sort\n")
        }
        EntryFlaw::FalseAssertion(k) => {
            format!(in alloc; "refused: entry {entry}: assertion {k} is false\n")
        }
        EntryFlaw::NotAttained => {
            format!(in alloc; "refused: entry {entry}: value is not attained\n")
        }
        EntryFlaw::OutOfRange => {
            format!(in alloc; "refused: entry {entry}: value is out of range\n")
        }
        EntryFlaw::NoSuchPoint => format!(in alloc; "refused: entry {entry}: no such point\n"),
        EntryFlaw::NotOfObjective => {
            format!(in alloc; "refused: entry {entry}: set is not of the objective\n")
        }
        EntryFlaw::NotKept(i) => {
            format!(in alloc; "refused: entry {entry}: clause {i} is not kept\n")
        }
        EntryFlaw::Flawed(flaw) => match flaw.kind {
            FlawKind::LastLemmaNotEmpty => {
                format!(in alloc; "refused: entry {entry}: last lemma not empty\n")
            }
            kind => step_line(alloc, entry, flaw.lemma, flaw.step, flaw_text(kind)),
        },
    }
}

/// The line for a command that can't be read, or is refused.
#[tactic(auto, unfolding(crate::specs::Texts::judgement_line))]
fn script_line(alloc: Global, command: u64, kind: Kind) -> Result<Vec<u8>, AllocError>
    ensures { IfOk result (λ line. line.items ≡ judgement_line (Script command kind)) }
{
    let mut buffer = Buffer::new();
    let mut line = Vec::new(alloc);
    line.push_str(b"refused: script: command ")?;
    line.push_str(buffer.format(command).as_bytes())?;
    line.push_str(b": ")?;
    kind_text(kind, &mut line)?;
    line.push_str(b"\n")?;
    Ok(line)
}

/// The line of the answer.
#[tactic(auto, unfolding(crate::specs::Texts::judgement_line))]
pub fn judgement_line(alloc: Global, judgement: Judgement) -> Result<Vec<u8>, AllocError>
    ensures { IfOk result (λ line. line.items ≡ judgement_line judgement) }
{
    let line = match judgement {
        Judgement::Script(command, kind) => return script_line(alloc, command, kind),
        Judgement::Accepted => format!(in alloc; "accepted\n")?,
        Judgement::Certificate(why) => certificate_line(alloc, why)?,
        Judgement::Missing(entry) => format!(in alloc; "refused: entry {entry}: missing\n")?,
        Judgement::Entry(entry, flaw) => entry_line(alloc, entry, flaw)?,
        Judgement::Surplus(entry) => format!(in alloc; "refused: entry {entry}: surplus\n")?,
    };
    Ok(line.into_bytes())
}
