//! The texts of answers, appended to what is there. After an error what is there is as before.
ghost use Rattle.std.specs.Prelude.{◌≡◌, ◌++◌, ◌<◌, ◌^◌, codes, take, OnOk, OnErr, IfOk};
ghost use Rattle.std.specs.Vec.{vec_len};
ghost use Rattle.smt_answer.specs.Texts.{kind_text, refusal_text, term_refusal_text, term_text, command_text, error_line, verdict_line, success_line, unsupported_line, unbounded_line, information_line, echo_line};
ghost use Rattle.smt_script.specs.declared.information.Information.TheVariants.{AssertionStackLevels};

use crate::kind::Kind;
use bstr::ByteVec;
use idl_term::{LeftOutTerm, TermRefusal};
use itoa::Buffer;
use smt_script::{Information, LeftOutCommand, Refusal};
use std::alloc::AllocError;

/// What the error's line names of what is left out of terms.
fn term_text(construct: LeftOutTerm) -> &'static str
    ensures { result.now ≡ term_text construct }
{
    match construct {
        LeftOutTerm::Forall => "forall",
        LeftOutTerm::Exists => "exists",
        LeftOutTerm::Match => "match",
        LeftOutTerm::As => "as",
        LeftOutTerm::Underscore => "_",
        LeftOutTerm::Annotation => "!",
        LeftOutTerm::Times => "*",
        LeftOutTerm::Div => "div",
        LeftOutTerm::Mod => "mod",
        LeftOutTerm::Abs => "abs",
        LeftOutTerm::Decimal => "decimal",
        LeftOutTerm::Hexadecimal => "hexadecimal",
        LeftOutTerm::Binary => "binary",
        LeftOutTerm::String => "string",
    }
}

fn command_text(construct: LeftOutCommand) -> &'static str
    ensures { result.now ≡ command_text construct }
{
    match construct {
        LeftOutCommand::Parameters => "parameters",
        LeftOutCommand::Sort => "sort",
        LeftOutCommand::Ite => "ite",
        LeftOutCommand::DefineFunRec => "define-fun-rec",
        LeftOutCommand::DefineFunsRec => "define-funs-rec",
        LeftOutCommand::DefineSort => "define-sort",
        LeftOutCommand::DeclareSort => "declare-sort",
        LeftOutCommand::DeclareDatatype => "declare-datatype",
        LeftOutCommand::DeclareDatatypes => "declare-datatypes",
    }
}

/// What an error's line says of a refused term, in two parts: the second is the construct that is left out.
fn term_refusal_text(why: TermRefusal) -> (&'static str, &'static str)
    ensures { result.0.now ++ result.1.now ≡ term_refusal_text why }
{
    match why {
        TermRefusal::UnknownSymbol => ("unknown symbol", ""),
        TermRefusal::IllFormedTerm => ("ill-formed term", ""),
        TermRefusal::WrongCount => ("wrong count of arguments", ""),
        TermRefusal::WrongSort => ("wrong sort", ""),
        TermRefusal::TooManyCases => ("too many cases", ""),
        TermRefusal::NotADifference => ("not a difference", ""),
        TermRefusal::BoundTooLarge => ("bound too large", ""),
        TermRefusal::TooLarge => ("too large", ""),
        TermRefusal::LeftOut(construct) => ("left out: ", term_text(construct)),
    }
}

/// The same of a refused command.
fn refusal_text(why: Refusal) -> (&'static str, &'static str)
    ensures { result.0.now ++ result.1.now ≡ refusal_text why }
{
    match why {
        Refusal::UnknownCommand => ("unknown command", ""),
        Refusal::IllFormedCommand => ("ill-formed command", ""),
        Refusal::LogicNotSupported => ("logic not supported", ""),
        Refusal::AlreadyDeclared => ("already declared", ""),
        Refusal::TooManyNames => ("too many names", ""),
        Refusal::TooManyLevels => ("too many levels", ""),
        Refusal::PopBelowTheBottom => ("pop below the bottom", ""),
        Refusal::NoModel => ("no model", ""),
        Refusal::NoProof => ("no proof", ""),
        Refusal::NoCore => ("no core", ""),
        Refusal::NoAssumptions => ("no assumptions", ""),
        Refusal::ObjectiveTooLarge => ("objective too large", ""),
        Refusal::LeftOut(construct) => ("left out: ", command_text(construct)),
        Refusal::Term(why) => term_refusal_text(why),
    }
}

/// The same of all that may refuse a command.
fn parts_of(kind: Kind) -> (&'static str, &'static str)
    ensures { result.0.now ++ result.1.now ≡ kind_text kind }
{
    match kind {
        Kind::BadByte => ("bad byte", ""),
        Kind::UnclosedString => ("unclosed string", ""),
        Kind::UnclosedQuotedSymbol => ("unclosed quoted symbol", ""),
        Kind::LeadingZero => ("leading zero", ""),
        Kind::UnclosedList => ("unclosed list", ""),
        Kind::StrayClose => ("stray close", ""),
        Kind::Command(why) => refusal_text(why),
    }
}

/// Appends what an error's line says of it.
pub fn kind_text(kind: Kind, out: &mut Vec<u8>) -> Result<(), AllocError>
    ensures ok { OnOk result (out.new.items ≡ out.old.items ++ kind_text kind) }
    ensures err { OnErr result (out.new.items ≡ out.old.items) }
{
    let before = out.len();
    let (text, construct) = parts_of(kind);
    out.push_str(text.as_bytes())?;
    match out.push_str(construct.as_bytes()) {
        Ok(()) => Ok(()),
        Err(error) => {
            out.truncate(before);
            Err(error)
        }
    }
}

#[tactic(auto, unfolding(crate::specs::Texts::error_line))]
fn write_error(command: u64, kind: Kind, out: &mut Vec<u8>) -> Result<(), AllocError>
    ensures ok { OnOk result (out.new.items ≡ out.old.items ++ error_line command kind) }
    ensures front { take (vec_len out.old) out.new.items ≡ out.old.items }
{
    let mut buffer = Buffer::new();
    out.push_str(b"(error \"command ")?;
    out.push_str(buffer.format(command).as_bytes())?;
    out.push_str(b": ")?;
    kind_text(kind, out)?;
    out.push_str(b"\")\n")?;
    Ok(())
}

/// Appends the line of an error. Commands are counted from 1.
pub fn error_text(command: u64, kind: Kind, out: &mut Vec<u8>) -> Result<(), AllocError>
    ensures ok { OnOk result (out.new.items ≡ out.old.items ++ error_line command kind) }
    ensures err { OnErr result (out.new.items ≡ out.old.items) }
{
    let before = out.len();
    match write_error(command, kind, out) {
        Ok(()) => Ok(()),
        Err(error) => {
            out.truncate(before);
            Err(error)
        }
    }
}

/// Appends the line of a verdict.
pub fn verdict_text(sat: bool, out: &mut Vec<u8>) -> Result<(), AllocError>
    ensures ok { OnOk result (out.new.items ≡ out.old.items ++ verdict_line sat) }
    ensures err { OnErr result (out.new.items ≡ out.old.items) }
{
    if sat {
        out.push_str(b"sat\n")
    } else {
        out.push_str(b"unsat\n")
    }
}

/// Appends `unbounded`.
pub fn unbounded_text(out: &mut Vec<u8>) -> Result<(), AllocError>
    ensures ok { OnOk result (out.new.items ≡ out.old.items ++ unbounded_line) }
    ensures err { OnErr result (out.new.items ≡ out.old.items) }
{
    out.push_str(b"unbounded\n")
}

/// Appends `success`.
pub fn success_text(out: &mut Vec<u8>) -> Result<(), AllocError>
    ensures ok { OnOk result (out.new.items ≡ out.old.items ++ success_line) }
    ensures err { OnErr result (out.new.items ≡ out.old.items) }
{
    out.push_str(b"success\n")
}

/// Appends `unsupported`.
pub fn unsupported_text(out: &mut Vec<u8>) -> Result<(), AllocError>
    ensures ok { OnOk result (out.new.items ≡ out.old.items ++ unsupported_line) }
    ensures err { OnErr result (out.new.items ≡ out.old.items) }
{
    out.push_str(b"unsupported\n")
}

/// Appends what `get-info` is answered, where so many levels are above the bottom.
pub fn info_text(
    information: Information,
    levels: usize,
    out: &mut Vec<u8>,
) -> Result<(), AllocError>
    ensures ok { OnOk result (out.new.items ≡ out.old.items ++ information_line information levels) }
    ensures err { OnErr result (out.new.items ≡ out.old.items) }
{
    match information {
        Information::Name => out.push_str(b"(:name \"dtp\")\n"),
        Information::Version => out.push_str(b"(:version \"1\")\n"),
        Information::Authors => out.push_str(b"(:authors \"dtp\")\n"),
        Information::ErrorBehavior => out.push_str(b"(:error-behavior immediate-exit)\n"),
        Information::AssertionStackLevels => levels_text(levels, out),
    }
}

fn write_levels(levels: usize, out: &mut Vec<u8>) -> Result<(), AllocError>
    ensures ok { OnOk result (out.new.items
        ≡ out.old.items ++ information_line AssertionStackLevels levels) }
    ensures front { take (vec_len out.old) out.new.items ≡ out.old.items }
{
    let mut buffer = Buffer::new();
    out.push_str(b"(:assertion-stack-levels ")?;
    out.push_str(buffer.format(levels).as_bytes())?;
    out.push_str(b")\n")?;
    Ok(())
}

fn levels_text(levels: usize, out: &mut Vec<u8>) -> Result<(), AllocError>
    ensures ok { OnOk result (out.new.items
        ≡ out.old.items ++ information_line AssertionStackLevels levels) }
    ensures err { OnErr result (out.new.items ≡ out.old.items) }
{
    let before = out.len();
    match write_levels(levels, out) {
        Ok(()) => Ok(()),
        Err(error) => {
            out.truncate(before);
            Err(error)
        }
    }
}

/// Appends what `echo` is answered: the text, which stands in its quotation marks.
pub fn echo_text(text: &[u8], out: &mut Vec<u8>) -> Result<(), AllocError>
    ensures ok { OnOk result (out.new.items ≡ out.old.items ++ echo_line text.now) }
    ensures err { OnErr result (out.new.items ≡ out.old.items) }
{
    let before = out.len();
    out.push_str(text)?;
    match out.push_str(b"\n") {
        Ok(()) => Ok(()),
        Err(error) => {
            out.truncate(before);
            Err(error)
        }
    }
}
