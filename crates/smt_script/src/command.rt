//! What a command asks for, by the ids of its parts.
ghost use Rattle.std.specs.Prelude.{◌≡◌, Ok, ℕ};
ghost use Rattle.smt_sexpr.specs.Tree.{Sexpr, Items};
ghost use Rattle.smt_sexpr.specs.Table.{Table, Means, MeansEach, HasMeaning};
ghost use Rattle.smt_script.specs.Commands.{Command, alone, logic_command, option_command, info_command, constant_command, function_command, definition_command, annotation_in, annotation_command, assertion_command, level_command, assuming_command, minimize_command, values_command, information_command, echo_command, command_by, without_name, command_of};
ghost use Rattle.smt_script.specs.code.Shapes.{SignatureIs, AnnotationIs, CommandIs, LevelsAre, RequestIs, AsksFor};
ghost use Rattle.smt_sexpr.specs.Shapes.{HaveMeaning};

use crate::assumption::are_literals;
use crate::attribute::named_in;
use crate::command_name::{CommandName, command_name, is_unsupported, left_out_of};
use crate::error::Refusal;
use smt_lex::{TokenKind, numeral_value};
use smt_sexpr::{SexprId, Sexprs};

/// The name and the sort of a new function.
#[derive(Clone, Copy)]
pub struct Signature<'a> {
    pub name: &'a [u8],
    pub has_parameters: bool,
    pub sort: SexprId,
}

/// What a command asks for. A number of levels is `None` from 2^64 on.
#[derive(Clone, Copy)]
pub enum Request<'a> {
    SetLogic(SexprId),
    /// A keyword, and a value.
    SetOption(&'a [u8], Option<SexprId>),
    SetInfo,
    Declare(Signature<'a>),
    /// A signature, and a term.
    Define(Signature<'a>, SexprId),
    Assert(SexprId),
    /// A term, and its name.
    AssertNamed(SexprId, &'a [u8]),
    Push(Option<u64>),
    Pop(Option<u64>),
    CheckSat,
    /// The list of the assumptions.
    CheckSatAssuming(SexprId),
    /// A term.
    Minimize(SexprId),
    Model,
    /// The list of the terms.
    Values(SexprId),
    Proof,
    Core,
    Assumptions,
    /// A keyword.
    Information(&'a [u8]),
    /// A text in its quotation marks.
    Echo(&'a [u8]),
    ResetAssertions,
    Reset,
    Exit,
    Unsupported,
}

/// A command without arguments.
fn alone<'a>(request: Request<'a>, arguments: &[SexprId]) -> Result<Request<'a>, Refusal>
    ensures { (t : Table) (command : Command) (xs : Items) → MeansEach t arguments.now xs
        → CommandIs t request.entry (Ok command) → RequestIs t result (alone command xs) }
{
    if arguments.is_empty() {
        Ok(request)
    } else {
        Err(Refusal::IllFormedCommand)
    }
}

/// `(set-logic s)`, behind its name.
fn logic_command<'a>(arguments: &[SexprId]) -> Result<Request<'a>, Refusal>
    ensures { (t : Table) → AsksFor t arguments.now logic_command result }
{
    match arguments {
        [logic] => Ok(Request::SetLogic(*logic)),
        _ => Err(Refusal::IllFormedCommand),
    }
}

/// `(set-option k)` or `(set-option k v)`, behind its name.
fn option_command<'a>(sexprs: &Sexprs<'a>, arguments: &[SexprId]) -> Result<Request<'a>, Refusal>
    requires { HaveMeaning sexprs.now arguments.now }
    ensures { AsksFor sexprs.now arguments.now option_command result }
{
    match arguments {
        [option] => match sexprs.keyword(*option) {
            Some(text) => Ok(Request::SetOption(text, None)),
            None => Err(Refusal::IllFormedCommand),
        },
        [option, value] => match sexprs.keyword(*option) {
            Some(text) => Ok(Request::SetOption(text, Some(*value))),
            None => Err(Refusal::IllFormedCommand),
        },
        _ => Err(Refusal::IllFormedCommand),
    }
}

/// `(set-info k)` or `(set-info k v)`, behind its name.
fn info_command<'a>(sexprs: &Sexprs<'a>, arguments: &[SexprId]) -> Result<Request<'a>, Refusal>
    requires { HaveMeaning sexprs.now arguments.now }
    ensures { AsksFor sexprs.now arguments.now info_command result }
{
    match arguments {
        [kind, values @ ..] if values.len() <= 1 => match sexprs.keyword(*kind) {
            Some(_) => Ok(Request::SetInfo),
            None => Err(Refusal::IllFormedCommand),
        },
        _ => Err(Refusal::IllFormedCommand),
    }
}

/// `(declare-const n S)`, behind its name.
fn constant_command<'a>(sexprs: &Sexprs<'a>, arguments: &[SexprId]) -> Result<Request<'a>, Refusal>
    requires { HaveMeaning sexprs.now arguments.now }
    ensures { AsksFor sexprs.now arguments.now constant_command result }
{
    match arguments {
        [name, sort] => match sexprs.symbol(*name) {
            Some(name) => Ok(Request::Declare(Signature {
                name,
                has_parameters: false,
                sort: *sort,
            })),
            None => Err(Refusal::IllFormedCommand),
        },
        _ => Err(Refusal::IllFormedCommand),
    }
}

/// `n (..) S`.
fn signature_of<'a>(
    sexprs: &Sexprs<'a>,
    name: SexprId,
    parameters: SexprId,
    sort: SexprId,
) -> Result<Signature<'a>, Refusal>
    requires name { HasMeaning sexprs.now name }
    requires parameters { HasMeaning sexprs.now parameters }
    ensures { (n p s : Sexpr) → Means sexprs.now name n → Means sexprs.now parameters p
        → Means sexprs.now sort s → SignatureIs sexprs.now n p s result }
{
    match (sexprs.symbol(name), sexprs.items(parameters)) {
        (Some(name), Some(parameters)) => Ok(Signature {
            name,
            has_parameters: !parameters.is_empty(),
            sort,
        }),
        _ => Err(Refusal::IllFormedCommand),
    }
}

/// `(declare-fun n (..) S)`, behind its name.
fn function_command<'a>(sexprs: &Sexprs<'a>, arguments: &[SexprId]) -> Result<Request<'a>, Refusal>
    requires { HaveMeaning sexprs.now arguments.now }
    ensures { AsksFor sexprs.now arguments.now function_command result }
{
    match arguments {
        [name, parameters, sort] => {
            let signature = signature_of(sexprs, *name, *parameters, *sort)?;
            Ok(Request::Declare(signature))
        }
        _ => Err(Refusal::IllFormedCommand),
    }
}

/// `(define-fun n (..) S t)`, behind its name.
fn definition_command<'a>(
    sexprs: &Sexprs<'a>,
    arguments: &[SexprId],
) -> Result<Request<'a>, Refusal>
    requires { HaveMeaning sexprs.now arguments.now }
    ensures { AsksFor sexprs.now arguments.now definition_command result }
{
    match arguments {
        [name, parameters, sort, term] => {
            let signature = signature_of(sexprs, *name, *parameters, *sort)?;
            Ok(Request::Define(signature, *term))
        }
        _ => Err(Refusal::IllFormedCommand),
    }
}

/// What follows the `!` of an annotated term.
fn annotation<'s>(sexprs: &'s Sexprs, id: SexprId) -> Option<&'s [SexprId]>
    requires { HasMeaning sexprs.now id }
    ensures { (x : Sexpr) → Means sexprs.now id x → AnnotationIs sexprs.now (annotation_in x) result }
{
    match sexprs.headed(id) {
        Some((name, rest)) if name == b"!".as_slice() => Some(rest),
        _ => None,
    }
}

/// What follows the `!` of an asserted term: a term, and its attributes.
fn annotated_command<'a>(
    sexprs: &Sexprs<'a>,
    annotation: &[SexprId],
) -> Result<Request<'a>, Refusal>
    requires { HaveMeaning sexprs.now annotation.now }
    ensures { AsksFor sexprs.now annotation.now annotation_command result }
{
    match annotation {
        [term, attributes @ ..] if !attributes.is_empty() => match named_in(sexprs, attributes)? {
            Some(name) => Ok(Request::AssertNamed(*term, name)),
            None => Ok(Request::Assert(*term)),
        },
        _ => Err(Refusal::IllFormedCommand),
    }
}

/// `(assert t)`, behind its name.
fn assertion_command<'a>(sexprs: &Sexprs<'a>, arguments: &[SexprId]) -> Result<Request<'a>, Refusal>
    requires { HaveMeaning sexprs.now arguments.now }
    ensures { AsksFor sexprs.now arguments.now assertion_command result }
{
    match arguments {
        [term] => match annotation(sexprs, *term) {
            Some(rest) => annotated_command(sexprs, rest),
            None => Ok(Request::Assert(*term)),
        },
        _ => Err(Refusal::IllFormedCommand),
    }
}

/// `(push n)` or `(pop n)`, behind its name; 1 where no number is given.
fn levels(sexprs: &Sexprs, arguments: &[SexprId]) -> Result<Option<u64>, Refusal>
    requires { HaveMeaning sexprs.now arguments.now }
    ensures { (make : ℕ → Command) (xs : Items) → MeansEach sexprs.now arguments.now xs
        → LevelsAre make (level_command make xs) result }
{
    smt_lex::numeral_digits();
    match arguments {
        [] => Ok(Some(1)),
        [count] => match sexprs.numeral(*count) {
            Some(digits) => Ok(numeral_value(digits)),
            None => Err(Refusal::IllFormedCommand),
        },
        _ => Err(Refusal::IllFormedCommand),
    }
}

/// `(check-sat-assuming (a ..))`, behind its name.
fn assuming_command<'a>(sexprs: &Sexprs<'a>, arguments: &[SexprId]) -> Result<Request<'a>, Refusal>
    requires { HaveMeaning sexprs.now arguments.now }
    ensures { AsksFor sexprs.now arguments.now assuming_command result }
{
    match arguments {
        [literals] => match sexprs.items(*literals) {
            Some(items) if are_literals(sexprs, items) => Ok(Request::CheckSatAssuming(*literals)),
            _ => Err(Refusal::IllFormedCommand),
        },
        _ => Err(Refusal::IllFormedCommand),
    }
}

/// `(minimize t)`, behind its name.
fn minimize_command<'a>(arguments: &[SexprId]) -> Result<Request<'a>, Refusal>
    ensures { (t : Table) → AsksFor t arguments.now minimize_command result }
{
    match arguments {
        [term] => Ok(Request::Minimize(*term)),
        _ => Err(Refusal::IllFormedCommand),
    }
}

/// `(get-value (t ..))`, behind its name.
fn values_command<'a>(sexprs: &Sexprs<'a>, arguments: &[SexprId]) -> Result<Request<'a>, Refusal>
    requires { HaveMeaning sexprs.now arguments.now }
    ensures { AsksFor sexprs.now arguments.now values_command result }
{
    match arguments {
        [terms] => match sexprs.items(*terms) {
            Some(items) if !items.is_empty() => Ok(Request::Values(*terms)),
            _ => Err(Refusal::IllFormedCommand),
        },
        _ => Err(Refusal::IllFormedCommand),
    }
}

/// `(get-info k)`, behind its name.
fn information_command<'a>(
    sexprs: &Sexprs<'a>,
    arguments: &[SexprId],
) -> Result<Request<'a>, Refusal>
    requires { HaveMeaning sexprs.now arguments.now }
    ensures { AsksFor sexprs.now arguments.now information_command result }
{
    match arguments {
        [kind] => match sexprs.keyword(*kind) {
            Some(text) => Ok(Request::Information(text)),
            None => Err(Refusal::IllFormedCommand),
        },
        _ => Err(Refusal::IllFormedCommand),
    }
}

/// `(echo text)`, behind its name.
fn echo_command<'a>(sexprs: &Sexprs<'a>, arguments: &[SexprId]) -> Result<Request<'a>, Refusal>
    requires { HaveMeaning sexprs.now arguments.now }
    ensures { AsksFor sexprs.now arguments.now echo_command result }
{
    match arguments {
        [text] => match sexprs.leaf(*text) {
            Some((TokenKind::Text, text)) => Ok(Request::Echo(text)),
            _ => Err(Refusal::IllFormedCommand),
        },
        _ => Err(Refusal::IllFormedCommand),
    }
}

/// A command that there is, by what follows its name.
fn command_by<'a>(
    sexprs: &Sexprs<'a>,
    name: CommandName,
    arguments: &[SexprId],
) -> Result<Request<'a>, Refusal>
    requires { HaveMeaning sexprs.now arguments.now }
    ensures { AsksFor sexprs.now arguments.now (command_by name) result }
{
    match name {
        CommandName::SetLogic => logic_command(arguments),
        CommandName::SetOption => option_command(sexprs, arguments),
        CommandName::SetInfo => info_command(sexprs, arguments),
        CommandName::DeclareConst => constant_command(sexprs, arguments),
        CommandName::DeclareFun => function_command(sexprs, arguments),
        CommandName::DefineFun => definition_command(sexprs, arguments),
        CommandName::Assert => assertion_command(sexprs, arguments),
        CommandName::Push => {
            let count = levels(sexprs, arguments)?;
            Ok(Request::Push(count))
        }
        CommandName::Pop => {
            let count = levels(sexprs, arguments)?;
            Ok(Request::Pop(count))
        }
        CommandName::CheckSat => alone(Request::CheckSat, arguments),
        CommandName::CheckSatAssuming => assuming_command(sexprs, arguments),
        CommandName::Minimize => minimize_command(arguments),
        CommandName::GetModel => alone(Request::Model, arguments),
        CommandName::GetValue => values_command(sexprs, arguments),
        CommandName::GetProof => alone(Request::Proof, arguments),
        CommandName::GetUnsatCore => alone(Request::Core, arguments),
        CommandName::GetUnsatAssumptions => alone(Request::Assumptions, arguments),
        CommandName::GetInfo => information_command(sexprs, arguments),
        CommandName::Echo => echo_command(sexprs, arguments),
        CommandName::ResetAssertions => alone(Request::ResetAssertions, arguments),
        CommandName::Reset => alone(Request::Reset, arguments),
        CommandName::Exit => alone(Request::Exit, arguments),
    }
}

/// A command that there isn't, by its name.
fn without_name<'a>(name: &[u8]) -> Result<Request<'a>, Refusal>
    ensures { (t : Table) → RequestIs t result (without_name name.now) }
{
    if is_unsupported(name) {
        return Ok(Request::Unsupported);
    }
    match left_out_of(name) {
        Some(command) => Err(Refusal::LeftOut(command)),
        None => Err(Refusal::UnknownCommand),
    }
}

/// What the s-expression asks for.
#[tactic(auto, unfolding(crate::specs::Commands::command_of))]
pub fn request_of<'a>(sexprs: &Sexprs<'a>, id: SexprId) -> Result<Request<'a>, Refusal>
    requires { HasMeaning sexprs.now id }
    ensures { (x : Sexpr) → Means sexprs.now id x → RequestIs sexprs.now result (command_of x) }
{
    match sexprs.headed(id) {
        Some((text, arguments)) => match command_name(text) {
            Some(name) => command_by(sexprs, name, arguments),
            None => without_name(text),
        },
        None => Err(Refusal::IllFormedCommand),
    }
}
