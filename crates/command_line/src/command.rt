//! The command line as `clap` reads it.
ghost use Rattle.std.specs.Prelude.{◌≡◌, IfOk, codes, false};
ghost use Rattle.clap.specs.Words.{app_of, rule_of, with_rule, with_subcommand};
ghost use Rattle.clap.specs.declared.builder.command.Command.TheViews.{out-Command as fields_of};
ghost use Rattle.command_line.specs.Apps.{benching_app, certifying_app, dtp_with, jobshop_app, plain_app, searching_app, silent, top_app};
ghost use Rattle.command_line.specs.Apps.{deadline_rule, emit_rule, format_rule, jobs_rule, machines_rule, slice_rule, start_rule, workers_rule};

use clap::{Arg, Command, value_parser};
use std::alloc::{AllocError, Global};

/// `--workers N`.
fn workers<'a>(alloc: Global) -> Arg<'a>
    ensures rule { rule_of result ≡ workers_rule }
    ensures local { result.global ≡ false }
{
    Arg::new(alloc, "workers")
        .long("workers")
        .value_parser(value_parser!(u64).range(1..=64))
}

/// `--slice B`.
fn slice<'a>(alloc: Global) -> Arg<'a>
    ensures rule { rule_of result ≡ slice_rule }
    ensures local { result.global ≡ false }
{
    Arg::new(alloc, "slice")
        .long("slice")
        .value_parser(value_parser!(u64).range(1..=1_000_000))
}

/// `--format F`.
fn format<'a>(alloc: Global) -> Arg<'a>
    ensures rule { rule_of result ≡ format_rule }
    ensures local { result.global ≡ false }
{
    Arg::new(alloc, "format")
        .long("format")
        .value_parser(value_parser!(u64).range(1..=2))
}

/// `--emit E`, E one of these words.
fn emit<'a>(alloc: Global, emits: &'a [&'a str]) -> Arg<'a>
    ensures rule { rule_of result ≡ emit_rule emits.entry }
    ensures local { result.global ≡ false }
{
    Arg::new(alloc, "emit").long("emit").value_parser(emits)
}

/// The command without help and version words.
fn without_help<'a>(command: Command<'a>) -> Command<'a>
    ensures app { app_of result ≡ silent (app_of command.entry) }
    ensures local { (fields_of result).has_globals ≡ (fields_of command.entry).has_globals }
{
    command
        .disable_help_flag(true)
        .disable_help_subcommand(true)
        .disable_version_flag(true)
}

/// A command that searches.
fn searching<'a>(alloc: Global, name: &'a str) -> Result<Command<'a>, AllocError>
    ensures app { IfOk result (λ c. app_of c ≡ searching_app name.now) }
    ensures local { IfOk result (λ c. (fields_of c).has_globals ≡ false) }
{
    let command = without_help(Command::new(alloc, name));
    command.arg(workers(alloc))?.arg(slice(alloc))
}

/// The command line without its commands.
fn top<'a>(alloc: Global) -> Command<'a>
    ensures app { app_of result ≡ top_app }
    ensures local { (fields_of result).has_globals ≡ false }
{
    without_help(Command::new(alloc, "dtp"))
        .no_binary_name(true)
        .subcommand_required(true)
}

/// The command that certifies.
fn certifying<'a>(alloc: Global) -> Result<Command<'a>, AllocError>
    ensures app { IfOk result (λ c. app_of c ≡ certifying_app) }
    ensures local { IfOk result (λ c. (fields_of c).has_globals ≡ false) }
{
    searching(alloc, "certify")?.arg(format(alloc))
}

/// A command of one word.
fn plain<'a>(alloc: Global, name: &'a str) -> Command<'a>
    ensures app { app_of result ≡ plain_app name.now }
    ensures local { (fields_of result).has_globals ≡ false }
{
    without_help(Command::new(alloc, name))
}

/// How many jobs.
fn jobs<'a>(alloc: Global) -> Arg<'a>
    ensures rule { rule_of result ≡ jobs_rule }
    ensures local { result.global ≡ false }
{
    Arg::new(alloc, "jobs")
        .required(true)
        .value_parser(value_parser!(u64).range(1..=40))
}

/// How many machines.
fn machines<'a>(alloc: Global) -> Arg<'a>
    ensures rule { rule_of result ≡ machines_rule }
    ensures local { result.global ≡ false }
{
    Arg::new(alloc, "machines")
        .required(true)
        .value_parser(value_parser!(u64).range(1..=40))
}

/// What is drawn from.
fn start<'a>(alloc: Global) -> Arg<'a>
    ensures rule { rule_of result ≡ start_rule }
    ensures local { result.global ≡ false }
{
    Arg::new(alloc, "start")
        .required(true)
        .value_parser(value_parser!(u64).range(0..=4_294_967_295))
}

/// When all jobs must have ended.
fn deadline<'a>(alloc: Global) -> Arg<'a>
    ensures rule { rule_of result ≡ deadline_rule }
    ensures local { result.global ≡ false }
{
    Arg::new(alloc, "deadline")
        .required(true)
        .value_parser(value_parser!(u64).range(0..=1_000_000))
}

/// The command with two more arguments.
fn with_two<'a>(
    command: Command<'a>,
    first: Arg<'a>,
    second: Arg<'a>,
) -> Result<Command<'a>, AllocError>
    requires local { (fields_of command).has_globals ≡ false }
    requires first_local { first.global ≡ false }
    requires second_local { second.global ≡ false }
    ensures app { IfOk result (λ c. app_of c
        ≡ with_rule (with_rule (app_of command.entry) (rule_of first.entry)) (rule_of second.entry)) }
    ensures local { IfOk result (λ c. (fields_of c).has_globals ≡ false) }
{
    command.arg(first)?.arg(second)
}

/// The command that makes a job shop's script.
fn benching<'a>(alloc: Global) -> Result<Command<'a>, AllocError>
    ensures app { IfOk result (λ c. app_of c ≡ benching_app) }
    ensures local { IfOk result (λ c. (fields_of c).has_globals ≡ false) }
{
    let command = without_help(Command::new(alloc, "bench"));
    let command = with_two(command, jobs(alloc), machines(alloc))?;
    let command = with_two(command, start(alloc), deadline(alloc))?;
    command.arg(workers(alloc))
}

/// The command that reads a job shop.
fn jobshop<'a>(alloc: Global, emits: &'a [&'a str]) -> Result<Command<'a>, AllocError>
    ensures app { IfOk result (λ c. app_of c ≡ jobshop_app emits.entry) }
    ensures local { IfOk result (λ c. (fields_of c).has_globals ≡ false) }
{
    searching(alloc, "jobshop")?.arg(emit(alloc, emits))
}

/// The command with the commands of one word below it.
fn with_plain<'a>(alloc: Global, command: Command<'a>) -> Result<Command<'a>, AllocError>
    requires local { (fields_of command).has_globals ≡ false }
    ensures app { IfOk result (λ c. app_of c ≡ with_subcommand (with_subcommand (app_of command.entry)
        (plain_app (codes "check")).top) (plain_app (codes "convert")).top) }
    ensures local { IfOk result (λ c. (fields_of c).has_globals ≡ false) }
{
    let command = command.subcommand(plain(alloc, "check"))?;
    command.subcommand(plain(alloc, "convert"))
}

/// The command with the commands about job shops below it.
fn with_shops<'a>(
    alloc: Global,
    command: Command<'a>,
    emits: &'a [&'a str],
) -> Result<Command<'a>, AllocError>
    requires local { (fields_of command).has_globals ≡ false }
    ensures app { IfOk result (λ c. app_of c ≡ with_subcommand (with_subcommand (app_of command.entry)
        benching_app.top) (jobshop_app emits.entry).top) }
    ensures local { IfOk result (λ c. (fields_of c).has_globals ≡ false) }
{
    let command = command.subcommand(benching(alloc)?)?;
    let command = command.subcommand(jobshop(alloc, emits)?)?;
    Ok(command)
}

/// The whole command line, with the words that `--emit` takes.
pub(crate) fn dtp<'a>(alloc: Global, emits: &'a [&'a str]) -> Result<Command<'a>, AllocError>
    ensures app { IfOk result (λ c. app_of c ≡ dtp_with emits.entry) }
    ensures local { IfOk result (λ c. (fields_of c).has_globals ≡ false) }
{
    let solve = searching(alloc, "solve")?;
    let command = top(alloc).subcommand(solve)?;
    let command = command.subcommand(certifying(alloc)?)?;
    let command = with_plain(alloc, command)?;
    with_shops(alloc, command, emits)
}
