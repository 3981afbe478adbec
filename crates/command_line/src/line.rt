//! What the words ask for.
ghost use Rattle.std.specs.Prelude.{◌≡◌, ◌≤◌, ℕ, List, [], Some, None, map, IfOk, IfErr, IfSome, String, string_bytes};
ghost use Rattle.clap.specs.Words.{found_of, one_of, rows_of, subcommand_rows_of};
ghost use Rattle.command_line.specs.Lines.{line_of, IsInRange, IsSearchInRange, IsShopInRange, command_of};
ghost use Rattle.command_line.specs.Lines as spec;

use crate::command::dtp;
use clap::ArgMatches;
use clap::error::ErrorKind;
use std::alloc::{AllocError, Global};

/// How to search.
#[derive(Clone, Copy, Debug, PartialEq, Eq)]
pub struct Search {
    /// How many workers search, 1 to 64.
    pub workers: u32,
    /// How many literals a slice of search may add, 1 to 1,000,000.
    pub slice: u32,
}

/// Which version of certificates is to be written.
#[derive(Clone, Copy, Debug, PartialEq, Eq)]
pub enum Format {
    /// The first, in which each lemma's tree ends in negative cycles.
    One,
    /// The second, in which a tree may end where a clause of the problem is denied.
    Two,
}

/// What is to be written of a job shop.
#[derive(Clone, Copy, Debug, PartialEq, Eq)]
pub enum Emit {
    /// A plan.
    Plan,
    /// The script that asks for one.
    Script,
    /// That script's certificate.
    Certificate,
}

/// A job shop whose script is to be made.
#[derive(Clone, Copy, Debug, PartialEq, Eq)]
pub struct Shop {
    /// How many jobs, 1 to 40.
    pub jobs: u32,
    /// How many machines, 1 to 40.
    pub machines: u32,
    /// What orders and durations are drawn from, any.
    pub start: u32,
    /// When all jobs must have ended, 0 to 1,000,000.
    pub deadline: u32,
}

/// What a command line asks for.
#[derive(Clone, Copy, Debug, PartialEq, Eq)]
pub enum Line {
    /// The answers to a script.
    Solve(Search),
    /// The certificate of a script, of this version.
    Certify(Search, Format),
    /// Whether a script's certificate is right.
    Check,
    /// A script's certificate in the first version, where it is right.
    Convert,
    /// A job shop's script, certified by so many workers and checked.
    Bench(Shop, u32),
    /// What is to be written of a job shop.
    Jobshop(Search, Emit),
}

/// Why there is no line.
#[derive(Clone, Copy, Debug, PartialEq, Eq)]
pub enum LineError {
    /// The words are no command line.
    Refused,
    /// Want of memory.
    OutOfMemory,
}

impl From<AllocError> for LineError {
    ghost use Rattle.std.specs.Prelude.{◌≡◌};
    ghost use Rattle.command_line.specs.declared.line.LineError.TheVariants.{OutOfMemory};

    ghost from_gives = { λ _ e. e ≡ OutOfMemory };

    fn from(_error: AllocError) -> LineError {
        LineError::OutOfMemory
    }
}

/// What the words ask for. The program's name isn't among them.
pub fn read_line(alloc: Global, words: &[String]) -> Result<Line, LineError>
    ensures line { IfOk result (λ line. line_of (map string_bytes words.now) ≡ Some line) }
    ensures range { IfOk result IsInRange }
    ensures refused { IfErr result (λ why.
        why ≡ LineError.Refused → line_of (map string_bytes words.now) ≡ None) }
{
    let matches = matches_of(alloc, words)?;
    match matches.subcommand() {
        Some((name, options)) => asked(name, options).ok_or(LineError::Refused),
        None => Err(LineError::Refused),
    }
}

/// What `clap` finds in the words.
fn matches_of<'a>(alloc: Global, words: &'a [String]) -> Result<ArgMatches<'a>, LineError>
    ensures found { IfOk result (λ matches.
        spec.asked [] (subcommand_rows_of matches) ≡ line_of (map string_bytes words.entry.now)) }
    ensures refused { IfErr result (λ why.
        why ≡ LineError.Refused → line_of (map string_bytes words.entry.now) ≡ None) }
{
    let emits: &'a [&'a str] = &["plan", "script", "certificate"];
    let matches = match dtp(alloc, emits)?.try_get_matches_from(words) {
        Ok(matches) => matches,
        Err(error) if error.kind() == ErrorKind::OutOfMemory => return Err(LineError::OutOfMemory),
        Err(_) => return Err(LineError::Refused),
    };
    Ok(matches)
}

/// What the command of this name asks for.
fn asked(name: &str, options: &ArgMatches<'_>) -> Option<Line>
    ensures command { result ≡ command_of name.now (rows_of (found_of options.now)) }
    ensures range { IfSome result IsInRange }
{
    match name {
        "solve" => Some(Line::Solve(search_of(options))),
        "certify" => Some(Line::Certify(search_of(options), format_of(options))),
        "check" => Some(Line::Check),
        "convert" => Some(Line::Convert),
        "bench" => Some(Line::Bench(shop_of(options), workers_of(options))),
        "jobshop" => Some(Line::Jobshop(search_of(options), emit_of(options))),
        _ => None,
    }
}

/// How many workers search, as the options say.
fn workers_of(options: &ArgMatches<'_>) -> u32
    ensures workers { result ≡ spec.workers_of (rows_of (found_of options.now)) }
    ensures range { (1 ≤ result) × (result ≤ 64) }
{
    number_of(options, "workers", 1, 64, 4)
}

/// How to search, as the options say.
fn search_of(options: &ArgMatches<'_>) -> Search
    ensures search { result ≡ spec.search_of (rows_of (found_of options.now)) }
    ensures range { IsSearchInRange result }
{
    Search {
        workers: workers_of(options),
        slice: number_of(options, "slice", 1, 1_000_000, 1_000),
    }
}

/// Which version of certificates is to be written, as the options say.
fn format_of(options: &ArgMatches<'_>) -> Format
    ensures format { result ≡ spec.format_of (rows_of (found_of options.now)) }
{
    match number_of(options, "format", 1, 2, 1) {
        2 => Format::Two,
        _ => Format::One,
    }
}

/// What is to be written of a job shop, as the options say.
fn emit_of(options: &ArgMatches<'_>) -> Emit
    ensures emit { result ≡ spec.emit_of (rows_of (found_of options.now)) }
{
    match options.get_str("emit") {
        Some(word) => emit_named(word),
        None => Emit::Plan,
    }
}

/// What the word asks for. `clap` lets no other word through.
fn emit_named(word: &str) -> Emit
    ensures { result ≡ spec.emit_named word.now }
{
    match word {
        "script" => Emit::Script,
        "certificate" => Emit::Certificate,
        _ => Emit::Plan,
    }
}

/// The four numbers of a job shop.
fn shop_of(options: &ArgMatches<'_>) -> Shop
    ensures shop { result ≡ spec.shop_of (rows_of (found_of options.now)) }
    ensures range { IsShopInRange result }
{
    Shop {
        jobs: number_of(options, "jobs", 1, 40, 1),
        machines: number_of(options, "machines", 1, 40, 1),
        start: number_of(options, "start", 0, u32::MAX, 0),
        deadline: number_of(options, "deadline", 0, 1_000_000, 0),
    }
}

/// The number that was given under this name; the default where none was. `clap` lets no other number through.
fn number_of(options: &ArgMatches<'_>, name: &str, least: u32, most: u32, default: u32) -> u32
    requires default { (least ≤ default) × (default ≤ most) }
    ensures number { result ≡ spec.number_of (one_of name.now (rows_of (found_of options.now))) least most default }
    ensures range { (least ≤ result) × (result ≤ most) }
{
    match options.get_one::<u32>(name) {
        Some(number) if least <= number && number <= most => number,
        _ => default,
    }
}
