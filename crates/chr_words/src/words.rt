//! What the words after the program's name ask for.
ghost use Rattle.std.specs.Prelude.{◌≡◌, ℕ, List, [], ◌∷◌, Some, None, IfOk, false, true, fold, map};
ghost use Rattle.std.specs.String.{string_bytes};
ghost use Rattle.clap.specs.Words.{app_of, found_of, kind_of, rule_of, with_rule};
ghost use Rattle.chr_words.specs.App.{bare_app, chr_app, text_rules, number_rules, file_rules, program_rule, query_rule, budget_rule, workers_rule, record_rule, replay_rule, totals_rule};
ghost use Rattle.chr_words.specs.Answer.{IsAnswer, IsRead, IsRefusal, IsRun};
ghost use Rattle.chr_words.specs.Words.{is_plain, is_version};

use clap::builder::ValueParser;
use clap::error::ErrorKind;
use clap::{Arg, ArgAction, ArgMatches, Command, Error, value_parser};
use std::alloc::{AllocError, Global};

/// What the words after the program's name ask for.
#[derive(Debug, Drop)]
pub enum Request<'a> {
    /// A run, or the replay of a schedule, by what was said of each.
    Run {
        /// The path of the program's file.
        program: Option<&'a str>,
        /// The text of the query.
        query: Option<&'a str>,
        /// The greatest number of transitions.
        budget: Option<u64>,
        /// The number of workers that search ahead.
        workers: Option<u32>,
        /// The path of the file to which the schedule is written.
        record: Option<&'a str>,
        /// The path of the file of the schedule to be replayed.
        replay: Option<&'a str>,
        /// Whether the counts and totals are to be said.
        totals: bool,
    },
    /// This text of help.
    Help(String),
    /// The version.
    Version,
    /// Nothing that there is, for the reason in this text.
    Refused(String),
}

fn program_arg<'a>(alloc: Global) -> Arg<'a>
    ensures rule { rule_of result ≡ program_rule }
    ensures local { result.global ≡ false }
{
    Arg::new(alloc, "PROGRAM").help("The file of the program")
}

fn query_arg<'a>(alloc: Global) -> Arg<'a>
    ensures rule { rule_of result ≡ query_rule }
    ensures local { result.global ≡ false }
{
    Arg::new(alloc, "QUERY").help("The text of the query")
}

fn budget_arg<'a>(alloc: Global) -> Arg<'a>
    ensures rule { rule_of result ≡ budget_rule }
    ensures local { result.global ≡ false }
{
    Arg::new(alloc, "budget")
        .long("budget")
        .value_name("N")
        .value_parser(value_parser!(u64))
        .help("The greatest number of transitions, 100000 where not given")
}

fn workers_arg<'a>(alloc: Global) -> Arg<'a>
    ensures rule { rule_of result ≡ workers_rule }
    ensures local { result.global ≡ false }
{
    Arg::new(alloc, "workers")
        .long("workers")
        .value_name("W")
        .value_parser(ValueParser::unsigned(0, 4_294_967_295))
        .help("The number of workers that search ahead, 0 where not given")
}

fn record_arg<'a>(alloc: Global) -> Arg<'a>
    ensures rule { rule_of result ≡ record_rule }
    ensures local { result.global ≡ false }
{
    Arg::new(alloc, "record")
        .long("record")
        .value_name("FILE")
        .help("Writes the schedule of the run to this file")
}

fn replay_arg<'a>(alloc: Global) -> Arg<'a>
    ensures rule { rule_of result ≡ replay_rule }
    ensures local { result.global ≡ false }
{
    Arg::new(alloc, "replay")
        .long("replay")
        .value_name("FILE")
        .help("Replays the schedule in this file, and stands alone")
}

fn totals_arg<'a>(alloc: Global) -> Arg<'a>
    ensures rule { rule_of result ≡ totals_rule }
    ensures local { result.global ≡ false }
{
    Arg::new(alloc, "totals")
        .long("totals")
        .action(ArgAction::SetTrue)
        .help("Says the counts and totals of the run")
}

/// The command with the program and the query.
fn with_texts<'a>(alloc: Global, command: Command<'a>) -> Result<Command<'a>, AllocError>
    ensures { IfOk result (λ c. app_of c ≡ fold with_rule (app_of command.entry) text_rules) }
{
    command.arg(program_arg(alloc))?.arg(query_arg(alloc))
}

/// The command with the options that take a number.
fn with_numbers<'a>(alloc: Global, command: Command<'a>) -> Result<Command<'a>, AllocError>
    ensures { IfOk result (λ c. app_of c ≡ fold with_rule (app_of command.entry) number_rules) }
{
    command.arg(budget_arg(alloc))?.arg(workers_arg(alloc))
}

/// The command with the options that take a file.
fn with_files<'a>(alloc: Global, command: Command<'a>) -> Result<Command<'a>, AllocError>
    ensures { IfOk result (λ c. app_of c ≡ fold with_rule (app_of command.entry) file_rules) }
{
    command.arg(record_arg(alloc))?.arg(replay_arg(alloc))
}

/// The command, before it takes any words.
fn bare_command<'a>(alloc: Global) -> Command<'a>
    ensures { app_of result ≡ bare_app }
{
    Command::new(alloc, "chr")
        .no_binary_name(true)
        .about("Runs a query over a program of Constraint Handling Rules")
}

/// The words that the program takes.
fn chr_command<'a>(alloc: Global) -> Result<Command<'a>, AllocError>
    ensures { IfOk result (λ c. app_of c ≡ chr_app) }
{
    let command = with_texts(alloc, bare_command(alloc))?;
    let command = with_numbers(alloc, command)?;
    with_files(alloc, command)?.arg(totals_arg(alloc))
}

/// What words that were taken ask for.
fn run_of<'a>(matches: &ArgMatches<'a>) -> Request<'a>
    ensures { IsRead (found_of matches.now) result }
{
    Request::Run {
        program: matches.get_str("PROGRAM"),
        query: matches.get_str("QUERY"),
        budget: matches.get_one::<u64>("budget"),
        workers: matches.get_one::<u32>("workers"),
        record: matches.get_str("record"),
        replay: matches.get_str("replay"),
        totals: matches.get_flag("totals"),
    }
}

/// What is said in place of a run.
fn refusal_of<'a>(alloc: Global, error: &Error) -> Result<Request<'a>, AllocError>
    ensures { IfOk result (IsRefusal (kind_of error.now)) }
{
    match error.kind() {
        ErrorKind::OutOfMemory => Err(AllocError),
        ErrorKind::DisplayHelp => Ok(Request::Help(format!(in alloc; "{error}")?)),
        _ => Ok(Request::Refused(format!(in alloc; "{error}")?)),
    }
}

/// Whether the words ask for the version: `--version` stands alone.
pub fn asks_version(words: &[String]) -> bool
    ensures { result ≡ is_version (map string_bytes words.now) }
{
    match words {
        [word] => word.as_str() == "--version",
        _ => false,
    }
}

/// What the words after the program's name ask for: the version where `--version` stands alone, and else what `clap` reads in them.
pub fn asked<'a>(alloc: Global, words: &'a [String]) -> Result<Request<'a>, AllocError>
    ensures asks { IfOk result (IsAnswer (map string_bytes words.entry.now)) }
    ensures no_words { words.entry.now ≡ [] → IfOk result (IsRun None None) }
    ensures two_words { (p q : List ℕ) → map string_bytes words.entry.now ≡ p ∷ q ∷ [] → is_plain p
        ≡ true → is_plain q ≡ true → IfOk result (IsRun (Some p) (Some q)) }
{
    if asks_version(words) {
        return Ok(Request::Version);
    }
    match chr_command(alloc)?.try_get_matches_from(words) {
        Ok(matches) => Ok(run_of(&matches)),
        Err(error) => refusal_of(alloc, &error),
    }
}
