//! The program `chr`: what it reads, what it writes, and its exit status.
ghost use Rattle.std.specs.Prelude.{◌≡◌, map, option_map};
ghost use Rattle.std.specs.String.{string_bytes};
ghost use Rattle.chr_run.specs.Command.{IsCommand, RunsTexts, RunsWords, Shows, effect};
ghost use Rattle.chr_run.specs.Output.{AppendsPart};
ghost use Rattle.chr_run.specs.Reports.{IsWritten, options_view, refusal_text, status_code};
ghost use Rattle.chr_run.specs.Sources.{program_in, query_in};

mod replaying;
mod reporting;
mod source;
mod streams;

use self::replaying::replay_words;
use self::reporting::{Options, report};
use self::source::{Source, read_source, say_missing};
use self::streams::Streams;
use crate::error::{RunError, TextError};
use crate::limits::Portion;
use crate::output::write_bytes;
use crate::refusal::{say, say_refusal};
use crate::runs::run_text_by;
use chr_machine::Status;
use chr_words::{Creates, Opens, Request, asked};
use std::alloc::Global;
use std::io::{Read, Write};
use std::sync::Wait;
use std::thread::Threads;

/// The budget of a run where the words give none.
const BUDGET: u64 = 100_000;

/// What `--version` answers: the version, and the kit that proved it.
const VERSION: &str = "chr 0.1.0\nrattle-kit-13f logic dac8208d650f15bf\n";

/// The exit status where there is no run.
const REFUSED: u8 = 2;

/// The exit status of a run.
fn status_code(status: Status) -> u8
    ensures { result ≡ status_code status }
{
    match status {
        Status::Done => 0,
        Status::Failed => 3,
        Status::Faulted(_) => 4,
        Status::Running => 5,
    }
}

/// Says why there is no run, as far as it can be written. The answer is the exit status.
fn refuse<E: Write>(error: &mut E, refusal: TextError) -> u8
    ensures code { result ≡ 2 }
    ensures says { AppendsPart (E.contents error.old) (E.contents error.new) (refusal_text refusal) }
{
    say_refusal(error, refusal);
    REFUSED
}

/// The run of the program and the query that were read, and what follows it.
fn run_source<R: Threads + Wait + Sync, O: Creates, I, W: Write, E: Write>(
    rt: &R,
    alloc: Global,
    source: &Source<'_>,
    options: Options<'_>,
    streams: Streams<'_, W, E, I, O>,
) -> u8
    ensures { RunsTexts (IsWritten (O.fresh streams.entry.files.now) O.Sink.contents) (program_in source.now)
        (query_in source.now) (options_view options.entry)
        (effect (W.contents streams.entry.output.now) (W.contents streams.exit.0.now)
        (E.contents streams.entry.error.now) (E.contents streams.exit.1.0.now) result) }
{
    let Streams {
        output,
        error,
        files,
        ..
    } = streams;
    let (query, program) = source.texts();
    let budget = options.budget.unwrap_or(BUDGET);
    let workers = options.workers.unwrap_or(0);
    match run_text_by(
        rt,
        alloc,
        program,
        query,
        budget,
        workers,
        Portion::Block,
        output,
    ) {
        Ok(run) => report(alloc, files, &run, options, error),
        Err(refusal) => refuse(error, refusal),
    }
}

/// The run that the words ask for, and what follows it; or why there is none.
fn run_words<R: Threads + Wait + Sync, O: Opens + Creates, I: Read, W: Write, E: Write>(
    rt: &R,
    alloc: Global,
    program: Option<&str>,
    query: Option<&str>,
    options: Options<'_>,
    streams: Streams<'_, W, E, I, O>,
) -> u8
    ensures { RunsWords (IsWritten (O.fresh streams.entry.files.now) O.Sink.contents) (option_map (λ t. t.now) program.entry)
        (option_map (λ t. t.now) query.entry) (options_view options.entry)
        (O.bytes_of streams.entry.files.now) (I.remaining streams.entry.input.now)
        (effect (W.contents streams.entry.output.now) (W.contents streams.exit.0.now)
        (E.contents streams.entry.error.now) (E.contents streams.exit.1.0.now) result) }
{
    match read_source(alloc, program, query, streams.files, streams.input) {
        Ok(source) => run_source(rt, alloc, &source, options, streams),
        Err(missing) => {
            say_missing(streams.error, missing);
            REFUSED
        }
    }
}

/// Writes a text.
fn show<W: Write, E: Write>(text: &str, output: &mut W, error: &mut E) -> u8
    ensures { Shows text.now (effect (W.contents output.old) (W.contents output.new)
        (E.contents error.old) (E.contents error.new) result) }
{
    match write_bytes(output, text.as_bytes()) {
        Ok(()) => 0,
        Err(_) => refuse(error, TextError::Write),
    }
}

/// What the program `chr` does with the words after its name: PROGRAM, the path of a file, then QUERY, the text of a query, and either
/// `--replay FILE`, or `--budget N`, `--workers W`, `--record FILE` and `--totals`. With neither PROGRAM nor QUERY the first line of the input
/// is the query, and the rest is the program. The text of the run goes out, many lines by one write, of 100,000 transitions where there is no N
/// and with no worker where there is no W; then its schedule is written to the file of `--record`, and with `--totals` its counts and totals
/// are said on `error`. Or the text goes out of the replay of the schedule in a file, whose counts are said on `error`, or that of `--help`,
/// or of `--version` where it stands alone.
/// The answer is the exit status: 0 done, 2 refused, 3 failed, 4 a fault, 5 the budget used up. Where it is 2, a line on `error` says why.
pub fn command<R: Threads + Wait + Sync, O: Opens + Creates, I: Read, W: Write, E: Write>(
    rt: &R,
    alloc: Global,
    words: &[String],
    files: &O,
    input: &mut I,
    output: &mut W,
    error: &mut E,
) -> u8
    ensures { IsCommand (IsWritten (O.fresh files.now) O.Sink.contents) (map string_bytes words.now)
        (O.bytes_of files.now) (I.remaining input.old)
        (effect (W.contents output.old) (W.contents output.new)
        (E.contents error.old) (E.contents error.new) result) }
{
    match asked(alloc, words) {
        Ok(
            Request::Run {
                program,
                query,
                budget,
                workers,
                record,
                replay,
                totals,
            },
        ) => {
            let options = Options {
                budget,
                workers,
                record_path: record,
                totals,
            };
            let streams = Streams {
                output,
                error,
                input,
                files,
            };
            match replay {
                None => run_words(rt, alloc, program, query, options, streams),
                Some(schedule) => {
                    replay_words(rt, alloc, program, query, options, schedule, streams)
                }
            }
        }
        Ok(Request::Help(text)) => show(text.as_str(), output, error),
        Ok(Request::Version) => show(VERSION, output, error),
        Ok(Request::Refused(text)) => {
            say(error, &[text.as_str()]);
            REFUSED
        }
        Err(_) => refuse(error, TextError::Run(RunError::Memory)),
    }
}
