//! The replay that the program `chr` makes of a schedule in a file.
ghost use Rattle.std.specs.Prelude.{◌⊎◌, option_map};
ghost use Rattle.chr_run.specs.Command.{Refuses, ReplaysFile, ReplaysFiles, ReplaysTexts, ReplaysWords, effect};
ghost use Rattle.chr_run.specs.Reports.{options_view, is_silent, unread_text};

use super::reporting::Options;
use super::streams::Streams;
use super::{REFUSED, refuse, status_code};
use crate::numbers::say_counts;
use crate::refusal::{say, say_unread};
use crate::replays::replay_text;
use chr_words::{Opens, read_file};
use std::alloc::Global;
use std::io::Write;
use std::sync::Wait;

/// Writes the text of the replay of a schedule, and says its counts; or says why there is none.
fn replay_texts<W: Write, E: Write>(
    rt: &impl Wait,
    alloc: Global,
    program: &[u8],
    query: &[u8],
    schedule: &[u8],
    output: &mut W,
    error: &mut E,
) -> u8
    ensures { ReplaysTexts program.now query.now schedule.now
        (effect (W.contents output.old) (W.contents output.new)
        (E.contents error.old) (E.contents error.new) result) }
{
    match replay_text(rt, alloc, program, query, schedule, output) {
        Ok((status, counts)) => {
            say_counts(error, counts);
            status_code(status)
        }
        Err(refusal) => refuse(error, refusal),
    }
}

/// The replay of the schedule in a file, of a program's text.
fn replay_file<O: Opens, I, W: Write, E: Write>(
    rt: &impl Wait,
    alloc: Global,
    program: &[u8],
    query: &str,
    path: &str,
    streams: Streams<'_, W, E, I, O>,
) -> u8
    ensures { let done = effect (W.contents streams.entry.output.now) (W.contents streams.exit.0.now)
        (E.contents streams.entry.error.now) (E.contents streams.exit.1.0.now) result in
        ReplaysFile program.now query.now (O.bytes_of streams.entry.files.now path.now) done
        ⊎ Refuses (unread_text path.now) done }
{
    let Streams {
        output,
        error,
        files,
        ..
    } = streams;
    let Some(schedule) = read_file(alloc, files, path) else {
        say_unread(error, path);
        return REFUSED;
    };
    replay_texts(
        rt,
        alloc,
        program,
        query.as_bytes(),
        schedule.as_slice(),
        output,
        error,
    )
}

/// The replay of the schedule in a file, of the program in another one.
fn replay_files<O: Opens, I, W: Write, E: Write>(
    rt: &impl Wait,
    alloc: Global,
    program: &str,
    query: &str,
    schedule: &str,
    streams: Streams<'_, W, E, I, O>,
) -> u8
    ensures { ReplaysFiles (O.bytes_of streams.entry.files.now) program.now query.now schedule.now
        (effect (W.contents streams.entry.output.now) (W.contents streams.exit.0.now)
        (E.contents streams.entry.error.now) (E.contents streams.exit.1.0.now) result) }
{
    match read_file(alloc, streams.files, program) {
        Some(text) => replay_file(rt, alloc, text.as_slice(), query, schedule, streams),
        None => {
            say_unread(streams.error, program);
            REFUSED
        }
    }
}

/// The replay that the words ask for.
pub(super) fn replay_words<O: Opens, I, W: Write, E: Write>(
    rt: &impl Wait,
    alloc: Global,
    program: Option<&str>,
    query: Option<&str>,
    options: Options<'_>,
    schedule: &str,
    streams: Streams<'_, W, E, I, O>,
) -> u8
    ensures { ReplaysWords (option_map (λ t. t.now) program.entry)
        (option_map (λ t. t.now) query.entry) (is_silent (options_view options.entry)) schedule.now (O.bytes_of streams.entry.files.now)
        (effect (W.contents streams.entry.output.now) (W.contents streams.exit.0.now)
        (E.contents streams.entry.error.now) (E.contents streams.exit.1.0.now) result) }
{
    match (program, query, options.is_silent()) {
        (Some(program), Some(query), true) => {
            replay_files(rt, alloc, program, query, schedule, streams)
        }
        _ => {
            say(streams.error, &["chr: --replay stands alone\n"]);
            REFUSED
        }
    }
}
