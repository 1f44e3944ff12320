//! What the program `chr` does with a run that was made: it records its schedule, and says its numbers.
ghost use Rattle.std.specs.Prelude.{◌≡◌, option_map};
ghost use Rattle.chr_schedule.specs.EventView.{events_view};
ghost use Rattle.chr_run.specs.Reports.{Follows, IsWritten, Records, Said, options_view, is_silent};

use super::{REFUSED, status_code};
use crate::error::{RunError, TextError};
use crate::numbers::say_both;
use crate::refusal::{say_refusal, say_unwritten};
use crate::result::Run;
use chr_schedule::{Event, print_schedule};
use chr_words::{Creates, write_file};
use std::alloc::Global;
use std::io::Write;

/// What is asked of a run beside its program and its query.
#[derive(Clone, Copy, Drop)]
pub(crate) struct Options<'a> {
    pub(crate) budget: Option<u64>,
    pub(crate) workers: Option<u32>,
    /// The path of the file that its schedule is written to.
    pub(crate) record_path: Option<&'a str>,
    /// Whether its counts and totals are said.
    pub(crate) totals: bool,
}

impl Options<'_> {
    /// Whether nothing is asked.
    pub(super) fn is_silent(&self) -> bool
        ensures { result ≡ is_silent (options_view self.now) }
    {
        !(self.budget.is_some()
            || self.workers.is_some()
            || self.record_path.is_some()
            || self.totals)
    }
}

/// Writes the schedule to the file of a path, or says why not.
fn record<C: Creates, E: Write>(
    alloc: Global,
    files: &C,
    path: &str,
    events: &[Event],
    error: &mut E,
) -> bool
    ensures { Records (IsWritten (C.fresh files.now) C.Sink.contents) (Some path.now) (events_view events.now)
        (E.contents error.old) (E.contents error.new) result }
{
    let mut text = Vec::new(alloc);
    match print_schedule(events, &mut text) {
        Err(_) => {
            say_refusal(error, TextError::Run(RunError::Memory));
            false
        }
        Ok(()) => match write_file(files, path, text.as_slice()) {
            Some(()) => true,
            None => {
                say_unwritten(error, path);
                false
            }
        },
    }
}

/// Writes the schedule to the file that is asked for, if one is. Whether that went well.
fn record_asked<C: Creates, E: Write>(
    alloc: Global,
    files: &C,
    path: Option<&str>,
    events: &[Event],
    error: &mut E,
) -> bool
    ensures { Records (IsWritten (C.fresh files.now) C.Sink.contents) (option_map (λ t. t.now) path.entry)
        (events_view events.now) (E.contents error.old) (E.contents error.new) result }
{
    match path {
        None => true,
        Some(path) => record(alloc, files, path, events, error),
    }
}

/// Says the numbers of a run, where they are asked for.
fn say_asked<E: Write>(run: &Run, totals: bool, error: &mut E)
    ensures { Said totals run.now (E.contents error.old) (E.contents error.new) }
{
    if totals {
        say_both(error, run.counts, run.totals);
    }
}

/// What follows a run. The answer is the exit status.
pub(super) fn report<C: Creates, E: Write>(
    alloc: Global,
    files: &C,
    run: &Run,
    options: Options<'_>,
    error: &mut E,
) -> u8
    ensures { Follows (IsWritten (C.fresh files.now) C.Sink.contents) (options_view options.entry) run.now
        (E.contents error.old) (E.contents error.new) result }
{
    let events = run.schedule.as_slice();
    match record_asked(alloc, files, options.record_path, events, error) {
        false => REFUSED,
        true => {
            say_asked(run, options.totals, error);
            status_code(run.outcome.status)
        }
    }
}
