//! Replays of schedules, and their texts.
ghost use Rattle.std.specs.Prelude.{◌≡◌, ◌++◌, IfErr, IfOk, Ok, OnOk};
ghost use Rattle.std.specs.Io.KnownBytes.{Appends};
ghost use Rattle.chr_semantics.specs.Bounds.{IsQueryBounded};
ghost use Rattle.chr_semantics.specs.ScheduleText.{read_schedule as read};
ghost use Rattle.chr_semantics.specs.Text.{lines_text, outcome as outcome_lines};
ghost use Rattle.chr_rules.specs.ProgramView.{names_of, rules_of};
ghost use Rattle.chr_rules.specs.RuleView.{query_view};
ghost use Rattle.chr_schedule.specs.EventView.{events_view};
ghost use Rattle.chr_machine.specs.OutcomeView.{ended_in};
ghost use Rattle.chr_run.specs.Replays.{IsReplayed, IsTextReplay, IsUnread, IsUnsent};

use crate::error::TextError;
use crate::output::write_bytes;
use crate::runs::{Texts, accepted};
use chr_core::{Counts, ReplayError, replay};
use chr_machine::{Outcome, Status};
use chr_rules::{Program, Query};
use chr_schedule::{Event, read_schedule};
use std::alloc::Allocator;
use std::io::Write;
use std::sync::Wait;

/// Writes the text of what a run has come to, or a first part of it.
fn send_outcome<A: Allocator + Copy, W: Write>(
    alloc: A,
    program: &Program<A>,
    outcome: &Outcome<A>,
    writer: &mut W,
) -> Result<(), TextError>
    ensures ok { OnOk result (Appends (W.contents writer.old) (W.contents writer.new)
        (lines_text (outcome.now.lines.made ++ outcome_lines (names_of program.now)
        outcome.now.var_names (rules_of program.now) (ended_in outcome.now)))) }
    ensures err { IfErr result (IsUnsent
        (lines_text (outcome.now.lines.made ++ outcome_lines (names_of program.now)
        outcome.now.var_names (rules_of program.now) (ended_in outcome.now)))
        (W.contents writer.old) (W.contents writer.new)) }
{
    let mut text = Vec::new(alloc);
    match outcome.text(program, &mut text) {
        Err(_) => Err(TextError::Replay(ReplayError::Memory)),
        Ok(()) => match write_bytes(writer, text.as_slice()) {
            Err(_) => Err(TextError::Write),
            Ok(()) => Ok(()),
        },
    }
}

/// The replay of a schedule of a query's run. Its text goes out.
fn replay_into<A: Allocator + Copy, W: Write>(
    rt: &impl Wait,
    alloc: A,
    program: &Program<A>,
    query: Query<A>,
    events: &[Event],
    writer: &mut W,
) -> Result<(Status, Counts), TextError>
    requires { IsQueryBounded (query_view query) }
    ensures { IsReplayed (names_of program.now) (rules_of program.now) (query_view query) (events_view events.now)
        (W.contents writer.old) (W.contents writer.new) result }
{
    match replay(rt, alloc, program, query, events) {
        Err(error) => Err(TextError::Replay(error)),
        Ok((outcome, counts)) => match send_outcome(alloc, program, &outcome, writer) {
            Err(error) => Err(error),
            Ok(()) => Ok((outcome.status, counts)),
        },
    }
}

/// The events of a text.
fn events_of<A: Allocator + Copy>(alloc: A, text: &[u8]) -> Result<Vec<Event, A>, TextError>
    ensures ok { IfOk result (λ events. read text.now ≡ Ok (events_view events.items)) }
    ensures err { IfErr result (IsUnread text.now) }
{
    match read_schedule(alloc, text) {
        Ok(events) => Ok(events),
        Err(error) => Err(TextError::Schedule(error)),
    }
}

/// The replay of a schedule over a program and a query that are accepted.
fn replay_accepted<A: Allocator + Copy, W: Write>(
    rt: &impl Wait,
    alloc: A,
    texts: Texts<A>,
    events: &[Event],
    writer: &mut W,
) -> Result<(Status, Counts), TextError>
    requires { IsQueryBounded (query_view texts.query) }
    ensures { IsReplayed (names_of texts.program) (rules_of texts.program) (query_view texts.query) (events_view events.now)
        (W.contents writer.old) (W.contents writer.new) result }
{
    let query = texts.query;
    replay_into(rt, alloc, &texts.program, query, events, writer)
}

/// Reads a program, a query and a schedule of its run, replays the schedule and writes the text of what its Steps lead to, as a run of so
/// many transitions writes it. It answers the status and the counts. The program is looked at first, then the query, then the schedule,
/// then its events. After Write a first part of the text went out; after another refusal nothing did.
pub fn replay_text<A: Allocator + Copy, W: Write>(
    rt: &impl Wait,
    alloc: A,
    program: &[u8],
    query: &[u8],
    schedule: &[u8],
    writer: &mut W,
) -> Result<(Status, Counts), TextError>
    ensures { IsTextReplay program.now query.now schedule.now (W.contents writer.old)
        (W.contents writer.new) result }
{
    let texts = accepted(alloc, program, query)?;
    let events = events_of(alloc, schedule)?;
    replay_accepted(rt, alloc, texts, events.as_slice(), writer)
}
