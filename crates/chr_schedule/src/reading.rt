//! Reading a schedule.
ghost use Rattle.std.specs.Prelude.{◌≡◌, ◌≤◌, ◌++◌, IfErr, IfOk, IfSome, OnOk, length, replicate};
ghost use Rattle.std.specs.Str.{byte};
ghost use Rattle.chr_semantics.specs.Schedule.{move};
ghost use Rattle.chr_semantics.specs.ScheduleText.{events_of, line_of, read_schedule, size_of};
ghost use Rattle.chr_schedule.specs.ErrorView.{IsErrorOf, kind_view};
ghost use Rattle.chr_schedule.specs.EventView.{events_view};
ghost use Rattle.chr_schedule.specs.LineView.{appended, line_view};
ghost use Rattle.chr_schedule.specs.Parts.{parts};

use crate::line::Line;
use crate::lines::read_line;
use crate::splitting::split_once;
use crate::{Event, Memory, ScheduleError, ScheduleErrorKind};
use chr_semantics::limits::MAX_SCHEDULE_EVENTS;
use std::alloc::Allocator;

/// The events of a text. The first line at fault is answered, and a last line without its line feed is one. It costs time
/// in proportion to the bytes and the events, and memory for the events alone.
pub fn read_schedule<A: Allocator + Copy>(
    alloc: A,
    text: &[u8],
) -> Result<Vec<Event, A>, ScheduleError>
    ensures ok { IfOk result (λ events. read_schedule text.now ≡ Ok (events_view events.items)) }
    ensures err { IfErr result (λ e. IsErrorOf text.now e) }
{
    let mut events = Vec::new(alloc);
    let mut rest = text;
    let mut number = 1;
    while let Some((line, others)) = split_once(rest, b'\n') {
        if let Err(kind) = append_line(line, &mut events) {
            return Err(ScheduleError::in_line(kind, number));
        }
        rest = others;
        number += 1;
    }
    if rest.is_empty() {
        Ok(events)
    } else {
        Err(ScheduleError::in_line(ScheduleErrorKind::BadLine, number))
    }
}

/// Appends the events of a line, or says what is wrong with it. Where memory is refused, some of them may be there.
fn append_line<A: Allocator>(
    line: &[u8],
    events: &mut Vec<Event, A>,
) -> Result<(), ScheduleErrorKind>
    requires { length events.old.items ≤ MAX_SCHEDULE_EVENTS }
    ensures ok { OnOk result (appended (events_view events.old.items)
        (line_of (parts (byte " ") line.now)) ≡ Ok (events_view events.new.items)) }
    ensures few { OnOk result (length events.new.items ≤ MAX_SCHEDULE_EVENTS) }
    ensures err { IfErr result (λ e. IfSome (kind_view e) (λ wrong. appended
        (events_view events.old.items) (line_of (parts (byte " ") line.now)) ≡ Err wrong)) }
{
    let line = read_line(line)?;
    if size_of(line) > MAX_SCHEDULE_EVENTS - events.len() {
        return Err(ScheduleErrorKind::TooManyEvents);
    }
    Ok(append_events(line, events)?)
}

/// How many events a line stands for.
fn size_of(line: Line) -> usize
    ensures { result ≡ size_of (line_view line) }
{
    match line {
        Line::Publish | Line::Arrive(_, _) => 1,
        Line::Steps(count) => count as usize,
    }
}

/// Appends the events of a line. Where memory is refused, some of them may be there.
fn append_events<A: Allocator>(line: Line, events: &mut Vec<Event, A>) -> Result<(), Memory>
    ensures { OnOk result (events_view events.new.items
        ≡ events_view events.old.items ++ events_of (line_view line)) }
{
    match line {
        Line::Publish => events.push(Event::Publish)?,
        Line::Arrive(round, index) => events.push(Event::Arrive(round, index))?,
        Line::Steps(count) => append_steps(count, events)?,
    }
    Ok(())
}

/// Appends `count` Steps. Where memory is refused, some of them may be there.
fn append_steps<A: Allocator>(count: u64, events: &mut Vec<Event, A>) -> Result<(), Memory>
    ensures { OnOk result (events_view events.new.items
        ≡ events_view events.old.items ++ replicate count move) }
{
    for _ in 0..count {
        events.push(Event::Step)?;
    }
    Ok(())
}
