#![tactic(auto, using(chr_term::proofs::Extensions::extended_on, chr_term::proofs::Extensions::taken_back))]
//! Printing a schedule.
ghost use Rattle.std.specs.Prelude.{◌≡◌, ◌++◌, ◌∷◌, [], OnErr, OnOk, map};
ghost use Rattle.chr_semantics.specs.ScheduleText.{line_text, schedule_text};
ghost use Rattle.chr_semantics.specs.Text.{lines_text};
ghost use Rattle.chr_term.specs.Extension.{IsExtension};
ghost use Rattle.chr_schedule.specs.EventView.{events_view};
ghost use Rattle.chr_schedule.specs.LineView.{line_view, run_of};

use crate::line::Line;
use crate::{Event, Memory};
use chr_term::{all_or_nothing, write_bytes, write_number};
use std::alloc::Allocator;

/// Appends the text of a schedule, where each longest run of Steps is one line. Where memory is refused, the output is as
/// before. It costs time in proportion to the events.
pub fn print_schedule<O: Allocator>(events: &[Event], out: &mut Vec<u8, O>) -> Result<(), Memory>
    ensures ok { OnOk result (out.new.items
        ≡ out.old.items ++ schedule_text (events_view events.now)) }
    ensures err { OnErr result (out.new.items ≡ out.old.items) }
{
    let len = out.len();
    let written = write_schedule(events, out);
    all_or_nothing(written, len, out)
}

/// Writes the text of a schedule.
fn write_schedule<O: Allocator>(events: &[Event], out: &mut Vec<u8, O>) -> Result<(), Memory>
    ensures ok { OnOk result (out.new.items
        ≡ out.old.items ++ schedule_text (events_view events.now)) }
    ensures kept { IsExtension out.old.items out.new.items }
{
    // The Steps since the last line, which are not written yet.
    let mut steps = 0u64;
    for event in events {
        match *event {
            Event::Step => steps += 1,
            Event::Publish => {
                write_after(steps, Line::Publish, out)?;
                steps = 0;
            }
            Event::Arrive(round, index) => {
                write_after(steps, Line::Arrive(round, index), out)?;
                steps = 0;
            }
        }
    }
    write_steps(steps, out)
}

/// Writes `steps` Steps, and then a line.
fn write_after<O: Allocator>(steps: u64, line: Line, out: &mut Vec<u8, O>) -> Result<(), Memory>
    ensures ok { OnOk result (out.new.items
        ≡ out.old.items ++ lines_text (map line_text (run_of steps ++ line_view line ∷ []))) }
    ensures kept { IsExtension out.old.items out.new.items }
{
    write_steps(steps, out)?;
    write_line(line, out)
}

/// Writes `steps` Steps: a line, or nothing where there are none.
fn write_steps<O: Allocator>(steps: u64, out: &mut Vec<u8, O>) -> Result<(), Memory>
    ensures ok { OnOk result (out.new.items
        ≡ out.old.items ++ lines_text (map line_text (run_of steps))) }
    ensures kept { IsExtension out.old.items out.new.items }
{
    if steps == 0 {
        return Ok(());
    }
    write_line(Line::Steps(steps), out)
}

/// Writes a line.
fn write_line<O: Allocator>(line: Line, out: &mut Vec<u8, O>) -> Result<(), Memory>
    ensures ok { OnOk result (out.new.items
        ≡ out.old.items ++ lines_text (line_text (line_view line) ∷ [])) }
    ensures kept { IsExtension out.old.items out.new.items }
{
    write_words(line, out)?;
    write_bytes(b"\n", out)
}

/// Writes a line without its line feed.
fn write_words<O: Allocator>(line: Line, out: &mut Vec<u8, O>) -> Result<(), Memory>
    ensures ok { OnOk result (out.new.items ≡ out.old.items ++ line_text (line_view line)) }
    ensures kept { IsExtension out.old.items out.new.items }
{
    match line {
        Line::Publish => write_bytes(b"publish", out),
        Line::Arrive(round, index) => {
            write_bytes(b"arrive ", out)?;
            write_number(u64::from(round), out)?;
            write_bytes(b" ", out)?;
            write_number(u64::from(index), out)
        }
        Line::Steps(count) => {
            write_bytes(b"step ", out)?;
            write_number(count, out)
        }
    }
}
