//! The transitions of a run as data, so that a reader can make the run again from these alone.

use crate::json::{Words, write_string};
use crate::page::Page;
use crate::refusal::Refusal;
use chr_look::{Before, Effect};
use chr_machine::{Elem, Machine, Status, Stepped};
use chr_store::Entry;
use chr_term::Term;
use std::alloc::Global;
use std::io::Write;

/// How many bytes go out by one write.
const PORTION: usize = 0x2000;

/// Where the data stand: before all transitions, inside a text of letters, each of which is one, or behind one that is more than a letter.
#[derive(Clone, Copy, PartialEq, Eq, Debug, Drop)]
enum Place {
    Beginning,
    Letters,
    Behind,
}

/// Writes the letter of a transition.
fn write_letter(letter: u8, place: Place, page: &mut Page) -> Place {
    match place {
        Place::Beginning => page.byte(b'"'),
        Place::Letters => {}
        Place::Behind => page.text(",\""),
    }
    page.byte(letter);
    Place::Letters
}

/// Ends what stands before a transition that is more than a letter.
fn write_break(place: Place, page: &mut Page) {
    match place {
        Place::Beginning => {}
        Place::Letters => page.text("\",\n"),
        Place::Behind => page.text(",\n"),
    }
}

/// Writes the goals among elements of a stack, the topmost first, which is the last one.
fn write_goals(words: Words<'_>, elements: &[Elem], page: &mut Page) {
    let mut is_first = true;
    for element in elements.iter().rev() {
        if !is_first {
            page.byte(b',');
        }
        is_first = false;
        if let Elem::Goal(goal) = element {
            words.write_goal(goal, page);
        }
    }
}

/// Writes the identities of elements of a stack, the topmost first, which is the last one.
fn write_ids(elements: &[Elem], page: &mut Page) {
    let mut is_first = true;
    for element in elements.iter().rev() {
        if !is_first {
            page.byte(b',');
        }
        is_first = false;
        match element {
            Elem::Known(id, _, _) | Elem::Active(id, _, _, _) => page.number(id.0),
            Elem::Goal(_) => {}
        }
    }
}

/// Writes a firing, with the goals that it put on the stack.
fn write_firing(words: Words<'_>, entry: &Entry, goals: &[Elem], stays: bool, page: &mut Page) {
    page.text(if stays { "[\"p\"," } else { "[\"s\"," });
    page.number(entry.rule() as u64);
    page.text(",[");
    page.numbers(entry.ids());
    page.text("],[");
    write_goals(words, goals, page);
    page.text("]]");
}

/// Writes a built-in that holds: the variables that got a value, each with it, and the constraints that woke.
fn write_told(words: Words<'_>, values: &[(u64, Term)], woken: &[Elem], page: &mut Page) {
    page.text("[\"t\",[");
    for k in 0..values.len() {
        if k > 0 {
            page.byte(b',');
        }
        page.byte(b'[');
        page.number(values[k].0);
        page.byte(b',');
        words.write_term(&values[k].1, page);
        page.byte(b']');
    }
    page.text("],[");
    write_ids(woken, page);
    page.text("]]");
}

/// Writes how a built-in ended the run.
fn write_ended(status: Status, place: Place, page: &mut Page) -> Place {
    match status {
        Status::Faulted(fault) => {
            write_break(place, page);
            page.text("[\"!\",");
            write_string(fault.word().as_bytes(), page);
            page.byte(b']');
            Place::Behind
        }
        Status::Failed | Status::Running | Status::Done => write_letter(b'f', place, page),
    }
}

/// Writes what a transition changed.
fn write_effect(words: Words<'_>, effect: &Effect<'_>, place: Place, page: &mut Page) -> Place {
    match effect {
        Effect::Enters => write_letter(b'a', place, page),
        Effect::Wakes => write_letter(b'r', place, page),
        Effect::Passes => write_letter(b'd', place, page),
        Effect::Leaves => write_letter(b'x', place, page),
        Effect::Fires {
            entry,
            goals,
            stays,
        } => {
            write_break(place, page);
            write_firing(words, entry, goals, *stays, page);
            Place::Behind
        }
        Effect::Binds { values, woken } => {
            write_break(place, page);
            write_told(words, values.as_slice(), woken, page);
            Place::Behind
        }
        Effect::Ends(status) => write_ended(*status, place, page),
    }
}

/// Writes the transitions of a run while it makes n of them or ends. They go out in portions, but for the last ones.
pub(crate) fn write_transitions<W: Write>(
    alloc: Global,
    words: Words<'_>,
    machine: &mut Machine<'_>,
    n: u64,
    output: &mut W,
    page: &mut Page,
) -> Result<(), Refusal> {
    let mut place = Place::Beginning;
    for _ in 0..n {
        let before = Before::of(alloc, machine)?;
        match machine.step()? {
            Stepped::Moved => {}
            Stepped::Ended | Stepped::Spent => break,
        }
        if let Some(effect) = before.effect(alloc, machine)? {
            place = write_effect(words, &effect, place, page);
        }
        if page.len()? >= PORTION {
            page.send(output)?;
        }
    }
    if place == Place::Letters {
        page.byte(b'"');
    }
    Ok(())
}
