//! The lines that the program `chr` says where it refuses. They take no memory.
ghost use Rattle.std.specs.Prelude.{◌++◌, OnErr, OnOk, Some, codes, map};
ghost use Rattle.std.specs.Fmt.{decimal};
ghost use Rattle.std.specs.Io.KnownBytes.{Appends};
ghost use Rattle.std.specs.List.{concat};
ghost use Rattle.chr_read.specs.ErrorText.{read_error_text};
ghost use Rattle.chr_rules.specs.ErrorText.{rule_error_kind_text, rule_error_text};
ghost use Rattle.chr_schedule.specs.ErrorView.{schedule_error_text};
ghost use Rattle.chr_core.specs.ErrorText.{placed_text, replay_error_text};
ghost use Rattle.chr_run.specs.Reports.{refusal_text, unread_text, unwritten_text};
ghost use Rattle.chr_run.specs.Output.{AppendsPart};

use crate::error::TextError;
use crate::output::{Unwritten, write_bytes};
use chr_core::ReplayError;
use chr_read::ReadError;
use chr_rules::RuleError;
use chr_schedule::ScheduleError;
use itoa::Buffer;
use std::io::Write;

/// Says these pieces one after another, and whether they could be written.
pub fn tell<E: Write>(error: &mut E, pieces: &[&str]) -> Result<(), Unwritten>
    ensures ok { OnOk result (Appends (E.contents error.old) (E.contents error.new)
        (concat (map (λ piece. piece.now) pieces.now))) }
    ensures err { OnErr result (AppendsPart (E.contents error.old) (E.contents error.new)
        (concat (map (λ piece. piece.now) pieces.now))) }
{
    for piece in pieces {
        match write_bytes(error, piece.as_bytes()) {
            Ok(()) => {}
            Err(unwritten) => return Err(unwritten),
        }
    }
    Ok(())
}

/// Says these pieces one after another, as far as they can be written.
pub fn say<E: Write>(error: &mut E, pieces: &[&str])
    ensures { AppendsPart (E.contents error.old) (E.contents error.new)
        (concat (map (λ piece. piece.now) pieces.now)) }
{
    match tell(error, pieces) {
        Ok(()) => {}
        Err(_) => {}
    }
}

/// Says where the program or the query is not read.
fn say_place<E: Write>(error: &mut E, text: &'static str, unread: ReadError)
    ensures { AppendsPart (E.contents error.old) (E.contents error.new)
        (codes "chr: " ++ (text.now ++ read_error_text unread) ++ codes "\n") }
{
    let (mut line, mut column) = (Buffer::new(), Buffer::new());
    let (line, column) = (line.format(unread.line), column.format(unread.column));
    say(
        error,
        &[
            "chr: ",
            text,
            line,
            ":",
            column,
            ": ",
            unread.kind.word(),
            "\n",
        ],
    );
}

/// Says which rule of the program has a mistake.
fn say_rule<E: Write>(error: &mut E, wrong: RuleError)
    ensures { AppendsPart (E.contents error.old) (E.contents error.new)
        (codes "chr: " ++ (codes "program " ++ rule_error_text wrong) ++ codes "\n") }
{
    let (mut line, mut rule) = (Buffer::new(), Buffer::new());
    let (line, rule) = (line.format(wrong.line), rule.format(wrong.rule));
    say(
        error,
        &[
            "chr: program line ",
            line,
            " rule ",
            rule,
            ": ",
            wrong.kind.word(),
            "\n",
        ],
    );
}

/// Says where the query has a mistake.
fn say_query<E: Write>(error: &mut E, wrong: RuleError)
    ensures { AppendsPart (E.contents error.old) (E.contents error.new) (codes "chr: "
        ++ (codes "query line " ++ decimal wrong.line ++ codes ": " ++ rule_error_kind_text wrong.kind)
        ++ codes "\n") }
{
    let mut line = Buffer::new();
    let line = line.format(wrong.line);
    say(
        error,
        &["chr: query line ", line, ": ", wrong.kind.word(), "\n"],
    );
}

/// Says which line of the schedule is at fault.
fn say_line<E: Write>(error: &mut E, wrong: ScheduleError)
    ensures { AppendsPart (E.contents error.old) (E.contents error.new)
        (codes "chr: " ++ (codes "schedule " ++ schedule_error_text wrong) ++ codes "\n") }
{
    let mut line = Buffer::new();
    let line = line.format(wrong.line);
    say(
        error,
        &["chr: schedule line ", line, ": ", wrong.kind.word(), "\n"],
    );
}

/// Says which event of the schedule is refused.
fn say_event<E: Write>(error: &mut E, place: u64, word: &'static str)
    ensures { AppendsPart (E.contents error.old) (E.contents error.new)
        (codes "chr: " ++ placed_text (Some place) word.now ++ codes "\n") }
{
    let mut number = Buffer::new();
    let number = number.format(place);
    say(
        error,
        &["chr: ", "schedule event ", number, ": ", word, "\n"],
    );
}

/// Says why a schedule is not replayed.
fn say_replay<E: Write>(error: &mut E, refused: ReplayError)
    ensures { AppendsPart (E.contents error.old) (E.contents error.new)
        (codes "chr: " ++ replay_error_text refused ++ codes "\n") }
{
    match refused.place() {
        Some(place) => say_event(error, place, refused.word()),
        None => say(error, &["chr: ", refused.word(), "\n"]),
    }
}

/// Says why there is no run, as far as it can be written.
pub fn say_refusal<E: Write>(error: &mut E, refusal: TextError)
    ensures { AppendsPart (E.contents error.old) (E.contents error.new) (refusal_text refusal) }
{
    match refusal {
        TextError::Run(refused) => say(error, &["chr: ", refused.word(), "\n"]),
        TextError::Program(unread) => say_place(error, "program ", unread),
        TextError::Rules(wrong) => say_rule(error, wrong),
        TextError::Query(unread) => say_place(error, "query ", unread),
        TextError::Goals(wrong) => say_query(error, wrong),
        TextError::Schedule(wrong) => say_line(error, wrong),
        TextError::Replay(refused) => say_replay(error, refused),
        TextError::Write => say(error, &["chr: cannot write\n"]),
    }
}

/// Says that a file cannot be read, as far as it can be written.
pub fn say_unread<E: Write>(error: &mut E, path: &str)
    ensures { AppendsPart (E.contents error.old) (E.contents error.new) (unread_text path.now) }
{
    say(error, &["chr: cannot read ", path, "\n"]);
}

/// Says that a file cannot be written, as far as it can be written.
pub fn say_unwritten<E: Write>(error: &mut E, path: &str)
    ensures { AppendsPart (E.contents error.old) (E.contents error.new) (unwritten_text path.now) }
{
    say(error, &["chr: cannot write ", path, "\n"]);
}
