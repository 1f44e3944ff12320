//! The lines of numbers that the program `chr` says. They take no memory.
ghost use Rattle.std.specs.Prelude.{◌++◌, OnErr, OnOk};
ghost use Rattle.std.specs.Io.KnownBytes.{Appends};
ghost use Rattle.chr_core.specs.CoreView.{counts_view};
ghost use Rattle.chr_run.specs.Reports.{counts_text, totals_text};
ghost use Rattle.chr_run.specs.Output.{AppendsPart};

use crate::output::Unwritten;
use crate::refusal::{say, tell};
use chr_board::Totals;
use chr_core::Counts;
use itoa::Buffer;
use std::io::Write;

/// Says the counts, and whether that could be written.
fn tell_counts<E: Write>(error: &mut E, counts: Counts) -> Result<(), Unwritten>
    ensures ok { OnOk result (Appends (E.contents error.old) (E.contents error.new)
        (counts_text (counts_view counts))) }
    ensures err { OnErr result (AppendsPart (E.contents error.old) (E.contents error.new)
        (counts_text (counts_view counts))) }
{
    let (mut kept, mut late, mut double) = (Buffer::new(), Buffer::new(), Buffer::new());
    let (mut used, mut own) = (Buffer::new(), Buffer::new());
    let kept = kept.format(counts.kept);
    let late = late.format(counts.late);
    let double = double.format(counts.double);
    let used = used.format(counts.used);
    let own = own.format(counts.own);
    tell(
        error,
        &[
            "counts kept ",
            kept,
            " late ",
            late,
            " double ",
            double,
            " used ",
            used,
            " own ",
            own,
            "\n",
        ],
    )
}

/// Says the counts, as far as they can be written.
pub fn say_counts<E: Write>(error: &mut E, counts: Counts)
    ensures { AppendsPart (E.contents error.old) (E.contents error.new)
        (counts_text (counts_view counts)) }
{
    match tell_counts(error, counts) {
        Ok(()) => {}
        Err(_) => {}
    }
}

/// Says the totals, as far as they can be written.
fn say_totals<E: Write>(error: &mut E, totals: Totals)
    ensures { AppendsPart (E.contents error.old) (E.contents error.new) (totals_text totals) }
{
    let (mut put, mut taken, mut posted) = (Buffer::new(), Buffer::new(), Buffer::new());
    let (mut given_up, mut drained) = (Buffer::new(), Buffer::new());
    let (mut waiting, mut left) = (Buffer::new(), Buffer::new());
    let (put, taken) = (put.format(totals.put), taken.format(totals.taken));
    let (posted, given_up) = (
        posted.format(totals.posted),
        given_up.format(totals.given_up),
    );
    let drained = drained.format(totals.drained);
    let (waiting, left) = (waiting.format(totals.waiting), left.format(totals.left));
    say(
        error,
        &[
            "totals put ",
            put,
            " taken ",
            taken,
            " posted ",
            posted,
            " given_up ",
            given_up,
            " drained ",
            drained,
            " waiting ",
            waiting,
            " left ",
            left,
            "\n",
        ],
    );
}

/// Says the counts and the totals, as far as they can be written.
pub fn say_both<E: Write>(error: &mut E, counts: Counts, totals: Totals)
    ensures { AppendsPart (E.contents error.old) (E.contents error.new)
        (counts_text (counts_view counts) ++ totals_text totals) }
{
    match tell_counts(error, counts) {
        Ok(()) => say_totals(error, totals),
        Err(_) => {}
    }
}
