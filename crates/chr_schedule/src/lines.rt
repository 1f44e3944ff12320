//! Reading a line.
ghost use Rattle.std.specs.Prelude.{◌∷◌, []};
ghost use Rattle.std.specs.Str.{byte};
ghost use Rattle.chr_semantics.specs.ScheduleText.{line_of};
ghost use Rattle.chr_schedule.specs.LineView.{IsLine};
ghost use Rattle.chr_schedule.specs.Parts.{parts};

use crate::ScheduleErrorKind;
use crate::line::Line;
use crate::numbers::{are_digits, number_of};
use crate::splitting::split_once;

/// What a line stands for, without its line feed, or what is wrong with it. It costs time in proportion to its bytes.
pub fn read_line(line: &[u8]) -> Result<Line, ScheduleErrorKind>
    ensures { IsLine (line_of (parts (byte " ") line.now)) result }
{
    let Some((word, others)) = split_once(line, b' ') else {
        return publish(line);
    };
    let Some((first, others)) = split_once(others, b' ') else {
        return steps(word, others);
    };
    match split_once(others, b' ') {
        Some(_) => Err(ScheduleErrorKind::BadLine),
        None => arrival(word, first, others),
    }
}

/// What a line of one word stands for.
fn publish(word: &[u8]) -> Result<Line, ScheduleErrorKind>
    ensures { IsLine (line_of (word.now ∷ [])) result }
{
    if word == b"publish".as_slice() {
        Ok(Line::Publish)
    } else {
        Err(ScheduleErrorKind::BadLine)
    }
}

/// What a line of two words stands for.
fn steps(word: &[u8], count: &[u8]) -> Result<Line, ScheduleErrorKind>
    ensures { IsLine (line_of (word.now ∷ count.now ∷ [])) result }
{
    if word != b"step".as_slice() || !are_digits(count) {
        return Err(ScheduleErrorKind::BadLine);
    }
    match number_of(count) {
        None | Some(0) => Err(ScheduleErrorKind::BadNumber),
        Some(count) => Ok(Line::Steps(u64::from(count))),
    }
}

/// What a line of three words stands for.
fn arrival(word: &[u8], round: &[u8], index: &[u8]) -> Result<Line, ScheduleErrorKind>
    ensures { IsLine (line_of (word.now ∷ round.now ∷ index.now ∷ [])) result }
{
    if word != b"arrive".as_slice() || !are_digits(round) || !are_digits(index) {
        return Err(ScheduleErrorKind::BadLine);
    }
    match (number_of(round), number_of(index)) {
        (Some(round), Some(index)) => Ok(Line::Arrive(round, index)),
        _ => Err(ScheduleErrorKind::BadNumber),
    }
}
