//! Why a text is no schedule, and where.
ghost use Rattle.std.specs.Prelude.{◌≡◌};
ghost use Rattle.chr_schedule.specs.declared.error.ScheduleErrorKind.TheVariants.{Memory as OutOfMemory};

use std::alloc::AllocError;
use thiserror::Error;

/// What is wrong with a line. It is displayed as its name.
#[derive(Clone, Copy, PartialEq, Eq, Debug, Drop, Error)]
#[error("{}", self.word())]
pub enum ScheduleErrorKind {
    /// There is no such line, or its line feed is missing.
    BadLine,
    /// A zero leads a number, or it is above `MAX_SCHEDULE_NUMBER`, or the number of Steps is 0.
    BadNumber,
    /// The events up to the end of the line are more than `MAX_SCHEDULE_EVENTS`.
    TooManyEvents,
    /// Memory was refused.
    Memory,
}

impl ScheduleErrorKind {
    ghost use Rattle.std.specs.Prelude.{◌≡◌};
    ghost use Rattle.chr_schedule.specs.ErrorView.{kind_text};

    /// Its name.
    pub fn word(self) -> &'static str
        ensures { result.now ≡ kind_text self }
    {
        match self {
            ScheduleErrorKind::BadLine => "BadLine",
            ScheduleErrorKind::BadNumber => "BadNumber",
            ScheduleErrorKind::TooManyEvents => "TooManyEvents",
            ScheduleErrorKind::Memory => "Memory",
        }
    }
}

impl From<AllocError> for ScheduleErrorKind {
    ghost from_gives = { λ _ e. e ≡ OutOfMemory };

    fn from(_error: AllocError) -> Self {
        ScheduleErrorKind::Memory
    }
}

/// A text is no schedule: what is wrong first, and where. It is displayed as its line and the name of its kind.
#[derive(Clone, Copy, PartialEq, Eq, Debug, Drop, Error)]
#[error("line {line}: {kind}")]
pub struct ScheduleError {
    /// What is wrong.
    pub kind: ScheduleErrorKind,
    /// The line, from 1; 0 for `Memory`. A text may have more lines than a `u32` counts.
    pub line: u64,
}

impl ScheduleError {
    ghost use Rattle.std.specs.Prelude.{◌≡◌, MatchOption};
    ghost use Rattle.chr_schedule.specs.ErrorView.{kind_view};

    /// An error of this kind at a line, which `Memory` leaves out.
    pub(crate) fn in_line(kind: ScheduleErrorKind, line: u64) -> ScheduleError
        ensures kind { result.kind ≡ kind }
        ensures line { MatchOption (kind_view kind) (result.line ≡ 0) (λ _. result.line ≡ line) }
    {
        let line = match kind {
            ScheduleErrorKind::Memory => 0,
            _ => line,
        };
        ScheduleError { kind, line }
    }
}
