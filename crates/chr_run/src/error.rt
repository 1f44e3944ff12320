//! Why a run, or the run of two texts, is refused.
use chr_core::ReplayError;
use chr_read::ReadError;
use chr_rules::RuleError;
use chr_schedule::ScheduleError;
use thiserror::Error;

/// Why a run was refused. It is displayed as its name.
#[derive(Clone, Copy, PartialEq, Eq, Debug, Drop, Error)]
#[error("{}", self.word())]
pub enum RunError {
    /// The budget is above 1,000,000.
    BudgetTooLarge,
    /// There are more than 64 workers.
    TooManyWorkers,
    /// A growth was refused.
    Memory,
}

impl RunError {
    ghost use Rattle.std.specs.Prelude.{◌≡◌};
    ghost use Rattle.chr_run.specs.ErrorText.{run_error_text};

    /// Its name.
    pub fn word(self) -> &'static str
        ensures { result.now ≡ run_error_text self }
    {
        match self {
            RunError::BudgetTooLarge => "BudgetTooLarge",
            RunError::TooManyWorkers => "TooManyWorkers",
            RunError::Memory => "Memory",
        }
    }
}

/// Why the text of a run, or of a replay, did not go out whole. It is displayed as `chr` says it.
#[derive(Clone, Copy, PartialEq, Eq, Debug, Drop, Error)]
pub enum TextError {
    /// The run is refused.
    #[error(transparent)]
    Run(RunError),
    /// The text of the program is not read.
    #[error("program {0}")]
    Program(ReadError),
    /// There is a mistake in the program.
    #[error("program {0}")]
    Rules(RuleError),
    /// The text of the query is not read.
    #[error("query {0}")]
    Query(ReadError),
    /// There is a mistake in the query.
    #[error("query line {}: {}", .0.line, .0.kind)]
    Goals(RuleError),
    /// The text of the schedule is not read.
    #[error("schedule {0}")]
    Schedule(ScheduleError),
    /// The schedule is not replayed.
    #[error(transparent)]
    Replay(ReplayError),
    /// The writer failed, or took no byte of some that were left.
    #[error("cannot write")]
    Write,
}
