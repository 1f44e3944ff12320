//! Why nothing was published, or replayed.
ghost use Rattle.std.specs.Prelude.{◌≡◌};
ghost use Rattle.chr_core.specs.declared.error.CoreError.TheVariants.{Memory as OutOfMemory};
ghost use Rattle.chr_core.specs.declared.error.ReplayError.TheVariants.{Memory as ReplayOutOfMemory};

use std::alloc::AllocError;
use thiserror::Error;

/// Why nothing was published, the first of these. It is displayed as its name.
#[derive(Clone, Copy, PartialEq, Eq, Debug, Drop, Error)]
#[error("{}", self.word())]
pub enum CoreError {
    /// 4,096 rounds stand.
    ShelfFull,
    /// Memory was refused.
    Memory,
}

impl CoreError {
    ghost use Rattle.std.specs.Prelude.{◌≡◌};
    ghost use Rattle.chr_core.specs.ErrorText.{core_error_text};

    /// Its name.
    pub fn word(self) -> &'static str
        ensures { result.now ≡ core_error_text self }
    {
        match self {
            CoreError::ShelfFull => "ShelfFull",
            CoreError::Memory => "Memory",
        }
    }
}

impl From<AllocError> for CoreError {
    ghost from_gives = { λ _ e. e ≡ OutOfMemory };

    fn from(_error: AllocError) -> CoreError {
        CoreError::Memory
    }
}

/// Why a schedule is not replayed: the first event that is refused, by its place, counted from 0; or want of memory. It is displayed as its
/// place, where it has one, and its name.
#[derive(Clone, Copy, PartialEq, Eq, Debug, Drop, Error)]
pub enum ReplayError {
    /// No round has that number yet.
    #[error("schedule event {0}: {word}", word = self.word())]
    UnknownRound(u64),
    /// The round has no task with that index.
    #[error("schedule event {0}: {word}", word = self.word())]
    UnknownTask(u64),
    /// Memory was refused.
    #[error("{}", self.word())]
    Memory,
    /// It would be the 4,097th round.
    #[error("schedule event {0}: {word}", word = self.word())]
    TooManyRounds(u64),
    /// It would be the 1,000,001st Step.
    #[error("schedule event {0}: {word}", word = self.word())]
    TooManySteps(u64),
}

impl ReplayError {
    ghost use Rattle.std.specs.Prelude.{◌≡◌};
    ghost use Rattle.chr_core.specs.ErrorText.{replay_error_place, replay_error_word};

    /// Its name.
    pub fn word(self) -> &'static str
        ensures { result.now ≡ replay_error_word self }
    {
        match self {
            ReplayError::UnknownRound(_) => "UnknownRound",
            ReplayError::UnknownTask(_) => "UnknownTask",
            ReplayError::Memory => "Memory",
            ReplayError::TooManyRounds(_) => "TooManyRounds",
            ReplayError::TooManySteps(_) => "TooManySteps",
        }
    }

    /// The place of the event that is refused.
    pub fn place(self) -> Option<u64>
        ensures { result ≡ replay_error_place self }
    {
        match self {
            ReplayError::UnknownRound(place)
            | ReplayError::UnknownTask(place)
            | ReplayError::TooManyRounds(place)
            | ReplayError::TooManySteps(place) => Some(place),
            ReplayError::Memory => None,
        }
    }
}

impl From<AllocError> for ReplayError {
    ghost from_gives = { λ _ e. e ≡ ReplayOutOfMemory };

    fn from(_error: AllocError) -> ReplayError {
        ReplayError::Memory
    }
}
