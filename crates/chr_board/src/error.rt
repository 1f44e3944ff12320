//! Why tasks are not taken in.
use thiserror::Error;

/// Why tasks are not taken in, the first of these. It is displayed as its name.
#[derive(Clone, Copy, PartialEq, Eq, Debug, Drop, Error)]
#[error("{}", self.word())]
pub enum BoardError {
    /// The board is closed.
    Closed,
    /// More than `MAX_OFFERED_TASKS` would have been offered.
    TooManyTasks,
    /// Memory was refused.
    Memory,
}

impl BoardError {
    ghost use Rattle.std.specs.Prelude.{◌≡◌};
    ghost use Rattle.chr_board.specs.Errors.{board_error_text};

    /// Its name.
    pub fn word(self) -> &'static str
        ensures { result.now ≡ board_error_text self }
    {
        match self {
            BoardError::Closed => "Closed",
            BoardError::TooManyTasks => "TooManyTasks",
            BoardError::Memory => "Memory",
        }
    }
}
