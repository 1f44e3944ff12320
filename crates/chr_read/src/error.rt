//! Why a text is not read, and where.

use chr_tokens::Unread;
use std::alloc::AllocError;
use thiserror::Error;

/// What is wrong with a text. It is displayed as its name.
#[derive(Clone, Copy, PartialEq, Eq, Debug, Drop, Error)]
#[error("{}", self.word())]
pub enum ReadErrorKind {
    /// It is not UTF-8.
    NotUtf8,
    /// It has more bytes than `MAX_TEXT_BYTES`.
    TooLong,
    /// A character begins no token.
    BadChar,
    /// Nothing closes a `/*`.
    UnclosedComment,
    /// Digits have too great a value.
    NumberTooLarge,
    /// No text goes on with this token, or ends here.
    Expected,
    /// A bracket opens where `MAX_OPEN_BRACKETS` are open.
    TooDeep,
    /// Memory was refused.
    Memory,
}

impl ReadErrorKind {
    ghost use Rattle.std.specs.Prelude.{◌≡◌};
    ghost use Rattle.chr_read.specs.ErrorText.{read_error_kind_text};

    /// Its name.
    pub fn word(self) -> &'static str
        ensures { result.now ≡ read_error_kind_text self }
    {
        match self {
            ReadErrorKind::NotUtf8 => "NotUtf8",
            ReadErrorKind::TooLong => "TooLong",
            ReadErrorKind::BadChar => "BadChar",
            ReadErrorKind::UnclosedComment => "UnclosedComment",
            ReadErrorKind::NumberTooLarge => "NumberTooLarge",
            ReadErrorKind::Expected => "Expected",
            ReadErrorKind::TooDeep => "TooDeep",
            ReadErrorKind::Memory => "Memory",
        }
    }
}

/// A text is not read: what is wrong first, and where. It is displayed as `LINE:COLUMN: KIND`.
#[derive(Clone, Copy, PartialEq, Eq, Debug, Drop, Error)]
#[error("{line}:{column}: {kind}")]
pub struct ReadError {
    /// What is wrong.
    pub kind: ReadErrorKind,
    /// The line, from 1; 0 for `NotUtf8`, `TooLong` and `Memory`.
    pub line: u64,
    /// The column in characters, from 1; 0 where the line is.
    pub column: u64,
}

impl ReadError {
    ghost use Rattle.std.specs.Prelude.{◌≡◌};
    ghost use Rattle.chr_read.specs.Refusals.{no_place, place_of};

    /// An error of this kind, with no place.
    pub(crate) fn without_place(kind: ReadErrorKind) -> ReadError
        ensures kind { result.kind ≡ kind }
        ensures place { place_of result ≡ no_place }
    {
        ReadError {
            kind,
            line: 0,
            column: 0,
        }
    }
}

impl From<Unread> for ReadError {
    ghost use Rattle.chr_read.specs.Refusals.{IsErrorOfUnread};

    ghost from_gives = { IsErrorOfUnread };

    fn from(unread: Unread) -> ReadError {
        ReadError::without_place(match unread {
            Unread::NotUtf8 => ReadErrorKind::NotUtf8,
            Unread::TooLong => ReadErrorKind::TooLong,
            Unread::Memory => ReadErrorKind::Memory,
        })
    }
}

impl From<AllocError> for ReadError {
    ghost use Rattle.chr_read.specs.Refusals.{IsMemoryError};

    ghost from_gives = { λ _ e. IsMemoryError e };

    fn from(_error: AllocError) -> ReadError {
        ReadError::without_place(ReadErrorKind::Memory)
    }
}
