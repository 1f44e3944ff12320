//! Why a text is not read.
ghost use Rattle.std.specs.Prelude.{◌≡◌};
ghost use Rattle.chr_read.specs.declared.halt.Halt.TheVariants.{Memory as OutOfMemory};

use chr_tokens::Placed;
use std::alloc::{AllocError, AllocFailed};

/// Why no syntax was read: with the tokens from the one at fault on.
#[derive(Clone, Copy, Drop)]
pub(crate) enum Halt<'a> {
    /// Memory was refused.
    Memory,
    /// No text goes on so.
    Expected(&'a [Placed<'a>]),
    /// The bracket is one too many.
    TooDeep(&'a [Placed<'a>]),
}

impl From<AllocError> for Halt<'_> {
    ghost from_gives = { λ _ e. e ≡ OutOfMemory };

    fn from(_error: AllocError) -> Self {
        Halt::Memory
    }
}

impl<T: Drop> From<AllocFailed<T>> for Halt<'_> {
    ghost from_gives = { λ _ e. e ≡ OutOfMemory };

    fn from(_error: AllocFailed<T>) -> Self {
        Halt::Memory
    }
}
