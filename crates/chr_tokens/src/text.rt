//! The characters of bytes.
ghost use Rattle.std.specs.Prelude.{◌≡◌, ◌<◌, ◌≤◌, IfOk, OnOk, IsErrOf, length};
ghost use Rattle.std.specs.Str.{IsUtf8, chars};
ghost use Rattle.chr_tokens.specs.declared.text.Unread.TheVariants.{Memory};

use chr_semantics::limits::MAX_TEXT_BYTES;
use std::alloc::{AllocError, Allocator};
use thiserror::Error;

/// Why bytes are no text.
#[derive(Clone, Copy, PartialEq, Eq, Debug, Drop, Error)]
pub enum Unread {
    /// They are not UTF-8.
    #[error("not UTF-8")]
    NotUtf8,
    /// They are UTF-8, but more than `MAX_TEXT_BYTES`.
    #[error("too long")]
    TooLong,
    /// The growth of a list was refused.
    #[error("memory")]
    Memory,
}

impl From<AllocError> for Unread {
    ghost from_gives = { λ _ e. e ≡ Memory };

    fn from(_error: AllocError) -> Unread {
        Unread::Memory
    }
}

/// The characters of a text, of which there are no more than bytes. It is refused where the bytes are not UTF-8, and else
/// where there are more than `MAX_TEXT_BYTES`. It costs time in proportion to the bytes.
pub fn characters<A: Allocator + Copy>(alloc: A, text: &[u8]) -> Result<Vec<char, A>, Unread>
    ensures text { OnOk result (IsUtf8 text.now × (length text.now ≤ MAX_TEXT_BYTES)) }
    ensures are { IfOk result (λ found. found.items ≡ chars text.now) }
    ensures few { IfOk result (λ found. length found.items ≤ length text.now) }
    ensures not_utf8 { IsErrOf result Unread.NotUtf8 → IsUtf8 text.now → ⊥ }
    ensures too_long { IsErrOf result Unread.TooLong
        → IsUtf8 text.now × (MAX_TEXT_BYTES < length text.now) }
{
    let Ok(utf8) = str::from_utf8(text) else {
        return Err(Unread::NotUtf8);
    };
    if utf8.len() > MAX_TEXT_BYTES {
        return Err(Unread::TooLong);
    }
    Ok(utf8.chars().collect(alloc)?)
}
