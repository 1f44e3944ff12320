//! The mistakes of reading.

use crate::expecting::{Language, expected};
use crate::hints::Halt;
use crate::mistake::{Detail, Kind, Mistake};
use crate::pieces::Piece;
use crate::spots::{Spot, spots};
use chr_read::{ReadError, ReadErrorKind};
use chr_term::Memory;
use chr_tokens::{Place, Token};
use std::alloc::Allocator;

/// How many characters of a text stand before a place, and how many bytes these are.
fn before(text: &[char], place: Place) -> (usize, usize) {
    let mut at = Place { line: 1, column: 1 };
    let mut bytes = 0_usize;
    for count in 0..text.len() {
        if at == place {
            return (count, bytes);
        }
        let Some(c) = text.get(count) else {
            return (count, bytes);
        };
        bytes = bytes.saturating_add(c.len_utf8());
        at = match c {
            '\n' => Place {
                line: at.line.saturating_add(1),
                column: 1,
            },
            _ => Place {
                line: at.line,
                column: at.column.saturating_add(1),
            },
        };
    }
    (text.len(), bytes)
}

/// The tokens before so many characters, and the one that begins there.
fn halt<'a>(text: &'a [char], tokens: &'a [Spot<'a>], begin: usize) -> Halt<'a> {
    for count in 0..tokens.len() {
        if tokens[count].begin == begin {
            return Halt {
                text,
                before: &tokens[..count],
                at: tokens[count],
            };
        }
    }
    let at = Spot {
        token: Token::Over,
        begin,
        width: 1,
    };
    Halt {
        text,
        before: tokens,
        at,
    }
}

/// The mistake of a part of a text that is not read.
pub(crate) fn reading_mistake<A: Allocator + Copy>(
    alloc: A,
    language: Language,
    piece: Piece<'_>,
    error: ReadError,
) -> Result<Mistake<A>, Memory> {
    let place = Place {
        line: error.line,
        column: error.column,
    };
    let (begin, bytes) = before(piece.characters, place);
    let tokens = spots(alloc, piece.characters)?;
    let halt = halt(piece.characters, tokens.as_slice(), begin);
    let detail = match error.kind {
        ReadErrorKind::Expected => {
            let (front, _) = piece.bytes.split_at_checked(bytes).unwrap_or((&[], &[]));
            Detail::Expected(expected(alloc, language, front)?)
        }
        _ => Detail::Nothing,
    };
    Ok(Mistake {
        kind: Kind::Read(error.kind),
        begin: piece.begin.saturating_add(begin),
        width: halt.at.width,
        detail,
        hint: halt.hint(language),
    })
}
