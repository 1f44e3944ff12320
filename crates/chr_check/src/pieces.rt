//! The parts of a text: each goes up to an END, and the last one to the end of the text.

use chr_term::Memory;
use std::alloc::Allocator;

/// A part of a text, with its END.
#[derive(Clone, Copy, Drop)]
pub(crate) struct Piece<'a> {
    /// The number of characters before it.
    pub(crate) begin: usize,
    /// The line where it begins, from 1.
    pub(crate) line: u64,
    /// Its characters.
    pub(crate) characters: &'a [char],
    /// The same in UTF-8.
    pub(crate) bytes: &'a [u8],
}

/// What was read last, of a text that is looked through for its ENDs.
#[derive(Clone, Copy, PartialEq, Eq, Drop)]
enum Last {
    /// Some token, or white space.
    Token,
    /// A `/`.
    Slash,
    /// A `.`.
    Stop,
    /// What stands in a comment up to the end of the line.
    LineComment,
    /// What stands in a comment up to `*/`.
    Comment,
    /// A `*` in such a comment.
    Star,
}

impl Last {
    /// What was read last, with one character more.
    fn then(self, c: char) -> Last {
        match (self, c) {
            (Last::LineComment, '\n') => Last::Token,
            (Last::LineComment, _) => Last::LineComment,
            (Last::Slash, '*') => Last::Comment,
            (Last::Slash, '/') => Last::Token,
            (Last::Comment | Last::Star, '*') => Last::Star,
            (Last::Star, '/') => Last::Token,
            (Last::Comment | Last::Star, _) => Last::Comment,
            (_, '%') => Last::LineComment,
            (_, '/') => Last::Slash,
            (_, '.') => Last::Stop,
            (_, _) => Last::Token,
        }
    }
}

/// The parts of a text that is given by its characters, and in UTF-8.
pub(crate) fn pieces<'a, A: Allocator + Copy>(
    alloc: A,
    characters: &'a [char],
    bytes: &'a [u8],
) -> Result<Vec<Piece<'a>, A>, Memory> {
    let mut found = Vec::new(alloc);
    let mut last = Last::Token;
    let mut rest = Piece {
        begin: 0,
        line: 1,
        characters,
        bytes,
    };
    let mut end = 0;
    let mut end_of_bytes = 0;
    let mut line = 1;
    for c in characters {
        if last == Last::Stop && (c.is_whitespace() || *c == '%') {
            let (piece, behind) = parted(rest, end, end_of_bytes, line);
            found.push(piece)?;
            rest = behind;
            (end, end_of_bytes) = (0, 0);
        }
        end = end.saturating_add(1);
        end_of_bytes = end_of_bytes.saturating_add(c.len_utf8());
        if *c == '\n' {
            line = line.saturating_add(1);
        }
        last = last.then(*c);
    }
    found.push(rest)?;
    Ok(found)
}

/// A text in two: so many characters and bytes, and what is behind them, which begins in this line.
fn parted<'a>(
    text: Piece<'a>,
    end: usize,
    end_of_bytes: usize,
    line: u64,
) -> (Piece<'a>, Piece<'a>) {
    let (front, behind) = text
        .characters
        .split_at_checked(end)
        .unwrap_or((text.characters, &[]));
    let (front_bytes, behind_bytes) = text
        .bytes
        .split_at_checked(end_of_bytes)
        .unwrap_or((text.bytes, &[]));
    (
        Piece {
            begin: text.begin,
            line: text.line,
            characters: front,
            bytes: front_bytes,
        },
        Piece {
            begin: text.begin.saturating_add(front.len()),
            line,
            characters: behind,
            bytes: behind_bytes,
        },
    )
}
