//! The tokens of a part of a text, by the characters that they are.
ghost use Rattle.std.specs.Prelude.{◌≤◌, length};

use chr_semantics::limits::MAX_TEXT_BYTES;
use chr_term::Memory;
use chr_tokens::{Fault, Multiplicative, Placed, Relation, Sign, Token, tokens};
use std::alloc::Allocator;

/// A token, and which characters it is.
#[derive(Clone, Copy, Drop)]
pub(crate) struct Spot<'a> {
    /// The token.
    pub(crate) token: Token<'a>,
    /// The number of characters before it.
    pub(crate) begin: usize,
    /// The number of its characters; 1 for the end of the text.
    pub(crate) width: usize,
}

/// The tokens of a text, with the end of the text or what is no token as the last one.
pub(crate) fn spots<'a, A: Allocator + Copy>(
    alloc: A,
    text: &'a [char],
) -> Result<Vec<Spot<'a>, A>, Memory> {
    let mut found = Vec::new(alloc);
    if text.len() > MAX_TEXT_BYTES {
        return Ok(found);
    }
    let placed = tokens(alloc, text)?;
    let (mut line, mut column) = (1_u64, 1_u64);
    let mut rest = placed.as_slice();
    for begin in 0..=text.len() {
        if let [first, others @ ..] = rest {
            if first.place.line == line && first.place.column == column {
                found.push(spot_at(first, text, begin))?;
                rest = others;
            }
        }
        (line, column) = match text.get(begin) {
            Some('\n') => (line.saturating_add(1), 1),
            _ => (line, column.saturating_add(1)),
        };
    }
    Ok(found)
}

/// A token that begins behind so many characters of a text.
fn spot_at<'a>(placed: &Placed<'a>, text: &[char], begin: usize) -> Spot<'a> {
    let (_, rest) = text.split_at_checked(begin).unwrap_or((&[], &[]));
    Spot {
        token: placed.token,
        begin,
        width: width_of(placed.token, rest),
    }
}

/// The number of characters of a token that stands first in a text.
fn width_of(token: Token<'_>, text: &[char]) -> usize {
    match token {
        Token::Variable(word) | Token::Name(word) => word.len(),
        Token::Number {
            signed: _,
            value: _,
        }
        | Token::Fault(Fault::TooLarge) => digits_of(text),
        Token::Additive(_) | Token::Fault(Fault::BadCharacter) | Token::Over => 1,
        Token::Fault(Fault::UnclosedComment) => 2,
        Token::Multiplicative(operator) => match operator {
            Multiplicative::Times => 1,
            Multiplicative::Divide => 2,
            Multiplicative::Modulo => 3,
        },
        Token::Relation(relation) => width_of_relation(relation),
        Token::Sign(sign) => match sign {
            Sign::Simplifies | Sign::Propagates => 3,
            Sign::Declares => 2,
            _ => 1,
        },
    }
}

/// The number of characters of a relation.
fn width_of_relation(relation: Relation) -> usize {
    match relation {
        Relation::Same | Relation::Less | Relation::Greater => 1,
        Relation::NotUnifiable | Relation::AtMost | Relation::AtLeast | Relation::Is => 2,
        Relation::Equals | Relation::Differs => 3,
    }
}

/// How many digits stand first in a text.
fn digits_of(text: &[char]) -> usize {
    let mut count = 0_usize;
    for c in text {
        if !c.is_ascii_digit() {
            return count;
        }
        count = count.saturating_add(1);
    }
    count
}
