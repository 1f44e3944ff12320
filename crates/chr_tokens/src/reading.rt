//! The tokens of characters.
ghost use Rattle.std.specs.Prelude.{◌≡◌, ◌≤◌, ◌+◌, ◌++◌, ◌∷◌, [], IfOk, length};
ghost use Rattle.chr_semantics.specs.Tokens as semantics;
ghost use Rattle.chr_semantics.specs.Tokens.{is_minus};
ghost use Rattle.chr_tokens.specs.TokenView.{IsEnded, placed_views, token_view};

use crate::pieces::{First, first_piece};
use crate::places::past;
use crate::{Additive, Memory, Place, Placed, Token};
use chr_semantics::limits::MAX_TEXT_BYTES;
use std::alloc::Allocator;

/// The tokens of characters, of which there are at most `MAX_TEXT_BYTES`, each with its place. The last one is `Fault`
/// or `Over`.
/// Words are parts of the text. It is refused only where the list is, and costs time in proportion to the characters.
pub fn tokens<'a, A: Allocator + Copy>(
    alloc: A,
    text: &'a [char],
) -> Result<Vec<Placed<'a>, A>, Memory>
    requires { length text.now ≤ MAX_TEXT_BYTES }
    ensures are { IfOk result (λ found. placed_views found.items ≡ semantics.tokens text.now) }
    ensures few { IfOk result (λ found. length found.items ≤ length text.now + 1) }
    ensures last { IfOk result (λ found. IsEnded (placed_views found.items)) }
{
    let mut found = Vec::new(alloc);
    let mut rest = text;
    let mut place = Place { line: 1, column: 1 };
    let mut signed = false;
    loop {
        match first_piece(signed, rest) {
            First::Ended => {
                let token = Token::Over;
                return with_last(found, Placed { place, token });
            }
            First::Blank(n) => {
                (rest, place) = past(rest, place, n);
                signed = false;
            }
            First::Token(token, n) => {
                found.push(Placed { place, token })?;
                (rest, place) = past(rest, place, n);
                signed = is_minus(token);
            }
            First::Broken(fault) => {
                let token = Token::Fault(fault);
                return with_last(found, Placed { place, token });
            }
        }
    }
}

/// The tokens that are found, with the last one.
fn with_last<'a, A: Allocator>(
    mut found: Vec<Placed<'a>, A>,
    last: Placed<'a>,
) -> Result<Vec<Placed<'a>, A>, Memory>
    ensures { IfOk result (λ all. all.items ≡ found.entry.items ++ last.entry ∷ []) }
{
    found.push(last)?;
    Ok(found)
}

/// Whether a token is `-`.
fn is_minus(token: Token<'_>) -> bool
    ensures { result ≡ is_minus (token_view token.entry) }
{
    match token {
        Token::Additive(Additive::Minus) => true,
        _ => false,
    }
}
