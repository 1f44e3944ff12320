//! What stands first in a text.
ghost use Rattle.std.specs.Prelude.{◌≡◌};
ghost use Rattle.chr_semantics.specs.Tokens.{number_piece, piece};
ghost use Rattle.chr_tokens.specs.Pieces.{IsIn, first_view};

use crate::digits::number;
use crate::runs::{comment_len, digits_len, inside_comment, line_len, word_len};
use crate::signs::sign_piece;
use crate::words::{starts_word, word_token};
use crate::{Fault, Token};

/// What stands first in a text.
#[derive(Clone, Copy, Drop)]
pub enum First<'a> {
    /// Nothing does.
    Ended,
    /// So many characters that are no part of a token.
    Blank(usize),
    /// A token, and the number of its characters.
    Token(Token<'a>, usize),
    /// What is no token.
    Broken(Fault),
}

/// What stands first in a text that a `-` stands right before, or does not.
#[tactic(auto, unfolding(chr_semantics::specs::Tokens::piece))]
pub fn first_piece(signed: bool, text: &[char]) -> First<'_>
    ensures is { first_view result ≡ piece signed text.now }
    ensures within { IsIn text.now (first_view result) }
{
    let [c, others @ ..] = text else {
        return First::Ended;
    };
    if c.is_whitespace() {
        return First::Blank(1);
    }
    if *c == '%' {
        return First::Blank(line_len(others) + 1);
    }
    if let Some(inside) = inside_comment(text) {
        return match comment_len(inside) {
            Some(n) => First::Blank(n + 2),
            None => First::Broken(Fault::UnclosedComment),
        };
    }
    if starts_word(*c) {
        let word = &text[..word_len(others) + 1];
        return First::Token(word_token(word), word.len());
    }
    if c.is_ascii_digit() {
        return number_piece(signed, &text[..digits_len(others) + 1]);
    }
    sign_piece(text)
}

/// What digits are.
fn number_piece(signed: bool, digits: &[char]) -> First<'_>
    ensures { first_view result ≡ number_piece signed digits.now }
{
    match number(digits) {
        Some(value) => First::Token(Token::Number { signed, value }, digits.len()),
        None => First::Broken(Fault::TooLarge),
    }
}
