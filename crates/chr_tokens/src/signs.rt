//! The signs.
ghost use Rattle.std.specs.Prelude.{◌≡◌, ◌<◌, ◌≤◌, ◌&&◌, MatchOption, codes, drop, length};
ghost use Rattle.chr_semantics.specs.Tokens.{bad_character, begins, broken, ends, sign_among, sign_piece, signs, token};
ghost use Rattle.chr_tokens.specs.Pieces.{IsIn, first_view, signs_of_one, signs_up_to_two};
ghost use Rattle.chr_tokens.specs.TokenView.{token_view};

use crate::pieces::First;
use crate::{Additive, Fault, Multiplicative, Relation, Sign, Token};

/// The sign that stands first, the longest one that fits.
pub fn sign_piece(text: &[char]) -> First<'_>
    ensures is { first_view result ≡ sign_piece text.now }
    ensures within { 0 < length text.now → IsIn text.now (first_view result) }
{
    if is_stop(text) {
        return First::Token(Token::Sign(Sign::Stop), 1);
    }
    if let Some(token) = sign_of_three(text) {
        return First::Token(token, 3);
    }
    if let Some(token) = sign_of_two(text) {
        return First::Token(token, 2);
    }
    match sign_of_one(text) {
        Some(token) => First::Token(token, 1),
        None => First::Broken(Fault::BadCharacter),
    }
}

/// The sign of three characters that stands first.
fn sign_of_three(text: &[char]) -> Option<Token<'_>>
    ensures { MatchOption result (sign_among signs text.now ≡ sign_among signs_up_to_two text.now)
        (λ t. (sign_among signs text.now ≡ token (token_view t) 3) × (3 ≤ length text.now)) }
{
    match text {
        ['<', '=', '>', ..] => Some(Token::Sign(Sign::Simplifies)),
        ['=', '=', '>', ..] => Some(Token::Sign(Sign::Propagates)),
        ['=', ':', '=', ..] => Some(Token::Relation(Relation::Equals)),
        ['=', '\\', '=', ..] => Some(Token::Relation(Relation::Differs)),
        _ => None,
    }
}

/// The sign of two characters that stands first, where none of three does.
fn sign_of_two(text: &[char]) -> Option<Token<'_>>
    ensures { MatchOption result
        (sign_among signs_up_to_two text.now ≡ sign_among signs_of_one text.now)
        (λ t. (sign_among signs_up_to_two text.now ≡ token (token_view t) 2)
        × (2 ≤ length text.now)) }
{
    match text {
        [':', '-', ..] => Some(Token::Sign(Sign::Declares)),
        ['\\', '=', ..] => Some(Token::Relation(Relation::NotUnifiable)),
        ['=', '<', ..] => Some(Token::Relation(Relation::AtMost)),
        ['>', '=', ..] => Some(Token::Relation(Relation::AtLeast)),
        ['/', '/', ..] => Some(Token::Multiplicative(Multiplicative::Divide)),
        _ => None,
    }
}

/// The sign of one character that stands first, where no longer one does.
fn sign_of_one(text: &[char]) -> Option<Token<'_>>
    ensures { MatchOption result (sign_among signs_of_one text.now ≡ broken bad_character)
        (λ t. sign_among signs_of_one text.now ≡ token (token_view t) 1) }
{
    match text.first()? {
        '(' => Some(Token::Sign(Sign::Open)),
        ')' => Some(Token::Sign(Sign::Close)),
        '[' => Some(Token::Sign(Sign::OpenList)),
        ']' => Some(Token::Sign(Sign::CloseList)),
        ',' => Some(Token::Sign(Sign::Comma)),
        '|' => Some(Token::Sign(Sign::Bar)),
        '@' => Some(Token::Sign(Sign::Label)),
        '\\' => Some(Token::Sign(Sign::Backslash)),
        '#' => Some(Token::Sign(Sign::Hash)),
        '=' => Some(Token::Relation(Relation::Same)),
        '<' => Some(Token::Relation(Relation::Less)),
        '>' => Some(Token::Relation(Relation::Greater)),
        '+' => Some(Token::Additive(Additive::Plus)),
        '-' => Some(Token::Additive(Additive::Minus)),
        '*' => Some(Token::Multiplicative(Multiplicative::Times)),
        '/' => Some(Token::Sign(Sign::Slash)),
        _ => None,
    }
}

/// Whether END stands first.
fn is_stop(text: &[char]) -> bool
    ensures { result ≡ (begins (codes ".") text.now && ends (drop 1 text.now)) }
{
    match text {
        ['.', others @ ..] => ends(others),
        _ => false,
    }
}

/// Whether a `.` before this is END.
fn ends(text: &[char]) -> bool
    ensures { result ≡ ends text.now }
{
    match text {
        [c, ..] => c.is_whitespace() || *c == '%',
        [] => true,
    }
}
