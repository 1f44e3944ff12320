//! Words, digits and the tokens that come first.
ghost use Rattle.std.specs.Prelude.{◌≡◌, ◌≢◌, ◌∷◌, [], Err, IfOk, IfSome, MatchOption, MatchResult, Ok, length, ◌+◌, ◌<◌, bytes_eq, neg_ℤ, pos, string_bytes, true};
ghost use Rattle.std.specs.Str.{encode_utf8_all};
ghost use Rattle.chr_semantics.specs.Grammar.{is_magnitude, is_number};
ghost use Rattle.chr_semantics.specs.Grammar.{arrow_sign};
ghost use Rattle.chr_semantics.specs.Tokens.{additive as additive_token, multiplicative as multiplicative_token, name as name_token, relation as relation_token, sign as sign_token};
ghost use Rattle.chr_tokens.specs.TokenView.{additive_view, multiplicative_view, placed_view, placed_views, relation_view, sign_view};
ghost use Rattle.chr_read.specs.Reads.{BeginsWith, Lacks, NoAdditive, NoArrow, NoMultiplicative, NoName, NoRelation};
ghost use Rattle.chr_read.specs.SyntaxView.{arrow_view};
ghost use Rattle.chr_read.specs.declared.halt.Halt.TheVariants.{Expected};

use crate::halt::Halt;
use crate::syntax::Arrow;
use chr_tokens::{Additive, Memory, Multiplicative, Placed, Relation, Sign, Token};
use std::alloc::Allocator;

/// A word as a string.
pub(crate) fn string_of<A: Allocator + Copy>(alloc: A, word: &[char]) -> Result<String<A>, Memory>
    ensures { IfOk result (λ name. string_bytes name ≡ encode_utf8_all word.now) }
{
    let mut name = String::new(alloc);
    for c in word {
        name.push(*c)?;
    }
    Ok(name)
}

/// Whether a word is this one, which is ASCII.
pub(crate) fn is_word(word: &[char], wanted: &[u8]) -> bool
    ensures { result ≡ bytes_eq word.now wanted.now }
{
    match word {
        [] => wanted.is_empty(),
        [first, others @ ..] => match wanted {
            [] => false,
            [byte, bytes @ ..] => *first as u32 == *byte as u32 && is_word(others, bytes),
        },
    }
}

/// A NUMBER without a sign.
pub(crate) fn number(value: u128) -> Option<i128>
    ensures { MatchOption result (is_number value ≢ true)
        (λ number. (is_number value ≡ true) × (number ≡ pos value)) }
{
    if value <= i128::MAX as u128 {
        Some(value as i128)
    } else {
        None
    }
}

/// The digits of a NUMBER with a sign.
pub(crate) fn negative(value: u128) -> Option<i128>
    ensures { MatchOption result (is_magnitude value ≢ true)
        (λ number. (is_magnitude value ≡ true) × (number ≡ neg_ℤ (pos value))) }
{
    if value == i128::MIN.unsigned_abs() {
        return Some(i128::MIN);
    }
    match number(value) {
        Some(number) => Some(-number),
        None => None,
    }
}

/// The first token, and those after it.
pub(crate) fn split_first<'a>(rest: &'a [Placed<'a>]) -> Option<(Placed<'a>, &'a [Placed<'a>])>
    ensures first { MatchOption result (rest.now ≡ [])
        (λ x. placed_views rest.now ≡ placed_view x.0 ∷ placed_views x.1.now) }
    ensures shorter { IfSome result (λ x. length x.1.now + 1 ≡ length rest.now) }
{
    match rest {
        [] => None,
        [first, others @ ..] => Some((*first, others)),
    }
}

/// What stands after the sign, where it comes first.
pub(crate) fn after_sign<'a>(rest: &'a [Placed<'a>], wanted: Sign) -> Option<&'a [Placed<'a>]>
    ensures first { MatchOption result (Lacks (sign_view wanted) (placed_views rest.now))
        (λ after. BeginsWith (placed_views rest.now) (sign_token (sign_view wanted))
        (placed_views after.now)) }
    ensures shorter { IfSome result (λ after. length after.now + 1 ≡ length rest.now) }
{
    let (first, others) = split_first(rest)?;
    match first.token {
        Token::Sign(sign) => { if sign == wanted { Some(others) } else { None } }
        _ => None,
    }
}

/// What was read before the sign, with what stands after it. The sign has to come.
pub(crate) fn before_sign<'a, T: Drop>(
    found: T,
    text: &'a [Placed<'a>],
    wanted: Sign,
) -> Result<(T, &'a [Placed<'a>]), Halt<'a>>
    ensures first { MatchResult result
        (λ x. (x.0 ≡ found) × BeginsWith (placed_views text.now)
        (sign_token (sign_view wanted)) (placed_views x.1.now))
        (λ e. (e ≡ Expected text.entry) × Lacks (sign_view wanted) (placed_views text.now)) }
    ensures shorter { IfOk result (λ x. length x.1.now < length text.now) }
{
    match after_sign(text, wanted) {
        Some(after) => Ok((found, after)),
        None => Err(Halt::Expected(text)),
    }
}

/// What was read first, and what was read after it.
pub(crate) fn both<'a, S: Drop, T>(
    first: S,
    second: Result<(T, &'a [Placed<'a>]), Halt<'a>>,
) -> Result<((S, T), &'a [Placed<'a>]), Halt<'a>>
    ensures { MatchResult result
        (λ x. (x.0.0 ≡ first) × (second.entry ≡ Ok (x.0.1, x.1)))
        (λ e. second.entry ≡ Err e) }
{
    match second {
        Ok((second, rest)) => Ok(((first, second), rest)),
        Err(halt) => Err(halt),
    }
}

/// A `+` or `-`, where one comes first, and what stands after it.
pub(crate) fn additive<'a>(rest: &'a [Placed<'a>]) -> Option<(Additive, &'a [Placed<'a>])>
    ensures first { MatchOption result (NoAdditive (placed_views rest.now))
        (λ x. BeginsWith (placed_views rest.now) (additive_token (additive_view x.0))
        (placed_views x.1.now)) }
    ensures shorter { IfSome result (λ x. length x.1.now + 1 ≡ length rest.now) }
{
    let (first, others) = split_first(rest)?;
    match first.token {
        Token::Additive(operator) => Some((operator, others)),
        _ => None,
    }
}

/// A `*`, `//` or `mod`, as `additive`.
pub(crate) fn multiplicative<'a>(
    rest: &'a [Placed<'a>],
) -> Option<(Multiplicative, &'a [Placed<'a>])>
    ensures first { MatchOption result (NoMultiplicative (placed_views rest.now))
        (λ x. BeginsWith (placed_views rest.now) (multiplicative_token (multiplicative_view x.0))
        (placed_views x.1.now)) }
    ensures shorter { IfSome result (λ x. length x.1.now + 1 ≡ length rest.now) }
{
    let (first, others) = split_first(rest)?;
    match first.token {
        Token::Multiplicative(operator) => Some((operator, others)),
        _ => None,
    }
}

/// What stands between two expressions of an item, as `additive`.
pub(crate) fn relation<'a>(rest: &'a [Placed<'a>]) -> Option<(Relation, &'a [Placed<'a>])>
    ensures first { MatchOption result (NoRelation (placed_views rest.now))
        (λ x. BeginsWith (placed_views rest.now) (relation_token (relation_view x.0))
        (placed_views x.1.now)) }
    ensures shorter { IfSome result (λ x. length x.1.now + 1 ≡ length rest.now) }
{
    let (first, others) = split_first(rest)?;
    match first.token {
        Token::Relation(relation) => Some((relation, others)),
        _ => None,
    }
}

/// A NAME, as `additive`.
pub(crate) fn name<'a>(rest: &'a [Placed<'a>]) -> Option<(&'a [char], &'a [Placed<'a>])>
    ensures first { MatchOption result (NoName (placed_views rest.now))
        (λ x. BeginsWith (placed_views rest.now) (name_token x.0.now) (placed_views x.1.now)) }
    ensures shorter { IfSome result (λ x. length x.1.now + 1 ≡ length rest.now) }
{
    let (first, others) = split_first(rest)?;
    match first.token {
        Token::Name(word) => Some((word, others)),
        _ => None,
    }
}

/// An arrow, as `additive`, but refused where none comes first.
pub(crate) fn arrow<'a>(rest: &'a [Placed<'a>]) -> Result<(Arrow, &'a [Placed<'a>]), Halt<'a>>
    ensures first { MatchResult result
        (λ x. BeginsWith (placed_views rest.now) (sign_token (arrow_sign (arrow_view x.0)))
        (placed_views x.1.now))
        (λ e. (e ≡ Expected rest.entry) × NoArrow (placed_views rest.now)) }
    ensures shorter { IfOk result (λ x. length x.1.now < length rest.now) }
{
    if let Some(after) = after_sign(rest, Sign::Simplifies) {
        return Ok((Arrow::Simplification, after));
    }
    match after_sign(rest, Sign::Propagates) {
        Some(after) => Ok((Arrow::Propagation, after)),
        None => Err(Halt::Expected(rest)),
    }
}
