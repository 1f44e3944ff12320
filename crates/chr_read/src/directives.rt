//! Directives.
ghost use Rattle.std.specs.Prelude.{◌≡◌, ◌<◌, ◌≤◌, IfOk, length};
ghost use Rattle.chr_semantics.specs.Tokens.{comma};
ghost use Rattle.chr_tokens.specs.TokenView.{placed_views};
ghost use Rattle.chr_read.specs.Parts.{ReadsDeclared, ReadsDirective, ReadsExports, ReadsFixed, ReadsLibrary, ReadsModule, ReadsSymbol, ReadsSymbols, ReadsWanted, wanted_view, wanted_views};
ghost use Rattle.chr_read.specs.Reads.{Lacks};

use crate::halt::Halt;
use crate::syntax::{Declaration, Part};
use crate::words::{after_sign, before_sign, is_word, name, number, split_first, string_of};
use chr_tokens::{Placed, Sign, Token};
use std::alloc::Allocator;

/// A directive that begins in this line, after its `:-`.
pub(crate) fn directive<'a, A: Allocator + Copy>(
    alloc: A,
    line: u64,
    text: &'a [Placed<'a>],
) -> Result<(Part<A>, &'a [Placed<'a>]), Halt<'a>>
    ensures reads { ReadsDirective line (placed_views text.now) result }
    ensures shorter { IfOk result (λ x. length x.1.now < length text.now) }
{
    let Some((word, after)) = name(text) else {
        return Err(Halt::Expected(text));
    };
    if is_word(word, b"chr_constraint") {
        return constraint_declaration(alloc, line, after);
    }
    if is_word(word, b"use_module") {
        let rest = use_module(after)?;
        return Ok((Part::Ignored(line), rest));
    }
    if is_word(word, b"module") {
        let rest = module(alloc, after)?;
        return Ok((Part::Ignored(line), rest));
    }
    Err(Halt::Expected(text))
}

/// The symbols that are declared, and the END.
fn constraint_declaration<'a, A: Allocator + Copy>(
    alloc: A,
    line: u64,
    text: &'a [Placed<'a>],
) -> Result<(Part<A>, &'a [Placed<'a>]), Halt<'a>>
    ensures reads { ReadsDeclared line (placed_views text.now) result }
    ensures shorter { IfOk result (λ x. length x.1.now < length text.now) }
{
    let (found, end) = symbols(alloc, text)?;
    before_sign(Part::Declares(line, found), end, Sign::Stop)
}

/// `(library(chr)).`
fn use_module<'a>(text: &'a [Placed<'a>]) -> Result<&'a [Placed<'a>], Halt<'a>>
    ensures reads { ReadsLibrary (placed_views text.now) result }
    ensures shorter { IfOk result (λ after. length after.now ≤ length text.now) }
{
    let wanted = [
        Wanted::Sign(Sign::Open),
        Wanted::Word(b"library"),
        Wanted::Sign(Sign::Open),
        Wanted::Word(b"chr"),
        Wanted::Sign(Sign::Close),
        Wanted::Sign(Sign::Close),
        Wanted::Sign(Sign::Stop),
    ];
    after_all(text, &wanted)
}

/// `(name, [symbols]).`
fn module<'a, A: Allocator + Copy>(
    alloc: A,
    text: &'a [Placed<'a>],
) -> Result<&'a [Placed<'a>], Halt<'a>>
    ensures reads { ReadsModule (placed_views text.now) result }
    ensures shorter { IfOk result (λ after. length after.now ≤ length text.now) }
{
    let beginning = [
        Wanted::Sign(Sign::Open),
        Wanted::Name,
        Wanted::Sign(Sign::Comma),
        Wanted::Sign(Sign::OpenList),
    ];
    let rest = after_all(text, &beginning)?;
    let rest = exports(alloc, rest)?;
    let end = [Wanted::Sign(Sign::Close), Wanted::Sign(Sign::Stop)];
    after_all(rest, &end)
}

/// The symbols that a module exports, if any, and the closing bracket.
fn exports<'a, A: Allocator + Copy>(
    alloc: A,
    text: &'a [Placed<'a>],
) -> Result<&'a [Placed<'a>], Halt<'a>>
    ensures reads { ReadsExports (placed_views text.now) result }
    ensures shorter { IfOk result (λ after. length after.now < length text.now) }
{
    if let Some(after) = after_sign(text, Sign::CloseList) {
        return Ok(after);
    }
    let (_, end) = symbols(alloc, text)?;
    match after_sign(end, Sign::CloseList) {
        Some(after) => Ok(after),
        None => Err(Halt::Expected(end)),
    }
}

/// Symbols with commas between them.
fn symbols<'a, A: Allocator + Copy>(
    alloc: A,
    text: &'a [Placed<'a>],
) -> Result<(Vec<Declaration<A>, A>, &'a [Placed<'a>]), Halt<'a>>
    ensures reads { ReadsSymbols (λ v. v.items) (placed_views text.now) result }
    ensures shorter { IfOk result (λ x. length x.1.now < length text.now) }
    ensures no_comma { IfOk result (λ x. Lacks comma (placed_views x.1.now)) }
{
    let mut symbols = Vec::new(alloc);
    let (_, mut rest) = text.split_at(0);
    loop {
        let (found, end) = symbol(alloc, rest)?;
        symbols.push(found)?;
        match after_sign(end, Sign::Comma) {
            Some(after) => rest = after,
            None => return Ok((symbols, end)),
        }
    }
}

/// `name/arity`
fn symbol<'a, A: Allocator + Copy>(
    alloc: A,
    text: &'a [Placed<'a>],
) -> Result<(Declaration<A>, &'a [Placed<'a>]), Halt<'a>>
    ensures reads { ReadsSymbol (placed_views text.now) result }
    ensures shorter { IfOk result (λ x. length x.1.now < length text.now) }
{
    let Some((word, rest)) = name(text) else {
        return Err(Halt::Expected(text));
    };
    let Some(digits) = after_sign(rest, Sign::Slash) else {
        return Err(Halt::Expected(rest));
    };
    let Some((first, after)) = split_first(digits) else {
        return Err(Halt::Expected(digits));
    };
    match first.token {
        Token::Number { signed: _, value } => match number(value) {
            Some(_) => {
                let name = string_of(alloc, word)?;
                Ok((Declaration { name, arity: value }, after))
            }
            None => Err(Halt::Expected(digits)),
        },
        _ => Err(Halt::Expected(digits)),
    }
}

/// A token that has to come.
#[derive(Clone, Copy, Drop)]
enum Wanted<'w> {
    Sign(Sign),
    Word(&'w [u8]),
    Name,
}

/// What stands after these tokens, which have to come.
#[cycle(after_all)]
fn after_all<'a>(
    text: &'a [Placed<'a>],
    wanted: &[Wanted<'_>],
) -> Result<&'a [Placed<'a>], Halt<'a>>
    ensures reads { ReadsFixed (wanted_views wanted.now) (placed_views text.now) result }
    ensures shorter { IfOk result (λ after. length after.now ≤ length text.now) }
{
    match wanted {
        [] => Ok(text),
        [first, others @ ..] => {
            let rest = after_wanted(text, *first)?;
            after_all(rest, others)
        }
    }
}

/// What stands after this token, which has to come.
fn after_wanted<'a>(
    text: &'a [Placed<'a>],
    wanted: Wanted<'_>,
) -> Result<&'a [Placed<'a>], Halt<'a>>
    ensures reads { ReadsWanted (wanted_view wanted.entry) (placed_views text.now) result }
    ensures shorter { IfOk result (λ after. length after.now < length text.now) }
{
    match wanted {
        Wanted::Sign(sign) => match after_sign(text, sign) {
            Some(after) => Ok(after),
            None => Err(Halt::Expected(text)),
        },
        Wanted::Word(word) => match name(text) {
            Some((found, after)) => {
                if is_word(found, word) {
                    Ok(after)
                } else {
                    Err(Halt::Expected(text))
                }
            }
            None => Err(Halt::Expected(text)),
        },
        Wanted::Name => match name(text) {
            Some((_, after)) => Ok(after),
            None => Err(Halt::Expected(text)),
        },
    }
}
