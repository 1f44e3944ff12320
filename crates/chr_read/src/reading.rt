//! From the bytes of a text to its syntax.
ghost use Rattle.std.specs.Prelude.{◌≡◌, ◌∷◌, ◌<◌, IfErr, IfOk, MatchOption, length};
ghost use Rattle.chr_semantics.specs.Grammar.{IsProgram, IsQuery, line_of};
ghost use Rattle.chr_semantics.specs.Reading.{IsRead};
ghost use Rattle.chr_semantics.specs.Syntax.{Program, Query};
ghost use Rattle.chr_semantics.specs.Tokens.{over};
ghost use Rattle.chr_tokens.specs.TokenView.{place_view, placed_views, token_view};
ghost use Rattle.chr_read.specs.Parts.{NoOver, ReadsPart, ReadsParts, ReadsProgram, ReadsQuery};
ghost use Rattle.chr_read.specs.Reads.{BeginsWith};
ghost use Rattle.chr_read.specs.Refusals.{IsErrorOfHalt, IsKind, IsOnly, IsRefusal, PointsToToken, place_of};
ghost use Rattle.chr_read.specs.SyntaxView.{program_view, query_view};

use crate::directives::directive;
use crate::error::{ReadError, ReadErrorKind};
use crate::halt::Halt;
use crate::items::items;
use crate::rules::rule;
use crate::syntax::{Part, ProgramSyntax, QuerySyntax};
use crate::words::{after_sign, number, split_first};
use chr_tokens::{Fault, Place, Placed, Sign, Token, characters, tokens};
use std::alloc::Allocator;

/// What the text of a program spells, or what is wrong with it first.
pub fn read_program<A: Allocator + Copy>(
    alloc: A,
    text: &[u8],
) -> Result<ProgramSyntax<A>, ReadError>
    // What is read is spelled so, within the limits.
    ensures read { IfOk result (λ found. IsRead IsProgram text.now (program_view found)) }
    // What is spelled within the limits is read, unless memory is refused.
    ensures only { (p : Program) → IsRead IsProgram text.now p → IsOnly program_view result p }
    // Which error it is, and where.
    ensures refused { IfErr result (IsRefusal IsProgram text.now) }
{
    let characters = characters(alloc, text)?;
    let found = tokens(alloc, &characters)?;
    match program(alloc, &found) {
        Ok(parts) => Ok(ProgramSyntax { parts }),
        Err(halt) => Err(error_of(halt)),
    }
}

/// What the text of a query spells, or what is wrong with it first.
pub fn read_query<A: Allocator + Copy>(alloc: A, text: &[u8]) -> Result<QuerySyntax<A>, ReadError>
    ensures read { IfOk result (λ found. IsRead IsQuery text.now (query_view found)) }
    ensures only { (q : Query) → IsRead IsQuery text.now q → IsOnly query_view result q }
    ensures refused { IfErr result (IsRefusal IsQuery text.now) }
{
    let characters = characters(alloc, text)?;
    let found = tokens(alloc, &characters)?;
    match query(alloc, &found) {
        Ok(found) => Ok(found),
        Err(halt) => Err(error_of(halt)),
    }
}

/// A program, with the end of its text.
fn program<'a, A: Allocator + Copy>(
    alloc: A,
    text: &'a [Placed<'a>],
) -> Result<Vec<Part<A>, A>, Halt<'a>>
    ensures { ReadsProgram (λ v. v.items) (placed_views text.now) result }
{
    let (parts, after) = parts(alloc, text)?;
    if after.is_empty() {
        Ok(parts)
    } else {
        Err(Halt::Expected(after))
    }
}

/// The parts of a program, and what stands after the end of its text.
fn parts<'a, A: Allocator + Copy>(
    alloc: A,
    text: &'a [Placed<'a>],
) -> Result<(Vec<Part<A>, A>, &'a [Placed<'a>]), Halt<'a>>
    ensures { ReadsParts (λ v. v.items) (placed_views text.now) result }
{
    let mut parts = Vec::new(alloc);
    // All of the text: the check wants a part of it here, as each turn of the loop gives it.
    let (_, mut rest) = text.split_at(0);
    loop {
        match after_end(rest) {
            Some(after) => return Ok((parts, after)),
            None => {
                let (next, others) = part(alloc, rest)?;
                parts.push(next)?;
                rest = others;
            }
        }
    }
}

/// A directive or a rule.
#[tactic(auto, using(crate::proofs::Listings::begins_rule))]
fn part<'a, A: Allocator + Copy>(
    alloc: A,
    text: &'a [Placed<'a>],
) -> Result<(Part<A>, &'a [Placed<'a>]), Halt<'a>>
    requires { NoOver (placed_views text.now) }
    ensures reads { ReadsPart (placed_views text.now) result }
    ensures shorter { IfOk result (λ x. length x.1.now < length text.now) }
{
    let line = first_line(text);
    match after_sign(text, Sign::Declares) {
        Some(after) => directive(alloc, line, after),
        None => {
            let (found, rest) = rule(alloc, text)?;
            Ok((Part::Rule(line, found), rest))
        }
    }
}

/// The line of the first token.
fn first_line(text: &[Placed<'_>]) -> u64
    ensures { result ≡ line_of (placed_views text.now) }
{
    match split_first(text) {
        Some((first, _)) => first.place.line,
        None => 0,
    }
}

/// What stands after the end of the text, where that comes first.
fn after_end<'a>(rest: &'a [Placed<'a>]) -> Option<&'a [Placed<'a>]>
    ensures { MatchOption result (NoOver (placed_views rest.now))
        (λ after. BeginsWith (placed_views rest.now) over (placed_views after.now)) }
{
    let (first, others) = split_first(rest)?;
    match first.token {
        Token::Over => Some(others),
        _ => None,
    }
}

/// A query.
#[tactic(auto, using(crate::proofs::Listings::asking_begins))]
fn query<'a, A: Allocator + Copy>(
    alloc: A,
    text: &'a [Placed<'a>],
) -> Result<QuerySyntax<A>, Halt<'a>>
    ensures { ReadsQuery (placed_views text.now) result }
{
    let line = first_line(text);
    let (items, end) = items(alloc, text)?;
    let Some(last) = after_sign(end, Sign::Stop) else {
        return Err(Halt::Expected(end));
    };
    let Some(after) = after_end(last) else {
        return Err(Halt::Expected(last));
    };
    if after.is_empty() {
        Ok(QuerySyntax { line, items })
    } else {
        Err(Halt::Expected(after))
    }
}

/// Why and where a reading halted.
fn error_of(halt: Halt<'_>) -> ReadError
    requires { PointsToToken halt }
    ensures { IsErrorOfHalt halt.entry result }
{
    match halt {
        Halt::Memory => ReadError::without_place(ReadErrorKind::Memory),
        Halt::Expected(rest) => {
            let first = rest[0];
            error_at(kind_of(first.token), first.place)
        }
        Halt::TooDeep(rest) => error_at(ReadErrorKind::TooDeep, rest[0].place),
    }
}

/// An error of this kind at this place.
fn error_at(kind: ReadErrorKind, place: Place) -> ReadError
    ensures kind { result.kind ≡ kind }
    ensures place { place_of result ≡ place_view place }
{
    ReadError {
        kind,
        line: place.line,
        column: place.column,
    }
}

/// What is wrong where no text goes on with this token.
fn kind_of(token: Token<'_>) -> ReadErrorKind
    ensures { IsKind (token_view token.entry) result }
{
    match token {
        Token::Fault(Fault::BadCharacter) => ReadErrorKind::BadChar,
        Token::Fault(Fault::UnclosedComment) => ReadErrorKind::UnclosedComment,
        Token::Fault(Fault::TooLarge) => ReadErrorKind::NumberTooLarge,
        Token::Number { signed: _, value } => match number(value) {
            Some(_) => ReadErrorKind::Expected,
            None => ReadErrorKind::NumberTooLarge,
        },
        _ => ReadErrorKind::Expected,
    }
}
