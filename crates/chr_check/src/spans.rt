//! Where rules and their heads stand in a text.

use crate::items::{Item, Role, items};
use crate::pieces::{Piece, pieces};
use crate::spots::{Spot, spots};
use chr_term::Memory;
use chr_tokens::{Unread, characters};
use std::alloc::{AllocError, Allocator, Global};

/// A part of a text.
#[derive(Clone, Copy, PartialEq, Eq, Debug, Drop)]
pub struct Span {
    /// The number of characters before it.
    pub begin: usize,
    /// The number of its characters.
    pub width: usize,
}

/// Where a rule stands in a text.
#[derive(Drop)]
pub struct RuleSpans<A: Allocator = Global> {
    /// All of it, from its first token to its last one.
    pub whole: Span,
    /// Its heads from left to right, without `# passive`.
    pub heads: Vec<Span, A>,
}

/// The part from the first to the last of some tokens, behind so many characters.
fn span_of(begin: usize, tokens: &[Spot<'_>]) -> Option<Span> {
    let first = tokens.first()?;
    let last = tokens.last()?;
    let end = last.begin.saturating_add(last.width);
    Some(Span {
        begin: begin.saturating_add(first.begin),
        width: end.saturating_sub(first.begin),
    })
}

/// Where those items stand that are heads, behind so many characters.
fn spans_of<A: Allocator + Copy>(
    alloc: A,
    begin: usize,
    items: &[Item<'_>],
) -> Result<Vec<Span, A>, Memory> {
    let mut found = Vec::new(alloc);
    for item in items {
        if item.role == Role::Head {
            if let Some(span) = span_of(begin, item.tokens) {
                found.push(span)?;
            }
        }
    }
    Ok(found)
}

/// Where a part of a program stands that is a rule; nothing where it is none.
fn rule_of<A: Allocator + Copy>(
    alloc: A,
    piece: Piece<'_>,
) -> Result<Option<RuleSpans<A>>, Memory> {
    let tokens = spots(alloc, piece.characters)?;
    let items = items(alloc, tokens.as_slice())?;
    let heads = spans_of(alloc, piece.begin, items.as_slice())?;
    if heads.is_empty() {
        return Ok(None);
    }
    // The last token is the end of the part.
    let whole = match tokens.as_slice() {
        [words @ .., _] => span_of(piece.begin, words),
        [] => None,
    };
    match whole {
        None => Ok(None),
        Some(whole) => Ok(Some(RuleSpans { whole, heads })),
    }
}

/// Where the rules of a program stand that is accepted, in their order.
pub fn rule_spans<A: Allocator + Copy>(
    alloc: A,
    text: &[u8],
) -> Result<Vec<RuleSpans<A>, A>, Memory> {
    let mut found = Vec::new(alloc);
    let characters = match characters(alloc, text) {
        Ok(characters) => characters,
        Err(Unread::Memory) => return Err(AllocError),
        Err(_) => return Ok(found),
    };
    for piece in pieces(alloc, characters.as_slice(), text)? {
        if let Some(rule) = rule_of(alloc, piece)? {
            found.push(rule)?;
        }
    }
    Ok(found)
}
