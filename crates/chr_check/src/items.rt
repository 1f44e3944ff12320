//! The items of a rule or of a query, by their tokens.

use crate::spots::Spot;
use crate::symbols::Symbol;
use chr_term::Memory;
use chr_tokens::{Relation, Sign, Token};
use std::alloc::Allocator;

/// Where an item stands.
#[derive(Clone, Copy, PartialEq, Eq, Debug, Drop)]
pub(crate) enum Role {
    /// Before the arrow.
    Head,
    /// Between the arrow and `|`.
    Guard,
    /// In a body or a query.
    Goal,
}

/// An item: its tokens, and where it stands.
#[derive(Clone, Copy, Drop)]
pub(crate) struct Item<'a> {
    pub(crate) tokens: &'a [Spot<'a>],
    pub(crate) role: Role,
}

/// What an item is.
#[derive(Clone, Copy, Drop)]
pub(crate) enum Shape<'a> {
    /// Two expressions with a relation between them, and its token.
    Related(Relation, Spot<'a>),
    /// A name with its arguments, and its token.
    Call(Symbol<'a>, Spot<'a>),
    /// Something else, and the token that shows it.
    Other(Spot<'a>),
}

/// How a sign changes the number of open brackets.
fn depth_after(depth: usize, token: Token<'_>) -> usize {
    match token {
        Token::Sign(Sign::Open | Sign::OpenList) => depth.saturating_add(1),
        Token::Sign(Sign::Close | Sign::CloseList) => depth.saturating_sub(1),
        _ => depth,
    }
}

/// Whether a token outside brackets parts items.
fn parts_items(token: Token<'_>) -> bool {
    match token {
        Token::Sign(sign) => match sign {
            Sign::Comma | Sign::Bar | Sign::Label | Sign::Backslash => true,
            Sign::Simplifies | Sign::Propagates | Sign::Stop => true,
            _ => false,
        },
        Token::Over => true,
        _ => false,
    }
}

/// Whether a token is an arrow.
fn is_arrow(token: Token<'_>) -> bool {
    match token {
        Token::Sign(Sign::Simplifies | Sign::Propagates) => true,
        _ => false,
    }
}

/// The tokens from one place on up to another.
fn between<'a>(tokens: &'a [Spot<'a>], begin: usize, end: usize) -> &'a [Spot<'a>] {
    if begin <= end && end <= tokens.len() {
        &tokens[begin..end]
    } else {
        &[]
    }
}

/// The tokens of an item without `# passive`.
fn without_pragma<'a>(tokens: &'a [Spot<'a>]) -> &'a [Spot<'a>] {
    match tokens {
        [front @ .., hash, _] if hash.token == Token::Sign(Sign::Hash) => front,
        _ => tokens,
    }
}

/// The place of the first token outside brackets that is an arrow.
pub(crate) fn arrow_of(tokens: &[Spot<'_>]) -> Option<usize> {
    for place in 0..tokens.len() {
        if is_arrow(tokens[place].token) {
            return Some(place);
        }
    }
    None
}

/// The place of the first `|` outside brackets.
fn bar_of(tokens: &[Spot<'_>]) -> Option<usize> {
    let mut depth = 0;
    for place in 0..tokens.len() {
        let token = tokens[place].token;
        depth = depth_after(depth, token);
        if depth == 0 && token == Token::Sign(Sign::Bar) {
            return Some(place);
        }
    }
    None
}

/// Where an item stands that begins at a place of a rule, or of a query, which has no arrow.
fn role_of(begin: usize, arrow: Option<usize>, bar: Option<usize>) -> Role {
    match (arrow, bar) {
        (Some(arrow), _) if begin < arrow => Role::Head,
        (Some(_), Some(bar)) if begin < bar => Role::Guard,
        _ => Role::Goal,
    }
}

/// The items of a rule or of a query. The name of a rule is none.
pub(crate) fn items<'a, A: Allocator + Copy>(
    alloc: A,
    tokens: &'a [Spot<'a>],
) -> Result<Vec<Item<'a>, A>, Memory> {
    let (arrow, bar) = (arrow_of(tokens), bar_of(tokens));
    let mut found = Vec::new(alloc);
    let mut depth = 0;
    let mut begin = 0;
    for end in 0..tokens.len() {
        let token = tokens[end].token;
        depth = depth_after(depth, token);
        if depth == 0 && parts_items(token) {
            let item = without_pragma(between(tokens, begin, end));
            if !item.is_empty() && token != Token::Sign(Sign::Label) {
                found.push(Item {
                    tokens: item,
                    role: role_of(begin, arrow, bar),
                })?;
            }
            begin = end.saturating_add(1);
        }
    }
    Ok(found)
}

/// The tokens of an expression without brackets around the whole of it.
fn without_brackets<'a>(tokens: &'a [Spot<'a>]) -> &'a [Spot<'a>] {
    let mut inner = tokens;
    for _ in tokens {
        match inner {
            [first, others @ .., _]
                if first.token == Token::Sign(Sign::Open) && closes_last(&inner[1..]) => inner =
                others,
            _ => return inner,
        }
    }
    inner
}

/// Whether the bracket that is open before these tokens is closed by the last of them.
fn closes_last(tokens: &[Spot<'_>]) -> bool {
    let mut depth = 1;
    let mut left = tokens.len();
    for spot in tokens {
        depth = depth_after(depth, spot.token);
        left = left.saturating_sub(1);
        if depth == 0 {
            return left == 0;
        }
    }
    false
}

/// The first operator outside brackets.
fn operator_of<'a>(tokens: &[Spot<'a>]) -> Option<Spot<'a>> {
    let mut depth = 0;
    for spot in tokens {
        depth = depth_after(depth, spot.token);
        if depth == 0 && is_operator(spot.token) {
            return Some(*spot);
        }
    }
    None
}

/// Whether a token is an operator.
fn is_operator(token: Token<'_>) -> bool {
    match token {
        Token::Additive(_) | Token::Multiplicative(_) => true,
        _ => false,
    }
}

/// How many arguments a name has, of which these tokens stand behind it.
pub(crate) fn arity(behind: &[Spot<'_>]) -> u128 {
    let mut depth = 0;
    let mut count = 0_u128;
    for spot in behind {
        depth = depth_after(depth, spot.token);
        if depth == 0 {
            return count.saturating_add(if spot.token == Token::Sign(Sign::Close) {
                1
            } else {
                0
            });
        }
        if depth == 1 && spot.token == Token::Sign(Sign::Comma) {
            count = count.saturating_add(1);
        }
    }
    count
}

/// What an item is; nothing where it has no token.
pub(crate) fn shape_of<'a>(item: Item<'a>) -> Option<Shape<'a>> {
    for spot in item.tokens {
        if let Token::Relation(relation) = spot.token {
            return Some(Shape::Related(relation, *spot));
        }
    }
    let tokens = without_brackets(item.tokens);
    let first = tokens.first()?;
    if let Some(operator) = operator_of(tokens) {
        return Some(Shape::Other(operator));
    }
    match (tokens, first.token) {
        ([_, behind @ ..], Token::Name(name)) => Some(Shape::Call(
            Symbol {
                name,
                arity: arity(behind),
            },
            *first,
        )),
        _ => Some(Shape::Other(*first)),
    }
}
