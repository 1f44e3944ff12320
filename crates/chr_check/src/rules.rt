//! At which tokens of a rule, or of a query, a mistake stands.

use crate::hints::{Hint, hint_of_goal, hint_of_test};
use crate::items::{Item, Role, Shape, arity, items, shape_of};
use crate::mistake::{Detail, Kind, Mistake};
use crate::nearest::nearest;
use crate::spots::Spot;
use crate::symbols::{Symbol, is_built_in, is_test_of_one, is_word};
use chr_rules::RuleErrorKind;
use chr_semantics::limits::{MAX_ARITY, MAX_HEADS, MAX_RULE_VARIABLES};
use chr_term::Memory;
use chr_tokens::{Relation, Sign, Token};
use std::alloc::Allocator;

/// How many mistakes are told at most of one rule, and of a text about as many.
pub const MOST: usize = 100;

/// The kinds of mistakes that a rule may have by itself, but for symbols that are not declared.
const KINDS: [RuleErrorKind; 9] = [
    RuleErrorKind::BuiltinInHead,
    RuleErrorKind::NotAGoal,
    RuleErrorKind::NotATest,
    RuleErrorKind::GuardVariable,
    RuleErrorKind::GuardOnly,
    RuleErrorKind::TooManyHeads,
    RuleErrorKind::ArityTooLarge,
    RuleErrorKind::BackslashInPropagation,
    RuleErrorKind::TooManyVariables,
];

/// What is known of a rule or a query with a mistake.
#[derive(Clone, Copy, Drop)]
pub(crate) struct Mistaken<'a> {
    /// The number of characters before the part of the text where it stands.
    pub(crate) begin: usize,
    /// Its tokens, with its END.
    pub(crate) tokens: &'a [Spot<'a>],
    /// What is wrong with it first.
    pub(crate) kind: RuleErrorKind,
    /// The line of an earlier rule that has its name, where one has.
    pub(crate) named_before: Option<u64>,
}

impl<'a> Mistaken<'a> {
    /// The mistake at a token.
    pub(crate) fn at<A: Allocator + Copy>(
        self,
        kind: RuleErrorKind,
        spot: Spot<'a>,
        detail: Detail<A>,
        hint: Option<Hint>,
    ) -> Mistake<A> {
        Mistake {
            kind: Kind::Rule(kind),
            begin: self.begin.saturating_add(spot.begin),
            width: spot.width,
            detail,
            hint,
        }
    }
}

/// Whether an item that stands so, and is so, has a mistake of a kind; then its token.
fn offending<'a>(kind: RuleErrorKind, role: Role, shape: Shape<'a>) -> Option<Spot<'a>> {
    match (kind, role, shape) {
        (RuleErrorKind::BuiltinInHead, Role::Head, Shape::Related(_, spot)) => Some(spot),
        (RuleErrorKind::BuiltinInHead, Role::Head, Shape::Call(symbol, spot)) => if is_built_in(
            symbol,
        ) {
            Some(spot)
        } else {
            None
        },
        (RuleErrorKind::NotAGoal, Role::Head | Role::Goal, Shape::Other(spot)) => Some(spot),
        (RuleErrorKind::NotATest, Role::Guard, shape) => no_test(shape),
        (RuleErrorKind::GuardOnly, Role::Goal, Shape::Related(Relation::NotUnifiable, spot)) =>
            Some(spot),
        (RuleErrorKind::GuardOnly, Role::Goal, Shape::Call(symbol, spot)) => if symbol.arity == 1
            && is_test_of_one(symbol.name)
        {
            Some(spot)
        } else {
            None
        },
        _ => None,
    }
}

/// The token that shows that an item of a guard is no test.
fn no_test<'a>(shape: Shape<'a>) -> Option<Spot<'a>> {
    match shape {
        Shape::Related(Relation::Is, spot) | Shape::Other(spot) => Some(spot),
        Shape::Related(_, _) => None,
        Shape::Call(symbol, spot) => {
            let is_test = is_built_in(symbol) && !is_word(symbol.name, "fail");
            if is_test { None } else { Some(spot) }
        }
    }
}

/// The tokens at which items have a mistake of a kind.
fn offending_items<'a, A: Allocator + Copy>(
    alloc: A,
    kind: RuleErrorKind,
    items: &[Item<'a>],
) -> Result<Vec<Spot<'a>, A>, Memory> {
    let mut found = Vec::new(alloc);
    for item in items {
        if let Some(shape) = shape_of(*item) {
            if let Some(spot) = offending(kind, item.role, shape) {
                found.push(spot)?;
            }
        }
    }
    Ok(found)
}

/// The first token of the first head that is one too many.
fn extra_head<'a>(items: &[Item<'a>]) -> Option<Spot<'a>> {
    let item = items.get(MAX_HEADS)?;
    if item.role == Role::Head {
        item.tokens.first().copied()
    } else {
        None
    }
}

/// The `\` of a rule that has `==>`.
fn backslash<'a>(tokens: &[Spot<'a>]) -> Option<Spot<'a>> {
    let mut found = None;
    for spot in tokens {
        match spot.token {
            Token::Sign(Sign::Backslash) => found = Some(*spot),
            Token::Sign(Sign::Propagates) => return found,
            _ => {}
        }
    }
    None
}

/// Whether a name is among some others.
fn is_among(names: &[&[char]], name: &[char]) -> bool {
    for other in names {
        if *other == name {
            return true;
        }
    }
    false
}

/// The variables before the arrow of a rule, each once, but no more than a rule may have. `_` is none: each is another variable.
fn head_variables<'a, A: Allocator + Copy>(
    alloc: A,
    tokens: &[Spot<'a>],
) -> Result<Vec<&'a [char], A>, Memory> {
    let mut found: Vec<&'a [char], A> = Vec::new(alloc);
    for spot in tokens {
        match spot.token {
            Token::Sign(Sign::Simplifies | Sign::Propagates) => return Ok(found),
            Token::Variable(name) => {
                let is_known = is_word(name, "_") || is_among(found.as_slice(), name);
                if !is_known && found.len() < MAX_RULE_VARIABLES {
                    found.push(name)?;
                }
            }
            _ => {}
        }
    }
    Ok(found)
}

/// Appends the tokens of variables that are none of those known.
fn push_strange<'a, A: Allocator>(
    tokens: &[Spot<'a>],
    known: &[&[char]],
    found: &mut Vec<Spot<'a>, A>,
) -> Result<(), Memory> {
    for spot in tokens {
        if let Token::Variable(name) = spot.token {
            if !is_among(known, name) {
                found.push(*spot)?;
            }
        }
    }
    Ok(())
}

/// The variables of a guard that are in no head, where the heads have fewer variables than a rule may have.
fn strange_variables<'a, A: Allocator + Copy>(
    alloc: A,
    tokens: &'a [Spot<'a>],
    items: &[Item<'a>],
) -> Result<Vec<Spot<'a>, A>, Memory> {
    let known = head_variables(alloc, tokens)?;
    let mut found = Vec::new(alloc);
    if known.len() == MAX_RULE_VARIABLES {
        return Ok(found);
    }
    for item in items {
        if item.role == Role::Guard {
            push_strange(item.tokens, known.as_slice(), &mut found)?;
        }
    }
    Ok(found)
}

/// The names of a rule that have too many arguments.
fn wide_names<'a, A: Allocator + Copy>(
    alloc: A,
    tokens: &'a [Spot<'a>],
) -> Result<Vec<Spot<'a>, A>, Memory> {
    let mut found = Vec::new(alloc);
    for k in 0..tokens.len() {
        if let Token::Name(_) = tokens[k].token {
            if arity(&tokens[k + 1..]) > MAX_ARITY as u128 {
                found.push(tokens[k])?;
            }
        }
    }
    Ok(found)
}

/// The first variable of a rule that has as many others before it as a rule may have.
fn last_variable<'a, A: Allocator + Copy>(
    alloc: A,
    tokens: &[Spot<'a>],
) -> Result<Option<Spot<'a>>, Memory> {
    let mut known: Vec<&'a [char], A> = Vec::new(alloc);
    for spot in tokens {
        if let Token::Variable(name) = spot.token {
            if is_word(name, "_") || !is_among(known.as_slice(), name) {
                if known.len() == MAX_RULE_VARIABLES {
                    return Ok(Some(*spot));
                }
                known.push(name)?;
            }
        }
    }
    Ok(None)
}

impl<'a> Mistaken<'a> {
    /// The tokens at which mistakes of a kind stand.
    fn spots<A: Allocator + Copy>(
        self,
        alloc: A,
        kind: RuleErrorKind,
        items: &[Item<'a>],
    ) -> Result<Vec<Spot<'a>, A>, Memory> {
        let one = match kind {
            RuleErrorKind::GuardVariable => return strange_variables(alloc, self.tokens, items),
            RuleErrorKind::ArityTooLarge => return wide_names(alloc, self.tokens),
            RuleErrorKind::TooManyHeads => extra_head(items),
            RuleErrorKind::TooManyVariables => last_variable(alloc, self.tokens)?,
            RuleErrorKind::BackslashInPropagation => backslash(self.tokens),
            _ => return offending_items(alloc, kind, items),
        };
        let mut found = Vec::new(alloc);
        if let Some(spot) = one {
            found.push(spot)?;
        }
        Ok(found)
    }

    /// The symbols that are not declared, each with its token and the declared one that comes nearest.
    fn undeclared<A: Allocator + Copy>(
        self,
        alloc: A,
        items: &[Item<'a>],
        declared: &[Symbol<'_>],
    ) -> Result<Vec<Mistake<A>, A>, Memory> {
        let mut found = Vec::new(alloc);
        for item in items {
            if let (Role::Head | Role::Goal, Some(Shape::Call(symbol, spot))) = (
                item.role,
                shape_of(*item),
            ) {
                if found.len() >= MOST {
                    return Ok(found);
                }
                if !is_built_in(symbol) && !is_declared(declared, symbol) {
                    let near = match nearest(alloc, symbol, declared)? {
                        Some(near) => Some(near.told(alloc)?),
                        None => None,
                    };
                    let detail = Detail::Undeclared(symbol.arity, near);
                    let kind = RuleErrorKind::Undeclared;
                    found.push(self.at(kind, spot, detail, hint_of_goal(symbol)))?;
                }
            }
        }
        Ok(found)
    }

    /// The mistakes, each at its token, over the symbols that are declared.
    pub(crate) fn mistakes<A: Allocator + Copy>(
        self,
        alloc: A,
        declared: &[Symbol<'_>],
    ) -> Result<Vec<Mistake<A>, A>, Memory> {
        let items = items(alloc, self.tokens)?;
        let mut found = self.undeclared(alloc, items.as_slice(), declared)?;
        for kind in KINDS {
            for spot in self.spots(alloc, kind, items.as_slice())? {
                if found.len() >= MOST {
                    return Ok(found);
                }
                found.push(self.at(kind, spot, Detail::Nothing, hint(kind, spot.token)))?;
            }
        }
        if let (Some(line), Some(first)) = (self.named_before, self.tokens.first()) {
            let kind = RuleErrorKind::DuplicateName;
            found.push(self.at(kind, *first, Detail::NamedBefore(line), None))?;
        }
        if let (true, Some(first)) = (found.is_empty(), self.tokens.first()) {
            found.push(self.at(self.kind, *first, Detail::Nothing, None))?;
        }
        Ok(found)
    }
}

/// What may have been meant at the token of a mistake.
fn hint(kind: RuleErrorKind, token: Token<'_>) -> Option<Hint> {
    match kind {
        RuleErrorKind::NotATest => hint_of_test(token),
        _ => None,
    }
}

/// Whether a symbol is among those that are declared.
fn is_declared(declared: &[Symbol<'_>], symbol: Symbol<'_>) -> bool {
    for other in declared {
        if other.arity == symbol.arity && other.name == symbol.name {
            return true;
        }
    }
    false
}
