//! Expressions, by recursive descent. The depth is that of the brackets, of which at most `MAX_OPEN_BRACKETS` are open at once.
ghost use Rattle.std.specs.Prelude.{◌≡◌, ◌<◌, ◌≤◌, IfOk, MatchResult, length, map};
ghost use Rattle.std.specs.Str.{encode_utf8_all};
ghost use Rattle.chr_semantics.specs.Syntax.{call, exprs_of, list as syntax_list, nil, variable as syntax_variable};
ghost use Rattle.chr_semantics.specs.Tokens.{comma};
ghost use Rattle.chr_tokens.specs.TokenView.{placed_views};
ghost use Rattle.chr_read.specs.Reads.{Lacks, NoAdditive, NoMultiplicative, ReadsElements, ReadsInParens, ReadsList, ReadsListEnd, ReadsNamed, ReadsPrimaries, ReadsPrimary, ReadsProduct, ReadsProducts, ReadsSigned, ReadsSum, end_view};
ghost use Rattle.chr_read.specs.SyntaxView.{chain, operand_views, view, views};
ghost use Rattle.chr_read.specs.declared.halt.Halt.TheVariants.{Memory as OutOfMemory};

use crate::halt::Halt;
use crate::syntax::{Expr, Operator};
use crate::words::{
    additive, after_sign, before_sign, both, multiplicative, negative, number, split_first,
    string_of,
};
use chr_semantics::limits::MAX_OPEN_BRACKETS;
use chr_tokens::{Additive, Placed, Sign, Token};
use std::alloc::Allocator;

/// Products with `+` or `-` between them.
#[cycle(expr)]
#[tactic(auto, using(crate::proofs::Steps::steps))]
pub(crate) fn sum<'a, A: Allocator + Copy>(
    alloc: A,
    text: &'a [Placed<'a>],
    room: usize,
) -> Result<(Expr<A>, &'a [Placed<'a>]), Halt<'a>>
    requires { room ≤ MAX_OPEN_BRACKETS }
    ensures reads { ReadsSum room (placed_views text.now) result }
    ensures shorter { IfOk result (λ x. length x.1.now < length text.now) }
    ensures no_sum { IfOk result (λ x. NoAdditive (placed_views x.1.now)) }
    ensures no_product { IfOk result (λ x. NoMultiplicative (placed_views x.1.now)) }
{
    let (first, end) = product(alloc, text, room)?;
    let ((first, operands), rest) = both(first, further_products(alloc, end, room))?;
    chain_of(alloc, first, operands, rest)
}

/// The products after the first one, each with its `+` or `-`.
#[cycle(expr)]
#[tactic(auto, using(crate::proofs::Steps::steps))]
fn further_products<'a, A: Allocator + Copy>(
    alloc: A,
    text: &'a [Placed<'a>],
    room: usize,
) -> Result<(Vec<(Operator, Expr<A>), A>, &'a [Placed<'a>]), Halt<'a>>
    requires room { room ≤ MAX_OPEN_BRACKETS }
    requires no_product { NoMultiplicative (placed_views text.now) }
    ensures reads { ReadsProducts (λ v. v.items) room (placed_views text.now) result }
    ensures within { IfOk result (λ x. length x.1.now ≤ length text.now) }
    ensures no_sum { IfOk result (λ x. NoAdditive (placed_views x.1.now)) }
    ensures no_product { IfOk result (λ x. NoMultiplicative (placed_views x.1.now)) }
{
    let mut operands = Vec::new(alloc);
    let (_, mut rest) = text.split_at(0);
    while let Some((operator, after)) = additive(rest) {
        let (operand, others) = product(alloc, after, room)?;
        operands.push((Operator::Additive(operator), operand))?;
        rest = others;
    }
    Ok((operands, rest))
}

/// Primaries with `*`, `//` or `mod` between them.
#[cycle(expr)]
#[tactic(auto, using(crate::proofs::Steps::steps))]
fn product<'a, A: Allocator + Copy>(
    alloc: A,
    text: &'a [Placed<'a>],
    room: usize,
) -> Result<(Expr<A>, &'a [Placed<'a>]), Halt<'a>>
    requires { room ≤ MAX_OPEN_BRACKETS }
    ensures reads { ReadsProduct room (placed_views text.now) result }
    ensures shorter { IfOk result (λ x. length x.1.now < length text.now) }
    ensures no_product { IfOk result (λ x. NoMultiplicative (placed_views x.1.now)) }
{
    let (first, end) = primary(alloc, text, room)?;
    let ((first, operands), rest) = both(first, further_primaries(alloc, end, room))?;
    chain_of(alloc, first, operands, rest)
}

/// The primaries after the first one, each with its `*`, `//` or `mod`.
#[cycle(expr)]
#[tactic(auto, using(crate::proofs::Steps::steps))]
fn further_primaries<'a, A: Allocator + Copy>(
    alloc: A,
    text: &'a [Placed<'a>],
    room: usize,
) -> Result<(Vec<(Operator, Expr<A>), A>, &'a [Placed<'a>]), Halt<'a>>
    requires { room ≤ MAX_OPEN_BRACKETS }
    ensures reads { ReadsPrimaries (λ v. v.items) room (placed_views text.now) result }
    ensures within { IfOk result (λ x. length x.1.now ≤ length text.now) }
    ensures no_product { IfOk result (λ x. NoMultiplicative (placed_views x.1.now)) }
{
    let mut operands = Vec::new(alloc);
    let (_, mut rest) = text.split_at(0);
    while let Some((operator, after)) = multiplicative(rest) {
        let (operand, others) = primary(alloc, after, room)?;
        operands.push((Operator::Multiplicative(operator), operand))?;
        rest = others;
    }
    Ok((operands, rest))
}

/// A chain of operators, or its only operand, and what stands after it.
fn chain_of<'a, A: Allocator + Copy>(
    alloc: A,
    first: Expr<A>,
    operands: Vec<(Operator, Expr<A>), A>,
    rest: &'a [Placed<'a>],
) -> Result<(Expr<A>, &'a [Placed<'a>]), Halt<'a>>
    ensures { MatchResult result
        (λ x. (view x.0 ≡ chain (view first) (operand_views operands.items))
        × (x.1 ≡ rest.entry))
        (λ e. e ≡ OutOfMemory) }
{
    if operands.is_empty() {
        return Ok((first, rest));
    }
    let first = Box::new(alloc, first)?;
    Ok((Expr::Chain(first, operands), rest))
}

/// A variable, a number, a name with or without arguments, a list, or an expression in parentheses.
#[cycle(expr)]
#[tactic(auto, using(crate::proofs::Steps::steps))]
fn primary<'a, A: Allocator + Copy>(
    alloc: A,
    text: &'a [Placed<'a>],
    room: usize,
) -> Result<(Expr<A>, &'a [Placed<'a>]), Halt<'a>>
    requires { room ≤ MAX_OPEN_BRACKETS }
    ensures reads { ReadsPrimary room (placed_views text.now) result }
    ensures shorter { IfOk result (λ x. length x.1.now < length text.now) }
{
    let Some((first, after)) = split_first(text) else {
        return Err(Halt::Expected(text));
    };
    match first.token {
        Token::Variable(word) => variable(alloc, word, after),
        Token::Number { signed: _, value } => match number(value) {
            Some(number) => Ok((Expr::Number(number), after)),
            None => Err(Halt::Expected(text)),
        },
        Token::Additive(Additive::Minus) => negative_number(after),
        Token::Name(word) => name_or_call(alloc, word, after, room),
        Token::Sign(Sign::Open) => {
            if room == 0 {
                return Err(Halt::TooDeep(text));
            }
            in_parens(alloc, after, room - 1)
        }
        Token::Sign(Sign::OpenList) => {
            if room == 0 {
                return Err(Halt::TooDeep(text));
            }
            list(alloc, after, room - 1)
        }
        _ => Err(Halt::Expected(text)),
    }
}

/// A variable, and what stands after it.
fn variable<'a, A: Allocator + Copy>(
    alloc: A,
    word: &[char],
    rest: &'a [Placed<'a>],
) -> Result<(Expr<A>, &'a [Placed<'a>]), Halt<'a>>
    ensures { MatchResult result
        (λ x. (view x.0 ≡ syntax_variable (encode_utf8_all word.now)) × (x.1 ≡ rest.entry))
        (λ e. e ≡ OutOfMemory) }
{
    let name = string_of(alloc, word)?;
    Ok((Expr::Variable(name), rest))
}

/// The digits of a number after its `-`.
fn negative_number<'a, A: Allocator>(
    text: &'a [Placed<'a>],
) -> Result<(Expr<A>, &'a [Placed<'a>]), Halt<'a>>
    ensures reads { ReadsSigned (placed_views text.now) result }
    ensures shorter { IfOk result (λ x. length x.1.now < length text.now) }
{
    let Some((first, after)) = split_first(text) else {
        return Err(Halt::Expected(text));
    };
    match first.token {
        Token::Number {
            signed: true,
            value,
        } => match negative(value) {
            Some(number) => Ok((Expr::Number(number), after)),
            None => Err(Halt::Expected(text)),
        },
        _ => Err(Halt::Expected(text)),
    }
}

/// A name's arguments, if it has some.
#[cycle(expr)]
#[tactic(auto, using(crate::proofs::Steps::steps))]
fn name_or_call<'a, A: Allocator + Copy>(
    alloc: A,
    word: &'a [char],
    text: &'a [Placed<'a>],
    room: usize,
) -> Result<(Expr<A>, &'a [Placed<'a>]), Halt<'a>>
    requires { room ≤ MAX_OPEN_BRACKETS }
    ensures reads { ReadsNamed word.now room (placed_views text.now) result }
    ensures shorter { IfOk result (λ x. length x.1.now ≤ length text.now) }
{
    let Some(inside) = after_sign(text, Sign::Open) else {
        return call_of(alloc, word, Vec::new(alloc), text);
    };
    if room == 0 {
        return Err(Halt::TooDeep(text));
    }
    let (args, end) = elements(alloc, inside, room - 1)?;
    let (args, after) = before_sign(args, end, Sign::Close)?;
    call_of(alloc, word, args, after)
}

/// A name with its arguments, and what stands after it.
fn call_of<'a, A: Allocator + Copy>(
    alloc: A,
    word: &[char],
    args: Vec<Expr<A>, A>,
    rest: &'a [Placed<'a>],
) -> Result<(Expr<A>, &'a [Placed<'a>]), Halt<'a>>
    ensures { MatchResult result
        (λ x. (view x.0 ≡ call (encode_utf8_all word.now) (exprs_of (views args.items)))
        × (x.1 ≡ rest.entry))
        (λ e. e ≡ OutOfMemory) }
{
    let name = string_of(alloc, word)?;
    Ok((Expr::Call(name, args), rest))
}

/// An expression and its closing parenthesis.
#[cycle(expr)]
#[tactic(auto, using(crate::proofs::Steps::steps))]
fn in_parens<'a, A: Allocator + Copy>(
    alloc: A,
    text: &'a [Placed<'a>],
    room: usize,
) -> Result<(Expr<A>, &'a [Placed<'a>]), Halt<'a>>
    requires { room < MAX_OPEN_BRACKETS }
    ensures reads { ReadsInParens room (placed_views text.now) result }
    ensures shorter { IfOk result (λ x. length x.1.now < length text.now) }
{
    let (inner, end) = sum(alloc, text, room)?;
    before_sign(inner, end, Sign::Close)
}

/// A list, after its bracket.
#[cycle(expr)]
#[tactic(auto, using(crate::proofs::Steps::steps))]
fn list<'a, A: Allocator + Copy>(
    alloc: A,
    text: &'a [Placed<'a>],
    room: usize,
) -> Result<(Expr<A>, &'a [Placed<'a>]), Halt<'a>>
    requires { room < MAX_OPEN_BRACKETS }
    ensures reads { ReadsList room (placed_views text.now) result }
    ensures shorter { IfOk result (λ x. length x.1.now < length text.now) }
{
    if let Some(after) = after_sign(text, Sign::CloseList) {
        return Ok((list_of(Vec::new(alloc)), after));
    }
    let (items, rest) = elements(alloc, text, room)?;
    let (last, after) = list_end(alloc, rest, room)?;
    list_that_ends(alloc, items, last, after)
}

/// The end of a list, where it has one of its own, and its closing bracket.
#[cycle(expr)]
#[tactic(auto, using(crate::proofs::Steps::steps))]
fn list_end<'a, A: Allocator + Copy>(
    alloc: A,
    text: &'a [Placed<'a>],
    room: usize,
) -> Result<(Option<Expr<A>>, &'a [Placed<'a>]), Halt<'a>>
    requires room { room < MAX_OPEN_BRACKETS }
    requires no_comma { Lacks comma (placed_views text.now) }
    ensures reads { ReadsListEnd room (placed_views text.now) result }
    ensures shorter { IfOk result (λ x. length x.1.now < length text.now) }
{
    if let Some(after) = after_sign(text, Sign::CloseList) {
        return Ok((None, after));
    }
    let Some(after) = after_sign(text, Sign::Bar) else {
        return Err(Halt::Expected(text));
    };
    let (last, end) = sum(alloc, after, room)?;
    before_sign(Some(last), end, Sign::CloseList)
}

/// A list of these elements that ends so, and what stands after it.
fn list_that_ends<'a, A: Allocator + Copy>(
    alloc: A,
    items: Vec<Expr<A>, A>,
    last: Option<Expr<A>>,
    rest: &'a [Placed<'a>],
) -> Result<(Expr<A>, &'a [Placed<'a>]), Halt<'a>>
    ensures { MatchResult result
        (λ x. (view x.0 ≡ syntax_list (views items.items) (end_view last)) × (x.1 ≡ rest.entry))
        (λ e. e ≡ OutOfMemory) }
{
    match last {
        None => Ok((list_of(items), rest)),
        Some(last) => list_with_end(alloc, items, last, rest),
    }
}

/// A list of these elements.
fn list_of<A: Allocator>(items: Vec<Expr<A>, A>) -> Expr<A>
    ensures { view result ≡ syntax_list (views items.items) nil }
{
    Expr::List(items)
}

/// A list of these elements that ends with this, and what stands after it.
fn list_with_end<'a, A: Allocator + Copy>(
    alloc: A,
    items: Vec<Expr<A>, A>,
    last: Expr<A>,
    rest: &'a [Placed<'a>],
) -> Result<(Expr<A>, &'a [Placed<'a>]), Halt<'a>>
    ensures { MatchResult result
        (λ x. (view x.0 ≡ syntax_list (views items.items) (view last)) × (x.1 ≡ rest.entry))
        (λ e. e ≡ OutOfMemory) }
{
    let last = Box::new(alloc, last)?;
    Ok((Expr::ListWithEnd(items, last), rest))
}

/// One or more expressions with commas between them.
#[cycle(expr)]
#[tactic(auto, using(crate::proofs::Steps::steps))]
fn elements<'a, A: Allocator + Copy>(
    alloc: A,
    text: &'a [Placed<'a>],
    room: usize,
) -> Result<(Vec<Expr<A>, A>, &'a [Placed<'a>]), Halt<'a>>
    requires { room ≤ MAX_OPEN_BRACKETS }
    ensures reads { ReadsElements (λ v. v.items) room (placed_views text.now) result }
    ensures shorter { IfOk result (λ x. length x.1.now < length text.now) }
    ensures no_comma { IfOk result (λ x. Lacks comma (placed_views x.1.now)) }
{
    let mut items = Vec::new(alloc);
    let (_, mut rest) = text.split_at(0);
    loop {
        let (found, end) = sum(alloc, rest, room)?;
        items.push(found)?;
        match after_sign(end, Sign::Comma) {
            Some(after) => rest = after,
            None => return Ok((items, end)),
        }
    }
}
