//! What stands somewhere in an expression.
ghost use Rattle.std.specs.Prelude.{◌≡◌, option_map};
ghost use Rattle.std.specs.List.{list_any};
ghost use Rattle.chr_semantics.specs.Meaning.{call_of};
ghost use Rattle.chr_semantics.specs.Syntax.{exprs_of};
ghost use Rattle.chr_read.specs.SyntaxView.{view, views};
ghost use Rattle.chr_rules.specs.Parts.{has_sought, have_sought, is_arity_sought, is_variable_sought, operands};

use crate::variables::Variables;
use chr_read::{Expr, Operator};
use chr_semantics::limits::MAX_ARITY;
use std::alloc::Allocator;

/// The name and the arguments of an expression that is a name. A chain, or a list with an end, that has nothing else is its one part.
#[cycle(called)]
pub(crate) fn as_call<'e, A: Allocator>(expr: &'e Expr<A>) -> Option<(&'e str, &'e [Expr<A>])>
    ensures { option_map (λ x. (x.0.now, exprs_of (views x.1.now))) result ≡ call_of (view expr.now) }
{
    match expr {
        Expr::Variable(_) => None,
        Expr::Number(_) => None,
        Expr::Call(name, args) => Some((name.as_str(), args.as_slice())),
        Expr::List(_) => None,
        Expr::ListWithEnd(items, end) => {
            if items.is_empty() {
                as_call(&**end)
            } else {
                None
            }
        }
        Expr::Chain(first, others) => {
            if others.is_empty() {
                as_call(&**first)
            } else {
                None
            }
        }
    }
}

/// What is looked for in the parts of an expression.
#[derive(Clone, Copy, Drop)]
pub(crate) enum Sought<'v, A: Allocator> {
    /// A variable that is none of these.
    Free(&'v Variables<'v, A>),
    /// A name with more than `MAX_ARITY` arguments.
    Wide,
}

fn is_variable_sought<A: Allocator + Copy>(sought: Sought<'_, A>, word: &str) -> bool
    ensures { result ≡ is_variable_sought sought.entry word.now }
{
    match sought {
        Sought::Free(variables) => variables.number(word).is_none(),
        Sought::Wide => false,
    }
}

fn is_arity_sought<A: Allocator + Copy>(sought: Sought<'_, A>, arity: usize) -> bool
    ensures { result ≡ is_arity_sought sought.entry arity }
{
    match sought {
        Sought::Free(_) => false,
        Sought::Wide => arity > MAX_ARITY,
    }
}

/// Whether what is looked for stands in the expression.
#[cycle(part)]
pub(crate) fn has_sought<A: Allocator + Copy>(sought: Sought<'_, A>, expr: &Expr<A>) -> bool
    ensures { result ≡ has_sought sought.entry (view expr.now) }
{
    match expr {
        Expr::Variable(word) => is_variable_sought(sought, word.as_str()),
        Expr::Number(_) => false,
        Expr::Call(_, args) => {
            is_arity_sought(sought, args.len()) || have_sought(sought, args.as_slice())
        }
        Expr::List(items) => have_sought(sought, items.as_slice()),
        Expr::ListWithEnd(items, end) => {
            have_sought(sought, items.as_slice()) || has_sought(sought, &**end)
        }
        Expr::Chain(first, others) => {
            has_sought(sought, &**first) || operands_have_sought(sought, others.as_slice())
        }
    }
}

#[cycle(part)]
fn have_sought<A: Allocator + Copy>(sought: Sought<'_, A>, exprs: &[Expr<A>]) -> bool
    ensures { result ≡ have_sought sought.entry (exprs_of (views exprs.now)) }
{
    for expr in exprs {
        if has_sought(sought, expr) {
            return true;
        }
    }
    false
}

#[cycle(part)]
fn operands_have_sought<A: Allocator + Copy>(
    sought: Sought<'_, A>,
    others: &[(Operator, Expr<A>)],
) -> bool
    ensures { result ≡ list_any (has_sought sought.entry) (operands others.now) }
{
    for other in others {
        if has_sought(sought, &other.1) {
            return true;
        }
    }
    false
}
