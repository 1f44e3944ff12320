//! The names of the variables of a rule, each as often as it stands there.
ghost use Rattle.std.specs.Prelude.{◌≡◌, ◌++◌, IfOk, OnOk, flat_map};
ghost use Rattle.chr_semantics.specs.Suspicion.{names_in, names_in_all, names_in_item, names_of_rule};
ghost use Rattle.chr_semantics.specs.Syntax.{exprs_of};
ghost use Rattle.chr_read.specs.SyntaxView.{head_views, item_view, item_views, rule_view, view, views};
ghost use Rattle.chr_rules.specs.Parts.{operands};
ghost use Rattle.chr_suspicions.specs.Words.{names_in_heads, words_of};

use chr_read::{Expr, Head, Item, Operator, RuleSyntax};
use chr_term::Memory;
use std::alloc::Allocator;

/// Appends the variables of an expression.
#[cycle(names)]
fn push_names<'s, A: Allocator>(
    expr: &'s Expr<A>,
    words: &mut Vec<&'s str, A>,
) -> Result<(), Memory>
    ensures { OnOk result (words_of words.new.items ≡ words_of words.old.items ++ names_in (view expr.now)) }
{
    match expr {
        Expr::Variable(word) => Ok(words.push(word.as_str())?),
        Expr::Number(_) => Ok(()),
        Expr::Call(_, args) => push_names_of_all(args.as_slice(), words),
        Expr::List(items) => push_names_of_all(items.as_slice(), words),
        Expr::ListWithEnd(items, end) => {
            push_names_of_all(items.as_slice(), words)?;
            push_names(&**end, words)
        }
        Expr::Chain(first, others) => {
            push_names(&**first, words)?;
            push_names_of_operands(others.as_slice(), words)
        }
    }
}

/// Appends those of expressions.
#[cycle(names)]
fn push_names_of_all<'s, A: Allocator>(
    exprs: &'s [Expr<A>],
    words: &mut Vec<&'s str, A>,
) -> Result<(), Memory>
    ensures { OnOk result (words_of words.new.items
        ≡ words_of words.old.items ++ names_in_all (exprs_of (views exprs.now))) }
{
    for expr in exprs {
        push_names(expr, words)?;
    }
    Ok(())
}

/// Appends those of the operands of a chain but the first.
#[cycle(names)]
fn push_names_of_operands<'s, A: Allocator>(
    others: &'s [(Operator, Expr<A>)],
    words: &mut Vec<&'s str, A>,
) -> Result<(), Memory>
    ensures { OnOk result (words_of words.new.items
        ≡ words_of words.old.items ++ flat_map names_in (operands others.now)) }
{
    for other in others {
        push_names(&other.1, words)?;
    }
    Ok(())
}

/// Appends those of an item.
fn push_names_of_item<'s, A: Allocator>(
    item: &'s Item<A>,
    words: &mut Vec<&'s str, A>,
) -> Result<(), Memory>
    ensures { OnOk result (words_of words.new.items
        ≡ words_of words.old.items ++ names_in_item (item_view item.now)) }
{
    match item {
        Item::Plain(expr) => push_names(expr, words),
        Item::Related(_, left, right) => {
            push_names(left, words)?;
            push_names(right, words)
        }
    }
}

/// Appends those of items.
fn push_names_of_items<'s, A: Allocator>(
    items: &'s [Item<A>],
    words: &mut Vec<&'s str, A>,
) -> Result<(), Memory>
    ensures { OnOk result (words_of words.new.items
        ≡ words_of words.old.items ++ flat_map names_in_item (item_views items.now)) }
{
    for item in items {
        push_names_of_item(item, words)?;
    }
    Ok(())
}

/// Appends those of heads.
fn push_names_of_heads<'s, A: Allocator>(
    heads: &'s [Head<A>],
    words: &mut Vec<&'s str, A>,
) -> Result<(), Memory>
    ensures { OnOk result (words_of words.new.items
        ≡ words_of words.old.items ++ names_in_heads (head_views heads.now)) }
{
    for head in heads {
        push_names_of_item(&head.item, words)?;
    }
    Ok(())
}

/// The variables of a rule, from left to right.
pub(crate) fn names_of_rule<'s, A: Allocator + Copy>(
    alloc: A,
    rule: &'s RuleSyntax<A>,
) -> Result<Vec<&'s str, A>, Memory>
    ensures { IfOk result (λ words. words_of words.items ≡ names_of_rule (rule_view rule.now)) }
{
    let mut words = Vec::new(alloc);
    push_names_of_heads(rule.heads.as_slice(), &mut words)?;
    push_names_of_heads(rule.behind.as_slice(), &mut words)?;
    push_names_of_items(rule.guard.as_slice(), &mut words)?;
    push_names_of_items(rule.body.as_slice(), &mut words)?;
    Ok(words)
}
