//! What can be wrong with the items of rules and queries.
ghost use Rattle.std.specs.Prelude.{◌≡◌, ◌++◌};
ghost use Rattle.std.specs.List.{list_any};
ghost use Rattle.chr_semantics.specs.Checked.{head_items, is_built_in, is_declared, is_guard_only, is_no_goal, is_no_test, is_undeclared, items_of, on_sides};
ghost use Rattle.chr_read.specs.SyntaxView.{head_views, item_view, item_views, rule_view as syntax_rule};
ghost use Rattle.chr_rules.specs.Checks.{check_view};
ghost use Rattle.chr_rules.specs.Parts.{has_sought};

use crate::builtins::{is_builtin, is_ground_test, is_integer_test, is_test};
use crate::parts::{Sought, as_call, has_sought};
use chr_read::{Head, Item, RuleSyntax};
use chr_term::Names;
use chr_tokens::Relation;
use std::alloc::Allocator;

/// What is looked for in an item.
#[derive(Clone, Copy, Drop)]
pub(crate) enum Check<'c, A: Allocator> {
    /// A name that is neither built in nor, by these names, among the declared symbols, which are those from 7 up to this number.
    Undeclared(&'c Names<A>, usize),
    /// Something built in.
    BuiltIn,
    /// What is no goal.
    NoGoal,
    /// What is no test.
    NoTest,
    /// A test that is no goal.
    GuardOnly,
    /// This in one of its expressions.
    Part(Sought<'c, A>),
}

/// Whether the item is so.
fn finds<A: Allocator + Copy>(check: Check<'_, A>, item: &Item<A>) -> bool
    ensures { result ≡ check_view check.entry (item_view item.now) }
{
    match check {
        Check::Undeclared(names, declared) => is_undeclared(names, declared, item),
        Check::BuiltIn => is_built_in(item),
        Check::NoGoal => is_no_goal(item),
        Check::NoTest => is_no_test(item),
        Check::GuardOnly => is_guard_only(item),
        Check::Part(sought) => on_sides(sought, item),
    }
}

/// Whether an item is so.
pub(crate) fn in_items<A: Allocator + Copy>(check: Check<'_, A>, items: &[Item<A>]) -> bool
    ensures { result ≡ list_any (check_view check.entry) (item_views items.now) }
{
    for item in items {
        if finds(check, item) {
            return true;
        }
    }
    false
}

/// Whether a head is so.
fn in_heads<A: Allocator + Copy>(check: Check<'_, A>, heads: &[Head<A>]) -> bool
    ensures { result ≡ list_any (check_view check.entry) (items_of (head_views heads.now)) }
{
    for head in heads {
        if finds(check, &head.item) {
            return true;
        }
    }
    false
}

/// Whether a head of a rule is so.
pub(crate) fn in_all_heads<A: Allocator + Copy>(check: Check<'_, A>, rule: &RuleSyntax<A>) -> bool
    ensures { result ≡ list_any (check_view check.entry) (head_items (syntax_rule rule.now)) }
{
    in_heads(check, rule.heads.as_slice()) || in_heads(check, rule.behind.as_slice())
}

/// Whether a head or a goal of the body of a rule is so.
pub(crate) fn in_heads_and_body<A: Allocator + Copy>(
    check: Check<'_, A>,
    rule: &RuleSyntax<A>,
) -> bool
    ensures { result
        ≡ list_any (check_view check.entry)
        (head_items (syntax_rule rule.now) ++ item_views rule.now.body.items) }
{
    in_all_heads(check, rule) || in_items(check, rule.body.as_slice())
}

/// Whether an item of a rule is so.
pub(crate) fn in_rule<A: Allocator + Copy>(check: Check<'_, A>, rule: &RuleSyntax<A>) -> bool
    ensures { result
        ≡ list_any (check_view check.entry)
        (head_items (syntax_rule rule.now)
        ++ (item_views rule.now.guard.items ++ item_views rule.now.body.items)) }
{
    in_all_heads(check, rule)
        || (in_items(check, rule.guard.as_slice()) || in_items(check, rule.body.as_slice()))
}

#[tactic(auto, using(crate::proofs::Within::count_views))]
fn is_undeclared<A: Allocator>(names: &Names<A>, declared: usize, item: &Item<A>) -> bool
    ensures { result ≡ is_undeclared names.now declared (item_view item.now) }
{
    match item {
        Item::Plain(expr) => match as_call(expr) {
            Some((name, args)) => {
                !(is_builtin(name, args.len()) || is_declared(names, declared, name, args.len()))
            }
            None => false,
        },
        Item::Related(_, _, _) => false,
    }
}

/// Whether the symbol is among those from 7 up to this number.
fn is_declared<A: Allocator>(names: &Names<A>, declared: usize, name: &str, arity: usize) -> bool
    ensures { result ≡ is_declared names.now declared name.now arity }
{
    match names.find(name, arity) {
        Some(sym) => 7 <= sym.0 && (sym.0 as usize) < declared,
        None => false,
    }
}

#[tactic(auto, using(crate::proofs::Within::count_views))]
fn is_built_in<A: Allocator>(item: &Item<A>) -> bool
    ensures { result ≡ is_built_in (item_view item.now) }
{
    match item {
        Item::Plain(expr) => match as_call(expr) {
            Some((name, args)) => is_builtin(name, args.len()),
            None => false,
        },
        Item::Related(_, _, _) => true,
    }
}

fn is_no_goal<A: Allocator>(item: &Item<A>) -> bool
    ensures { result ≡ is_no_goal (item_view item.now) }
{
    match item {
        Item::Plain(expr) => as_call(expr).is_none(),
        Item::Related(_, _, _) => false,
    }
}

#[tactic(auto, using(crate::proofs::Within::count_views))]
fn is_no_test<A: Allocator>(item: &Item<A>) -> bool
    ensures { result ≡ is_no_test (item_view item.now) }
{
    match item {
        Item::Plain(expr) => match as_call(expr) {
            Some((name, args)) => !is_test(name, args.len()),
            None => true,
        },
        Item::Related(relation, _, _) => *relation == Relation::Is,
    }
}

#[tactic(auto, using(crate::proofs::Within::count_views))]
fn is_guard_only<A: Allocator>(item: &Item<A>) -> bool
    ensures { result ≡ is_guard_only (item_view item.now) }
{
    match item {
        Item::Plain(expr) => match as_call(expr) {
            Some((name, args)) => {
                is_integer_test(name, args.len()) || is_ground_test(name, args.len())
            }
            None => false,
        },
        Item::Related(relation, _, _) => *relation == Relation::NotUnifiable,
    }
}

/// Whether what is looked for stands in an expression of the item.
fn on_sides<A: Allocator + Copy>(sought: Sought<'_, A>, item: &Item<A>) -> bool
    ensures { result ≡ on_sides (has_sought sought.entry) (item_view item.now) }
{
    match item {
        Item::Plain(expr) => has_sought(sought, expr),
        Item::Related(_, left, right) => has_sought(sought, left) || has_sought(sought, right),
    }
}
