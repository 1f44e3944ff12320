//! Goals, tests and heads.
ghost use Rattle.std.specs.Prelude.{◌≡◌, ◌++◌, ◌∷◌, [], IfOk, OnOk, map};
ghost use Rattle.chr_semantics.specs.Meaning.{goal_from, goal_of, head_from, in_turn, scope, sides_from, test_alone, test_from, test_of, relation_test, relation_goal, with_turn};
ghost use Rattle.chr_semantics.specs.Syntax.{exprs_of};
ghost use Rattle.chr_term.specs.TermView.{atom_view, view};
ghost use Rattle.chr_bind.specs.Guards.{test_view};
ghost use Rattle.chr_tokens.specs.TokenView.{relation_view};
ghost use Rattle.chr_read.specs.SyntaxView.{head_view as syntax_head, head_views, item_view, item_views, view as syntax_view, views};
ghost use Rattle.chr_rules.specs.Grown.{Grows};
ghost use Rattle.chr_rules.specs.Heads.{heads_of, IsFlagged};
ghost use Rattle.chr_rules.specs.RuleView.{goal_view, goals_of, tests_of};

use crate::builtins::{is_fail, is_ground_test, is_integer_test, is_test};
use crate::goal::{Goal, Op};
use crate::parts::as_call;
use crate::trees::{atom, tree};
use crate::variables::Variables;
use chr_bind::Test;
use chr_read::{Expr, Head, Item};
use chr_term::{Args, Memory, Names, Sym, Term};
use chr_tokens::Relation;
use std::alloc::Allocator;

/// The goals of a body or a query, from the left.
pub(crate) fn goals<'s, A: Allocator + Copy>(
    alloc: A,
    names: &mut Names<A>,
    variables: &mut Variables<'s, A>,
    items: &'s [Item<A>],
) -> Result<Vec<Goal<A>, A>, Memory>
    ensures goals { IfOk result
        (λ goals. (scope names.new variables.new, map goal_view goals.items)
        ≡ in_turn goal_from (scope names.old variables.old, []) (item_views items.now)) }
    ensures grows { Grows names.old names.new }
{
    let mut goals = Vec::new(alloc);
    for item in items {
        add_goal(alloc, names, variables, &mut goals, item)?;
    }
    Ok(goals)
}

/// Appends the goal of an item, if there is one.
fn add_goal<'s, A: Allocator + Copy>(
    alloc: A,
    names: &mut Names<A>,
    variables: &mut Variables<'s, A>,
    goals: &mut Vec<Goal<A>, A>,
    item: &'s Item<A>,
) -> Result<(), Memory>
    ensures goal { OnOk result
        ((scope names.new variables.new, map goal_view goals.new.items)
        ≡ with_turn goal_from (scope names.old variables.old, map goal_view goals.old.items)
        (item_view item.now)) }
    ensures grows { Grows names.old names.new }
{
    if let Some(made) = goal(alloc, names, variables, item)? {
        goals.push(made)?;
    }
    Ok(())
}

/// The goal of an item. `true` has none, and neither has what can't be one.
fn goal<'s, A: Allocator + Copy>(
    alloc: A,
    names: &mut Names<A>,
    variables: &mut Variables<'s, A>,
    item: &'s Item<A>,
) -> Result<Option<Goal<A>>, Memory>
    ensures goal { IfOk result
        (λ goal. (scope names.new variables.new, goals_of goal)
        ≡ goal_from (scope names.old variables.old) (item_view item.now)) }
    ensures grows { Grows names.old names.new }
{
    match item {
        Item::Related(relation, left, right) => {
            let (left, right) = sides(alloc, names, variables, left, right)?;
            Ok(relation_goal(*relation, left, right))
        }
        Item::Plain(expr) => match as_call(expr) {
            Some((name, args)) => goal_of(alloc, names, variables, name, args),
            None => Ok(None),
        },
    }
}

/// The goal of a name over expressions.
fn goal_of<'s, A: Allocator + Copy>(
    alloc: A,
    names: &mut Names<A>,
    variables: &mut Variables<'s, A>,
    name: &str,
    args: &'s [Expr<A>],
) -> Result<Option<Goal<A>>, Memory>
    ensures goal { IfOk result
        (λ goal. (scope names.new variables.new, goals_of goal)
        ≡ goal_of (scope names.old variables.old) name.now (exprs_of (views args.now))) }
    ensures grows { Grows names.old names.new }
{
    let arity = args.len();
    if is_test(name, arity) {
        return Ok(None);
    }
    if is_fail(name, arity) {
        return Ok(Some(Goal::Fail));
    }
    let (sym, args) = atom(alloc, names, variables, name, args)?;
    Ok(Some(Goal::Chr(sym, Args::new(alloc, args)?)))
}

/// The trees of the two sides of an item.
fn sides<'s, A: Allocator + Copy>(
    alloc: A,
    names: &mut Names<A>,
    variables: &mut Variables<'s, A>,
    left: &'s Expr<A>,
    right: &'s Expr<A>,
) -> Result<(Term<A>, Term<A>), Memory>
    ensures sides { IfOk result
        (λ sides. (scope names.new variables.new, (view sides.0, view sides.1))
        ≡ sides_from (scope names.old variables.old) (syntax_view left.now)
        (syntax_view right.now)) }
    ensures grows { Grows names.old names.new }
{
    let left = tree(alloc, names, variables, left)?;
    let right = tree(alloc, names, variables, right)?;
    Ok((left, right))
}

/// The goal that two sides make, if any.
fn relation_goal<A: Allocator>(relation: Relation, left: Term<A>, right: Term<A>) -> Option<Goal<A>>
    ensures { goals_of result ≡ relation_goal (relation_view relation) (view left) (view right) }
{
    let op = match relation {
        Relation::Same => Op::Unify,
        Relation::NotUnifiable => return None,
        Relation::Less => Op::Less,
        Relation::Greater => Op::Greater,
        Relation::AtMost => Op::AtMost,
        Relation::AtLeast => Op::AtLeast,
        Relation::Equals => Op::Equals,
        Relation::Differs => Op::Differs,
        Relation::Is => Op::Is,
    };
    Some(Goal::Told(op, left, right))
}

/// The tests of a guard, from the left.
pub(crate) fn tests<'s, A: Allocator + Copy>(
    alloc: A,
    names: &mut Names<A>,
    variables: &mut Variables<'s, A>,
    items: &'s [Item<A>],
) -> Result<Vec<Test<A>, A>, Memory>
    ensures { IfOk result
        (λ tests. (scope names.new variables.new, map test_view tests.items)
        ≡ in_turn test_from (scope names.old variables.old, []) (item_views items.now)) }
{
    let mut tests = Vec::new(alloc);
    for item in items {
        add_test(alloc, names, variables, &mut tests, item)?;
    }
    Ok(tests)
}

/// Appends the test of an item, if there is one.
fn add_test<'s, A: Allocator + Copy>(
    alloc: A,
    names: &mut Names<A>,
    variables: &mut Variables<'s, A>,
    tests: &mut Vec<Test<A>, A>,
    item: &'s Item<A>,
) -> Result<(), Memory>
    ensures { OnOk result
        ((scope names.new variables.new, map test_view tests.new.items)
        ≡ with_turn test_from (scope names.old variables.old, map test_view tests.old.items)
        (item_view item.now)) }
{
    if let Some(made) = test(alloc, names, variables, item)? {
        tests.push(made)?;
    }
    Ok(())
}

/// The test of an item. `true` has none, and neither has what can't be one.
fn test<'s, A: Allocator + Copy>(
    alloc: A,
    names: &mut Names<A>,
    variables: &mut Variables<'s, A>,
    item: &'s Item<A>,
) -> Result<Option<Test<A>>, Memory>
    ensures { IfOk result
        (λ test. (scope names.new variables.new, tests_of test)
        ≡ test_from (scope names.old variables.old) (item_view item.now)) }
{
    match item {
        Item::Related(relation, left, right) => {
            let (left, right) = sides(alloc, names, variables, left, right)?;
            Ok(relation_test(*relation, left, right))
        }
        Item::Plain(expr) => match as_call(expr) {
            Some((name, args)) => test_of(alloc, names, variables, name, args),
            None => Ok(None),
        },
    }
}

/// The test of a name over expressions.
fn test_of<'s, A: Allocator + Copy>(
    alloc: A,
    names: &mut Names<A>,
    variables: &mut Variables<'s, A>,
    name: &str,
    args: &'s [Expr<A>],
) -> Result<Option<Test<A>>, Memory>
    ensures { IfOk result
        (λ test. (scope names.new variables.new, tests_of test)
        ≡ test_of (scope names.old variables.old) name.now (exprs_of (views args.now))) }
{
    match args {
        [] => Ok(None),
        [arg] => test_alone(alloc, names, variables, name, arg),
        [_, _, ..] => Ok(None),
    }
}

/// The test of a name over one expression.
fn test_alone<'s, A: Allocator + Copy>(
    alloc: A,
    names: &mut Names<A>,
    variables: &mut Variables<'s, A>,
    name: &str,
    arg: &'s Expr<A>,
) -> Result<Option<Test<A>>, Memory>
    ensures { IfOk result
        (λ test. (scope names.new variables.new, tests_of test)
        ≡ test_alone (scope names.old variables.old) name.now (syntax_view arg.now)) }
{
    if is_integer_test(name, 1) {
        let arg = tree(alloc, names, variables, arg)?;
        return Ok(Some(Test::Integer(arg)));
    }
    if is_ground_test(name, 1) {
        let arg = tree(alloc, names, variables, arg)?;
        return Ok(Some(Test::Ground(arg)));
    }
    Ok(None)
}

/// The test that two sides make, if any.
fn relation_test<A: Allocator>(relation: Relation, left: Term<A>, right: Term<A>) -> Option<Test<A>>
    ensures { tests_of result ≡ relation_test (relation_view relation) (view left) (view right) }
{
    match relation {
        Relation::Same => Some(Test::Identical(left, right)),
        Relation::NotUnifiable => Some(Test::NotUnifiable(left, right)),
        Relation::Less => Some(Test::Less(left, right)),
        Relation::Greater => Some(Test::Greater(left, right)),
        Relation::AtMost => Some(Test::AtMost(left, right)),
        Relation::AtLeast => Some(Test::AtLeast(left, right)),
        Relation::Equals => Some(Test::Equals(left, right)),
        Relation::Differs => Some(Test::Differs(left, right)),
        Relation::Is => None,
    }
}

/// The heads of a rule, with a flag for each that says whether it is passive.
#[derive(Drop)]
pub(crate) struct Heads<A: Allocator> {
    pub(crate) atoms: Vec<(Sym, Vec<Term<A>, A>), A>,
    pub(crate) passive: Vec<bool, A>,
}

/// No heads yet.
pub(crate) fn no_heads<A: Allocator + Copy>(alloc: A) -> Heads<A>
    ensures heads { heads_of result ≡ [] }
    ensures flagged { IsFlagged result }
{
    Heads {
        atoms: Vec::new(alloc),
        passive: Vec::new(alloc),
    }
}

/// Appends the heads on one side of a `\`.
pub(crate) fn add_heads<'s, A: Allocator + Copy>(
    alloc: A,
    names: &mut Names<A>,
    variables: &mut Variables<'s, A>,
    heads: &mut Heads<A>,
    written: &'s [Head<A>],
) -> Result<(), Memory>
    requires { IsFlagged heads.old }
    ensures heads { OnOk result
        ((scope names.new variables.new, heads_of heads.new)
        ≡ in_turn head_from (scope names.old variables.old, heads_of heads.old)
        (head_views written.now)) }
    ensures flagged { OnOk result (IsFlagged heads.new) }
{
    for head in written {
        add_head(alloc, names, variables, heads, head)?;
    }
    Ok(())
}

/// Appends a head, unless it can't be one.
fn add_head<'s, A: Allocator + Copy>(
    alloc: A,
    names: &mut Names<A>,
    variables: &mut Variables<'s, A>,
    heads: &mut Heads<A>,
    written: &'s Head<A>,
) -> Result<(), Memory>
    requires { IsFlagged heads.old }
    ensures head { OnOk result
        ((scope names.new variables.new, heads_of heads.new)
        ≡ with_turn head_from (scope names.old variables.old, heads_of heads.old)
        (syntax_head written.now)) }
    ensures flagged { OnOk result (IsFlagged heads.new) }
{
    match &written.item {
        Item::Plain(expr) => match as_call(expr) {
            Some((name, args)) => {
                let (sym, args) = atom(alloc, names, variables, name, args)?;
                push_head(heads, sym, args, written.passive)
            }
            None => Ok(()),
        },
        Item::Related(_, _, _) => Ok(()),
    }
}

/// Appends a head.
fn push_head<A: Allocator>(
    heads: &mut Heads<A>,
    sym: Sym,
    args: Vec<Term<A>, A>,
    passive: bool,
) -> Result<(), Memory>
    requires { IsFlagged heads.old }
    ensures head { OnOk result
        (heads_of heads.new ≡ heads_of heads.old
        ++ record { atom = atom_view sym args.items; passive = passive } ∷ []) }
    ensures flagged { OnOk result (IsFlagged heads.new) }
{
    heads.atoms.push((sym, args))?;
    heads.passive.push(passive)?;
    Ok(())
}
