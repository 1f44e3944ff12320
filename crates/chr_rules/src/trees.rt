//! The trees of expressions.
ghost use Rattle.std.specs.Prelude.{◌≡◌, [], IfOk, OnOk, Some, map};
ghost use Rattle.chr_semantics.specs.Meaning.{atom_from, in_turn, node_of, operator_symbol, scope, tree_from};
ghost use Rattle.chr_semantics.specs.Names.{symbol_of, with_symbol};
ghost use Rattle.chr_semantics.specs.Syntax.{exprs_of, list as syntax_list, nil};
ghost use Rattle.chr_term.specs.TermView.{atom_view, view};
ghost use Rattle.chr_read.specs.SyntaxView.{chain as syntax_chain, operand_views, operator_view, view as syntax_view, views};
ghost use Rattle.chr_rules.specs.Grown.{Grows};
ghost use Rattle.chr_rules.specs.Turns.{list_of, tree_turn};

use crate::variables::Variables;
use chr_read::{Expr, Operator};
use chr_term::{Memory, Names, Sym, Term};
use chr_tokens::{Additive, Multiplicative};
use std::alloc::{AllocError, Allocator};

/// The tree of an expression. The names and variables that are new get the next numbers.
#[cycle(tree)]
pub(crate) fn tree<'s, A: Allocator + Copy>(
    alloc: A,
    names: &mut Names<A>,
    variables: &mut Variables<'s, A>,
    expr: &'s Expr<A>,
) -> Result<Term<A>, Memory>
    ensures tree { IfOk result
        (λ tree. (scope names.new variables.new, view tree)
        ≡ tree_from (scope names.old variables.old) (syntax_view expr.now)) }
    ensures grows { Grows names.old names.new }
{
    match expr {
        Expr::Variable(word) => Ok(Term::Var(variables.meet(word.as_str())?)),
        Expr::Number(number) => Ok(Term::Int(*number)),
        Expr::Call(name, args) => {
            let (sym, args) = atom(alloc, names, variables, name.as_str(), args.as_slice())?;
            Term::node(alloc, sym, args)
        }
        Expr::List(items) => list(alloc, names, variables, items.as_slice()),
        Expr::ListWithEnd(items, end) => {
            list_with_end(alloc, names, variables, items.as_slice(), &**end)
        }
        Expr::Chain(first, others) => chain(alloc, names, variables, &**first, others.as_slice()),
    }
}

/// A name over expressions.
#[cycle(tree)]
pub(crate) fn atom<'s, A: Allocator + Copy>(
    alloc: A,
    names: &mut Names<A>,
    variables: &mut Variables<'s, A>,
    name: &str,
    args: &'s [Expr<A>],
) -> Result<(Sym, Vec<Term<A>, A>), Memory>
    ensures atom { IfOk result
        (λ atom. (scope names.new variables.new, atom_view atom.0 atom.1.items)
        ≡ atom_from (scope names.old variables.old) name.now (exprs_of (views args.now))) }
    ensures grows { Grows names.old names.new }
{
    let sym = symbol(names, name, args.len())?;
    let args = trees(alloc, names, variables, args)?;
    Ok((sym, args))
}

/// The symbol of a name with its number of arguments. `Memory` is also returned where the numbers of symbols are used up.
pub(crate) fn symbol<A: Allocator + Copy>(
    names: &mut Names<A>,
    name: &str,
    arity: usize,
) -> Result<Sym, Memory>
    ensures names { OnOk result (names.new ≡ with_symbol names.old name.now arity) }
    ensures symbol { IfOk result (λ sym. symbol_of names.new name.now arity ≡ Some sym.0) }
    ensures grows { Grows names.old names.new }
{
    if names.len() < 4_294_967_295 {
        names.intern(name, arity)
    } else {
        Err(AllocError)
    }
}

/// The trees of expressions, from the left.
#[cycle(tree)]
fn trees<'s, A: Allocator + Copy>(
    alloc: A,
    names: &mut Names<A>,
    variables: &mut Variables<'s, A>,
    exprs: &'s [Expr<A>],
) -> Result<Vec<Term<A>, A>, Memory>
    ensures trees { IfOk result
        (λ trees. (scope names.new variables.new, map view trees.items)
        ≡ in_turn tree_turn (scope names.old variables.old, []) (views exprs.now)) }
    ensures grows { Grows names.old names.new }
{
    let mut trees = Vec::with_capacity(alloc, exprs.len())?;
    for expr in exprs {
        trees.push(tree(alloc, names, variables, expr)?)?;
    }
    Ok(trees)
}

/// A list that ends with `[]`.
#[cycle(tree)]
fn list<'s, A: Allocator + Copy>(
    alloc: A,
    names: &mut Names<A>,
    variables: &mut Variables<'s, A>,
    items: &'s [Expr<A>],
) -> Result<Term<A>, Memory>
    ensures list { IfOk result
        (λ tree. (scope names.new variables.new, view tree)
        ≡ tree_from (scope names.old variables.old) (syntax_list (views items.now) nil)) }
    ensures grows { Grows names.old names.new }
{
    let trees = trees(alloc, names, variables, items)?;
    let empty = Term::node(alloc, Sym::NIL, Vec::new(alloc))?;
    list_of(alloc, trees, empty)
}

/// A list with an end of its own.
#[cycle(tree)]
fn list_with_end<'s, A: Allocator + Copy>(
    alloc: A,
    names: &mut Names<A>,
    variables: &mut Variables<'s, A>,
    items: &'s [Expr<A>],
    end: &'s Expr<A>,
) -> Result<Term<A>, Memory>
    ensures list { IfOk result
        (λ tree. (scope names.new variables.new, view tree)
        ≡ tree_from (scope names.old variables.old)
        (syntax_list (views items.now) (syntax_view end.now))) }
    ensures grows { Grows names.old names.new }
{
    let trees = trees(alloc, names, variables, items)?;
    let last = tree(alloc, names, variables, end)?;
    list_of(alloc, trees, last)
}

/// The list of these trees that ends so.
fn list_of<A: Allocator + Copy>(
    alloc: A,
    trees: Vec<Term<A>, A>,
    end: Term<A>,
) -> Result<Term<A>, Memory>
    ensures { IfOk result (λ tree. view tree ≡ list_of (map view trees.items) (view end)) }
{
    let mut trees = trees;
    let mut list = end;
    while let Some(tree) = trees.pop() {
        list = node(alloc, Sym::CONS, tree, list)?;
    }
    Ok(list)
}

/// A symbol over two trees.
fn node<A: Allocator + Copy>(
    alloc: A,
    sym: Sym,
    left: Term<A>,
    right: Term<A>,
) -> Result<Term<A>, Memory>
    ensures { IfOk result (λ tree. view tree ≡ node_of sym.0 (view left) (view right)) }
{
    let mut args = Vec::with_capacity(alloc, 2)?;
    args.push(left)?;
    args.push(right)?;
    Term::node(alloc, sym, args)
}

/// A chain of operators, from the left.
#[cycle(tree)]
fn chain<'s, A: Allocator + Copy>(
    alloc: A,
    names: &mut Names<A>,
    variables: &mut Variables<'s, A>,
    first: &'s Expr<A>,
    others: &'s [(Operator, Expr<A>)],
) -> Result<Term<A>, Memory>
    ensures chain { IfOk result (λ tree. (scope names.new variables.new, view tree)
        ≡ tree_from (scope names.old variables.old)
        (syntax_chain (syntax_view first.now) (operand_views others.now))) }
    ensures grows { Grows names.old names.new }
{
    let mut whole = tree(alloc, names, variables, first)?;
    for other in others {
        let right = tree(alloc, names, variables, &other.1)?;
        whole = node(alloc, operator_symbol(other.0), whole, right)?;
    }
    Ok(whole)
}

fn operator_symbol(operator: Operator) -> Sym
    ensures { result.0 ≡ operator_symbol (operator_view operator) }
{
    match operator {
        Operator::Additive(Additive::Plus) => Sym::PLUS,
        Operator::Additive(Additive::Minus) => Sym::MINUS,
        Operator::Multiplicative(Multiplicative::Times) => Sym::TIMES,
        Operator::Multiplicative(Multiplicative::Divide) => Sym::DIVIDE,
        Operator::Multiplicative(Multiplicative::Modulo) => Sym::MODULO,
    }
}
