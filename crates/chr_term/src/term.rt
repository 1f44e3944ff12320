ghost use Rattle.std.specs.Prelude.{◌≡◌, IsTrue, ◌↔◌};
ghost use Rattle.chr_semantics.specs.Tree.{is_ground_tree, is_ground_trees};
ghost use Rattle.chr_term.specs.TermView.{trees_view, view};

use crate::args::Args;
use std::alloc::{Allocator, Global};

/// A symbol: a name with a number of arguments, by its number among the `Names`.
#[derive(Clone, Copy, PartialEq, Eq, PartialOrd, Ord, Hash, Debug, Drop)]
pub struct Sym(pub u32);

impl Sym {
    /// `[]`/0, the empty list.
    pub const NIL: Sym = Sym(0);
    /// `[|]`/2, an element and the rest of a list.
    pub const CONS: Sym = Sym(1);
    /// `+`/2.
    pub const PLUS: Sym = Sym(2);
    /// `-`/2.
    pub const MINUS: Sym = Sym(3);
    /// `*`/2.
    pub const TIMES: Sym = Sym(4);
    /// `//`/2.
    pub const DIVIDE: Sym = Sym(5);
    /// `mod`/2.
    pub const MODULO: Sym = Sym(6);
}

/// A term: a variable with its number, a whole number of 128 bits, or a symbol over terms.
#[derive(Drop)]
#[cycle(term)]
pub enum Term<A: Allocator = Global> {
    Var(u64),
    Int(i128),
    Node(Sym, Args<A>),
}

/// Whether the terms are identical.
#[cycle(same)]
pub fn same<A: Allocator>(left: &Term<A>, right: &Term<A>) -> bool
    ensures { IsTrue result ↔ (view left.now ≡ view right.now) }
{
    match (left, right) {
        (Term::Var(x), Term::Var(y)) => *x == *y,
        (Term::Int(x), Term::Int(y)) => *x == *y,
        (Term::Node(f, xs), Term::Node(g, ys)) => *f == *g
            && same_all(xs.as_slice(), ys.as_slice()),
        _ => false,
    }
}

/// Whether the lists have one length and identical terms.
#[cycle(same)]
pub fn same_all<A: Allocator>(left: &[Term<A>], right: &[Term<A>]) -> bool
    ensures { IsTrue result ↔ (trees_view left.now ≡ trees_view right.now) }
{
    if left.len() != right.len() {
        return false;
    }
    for i in 0..left.len() {
        if !same(&left[i], &right[i]) {
            return false;
        }
    }
    true
}

/// Whether no variable occurs in the term.
pub fn is_ground<A: Allocator>(term: &Term<A>) -> bool
    ensures { result ≡ is_ground_tree (view term.now) }
{
    match term {
        Term::Var(_) => false,
        Term::Int(_) => true,
        Term::Node(_, args) => args.is_ground(),
    }
}

/// Whether no variable occurs in the terms.
pub fn are_ground<A: Allocator>(terms: &[Term<A>]) -> bool
    ensures { result ≡ is_ground_trees (trees_view terms.now) }
{
    for term in terms {
        if !is_ground(term) {
            return false;
        }
    }
    true
}
