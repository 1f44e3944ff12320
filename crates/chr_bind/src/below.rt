//! The condition of calls whose terms have no variable from a number on.
ghost use Rattle.std.specs.Prelude.{IsTrue, ◌↔◌};
ghost use Rattle.chr_term.specs.TermView.{trees_view, view};
ghost use Rattle.chr_semantics.specs.Bounds.{AreBelow, IsBelow};

use chr_term::Term;
use std::alloc::Allocator;

/// Whether every variable of the term is below the bound.
#[cycle(below)]
pub fn is_below<A: Allocator>(bound: u64, term: &Term<A>) -> bool
    ensures { IsTrue result ↔ IsBelow bound (view term.now) }
{
    match term {
        Term::Var(x) => *x < bound,
        Term::Int(_) => true,
        Term::Node(_, args) => are_below(bound, args.as_slice()),
    }
}

/// Whether every variable of the terms is below the bound.
#[cycle(below)]
pub fn are_below<A: Allocator>(bound: u64, terms: &[Term<A>]) -> bool
    ensures { IsTrue result ↔ AreBelow bound (trees_view terms.now) }
{
    for term in terms {
        if !is_below(bound, term) {
            return false;
        }
    }
    true
}
