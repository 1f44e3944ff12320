//! Arithmetic that stands in a term.
ghost use Rattle.std.specs.Prelude.{◌≡◌};
ghost use Rattle.chr_semantics.specs.Suspicion.{has_arithmetic, have_arithmetic, is_arithmetic};
ghost use Rattle.chr_term.specs.TermView.{trees_view, view};

use chr_term::{Sym, Term};
use std::alloc::Allocator;

/// Whether the symbol over these terms is an operation of arithmetic.
fn is_arithmetic<A: Allocator>(sym: Sym, args: &[Term<A>]) -> bool
    ensures { result ≡ is_arithmetic sym.0 (trees_view args.now) }
{
    match args {
        [_, _] => Sym::PLUS.0 <= sym.0 && sym.0 <= Sym::MODULO.0,
        _ => false,
    }
}

/// Whether the term has arithmetic in it.
#[cycle(arithmetic)]
fn has_arithmetic<A: Allocator>(term: &Term<A>) -> bool
    ensures { result ≡ has_arithmetic (view term.now) }
{
    match term {
        Term::Var(_) => false,
        Term::Int(_) => false,
        Term::Node(sym, args) => {
            is_arithmetic(*sym, args.as_slice()) || have_arithmetic(args.as_slice())
        }
    }
}

/// Whether one of the terms has.
#[cycle(arithmetic)]
pub(crate) fn have_arithmetic<A: Allocator>(terms: &[Term<A>]) -> bool
    ensures { result ≡ have_arithmetic (trees_view terms.now) }
{
    for term in terms {
        if has_arithmetic(term) {
            return true;
        }
    }
    false
}
