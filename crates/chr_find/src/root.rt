//! What arguments have at their root.
ghost use Rattle.std.specs.Prelude.{◌≡◌, option_map};
ghost use Rattle.chr_semantics.specs.Keys.{arg_at, root_of};
ghost use Rattle.chr_term.specs.TermView.{trees_view, view};
ghost use Rattle.chr_find.specs.RootView.{root_view, roots_view};

use chr_term::{Sym, Term};
use std::alloc::Allocator;

/// What a term has at its root, by which rows are found: a whole number, a symbol, or the number of an unbound variable.
#[derive(Clone, Copy, PartialEq, Eq, PartialOrd, Ord, Drop)]
pub(crate) enum Root {
    Int(i128),
    Name(Sym),
    Unbound(u64),
}

impl Root {
    /// The root of a term.
    pub(crate) fn of<A: Allocator>(term: &Term<A>) -> Root
        ensures { root_view result ≡ root_of (view term.now) }
    {
        match term {
            Term::Var(x) => Root::Unbound(*x),
            Term::Int(z) => Root::Int(*z),
            Term::Node(sym, _) => Root::Name(*sym),
        }
    }

    /// The root of the argument at a position, counted from 0, where there is one.
    pub(crate) fn at<A: Allocator>(args: &[Term<A>], position: usize) -> Option<Root>
        ensures { roots_view result ≡ option_map root_of (arg_at (trees_view args.now) position) }
    {
        match args.get(position) {
            None => None,
            Some(term) => Some(Root::of(term)),
        }
    }
}
