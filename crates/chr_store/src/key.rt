//! The keys of arguments.
ghost use Rattle.std.specs.Prelude.{◌≡◌, Some, option_and_then, IfSome};
ghost use Rattle.chr_semantics.specs.Keys.{arg_at, key_of};
ghost use Rattle.chr_term.specs.TermView.{trees_view, view};
ghost use Rattle.chr_store.specs.KeyView.{keys_view};

use chr_term::{Sym, Term};
use std::alloc::Allocator;

/// The key of a term that is no variable: a whole number, or the symbol at its root.
#[derive(Clone, Copy, PartialEq, Eq, Hash, Debug, Drop)]
pub enum Key {
    Int(i128),
    Name(Sym),
}

impl Key {
    /// The key of a term. A variable has none.
    pub fn of<A: Allocator>(term: &Term<A>) -> Option<Key>
        ensures { keys_view result ≡ key_of (view term.now) }
    {
        match term {
            Term::Var(_) => None,
            Term::Int(z) => Some(Key::Int(*z)),
            Term::Node(sym, _) => Some(Key::Name(*sym)),
        }
    }

    /// The key of the first argument. A variable has none, nor has a missing argument.
    pub fn of_first<A: Allocator>(args: &[Term<A>]) -> Option<Key>
        ensures { keys_view result ≡ option_and_then key_of (arg_at (trees_view args.now) 0) }
    {
        Key::of(args.first()?)
    }
}
