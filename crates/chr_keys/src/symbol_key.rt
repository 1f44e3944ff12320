//! What a list is of.
ghost use Rattle.std.specs.Prelude.{◌≡◌, option_map};
ghost use Rattle.chr_store.specs.KeyView.{keys_view};
ghost use Rattle.chr_keys.specs.Keyed.{atom_in};
ghost use Rattle.chr_keys.specs.SymbolKeys.{atom_key, first_key_of, symbol_key_of};

use chr_store::{Key, Row};
use chr_term::Sym;
use std::alloc::Allocator;

/// The key of a first argument, or that it has none, in an order.
#[derive(Clone, Copy, PartialEq, Eq, PartialOrd, Ord, Drop)]
pub(crate) enum FirstKey {
    Keyless,
    Int(i128),
    Name(Sym),
}

impl FirstKey {
    fn of(key: Option<Key>) -> FirstKey
        ensures { result ≡ first_key_of (keys_view key) }
    {
        match key {
            None => FirstKey::Keyless,
            Some(Key::Int(z)) => FirstKey::Int(z),
            Some(Key::Name(sym)) => FirstKey::Name(sym),
        }
    }
}

/// A symbol and the key of the first argument.
#[derive(Clone, Copy, PartialEq, Eq, PartialOrd, Ord, Drop)]
pub(crate) struct SymbolKey {
    sym: Sym,
    key: FirstKey,
}

impl SymbolKey {
    pub(crate) fn new(sym: Sym, key: Option<Key>) -> SymbolKey
        ensures { result ≡ symbol_key_of sym.0 (keys_view key) }
    {
        SymbolKey {
            sym,
            key: FirstKey::of(key),
        }
    }

    /// Where a row is listed, if there is one.
    pub(crate) fn of_row<A: Allocator>(row: Option<&Row<A>>) -> Option<SymbolKey>
        ensures { result ≡ option_map atom_key (atom_in row.entry) }
    {
        match row {
            None => None,
            Some(row) => Some(SymbolKey::new(row.sym, Key::of_first(row.args.as_slice()))),
        }
    }
}
