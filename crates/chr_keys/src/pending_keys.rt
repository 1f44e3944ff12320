//! The lists of identities by symbol and key, with changes that are noted first and made later.
ghost use Rattle.std.specs.Prelude.{◌≡◌, ◌+◌, false, true, IfOk, OnOk, Option, ℕ};
ghost use Rattle.std.specs.List.Sorted.{IsStrictlyIncreasing};
ghost use Rattle.chr_semantics.specs.Keys as semantics;
ghost use Rattle.chr_semantics.specs.Search.{has_number};
ghost use Rattle.chr_store.specs.KeyView.{keys_view};
ghost use Rattle.chr_store.specs.Numbers.{numbers};
ghost use Rattle.chr_keys.specs.Keyed.{atom_in, listed_after};

use crate::Memory;
use crate::key_change::KeyChange;
use crate::key_lists::KeyLists;
use crate::pending::Pending;
use crate::symbol_key::SymbolKey;
use chr_store::{Id, Key, Row};
use chr_term::Sym;
use std::alloc::{Allocator, Global};

/// The identities of constraints by their symbol and the key of their first argument, each list ascending and shared, and changes of them. A
/// change is noted where there is room for it, which takes no memory, and is made by `settle`. Contracts see what is listed when all is made.
#[derive(Drop)]
pub struct PendingKeys<A: Allocator = Global> {
    keys: KeyLists<A>,
    pending: Pending<KeyChange, A>,
}

impl<A: Allocator + Copy> PendingKeys<A> {
    ghost use Rattle.chr_keys.specs.PendingKeysView.{HasRoom, IsSettled, is_listed};

    /// No identity, and nothing noted.
    pub fn new(alloc: A) -> PendingKeys<A>
        ensures listed { (f : ℕ) (k : Option semantics.Key) (i : ℕ) → is_listed result f k i ≡ false }
        ensures settled { IsSettled result }
    {
        PendingKeys {
            keys: KeyLists::new(alloc),
            pending: Pending::new(alloc),
        }
    }

    /// Makes room for more changes.
    pub fn room(&mut self, more: usize) -> Result<(), Memory>
        ensures same { (f : ℕ) (k : Option semantics.Key) (i : ℕ) →
            is_listed self.new f k i ≡ is_listed self.old f k i }
        ensures ok { OnOk result (HasRoom more self.new) }
    {
        self.pending.reserve(more)
    }

    /// Notes that an identity leaves the list of one row and enters that of another, where these are given.
    pub fn note<'r>(&mut self, id: Id, out: Option<&'r Row<A>>, into: Option<&'r Row<A>>)
        requires { HasRoom 1 self.now }
        ensures listed { (f : ℕ) (k : Option semantics.Key) (i : ℕ) → is_listed self.new f k i
            ≡ listed_after (atom_in into.entry) id.0 true
            (listed_after (atom_in out.entry) id.0 false (is_listed self.old)) f k i }
        ensures room { (n : ℕ) → HasRoom (n + 1) self.old → HasRoom n self.new }
    {
        let out = SymbolKey::of_row(out);
        let into = SymbolKey::of_row(into);
        self.pending.note(KeyChange { id, out, into });
    }

    /// Makes all that is noted. Where that is refused, some of it may be made in part, and stays noted. It can be called again.
    pub fn settle(&mut self) -> Result<(), Memory>
        ensures same { (f : ℕ) (k : Option semantics.Key) (i : ℕ) →
            is_listed self.new f k i ≡ is_listed self.old f k i }
        ensures ok { OnOk result (IsSettled self.new) }
    {
        while let Some(change) = self.pending.next() {
            change.make(&mut self.keys)?;
            self.pending.advance();
        }
        Ok(())
    }

    /// The identities of a symbol and a key, or of those that have none, ascending.
    pub fn of(&self, sym: Sym, key: Option<Key>) -> &[Id]
        requires { IsSettled self.now }
        ensures ids { (i : ℕ) → has_number (numbers result.now) i
            ≡ is_listed self.now sym.0 (keys_view key) i }
        ensures ascending { IsStrictlyIncreasing (numbers result.now) }
    {
        self.keys.at(SymbolKey::new(sym, key))
    }

    /// The lists a second time, at the price of a pointer.
    pub fn share(&self) -> Result<PendingKeys<A>, Memory>
        requires { IsSettled self.now }
        ensures listed { IfOk result (λ shared. (f : ℕ) (k : Option semantics.Key) (i : ℕ) →
            is_listed shared f k i ≡ is_listed self.now f k i) }
        ensures settled { IfOk result (λ shared. IsSettled shared) }
    {
        Ok(PendingKeys {
            keys: self.keys.share()?,
            pending: Pending::new(self.keys.alloc),
        })
    }
}
