//! The lists of identities by symbol and key.
ghost use Rattle.std.specs.Prelude.{◌≡◌, [], IfOk, OnErr, OnOk, ℕ};
ghost use Rattle.std.specs.List.Sorted.{IsStrictlyIncreasing};
ghost use Rattle.chr_store.specs.Numbers.{numbers};
ghost use Rattle.chr_keys.specs.Lists.{ids_at, is_in_list, list_after};
ghost use Rattle.chr_keys.specs.declared.symbol_key.SymbolKey.{SymbolKey};

use crate::Memory;
use crate::id_list::{IdList, Set};
use crate::symbol_key::SymbolKey;
use chr_map::{Map, Share};
use chr_store::Id;
use std::alloc::Allocator;

/// The identities of constraints by their symbol and the key of their first argument, each list ascending and shared. A change copies one
/// list and a few nodes of a tree, and those only where other lists have them in common with these.
#[derive(Drop)]
pub(crate) struct KeyLists<A: Allocator> {
    lists: Map<SymbolKey, IdList<A>, A>,
    pub(crate) alloc: A,
}

impl<A: Allocator + Copy> KeyLists<A> {
    /// No identity.
    pub(crate) fn new(alloc: A) -> KeyLists<A>
        ensures { (p : SymbolKey) → ids_at result.lists p ≡ [] }
    {
        KeyLists {
            lists: Map::new(alloc),
            alloc,
        }
    }

    /// The identities at a key, ascending.
    pub(crate) fn at(&self, key: SymbolKey) -> &[Id]
        ensures ids { numbers result.now ≡ ids_at self.now.lists key }
        ensures ascending { IsStrictlyIncreasing (numbers result.now) }
    {
        match self.lists.get(&key) {
            None => &[],
            Some(list) => list.as_slice(),
        }
    }

    /// Puts an identity into the list of a key, or takes it out. A refused call leaves the lists as they were.
    pub(crate) fn set(&mut self, key: SymbolKey, id: Id, is_there: bool) -> Result<(), Memory>
        ensures ok { OnOk result ((x : SymbolKey × ℕ) → is_in_list self.new.lists x
            ≡ list_after key id.0 is_there (is_in_list self.old.lists) x) }
        ensures err { OnErr result ((p : SymbolKey) → ids_at self.new.lists p ≡ ids_at self.old.lists p) }
    {
        let change = Set { id, is_there };
        match self.lists.get(&key) {
            None => {
                if is_there {
                    self.lists.put(key, IdList::one(self.alloc, id)?)
                } else {
                    Ok(())
                }
            }
            Some(list) => {
                if change.empties(list.as_slice()) {
                    self.lists.take_out(&key)
                } else {
                    self.lists.edit(&key, &change)
                }
            }
        }
    }

    /// The lists a second time, at the price of a pointer.
    pub(crate) fn share(&self) -> Result<KeyLists<A>, Memory>
        ensures { IfOk result (λ shared. (p : SymbolKey) → ids_at shared.lists p ≡ ids_at self.now.lists p) }
    {
        Ok(KeyLists {
            lists: self.lists.share()?,
            alloc: self.alloc,
        })
    }
}
