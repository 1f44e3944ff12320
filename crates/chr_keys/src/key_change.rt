//! Changes of the lists.
ghost use Rattle.std.specs.Prelude.{◌≡◌, OnErr, OnOk, ℕ};
ghost use Rattle.chr_keys.specs.Lists.{is_in_list};
ghost use Rattle.chr_keys.specs.KeyChangeView.{changed_after, key_after};
ghost use Rattle.chr_keys.specs.declared.symbol_key.SymbolKey.{SymbolKey};

use crate::Memory;
use crate::key_lists::KeyLists;
use crate::symbol_key::SymbolKey;
use chr_store::Id;
use std::alloc::Allocator;

/// An identity leaves the list of one key and enters that of another, where there are such keys.
#[derive(Clone, Copy, Drop)]
pub(crate) struct KeyChange {
    pub(crate) id: Id,
    pub(crate) out: Option<SymbolKey>,
    pub(crate) into: Option<SymbolKey>,
}

/// Puts an identity into the list of a key, or takes it out, if there is a key.
fn set<A: Allocator + Copy>(
    lists: &mut KeyLists<A>,
    key: Option<SymbolKey>,
    id: Id,
    is_there: bool,
) -> Result<(), Memory>
    ensures ok { OnOk result ((x : SymbolKey × ℕ) → is_in_list lists.new.lists x
        ≡ key_after key id.0 is_there (is_in_list lists.old.lists) x) }
    ensures err { OnErr result ((x : SymbolKey × ℕ) → is_in_list lists.new.lists x ≡ is_in_list lists.old.lists x) }
{
    match key {
        None => Ok(()),
        Some(key) => lists.set(key, id, is_there),
    }
}

impl KeyChange {
    /// Makes the change. Where that is refused, it can be made again, and comes to the same. An identity that enters the list that it
    /// leaves is not taken out of it.
    pub(crate) fn make<A: Allocator + Copy>(&self, lists: &mut KeyLists<A>) -> Result<(), Memory>
        ensures ok { OnOk result ((x : SymbolKey × ℕ) → is_in_list lists.new.lists x
            ≡ changed_after self.now (is_in_list lists.old.lists) x) }
        ensures again { OnErr result ((x : SymbolKey × ℕ) → changed_after self.now (is_in_list lists.new.lists) x
            ≡ changed_after self.now (is_in_list lists.old.lists) x) }
    {
        if self.out != self.into {
            set(lists, self.out, self.id, false)?;
        }
        set(lists, self.into, self.id, true)
    }
}
