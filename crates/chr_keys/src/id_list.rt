//! Ascending lists of identities that are shared.
ghost use Rattle.std.specs.Prelude.{◌≡◌, ◌==◌, ◌∷◌, ◌↔◌, [], IfOk, IsTrue, OnErr, OnOk, false, filter, not};
ghost use Rattle.std.specs.BTreeSet.{insert_key};
ghost use Rattle.std.specs.List.Sorted.{IsStrictlyIncreasing};
ghost use Rattle.std.specs.Ordering.{nat_cmp};
ghost use Rattle.chr_keys.specs.IdSets.{ids_set};
ghost use Rattle.chr_store.specs.Numbers.{numbers};

use chr_map::{Edit, Memory, Share};
use chr_store::Id;
use std::alloc::Allocator;
use std::marker::Model;
use std::sync::Arc;

/// The identities of a list. A copy has room for one more.
#[derive(Drop)]
struct Items<A: Allocator> {
    ids: Vec<Id, A>,
}

impl<A: Allocator + Copy> Clone for Items<A> {
    ghost is_clone = { λ old new. new.ids.items ≡ old.ids.items };

    fn clone(&self) -> Result<Items<A>, Memory> {
        let mut ids = Vec::with_capacity(*self.ids.allocator(), self.ids.len() + 1)?;
        ids.extend_from_slice(self.ids.as_slice())?;
        Ok(Items { ids })
    }
}

/// Identities, ascending. Contracts see the list of their numbers.
#[derive(Drop)]
pub(crate) struct IdList<A: Allocator> {
    items: Arc<Items<A>, A>,
}

impl<A: Allocator> Model for IdList<A> {
    ghost use Rattle.std.specs.Prelude.{List, ℕ};

    ghost Value = { List ℕ };

    ghost use Rattle.std.specs.Arc.{arc_value};
    ghost use Rattle.std.specs.List.Sorted.{IsStrictlyIncreasing};
    ghost use Rattle.chr_store.specs.Numbers.{numbers};

    ghost view = { λ list. numbers (arc_value list.items).ids.items };

    ghost invariant = { λ list. IsStrictlyIncreasing (numbers (arc_value list.items).ids.items) };
}

impl<A: Allocator> IdList<A> {
    /// The identities, ascending.
    pub(crate) fn as_slice(&self) -> &[Id]
        ensures ids { numbers result.now ≡ self.now }
        ensures ascending { IsStrictlyIncreasing (numbers result.now) }
    {
        self.items.ids.as_slice()
    }
}

impl<A: Allocator + Copy> IdList<A> {
    /// One identity.
    pub(crate) fn one(alloc: A, id: Id) -> Result<IdList<A>, Memory>
        ensures { IfOk result (λ list. list ≡ id.0 ∷ []) }
    {
        let ids = vec![in alloc; id]?;
        Ok(IdList {
            items: Arc::new(alloc, Items { ids })?,
        })
    }

    /// Puts an identity where it belongs, if it is not there. A refused call leaves the list as it was.
    fn put(&mut self, id: Id) -> Result<(), Memory>
        ensures ok { OnOk result (self.new ≡ insert_key nat_cmp self.old id.0) }
        ensures err { OnErr result (self.new ≡ self.old) }
    {
        match self.as_slice().binary_search(&id) {
            Ok(_) => Ok(()),
            Err(position) => {
                Arc::make_mut(&mut self.items)?.ids.insert(position, id)?;
                Ok(())
            }
        }
    }

    /// Takes an identity out, if it is there. A refused call leaves the list as it was.
    fn take_out(&mut self, id: Id) -> Result<(), Memory>
        ensures ok { OnOk result (self.new ≡ filter (λ i. not (i == id.0)) self.old) }
        ensures err { OnErr result (self.new ≡ self.old) }
    {
        match self.as_slice().binary_search(&id) {
            Ok(position) => {
                let _ = Arc::make_mut(&mut self.items)?.ids.remove(position);
                Ok(())
            }
            Err(_) => Ok(()),
        }
    }
}

impl<A: Allocator> Share for IdList<A> {
    fn share(&self) -> Result<IdList<A>, Memory> {
        Ok(IdList {
            items: Arc::try_clone(&self.items)?,
        })
    }
}

/// An identity that is put into a list, or taken out of it.
#[derive(Drop)]
pub(crate) struct Set {
    pub(crate) id: Id,
    pub(crate) is_there: bool,
}

impl Set {
    /// Whether it takes out the only identity of a list.
    pub(crate) fn empties(&self, ids: &[Id]) -> bool
        ensures { IsTrue result
            ↔ ((numbers ids.now ≡ self.now.id.0 ∷ []) × (self.now.is_there ≡ false)) }
    {
        match ids {
            [only] => *only == self.id && !self.is_there,
            _ => false,
        }
    }
}

impl<A: Allocator + Copy> Edit<IdList<A>> for Set {
    ghost edited = { λ set ids. ids_set set.id.0 set.is_there ids };

    fn edit(&self, list: &mut IdList<A>) -> Result<(), Memory> {
        if self.is_there {
            list.put(self.id)
        } else {
            list.take_out(self.id)
        }
    }
}
