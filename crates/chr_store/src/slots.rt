//! A slot for each identity that was given.
ghost use Rattle.std.specs.Prelude.{◌≡◌, ◌<◌, ◌++◌, ◌∷◌, ◌+◌, ◌^◌, [], IfNone, IfSome, OnOk, length, option_map, vec_capacity, vec_len};
ghost use Rattle.chr_semantics.specs.Search.{atom_of};
ghost use Rattle.chr_store.specs.Rows.{IsAbsent, row_atom, rows_from, rows_without};

use crate::id::Id;
use crate::row::Row;
use chr_term::Memory;
use std::alloc::Allocator;

/// The constraint of each identity from 1 on, or nothing where it was removed.
#[derive(Drop)]
pub(crate) struct Slots<A: Allocator> {
    items: Vec<Option<Row<A>>, A>,
}

impl<A: Allocator> Slots<A> {
    ghost use Rattle.chr_store.specs.SlotsView.{rows_in, next_in};

    /// No identity was given.
    pub(crate) fn new(alloc: A) -> Slots<A>
        ensures rows { rows_in result ≡ [] }
        ensures next { next_in result ≡ 1 }
    {
        Slots {
            items: Vec::new(alloc),
        }
    }

    /// All slots.
    pub(crate) fn as_slice(&self) -> &[Option<Row<A>>]
        ensures { result.now ≡ self.now.items.items }
    {
        self.items.as_slice()
    }

    /// The slot of an identity that was given.
    fn slot_of(&self, id: Id) -> Option<usize>
        ensures absent { IfNone result (IsAbsent (rows_in self.now) id.0) }
        ensures given { IfSome result
            (λ slot. (slot + 1 ≡ id.0) × (slot < length self.now.items.items)) }
    {
        if id.0 == 0 {
            return None;
        }
        let slot = id.0 as usize - 1;
        if slot < self.items.len() {
            Some(slot)
        } else {
            None
        }
    }

    /// The constraint of an identity, where it lives.
    pub(crate) fn row(&self, id: Id) -> Option<&Row<A>>
        ensures { option_map (λ row. row_atom row.now) result ≡ atom_of (rows_in self.now) id.0 }
    {
        match self.slot_of(id) {
            Some(slot) => self.items[slot].as_ref(),
            None => None,
        }
    }

    /// The identity that the next one gets.
    pub(crate) fn next(&self) -> Id
        requires { next_in self.now < 2 ^ 64 }
        ensures { result.0 ≡ next_in self.now }
    {
        Id(self.items.len() as u64 + 1)
    }

    /// Makes room for one more, and changes nothing else.
    pub(crate) fn room(&mut self) -> Result<(), Memory>
        ensures same { self.new.items.items ≡ self.old.items.items }
        ensures room { OnOk result (vec_len self.new.items < vec_capacity self.new.items) }
    {
        self.items.reserve(1)
    }

    /// Gives a constraint the next identity, with room for it.
    pub(crate) fn push_reserved(&mut self, row: Row<A>) -> Id
        requires room { vec_len self.old.items < vec_capacity self.old.items }
        ensures rows { rows_in self.new ≡ rows_in self.old ++ (next_in self.old, row_atom row) ∷ [] }
        ensures next { next_in self.new ≡ next_in self.old + 1 }
        ensures id { result.0 ≡ next_in self.old }
    {
        self.items.push_reserved(Some(row));
        Id(self.items.len() as u64)
    }

    /// Takes out the constraint of an identity, where it lives.
    pub(crate) fn take(&mut self, id: Id) -> Option<Row<A>>
        ensures row { option_map (λ row. row_atom row) result ≡ atom_of (rows_in self.old) id.0 }
        ensures rows { rows_in self.new ≡ rows_without id.0 (rows_in self.old) }
        ensures absent { IfNone result (rows_in self.new ≡ rows_in self.old) }
        ensures next { next_in self.new ≡ next_in self.old }
    {
        match self.slot_of(id) {
            Some(slot) => self.items[slot].take(),
            None => None,
        }
    }
}
