//! The store: constraints by their identities, by symbol and by key, and how often calls have touched each symbol.
ghost use Rattle.std.specs.Prelude.{◌≡◌, ◌<◌, ◌≤◌, ◌+◌, ℕ, true, IfErr, IfOk, OnErr, OnOk, is_some, option_map, vec_capacity, vec_len};
ghost use Rattle.std.specs.List.Sorted.{IsStrictlyIncreasing};
ghost use Rattle.chr_semantics.specs.Changes.{added, empty_store, rebound, removed, woken};
ghost use Rattle.chr_semantics.specs.declared.limits.TheConstants.{MAX_CHANGES};
ghost use Rattle.chr_semantics.specs.Keys.{rows_keyed, rows_of};
ghost use Rattle.chr_semantics.specs.Search.{atom_of};
ghost use Rattle.chr_term.specs.TermView.{atom_over};
ghost use Rattle.chr_store.specs.Counts.{AreStamped, AreUpTo, count_at, has_stamp, last_at};
ghost use Rattle.chr_store.specs.KeyView.{keys_view};
ghost use Rattle.chr_store.specs.Looks.{AreListed, HasRoomAt, ids_under, spare_under};
ghost use Rattle.chr_store.specs.Numbers.{numbers};
ghost use Rattle.chr_store.specs.Rows.{row_atom};
ghost use Rattle.chr_store.specs.SlotsView.{next_in, rows_in};

use crate::id::Id;
use crate::key::Key;
use crate::lists::{Lists, Look, Looks};
use crate::row::Row;
use crate::rows::Rows;
use crate::slots::Slots;
use crate::stamps::Stamps;
use crate::waking::{raise_all, wakes};
use chr_bind::Bindings;
use chr_term::{Args, Memory, Sym};
use std::alloc::{Allocator, Global};

/// The constraints of a run. Each gets the next identity when it is added, from 1 on. Contracts see a list by ascending identity, the next
/// identity, and how many calls have touched each symbol.
#[derive(Drop)]
pub struct Store<A: Allocator = Global> {
    slots: Slots<A>,
    lists: Lists<A>,
    stamps: Stamps<A>,
    changes: u64,
    alloc: A,
    ghost listed: { AreListed (ids_under lists) (rows_in slots) },
    ghost stamped: { AreStamped stamps.stamps.items (rows_in slots) },
    ghost up_to: { AreUpTo stamps.stamps.items changes },
    ghost given: { next_in slots ≤ changes + 1 },
    ghost few: { changes ≤ MAX_CHANGES },
}

impl<A: Allocator + Copy> Store<A> {
    ghost use Rattle.chr_store.specs.StoreView.{store_view};

    /// A store with no constraint.
    pub fn new(alloc: A) -> Store<A>
        ensures { store_view result ≡ empty_store }
    {
        Store {
            slots: Slots::new(alloc),
            lists: Lists::new(alloc),
            stamps: Stamps::new(alloc),
            changes: 0,
            alloc,
        }
    }

    /// Adds a constraint under the next identity. All its room is made first: where memory is refused, nothing changes, and the arguments
    /// come back.
    pub fn add(&mut self, sym: Sym, args: Args<A>) -> Result<Id, (Args<A>, Memory)>
        requires { (store_view self.old).changes < MAX_CHANGES }
        ensures ok { OnOk result
            (store_view self.new ≡ added (store_view self.old) (atom_over sym args)) }
        ensures id { IfOk result (λ id. id.0 ≡ (store_view self.old).next_id) }
        ensures back { IfErr result (λ refused. refused.0 ≡ args) }
        ensures err { OnErr result (store_view self.new ≡ store_view self.old) }
    {
        let at = Looks::of(sym, args.as_slice());
        if let Err(error) = make_room(&mut self.slots, &mut self.lists, &mut self.stamps, at) {
            return Err((args, error));
        }
        let id = self.slots.push_reserved(Row { sym, args });
        self.lists.put_reserved(at, id);
        self.changes += 1;
        self.stamps.raise(u64::from(sym.0), self.changes);
        Ok(id)
    }

    /// The identities of the constraints that are not ground under the bindings, ascending. Those that were stored without variables are
    /// not looked at.
    pub fn woken(&self, bindings: &Bindings<A>) -> Result<Vec<Id, A>, Memory>
        ensures { IfOk result
            (λ ids. numbers ids.items ≡ woken (store_view self.now) bindings.now.subst) }
    {
        let mut ids = Vec::new(self.alloc);
        for id in self.lists.of(Look::Open) {
            if wakes(self.slots.row(*id), bindings) {
                ids.push(*id)?;
            }
        }
        Ok(ids)
    }
}

impl<A: Allocator> Store<A> {
    ghost use Rattle.chr_store.specs.StoreView.{store_view};
    ghost use Rattle.chr_store.specs.RowsLeft.{rows_left};

    /// Takes a constraint out, and says whether it was there.
    pub fn remove(&mut self, id: Id) -> bool
        requires { (store_view self.old).changes < MAX_CHANGES }
        ensures store { store_view self.new ≡ removed (store_view self.old) id.0 }
        ensures there { result ≡ is_some (atom_of (store_view self.old).rows id.0) }
    {
        let row = match self.slots.take(id) {
            Some(row) => row,
            None => return false,
        };
        self.lists
            .take_out(Looks::of(row.sym, row.args.as_slice()), id);
        self.changes += 1;
        self.stamps.raise(u64::from(row.sym.0), self.changes);
        true
    }

    /// Says that bindings have changed what these constraints stand for: their symbols are touched, each once. No constraints change nothing.
    pub fn rebound(&mut self, ids: &[Id])
        requires { (store_view self.old).changes < MAX_CHANGES }
        ensures { store_view self.new ≡ rebound (store_view self.old) (numbers ids.now) }
    {
        if ids.len() == 0 {
            return;
        }
        self.changes += 1;
        raise_all(&self.slots, &mut self.stamps, ids, self.changes);
    }

    /// The constraint of an identity, where it lives.
    pub fn row(&self, id: Id) -> Option<&Row<A>>
        ensures { option_map (λ row. row_atom row.now) result
            ≡ atom_of (store_view self.now).rows id.0 }
    {
        self.slots.row(id)
    }

    /// Whether the constraint of an identity is in the store.
    pub fn alive(&self, id: Id) -> bool
        ensures { result ≡ is_some (atom_of (store_view self.now).rows id.0) }
    {
        self.row(id).is_some()
    }

    /// The constraints with their identities, ascending.
    pub fn rows(&self) -> Rows<'_, A>
        ensures { rows_left result ≡ (store_view self.now).rows }
    {
        Rows::new(self.slots.as_slice())
    }

    /// The identities of a symbol's constraints, ascending.
    pub fn rows_of(&self, sym: Sym) -> &[Id]
        ensures { numbers result.now ≡ rows_of (store_view self.now).rows sym.0 }
    {
        self.lists.of(Look::Symbol(sym))
    }

    /// The identities of a symbol's constraints whose first argument has that key as it was stored, or has none, ascending.
    pub fn rows_keyed(&self, sym: Sym, key: Option<Key>) -> &[Id]
        ensures { numbers result.now ≡ rows_keyed (store_view self.now).rows sym.0 (keys_view key) }
    {
        self.lists.of(Look::Keyed(sym, key))
    }

    /// The identity that the next constraint gets.
    pub fn next(&self) -> Id
        ensures { result.0 ≡ (store_view self.now).next_id }
    {
        self.slots.next()
    }

    /// How many calls so far have touched a symbol.
    pub fn stamp(&self, sym: Sym) -> u64
        ensures { result ≡ (store_view self.now).stamps sym.0 }
    {
        self.stamps.of(u64::from(sym.0))
    }

    /// How many calls so far have changed the store.
    pub fn changes(&self) -> u64
        ensures { result ≡ (store_view self.now).changes }
    {
        self.changes
    }
}

/// Makes room for one more constraint, and changes nothing else.
fn make_room<A: Allocator + Copy>(
    slots: &mut Slots<A>,
    lists: &mut Lists<A>,
    stamps: &mut Stamps<A>,
    at: Looks,
) -> Result<(), Memory>
    ensures slots { slots.new.items.items ≡ slots.old.items.items }
    ensures lists { (look : Look) →
        ids_under lists.new look ≡ ids_under lists.old look }
    ensures counts { (n : ℕ) → count_at stamps.new.stamps.items n ≡ count_at stamps.old.stamps.items n }
    ensures lasts { (n : ℕ) → last_at stamps.new.stamps.items n ≡ last_at stamps.old.stamps.items n }
    ensures kept { (n : ℕ) → has_stamp stamps.old.stamps.items n ≡ true →
        has_stamp stamps.new.stamps.items n ≡ true }
    ensures slot { OnOk result (vec_len slots.new.items < vec_capacity slots.new.items) }
    ensures places { OnOk result (HasRoomAt (spare_under lists.new) at) }
    ensures stamp { OnOk result (has_stamp stamps.new.stamps.items at.sym.0 ≡ true) }
{
    slots.room()?;
    lists.room(at)?;
    stamps.room(u64::from(at.sym.0))
}
