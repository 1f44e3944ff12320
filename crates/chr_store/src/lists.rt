//! The identities of the store's constraints, by symbol, by key, and those with variables.
ghost use Rattle.std.specs.Prelude.{◌≡◌, ◌<◌, ◌++◌, ◌∷◌, ◌==◌, [], All, Option, Some, cond, filter, not, option_map, slice_get, vec_len, OnOk};
ghost use Rattle.std.specs.List.Sorted.{IsStrictlyIncreasing};
ghost use Rattle.chr_term.specs.TermView.{atom_view};
ghost use Rattle.chr_semantics.specs.Keys.{same_keys};
ghost use Rattle.chr_store.specs.KeyView.{keys_view};
ghost use Rattle.chr_store.specs.Looks.{AreLooksOf, HasRoomAt, is_at};
ghost use Rattle.chr_store.specs.Numbers.{numbers};

use crate::id::Id;
use crate::ids::Ids;
use crate::key::Key;
use crate::key_ids::KeyIds;
use chr_term::{FoldState, Memory, Sym, Term, are_ground};
use indexmap::IndexMap;
use std::alloc::Allocator;

/// What a list has the identities of.
#[derive(Clone, Copy, Drop)]
pub(crate) enum Look {
    /// The constraints of a symbol.
    Symbol(Sym),
    /// Those of a symbol whose first argument has a key, or has none.
    Keyed(Sym, Option<Key>),
    /// Those that were stored with variables.
    Open,
}

/// The lists that a constraint is in.
#[derive(Clone, Copy, Drop)]
pub(crate) struct Looks {
    pub(crate) sym: Sym,
    key: Option<Key>,
    has_variables: bool,
}

impl Looks {
    /// Those of a symbol over these arguments.
    pub(crate) fn of<A: Allocator>(sym: Sym, args: &[Term<A>]) -> Looks
        ensures { AreLooksOf (atom_view sym args.now) result }
    {
        Looks {
            sym,
            key: Key::of_first(args),
            has_variables: !are_ground(args),
        }
    }
}

/// The lists of a symbol's constraints, each ascending.
#[derive(Drop)]
struct OfSymbol<A: Allocator> {
    all: Ids<A>,
    /// Those whose first argument has no key.
    keyless: Ids<A>,
    /// Those whose first argument has a key, by that key.
    keyed: IndexMap<Key, KeyIds<A>, FoldState, A>,
}

impl<A: Allocator + Copy> OfSymbol<A> {
    ghost use Rattle.chr_store.specs.Looks.{ids_keyed, spare_keyed};

    /// No list has an identity.
    fn new(alloc: A) -> OfSymbol<A>
        ensures all { result.all.ids ≡ [] }
        ensures keyed { (key : Option Key) → ids_keyed result key ≡ [] }
    {
        OfSymbol {
            all: Ids::new(alloc),
            keyless: Ids::new(alloc),
            keyed: IndexMap::new(alloc),
        }
    }

    /// Makes room for one more constraint, and changes nothing else.
    fn room(&mut self, key: Option<Key>, alloc: A) -> Result<(), Memory>
        ensures all { self.new.all.ids ≡ self.old.all.ids }
        ensures keyed { (other : Option Key) → ids_keyed self.new other ≡ ids_keyed self.old other }
        ensures room_in_all { OnOk result (0 < self.new.all.spare) }
        ensures room { OnOk result (0 < spare_keyed self.new key) }
    {
        self.all.room()?;
        match key {
            None => self.keyless.room(),
            Some(key) => self.keyed.entry(key)?.or_insert(KeyIds::new()).room(alloc),
        }
    }
}

impl<A: Allocator> OfSymbol<A> {
    ghost use Rattle.chr_store.specs.Looks.{ids_keyed, spare_keyed};

    /// Those whose first argument has that key, or has none.
    fn of(&self, key: Option<Key>) -> &[Id]
        ensures ids { numbers result.now ≡ ids_keyed self.now key }
        ensures ascending { IsStrictlyIncreasing (ids_keyed self.now key) }
    {
        match key {
            None => self.keyless.as_slice(),
            Some(key) => match self.keyed.get(&key) {
                Some(ids) => ids.as_slice(),
                None => &[],
            },
        }
    }

    /// Enters an identity that is greater than all, with room for it.
    fn put(&mut self, key: Option<Key>, id: Id)
        requires room_in_all { 0 < self.old.all.spare }
        requires room { 0 < spare_keyed self.old key }
        requires greatest_of_all { All (λ i. i < id.0) self.old.all.ids }
        requires greatest { All (λ i. i < id.0) (ids_keyed self.old key) }
        ensures all { self.new.all.ids ≡ self.old.all.ids ++ id.0 ∷ [] }
        ensures keyed { (other : Option Key) → ids_keyed self.new other
            ≡ ids_keyed self.old other ++ cond (same_keys (keys_view other) (keys_view key)) (id.0 ∷ []) [] }
    {
        self.all.push_reserved(id);
        match key {
            None => self.keyless.push_reserved(id),
            Some(key) => {
                if let Some(ids) = self.keyed.get_mut(&key) {
                    ids.push_reserved(id);
                }
            }
        }
    }

    /// Takes an identity out of its lists.
    fn take_out(&mut self, key: Option<Key>, id: Id)
        ensures all { self.new.all.ids ≡ filter (λ i. not (i == id.0)) self.old.all.ids }
        ensures keyed { (other : Option Key) → ids_keyed self.new other
            ≡ cond (same_keys (keys_view other) (keys_view key)) (filter (λ i. not (i == id.0))
            (ids_keyed self.old other)) (ids_keyed self.old other) }
    {
        self.all.take_out(id);
        match key {
            None => self.keyless.take_out(id),
            Some(key) => self.take_keyed(key, id),
        }
    }

    /// Takes an identity out of the list of a key. A list that is then empty is let go: there can be a great number of keys.
    fn take_keyed(&mut self, key: Key, id: Id)
        ensures all { self.new.all.ids ≡ self.old.all.ids }
        ensures keyed { (other : Option Key) → ids_keyed self.new other
            ≡ cond (same_keys (keys_view other) (keys_view (Some key))) (filter (λ i. not (i == id.0))
            (ids_keyed self.old other)) (ids_keyed self.old other) }
    {
        if let Some(ids) = self.keyed.get_mut(&key) {
            ids.take_out(id);
            if ids.as_slice().is_empty() {
                let _ = self.keyed.swap_remove(&key);
            }
        }
    }
}

/// The lists, each ascending.
#[derive(Drop)]
pub(crate) struct Lists<A: Allocator> {
    /// By the number of the symbol. One past the end has no constraint.
    by_symbol: Vec<OfSymbol<A>, A>,
    open: Ids<A>,
    alloc: A,
}

impl<A: Allocator + Copy> Lists<A> {
    ghost use Rattle.chr_store.specs.Looks.{ids_under, spare_under};

    /// No list has an identity.
    pub(crate) fn new(alloc: A) -> Lists<A>
        ensures { (look : Look) → ids_under result look ≡ [] }
    {
        Lists {
            by_symbol: Vec::new(alloc),
            open: Ids::new(alloc),
            alloc,
        }
    }

    /// Makes room for one more constraint, and changes nothing else.
    pub(crate) fn room(&mut self, at: Looks) -> Result<(), Memory>
        ensures same { (look : Look) → ids_under self.new look ≡ ids_under self.old look }
        ensures room { OnOk result (HasRoomAt (spare_under self.new) at) }
    {
        self.room_for(at.sym)?;
        self.by_symbol[at.sym.0 as usize].room(at.key, self.alloc)?;
        if at.has_variables {
            return self.open.room();
        }
        Ok(())
    }

    /// Makes the lists of a symbol, where it has none, and changes nothing else.
    fn room_for(&mut self, sym: Sym) -> Result<(), Memory>
        ensures same { (look : Look) → ids_under self.new look ≡ ids_under self.old look }
        ensures there { OnOk result (sym.0 < vec_len self.new.by_symbol) }
    {
        let place = sym.0 as usize;
        while self.by_symbol.len() <= place {
            self.by_symbol.push(OfSymbol::new(self.alloc))?;
        }
        Ok(())
    }
}

impl<A: Allocator> Lists<A> {
    ghost use Rattle.chr_store.specs.Looks.{ids_under, spare_under};

    /// The lists of a symbol.
    fn of_symbol(&self, sym: Sym) -> Option<&OfSymbol<A>>
        ensures { option_map (λ lists. lists.now) result ≡ slice_get self.now.by_symbol.items sym.0 }
    {
        self.by_symbol.get(sym.0 as usize)
    }

    /// The identities in a list, ascending.
    pub(crate) fn of(&self, look: Look) -> &[Id]
        ensures ids { numbers result.now ≡ ids_under self.now look }
        ensures ascending { IsStrictlyIncreasing (ids_under self.now look) }
    {
        match look {
            Look::Open => self.open.as_slice(),
            Look::Symbol(sym) => match self.of_symbol(sym) {
                Some(lists) => lists.all.as_slice(),
                None => &[],
            },
            Look::Keyed(sym, key) => match self.of_symbol(sym) {
                Some(lists) => lists.of(key),
                None => &[],
            },
        }
    }

    /// Enters an identity that is greater than all, with room for it.
    pub(crate) fn put_reserved(&mut self, at: Looks, id: Id)
        requires room { HasRoomAt (spare_under self.old) at }
        requires greatest { (look : Look) → All (λ i. i < id.0) (ids_under self.old look) }
        ensures { (look : Look) → ids_under self.new look
            ≡ ids_under self.old look ++ cond (is_at at look) (id.0 ∷ []) [] }
    {
        self.by_symbol[at.sym.0 as usize].put(at.key, id);
        if at.has_variables {
            self.open.push_reserved(id);
        }
    }

    /// Takes an identity out of its lists.
    pub(crate) fn take_out(&mut self, at: Looks, id: Id)
        ensures { (look : Look) → ids_under self.new look
            ≡ cond (is_at at look) (filter (λ i. not (i == id.0))
            (ids_under self.old look)) (ids_under self.old look) }
    {
        if at.has_variables {
            self.open.take_out(id);
        }
        if let Some(lists) = self.by_symbol.get_mut(at.sym.0 as usize) {
            lists.take_out(at.key, id);
        }
    }
}
