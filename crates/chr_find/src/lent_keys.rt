//! The identities of a table's constraints by key, where it keeps them.
ghost use Rattle.std.specs.Prelude.{◌≡◌, ◌+◌, ◌↔◌, IfOk, IsTrue, None, OnOk, Option, Some, ℕ};
ghost use Rattle.std.specs.List.Sorted.{IsStrictlyIncreasing};
ghost use Rattle.chr_semantics.specs.Program.{Atom};
ghost use Rattle.chr_semantics.specs.Search.{atom_of, has_number};
ghost use Rattle.chr_store.specs.KeyView.{keys_view};
ghost use Rattle.chr_store.specs.Numbers.{numbers};
ghost use Rattle.chr_store.specs.Rows.{row_atom};
ghost use Rattle.chr_find.specs.LentKeysView.{is_keyed_at};
ghost use Rattle.chr_find.specs.Rebinding.{standing_rows};
ghost use Rattle.chr_find.specs.Shown.{Rises};
ghost use Rattle.chr_find.specs.TableView.{atoms_with};

use crate::Memory;
use crate::constraint::Constraint;
use chr_keys::PendingKeys;
use chr_store::{Id, Key, Row};
use chr_term::Sym;
use std::alloc::Allocator;

/// The identities by key, or nothing: only a table that is shared needs them.
#[derive(Drop)]
pub(crate) struct LentKeys<A: Allocator> {
    keys: Option<PendingKeys<A>>,
}

impl<A: Allocator + Copy> LentKeys<A> {
    ghost use Rattle.chr_find.specs.LentKeysView.{AreListed, HasRoom, IsKept, IsSettled};

    /// Nothing.
    pub(crate) fn off() -> LentKeys<A>
        ensures lists { (f : ℕ → Option Atom) → AreListed f result }
        ensures settled { IsSettled result }
    {
        LentKeys { keys: None }
    }

    /// Those of rows.
    pub(crate) fn of_rows(alloc: A, rows: &[Constraint<A>]) -> Result<LentKeys<A>, Memory>
        requires { Rises (standing_rows rows.now) }
        ensures lists { IfOk result (AreListed (atom_of (standing_rows rows.now))) }
        ensures settled { IfOk result IsSettled }
        ensures kept { IfOk result IsKept }
    {
        let mut keys = PendingKeys::new(alloc);
        for standing in rows {
            keys.room(1)?;
            keys.note(standing.id, None, Some(&standing.row));
            keys.settle()?;
        }
        Ok(LentKeys { keys: Some(keys) })
    }

    pub(crate) fn is_kept(&self) -> bool
        ensures { IsTrue result ↔ IsKept self.now }
    {
        self.keys.is_some()
    }

    /// Makes room for more changes.
    pub(crate) fn room(&mut self, more: usize) -> Result<(), Memory>
        ensures lists { (f : ℕ → Option Atom) → AreListed f self.old → AreListed f self.new }
        ensures ok { OnOk result (HasRoom more self.new) }
    {
        match &mut self.keys {
            None => Ok(()),
            Some(keys) => keys.room(more),
        }
    }

    /// Notes that a constraint is there.
    pub(crate) fn enter(&mut self, id: Id, row: &Row<A>)
        requires { HasRoom 1 self.now }
        ensures lists { (f : ℕ → Option Atom) → AreListed f self.old → f id.0 ≡ None →
            AreListed (atoms_with f id.0 (Some (row_atom row.now))) self.new }
        ensures room { (n : ℕ) → HasRoom (n + 1) self.old → HasRoom n self.new }
    {
        if let Some(keys) = &mut self.keys {
            keys.note(id, None, Some(row));
        }
    }

    /// Notes that a constraint is there no more.
    pub(crate) fn leave(&mut self, id: Id, row: &Row<A>)
        requires { HasRoom 1 self.now }
        ensures lists { (f : ℕ → Option Atom) → AreListed f self.old → f id.0 ≡ Some (row_atom row.now) →
            AreListed (atoms_with f id.0 None) self.new }
        ensures room { (n : ℕ) → HasRoom (n + 1) self.old → HasRoom n self.new }
    {
        if let Some(keys) = &mut self.keys {
            keys.note(id, Some(row), None);
        }
    }

    /// Notes that a constraint is another.
    pub(crate) fn replace(&mut self, id: Id, old: &Row<A>, new: &Row<A>)
        requires { HasRoom 1 self.now }
        ensures lists { (f : ℕ → Option Atom) → AreListed f self.old → f id.0 ≡ Some (row_atom old.now) →
            AreListed (atoms_with f id.0 (Some (row_atom new.now))) self.new }
        ensures room { (n : ℕ) → HasRoom (n + 1) self.old → HasRoom n self.new }
    {
        if let Some(keys) = &mut self.keys {
            keys.note(id, Some(old), Some(new));
        }
    }

    /// Makes all that is noted. Where that is refused, some of it may be made in part, and stays noted.
    pub(crate) fn settle(&mut self) -> Result<(), Memory>
        ensures lists { (f : ℕ → Option Atom) → AreListed f self.old → AreListed f self.new }
        ensures ok { OnOk result (IsSettled self.new) }
    {
        match &mut self.keys {
            None => Ok(()),
            Some(keys) => keys.settle(),
        }
    }

    /// The lists a second time, at the price of a pointer.
    pub(crate) fn share(&self) -> Result<LentKeys<A>, Memory>
        requires { IsSettled self.now }
        ensures lists { IfOk result (λ shared. (f : ℕ → Option Atom) → AreListed f self.now → AreListed f shared) }
        ensures settled { IfOk result IsSettled }
        ensures kept { IfOk result (λ shared. IsKept self.now → IsKept shared) }
    {
        match &self.keys {
            None => Ok(LentKeys { keys: None }),
            Some(keys) => Ok(LentKeys {
                keys: Some(keys.share()?),
            }),
        }
    }

    /// The identities of a symbol and a key, or of those that have none, ascending.
    pub(crate) fn of(&self, sym: Sym, key: Option<Key>) -> &[Id]
        requires settled { IsSettled self.now }
        requires kept { IsKept self.now }
        ensures ids { (f : ℕ → Option Atom) → AreListed f self.now → (i : ℕ) →
            has_number (numbers result.now) i ≡ is_keyed_at (f i) sym.0 (keys_view key) }
        ensures ascending { IsStrictlyIncreasing (numbers result.now) }
    {
        match &self.keys {
            None => &[],
            Some(keys) => keys.of(sym, key),
        }
    }
}
