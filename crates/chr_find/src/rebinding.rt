//! Bindings, and the rows that they change.
ghost use Rattle.std.specs.Prelude.{◌≡◌, ◌+◌, [], IfOk, List, OnErr, OnOk, Some, ℕ, option_map, vec_len};
ghost use Rattle.chr_semantics.specs.Match as semantics;
ghost use Rattle.chr_semantics.specs.State.{resolved_atom};
ghost use Rattle.chr_store.specs.Numbers.{numbers};
ghost use Rattle.chr_store.specs.Rows.{row_atom};

use crate::Memory;
use crate::bucket::Bucket;
use crate::constraint::{Constraint, collect};
use crate::index::Change;
use crate::index_change::IndexChange;
use crate::resolved_row::resolved;
use crate::table::{Table, is_open};
use chr_bind::Bindings;
use chr_map::Share;
use chr_store::{Id, Row};
use std::alloc::{Allocator, Global};

/// A row in the place of another.
#[derive(Drop)]
pub(crate) struct Replaced<A: Allocator> {
    pub(crate) id: Id,
    pub(crate) old: Row<A>,
    pub(crate) new: Row<A>,
}

/// What bindings change in a table.
#[derive(Drop)]
pub(crate) struct Rebound<A: Allocator> {
    /// By ascending identity.
    replaced: Vec<Replaced<A>, A>,
    /// The constraints that have variables still, by ascending identity.
    woken: Vec<Id, A>,
}

impl<A: Allocator + Copy> Rebound<A> {
    ghost use Rattle.chr_find.specs.Rebinding.{Adds};

    /// Nothing.
    fn none(alloc: A) -> Rebound<A>
        ensures replaced { result.replaced.items ≡ [] }
        ensures woken { result.woken.items ≡ [] }
    {
        Rebound {
            replaced: Vec::new(alloc),
            woken: Vec::new(alloc),
        }
    }

    /// Adds what bindings make of a row that has variables.
    fn add(
        &mut self,
        alloc: A,
        bindings: &Bindings<A>,
        standing: &Constraint<A>,
    ) -> Result<(), Memory>
        ensures { OnOk result (Adds bindings.now.subst standing.now self.old.replaced.items
            self.old.woken.items self.new.replaced.items self.new.woken.items) }
    {
        let new = match resolved(bindings, &standing.row)? {
            None => {
                self.woken.push(standing.id)?;
                return Ok(());
            }
            Some(new) => new,
        };
        if !new.args.is_ground() {
            self.woken.push(standing.id)?;
        }
        self.replaced.push(Replaced {
            id: standing.id,
            old: standing.row.share()?,
            new,
        })?;
        Ok(())
    }
}

impl<A: Allocator + Copy> Table<A> {
    ghost use Rattle.chr_find.specs.Rebinding.{Replaces, new_rows, open_ids, over};
    ghost use Rattle.chr_find.specs.Rebound.{IsRebound};
    ghost use Rattle.chr_find.specs.TableView.{HasRoom, HasRows, IsForAll, IsWhole, atom_at, atoms_with};

    /// What bindings change: the constraints that have variables, with the bindings applied. Makes the room to note it.
    fn rebound(&mut self, bindings: &Bindings<A>) -> Result<Rebound<A>, Memory>
        requires { IsWhole self.old }
        ensures same { (i : ℕ) → atom_at self.new i ≡ atom_at self.old i }
        ensures all { IsForAll self.new }
        ensures ok { IfOk result (IsRebound bindings.now.subst self.new) }
    {
        let mut rows = Vec::new(self.alloc);
        collect(self.index.rows.rows(&Bucket::Open), &mut rows)?;
        self.may_open = !rows.is_empty();
        let mut rebound = Rebound::none(self.alloc);
        for standing in &rows {
            rebound.add(self.alloc, bindings, standing)?;
        }
        self.room(rebound.replaced.len())?;
        Ok(rebound)
    }

    /// Notes a row in the place of another.
    fn replace(&mut self, replaced: Replaced<A>)
        requires all { IsForAll self.old }
        requires room { HasRoom 1 self.old }
        requires there { atom_at self.old replaced.id.0 ≡ Some (row_atom replaced.old) }
        ensures atoms { (i : ℕ) → atom_at self.new i
            ≡ atoms_with (atom_at self.old) replaced.id.0 (Some (row_atom replaced.new)) i }
        ensures room { (n : ℕ) → HasRoom (n + 1) self.old → HasRoom n self.new }
        ensures all { IsForAll self.new }
    {
        let Replaced { id, old, new } = replaced;
        self.keyed.replace(id, &old, &new);
        self.may_open = self.may_open | is_open(&new);
        let out = Change {
            id,
            row: old,
            is_there: false,
        };
        let into = Change {
            id,
            row: new,
            is_there: true,
        };
        self.index.note(IndexChange::Replaced(out, into));
    }

    /// Notes rows in the place of others, for which there is room.
    fn replace_all(&mut self, mut left: Vec<Replaced<A>, A>)
        requires all { IsForAll self.old }
        requires room { HasRoom (vec_len left) self.old }
        requires there { Replaces (atom_at self.old) left.items }
        ensures { (i : ℕ) → atom_at self.new i ≡ over (new_rows left.items) (atom_at self.old) i }
    {
        while let Some(replaced) = left.pop() {
            self.replace(replaced);
        }
    }

    /// Applies bindings to the constraints. It answers which have variables still, by ascending identity. Where memory is refused, contracts
    /// see the same constraints, to which they can be applied again. A table where none has variables stays as it is, and takes no memory.
    pub fn rebind(&mut self, bindings: &Bindings<A>) -> Result<Vec<Id, A>, Memory>
        ensures atoms { OnOk result ((i : ℕ) → atom_at self.new i
            ≡ option_map (resolved_atom bindings.now.subst) (atom_at self.old i)) }
        ensures woken { IfOk result (λ ids. (rows : List semantics.Row) → HasRows self.old rows →
            numbers ids.items ≡ open_ids bindings.now.subst rows) }
        ensures err { OnErr result ((i : ℕ) → atom_at self.new i ≡ atom_at self.old i) }
    {
        if !self.may_open {
            return Ok(Vec::new(self.alloc));
        }
        self.settle_all()?;
        let Rebound { replaced, woken } = self.rebound(bindings)?;
        self.replace_all(replaced);
        Ok(woken)
    }
}
