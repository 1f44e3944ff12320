//! Tables: the living constraints, to be searched.
ghost use Rattle.std.specs.Prelude.{◌≡◌, ◌+◌, ◌≤◌, ◌&&◌, ◌||◌, ◌==◌, IfOk, List, None, OnOk, Some, ℕ, false, length, not, option_map, true};
ghost use Rattle.chr_semantics.specs.Tree.{is_ground_trees};
ghost use Rattle.chr_store.specs.Rows.{row_atom};
ghost use Rattle.chr_find.specs.AtomCode.{atoms};
ghost use Rattle.chr_find.specs.LentKeysView.{AreListed};
ghost use Rattle.chr_find.specs.Newest.{IsApart, IsNot, IsThe, with_newest};
ghost use Rattle.chr_find.specs.PendingIndexView as listing;
ghost use Rattle.chr_find.specs.PendingIndexView.{AreShown, indexed_atom};
ghost use Rattle.chr_find.specs.Shown.{AreGround};

use crate::Memory;
use crate::bucket::Bucket;
use crate::constraint::{Constraint, collect};
use crate::index::{Change, Index};
use crate::index_change::IndexChange;
use crate::lent_keys::LentKeys;
use crate::pending_index::PendingIndex;
use crate::plan::Plan;
use chr_map::{Pointer, Share};
use chr_store::{Id, Row};
use std::alloc::{Allocator, Global};
use std::mem;

/// The living constraints with their resolved arguments, by symbol and by what they have at their positions. A change takes two calls: one
/// makes room, which may be refused, and the other notes it, which takes no memory. Before the next search `settle` makes what was noted.
/// Contracts see the constraint of each identity, as when all is made.
///
/// The constraint that was added last stands beside the index until another is added, or searched for: it is no partner of itself, and
/// many constraints live no longer than that.
#[derive(Drop)]
pub struct Table<A: Allocator = Global> {
    pub(crate) index: PendingIndex<A>,
    pub(crate) newest: Option<Constraint<A>>,
    pub(crate) keyed: LentKeys<A>,
    /// Whether a constraint may have variables: where none has, bindings change nothing.
    pub(crate) may_open: bool,
    pub(crate) alloc: A,
    ghost shown: { AreShown index } by { Prim.hlevel atoms },
    ghost apart: { IsApart newest (indexed_atom index) } by { Prim.hlevel atoms },
    ghost listed: { AreListed (with_newest newest (indexed_atom index)) keyed },
    ghost ground: { may_open ≡ false → AreGround (with_newest newest (indexed_atom index)) },
}

/// Whether a row has variables.
pub(crate) fn is_open<A: Allocator>(row: &Row<A>) -> bool
    ensures { result ≡ not (is_ground_trees (row_atom row.now).args) }
{
    !row.args.is_ground()
}

/// Whether the newest constraint is the one with the identity.
fn is_newest<A: Allocator>(newest: &Option<Constraint<A>>, id: Id) -> bool
    ensures yes { result ≡ true → IsThe newest.now id.0 }
    ensures no { result ≡ false → IsNot newest.now id.0 }
{
    match newest {
        None => false,
        Some(standing) => standing.id == id,
    }
}

impl<A: Allocator + Copy> Table<A> {
    ghost use Rattle.chr_find.specs.TableView.{HasRoom, IsFor, IsForAll, IsKeyed, IsSettled, IsWhole, atom_at, atoms_with};

    /// No constraint.
    pub fn new(alloc: A, plan: Pointer<Plan<A>, A>) -> Table<A>
        ensures atoms { (i : ℕ) → atom_at result i ≡ None }
        ensures whole { IsWhole result }
    {
        Table {
            index: PendingIndex::new(alloc, plan, Index::new(alloc)),
            newest: None,
            keyed: LentKeys::off(),
            may_open: false,
            alloc,
        }
    }

    /// Makes room for more changes.
    pub fn room(&mut self, more: usize) -> Result<(), Memory>
        ensures same { (i : ℕ) → atom_at self.new i ≡ atom_at self.old i }
        ensures own { (i : ℕ) → IsFor i self.old → IsFor i self.new }
        ensures ok { OnOk result (HasRoom more self.new) }
    {
        self.keyed.room(more)?;
        self.index.room(more)
    }

    /// Notes that the newest constraint has to be put into the index, for which there is room.
    fn enter_newest(&mut self)
        requires { listing.HasRoom 1 self.old.index }
        ensures same { (i : ℕ) → atom_at self.new i ≡ atom_at self.old i }
        ensures newest { self.new.newest ≡ None }
        ensures keyed { self.new.keyed ≡ self.old.keyed }
        ensures open { self.new.may_open ≡ self.old.may_open }
        ensures room { (n : ℕ) → listing.HasRoom (n + 1) self.old.index → listing.HasRoom n self.new.index }
    {
        if let Some(Constraint { id, row }) = mem::replace(&mut self.newest, None) {
            self.index.note(IndexChange::Changed(Change {
                id,
                row,
                is_there: true,
            }));
        }
    }

    /// Notes that a constraint lives.
    pub fn add(&mut self, id: Id, row: Row<A>)
        requires room { HasRoom 1 self.old }
        requires absent { atom_at self.old id.0 ≡ None }
        ensures atoms { (i : ℕ) → atom_at self.new i
            ≡ atoms_with (atom_at self.old) id.0 (Some (row_atom row)) i }
        ensures room { (n : ℕ) → HasRoom (n + 1) self.old → HasRoom n self.new }
    {
        self.enter_newest();
        self.keyed.enter(id, &row);
        self.may_open = self.may_open | is_open(&row);
        self.newest = Some(Constraint { id, row });
    }

    /// Notes that a constraint lives no more. Its row is the one that stands there.
    pub fn remove(&mut self, id: Id, row: Row<A>)
        requires room { HasRoom 1 self.old }
        requires there { atom_at self.old id.0 ≡ Some (row_atom row) }
        ensures atoms { (i : ℕ) → atom_at self.new i ≡ atoms_with (atom_at self.old) id.0 None i }
        ensures room { (n : ℕ) → HasRoom (n + 1) self.old → HasRoom n self.new }
    {
        self.keyed.leave(id, &row);
        if is_newest(&self.newest, id) {
            self.newest = None;
        } else {
            self.index.note(IndexChange::Changed(Change {
                id,
                row,
                is_there: false,
            }));
        }
    }

    /// Makes all changes that are noted; the newest constraint stays beside the index. Contracts see the same constraints, after a refusal
    /// too.
    pub fn settle(&mut self) -> Result<(), Memory>
        ensures same { (i : ℕ) → atom_at self.new i ≡ atom_at self.old i }
        ensures own { (i : ℕ) → IsFor i self.old → IsFor i self.new }
        ensures ok { OnOk result (IsSettled self.new) }
    {
        self.keyed.settle()?;
        self.index.settle()
    }

    /// Makes room for the newest constraint, if there is one, and notes that it has to be put into the index.
    fn enlist(&mut self) -> Result<(), Memory>
        ensures same { (i : ℕ) → atom_at self.new i ≡ atom_at self.old i }
        ensures ok { OnOk result (IsForAll self.new) }
    {
        if self.newest.is_some() {
            self.index.room(1)?;
            self.enter_newest();
        }
        Ok(())
    }

    /// Whether no other constraint than this stands beside the index.
    fn is_for(&self, id: Id) -> bool
        ensures { result ≡ true → IsFor id.0 self.now }
    {
        match &self.newest {
            None => true,
            Some(newest) => newest.id == id,
        }
    }

    /// Makes the index whole, for any search. Contracts see the same constraints, after a refusal too.
    pub fn settle_all(&mut self) -> Result<(), Memory>
        ensures same { (i : ℕ) → atom_at self.new i ≡ atom_at self.old i }
        ensures ok { OnOk result (IsWhole self.new) }
    {
        self.enlist()?;
        self.settle()
    }

    /// Makes the table ready to be searched for a constraint. Contracts see the same constraints, after a refusal too.
    pub fn settle_for(&mut self, id: Id) -> Result<(), Memory>
        ensures same { (i : ℕ) → atom_at self.new i ≡ atom_at self.old i }
        ensures settled { OnOk result (IsSettled self.new) }
        ensures own { OnOk result (IsFor id.0 self.new) }
    {
        if self.is_for(id) {
            self.settle()
        } else {
            self.settle_all()
        }
    }

    /// Begins to keep the identities by key, which snapshots lend. It does nothing where they are kept.
    pub fn keep_keys(&mut self) -> Result<(), Memory>
        requires { IsWhole self.old }
        ensures same { (i : ℕ) → atom_at self.new i ≡ atom_at self.old i }
        ensures whole { IsWhole self.new }
        ensures ok { OnOk result (IsKeyed self.new) }
    {
        if self.keyed.is_kept() {
            return Ok(());
        }
        let mut rows = Vec::new(self.alloc);
        collect(self.index.rows.rows(&Bucket::All), &mut rows)?;
        self.keyed = LentKeys::of_rows(self.alloc, rows.as_slice())?;
        Ok(())
    }

    /// The row of a constraint that stands in the index.
    fn listed_row(&self, id: Id) -> Option<&Row<A>>
        requires { IsSettled self.now }
        ensures { option_map (λ row. row_atom row.now) result ≡ indexed_atom self.now.index id.0 }
    {
        self.index.rows.row(id)
    }

    /// The row of a constraint that lives.
    pub fn row(&self, id: Id) -> Option<&Row<A>>
        requires { IsSettled self.now }
        ensures { option_map (λ row. row_atom row.now) result ≡ atom_at self.now id.0 }
    {
        match &self.newest {
            None => self.listed_row(id),
            Some(newest) => {
                if newest.id == id {
                    Some(&newest.row)
                } else {
                    self.listed_row(id)
                }
            }
        }
    }

    /// A second table of the same constraints, at the price of some pointers.
    pub fn share(&self) -> Result<Table<A>, Memory>
        requires { IsWhole self.now }
        ensures atoms { IfOk result (λ shared. (i : ℕ) → atom_at shared i ≡ atom_at self.now i) }
        ensures whole { IfOk result (λ shared. IsWhole shared) }
        ensures keyed { IfOk result (λ shared. IsKeyed self.now → IsKeyed shared) }
    {
        let plan = self.index.plan.share()?;
        let rows = self.index.rows.share()?;
        Ok(Table {
            index: PendingIndex::new(self.alloc, plan, rows),
            newest: None,
            keyed: self.keyed.share()?,
            may_open: self.may_open,
            alloc: self.alloc,
        })
    }
}
