//! Firings that are noted first and entered later.
ghost use Rattle.std.specs.Prelude.{◌≡◌, ◌||◌, ◌&&◌, ◌==◌, ◌+◌, ℕ, IfOk, List, OnOk, is_some};
ghost use Rattle.std.specs.List.{list_all};
ghost use Rattle.chr_semantics.specs.Search.{atom_of, fired_before, same_ids};
ghost use Rattle.chr_store.specs.HistoryView.{entries_view};
ghost use Rattle.chr_store.specs.StoreView.{store_view};

use crate::Memory;
use crate::firings::Firings;
use crate::scope::Scope;
use crate::snapshot_taking::firings_taken;
use chr_keys::Pending;
use chr_store::{Fired, History, Store};
use std::alloc::{Allocator, Global};

/// Firings that snapshots lend. One is noted where there is room for it, which takes no memory, and `settle` enters it. Contracts see all
/// that are entered or noted.
#[derive(Drop)]
pub struct PendingFirings<A: Allocator = Global> {
    pub(crate) firings: Firings<A>,
    pending: Pending<Fired, A>,
}

impl<A: Allocator + Copy> PendingFirings<A> {
    ghost use Rattle.chr_find.specs.Firings.{fired_in};
    ghost use Rattle.chr_find.specs.PendingFiringsView.{HasRoom, IsSettled, noted_in};

    /// Those of a history whose constraints all live.
    pub fn of(alloc: A, store: &Store<A>, history: &History<A>) -> Result<PendingFirings<A>, Memory>
        ensures { IfOk result (λ firings. (r : ℕ) (ids : List ℕ) → noted_in firings r ids
            ≡ (fired_before (entries_view history.now).list r ids
            && list_all (λ i. is_some (atom_of (store_view store.now).rows i)) ids)) }
    {
        Ok(PendingFirings {
            firings: firings_taken(alloc, store, history, Scope::whole(store))?,
            pending: Pending::new(alloc),
        })
    }

    /// Makes room for more firings.
    pub fn room(&mut self, more: usize) -> Result<(), Memory>
        ensures same { (r : ℕ) (ids : List ℕ) → noted_in self.new r ids ≡ noted_in self.old r ids }
        ensures ok { OnOk result (HasRoom more self.new) }
    {
        self.pending.reserve(more)
    }

    /// Notes a firing.
    pub fn note(&mut self, fired: Fired)
        requires { HasRoom 1 self.old }
        ensures { (r : ℕ) (ids : List ℕ) → noted_in self.new r ids
            ≡ (noted_in self.old r ids || (r == fired.rule && same_ids ids fired.ids)) }
    {
        self.pending.note(fired);
    }

    /// Enters all that are noted. Where that is refused, those that are left stay noted.
    pub fn settle(&mut self) -> Result<(), Memory>
        ensures same { (r : ℕ) (ids : List ℕ) → noted_in self.new r ids ≡ noted_in self.old r ids }
        ensures ok { OnOk result (IsSettled self.new) }
    {
        while let Some(fired) = self.pending.next() {
            self.firings.enter(*fired)?;
            self.pending.advance();
        }
        Ok(())
    }

    /// The firings, at the price of a pointer.
    pub(crate) fn share(&self) -> Result<Firings<A>, Memory>
        requires { IsSettled self.now }
        ensures { IfOk result (λ shared. (r : ℕ) (ids : List ℕ) → fired_in shared r ids ≡ noted_in self.now r ids) }
    {
        self.firings.share()
    }
}
