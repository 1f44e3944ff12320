//! An index, with changes that are noted first and made later.
ghost use Rattle.std.specs.Prelude.{◌≡◌, ◌+◌, ℕ, OnOk};

use crate::Memory;
use crate::index::Index;
use crate::index_change::IndexChange;
use crate::plan::Plan;
use chr_keys::Pending;
use chr_map::Pointer;
use std::alloc::Allocator;

/// Rows by their buckets, and changes of them. A change is noted where there is room for it, which takes no memory, and is made by
/// `settle`. Contracts see what stands when all is made.
#[derive(Drop)]
pub(crate) struct PendingIndex<A: Allocator> {
    pub(crate) plan: Pointer<Plan<A>, A>,
    pub(crate) rows: Index<A>,
    pending: Pending<IndexChange<A>, A>,
}

impl<A: Allocator + Copy> PendingIndex<A> {
    ghost use Rattle.chr_find.specs.IndexChangeView.{rows_after};
    ghost use Rattle.chr_find.specs.IndexKeys.{IndexKey, held};
    ghost use Rattle.chr_find.specs.PendingIndexView.{HasRoom, IsSettled, row_at};

    /// These rows, and nothing noted.
    pub(crate) fn new(alloc: A, plan: Pointer<Plan<A>, A>, rows: Index<A>) -> PendingIndex<A>
        ensures rows { (q : IndexKey) → row_at result q ≡ held rows q }
        ensures settled { IsSettled result }
        ensures plan { result.plan ≡ plan }
    {
        PendingIndex {
            plan,
            rows,
            pending: Pending::new(alloc),
        }
    }

    /// Makes room for more changes.
    pub(crate) fn room(&mut self, more: usize) -> Result<(), Memory>
        ensures rows { (q : IndexKey) → row_at self.new q ≡ row_at self.old q }
        ensures plan { self.new.plan ≡ self.old.plan }
        ensures ok { OnOk result (HasRoom more self.new) }
    {
        self.pending.reserve(more)
    }

    /// Notes what has to be made.
    pub(crate) fn note(&mut self, note: IndexChange<A>)
        requires { HasRoom 1 self.now }
        ensures rows { (q : IndexKey) → row_at self.new q
            ≡ rows_after self.old.plan note (row_at self.old) q }
        ensures plan { self.new.plan ≡ self.old.plan }
        ensures room { (n : ℕ) → HasRoom (n + 1) self.old → HasRoom n self.new }
    {
        self.pending.note(note);
    }

    /// Makes all that is noted. Where that is refused, some of it may be made in part, and stays noted.
    pub(crate) fn settle(&mut self) -> Result<(), Memory>
        ensures rows { (q : IndexKey) → row_at self.new q ≡ row_at self.old q }
        ensures plan { self.new.plan ≡ self.old.plan }
        ensures ok { OnOk result (IsSettled self.new) }
    {
        while let Some(note) = self.pending.next() {
            note.make(self.plan.value(), &mut self.rows)?;
            self.pending.advance();
        }
        Ok(())
    }
}
