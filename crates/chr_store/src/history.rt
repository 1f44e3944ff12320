//! The propagation history: what has fired, and how often each rule has.
ghost use Rattle.std.specs.Prelude.{◌≡◌, IfOk, OnErr, OnOk, length, not};
ghost use Rattle.chr_semantics.specs.Changes.{entered, no_entries};
ghost use Rattle.chr_semantics.specs.Search.{fired_before};
ghost use Rattle.chr_store.specs.Counts.{AreUpTo};

use crate::entry::Entry;
use crate::fired::Fired;
use crate::stamps::Stamps;
use chr_term::{FoldState, Memory};
use indexmap::IndexSet;
use std::alloc::{Allocator, Global};

/// The firings of a run in the order in which they were entered, each once.
#[derive(Drop)]
pub struct History<A: Allocator = Global> {
    entries: IndexSet<Entry<A>, FoldState, A>,
    stamps: Stamps<A>,
    alloc: A,
    ghost up_to: { AreUpTo stamps.stamps.items (length entries.keys) },
}

impl<A: Allocator + Copy> History<A> {
    ghost use Rattle.chr_store.specs.HistoryView.{entries_view};

    /// Nothing has fired.
    pub fn new(alloc: A) -> History<A>
        ensures { entries_view result ≡ no_entries }
    {
        History {
            entries: IndexSet::new(alloc),
            stamps: Stamps::new(alloc),
            alloc,
        }
    }

    /// Enters a firing, and says whether it was new. Where memory is refused, nothing changes.
    pub fn put(&mut self, fired: Fired) -> Result<bool, Memory>
        ensures ok { OnOk result (entries_view self.new ≡ entered (entries_view self.old) fired.rule fired.ids) }
        ensures is_new { IfOk result (λ is_new. is_new
            ≡ not (fired_before (entries_view self.old).list fired.rule fired.ids)) }
        ensures err { OnErr result (entries_view self.new ≡ entries_view self.old) }
    {
        let rule = fired.rule as u64;
        self.stamps.room(rule)?;
        let entry = Entry::of(self.alloc, &fired)?;
        let (_, is_new) = self.entries.insert_full(entry)?;
        if is_new {
            self.stamps.raise(rule, self.entries.len() as u64);
        }
        Ok(is_new)
    }
}

impl<A: Allocator> History<A> {
    ghost use Rattle.chr_store.specs.HistoryView.{entries_view, firings_view};

    /// Whether the firing was entered.
    pub fn has(&self, fired: &Fired) -> bool
        ensures { result ≡ fired_before (entries_view self.now).list fired.now.rule fired.now.ids }
    {
        self.entries.contains(fired)
    }

    /// The firings, in the order in which they were entered.
    pub fn list(&self) -> &[Entry<A>]
        ensures { firings_view result.now ≡ (entries_view self.now).list }
    {
        self.entries.as_slice()
    }

    /// How many calls so far have entered a firing of a rule.
    pub fn stamp(&self, rule: usize) -> u64
        ensures { result ≡ (entries_view self.now).stamps rule }
    {
        self.stamps.of(rule as u64)
    }
}
