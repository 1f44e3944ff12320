//! What has fired, as a search sees it.
ghost use Rattle.std.specs.Prelude.{◌≡◌};
ghost use Rattle.chr_semantics.specs.Search.{History, fired_before};

use chr_store::{Fired, HeadIds, History as Entered};
use std::alloc::Allocator;

/// The propagation history, or as much of it as a search needs.
pub trait FiringHistory {
    ghost history: { Self → History };

    /// Whether it has the firing of a rule, by its number from 0, with the constraints of these identities at its heads.
    fn was_fired(&self, rule: usize, ids: &HeadIds) -> bool
        ensures { result ≡ fired_before (history self.now) rule ids.now };
}

impl<A: Allocator> FiringHistory for Entered<A> {
    ghost use Rattle.chr_store.specs.HistoryView.{entries_view};

    ghost history = { λ history. (entries_view history).list };

    // Where nothing has fired, no firing is hashed.
    fn was_fired(&self, rule: usize, ids: &HeadIds) -> bool {
        !self.list().is_empty() && self.has(&Fired { rule, ids: *ids })
    }
}
