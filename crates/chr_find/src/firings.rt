//! Firings in a map.
ghost use Rattle.std.specs.Prelude.{◌≡◌, ◌||◌, ◌&&◌, ◌==◌, ℕ, IfOk, List, OnErr, OnOk, false};
ghost use Rattle.chr_semantics.specs.Search.{same_ids};

use crate::Memory;
use crate::firing_history::FiringHistory;
use chr_map::{Map, Share};
use chr_store::{Fired, HeadIds};
use std::alloc::Allocator;

/// Firings. One whose constraint has died stays: no search asks for it any more, and its identity never comes again.
#[derive(Drop)]
pub struct Firings<A: Allocator> {
    all: Map<Fired, (), A>,
}

impl<A: Allocator + Copy> Firings<A> {
    ghost use Rattle.chr_find.specs.Firings.{fired_in};

    /// None.
    pub(crate) fn new(alloc: A) -> Firings<A>
        ensures { (r : ℕ) (ids : List ℕ) → fired_in result r ids ≡ false }
    {
        Firings {
            all: Map::new(alloc),
        }
    }

    /// One more.
    pub(crate) fn enter(&mut self, fired: Fired) -> Result<(), Memory>
        ensures ok { OnOk result ((r : ℕ) (ids : List ℕ) → fired_in self.new r ids
            ≡ (fired_in self.old r ids || (r == fired.rule && same_ids ids fired.ids))) }
        ensures err { OnErr result ((r : ℕ) (ids : List ℕ) → fired_in self.new r ids ≡ fired_in self.old r ids) }
    {
        self.all.put(fired, ())
    }

    /// The firings a second time, at the price of a pointer.
    pub(crate) fn share(&self) -> Result<Firings<A>, Memory>
        ensures { IfOk result (λ shared. (r : ℕ) (ids : List ℕ) → fired_in shared r ids ≡ fired_in self.now r ids) }
    {
        Ok(Firings {
            all: self.all.share()?,
        })
    }
}

impl<A: Allocator + Copy> FiringHistory for Firings<A> {
    ghost use Rattle.chr_find.specs.Firings.{history_of};

    ghost history = { λ firings. history_of firings.all };

    fn was_fired(&self, rule: usize, ids: &HeadIds) -> bool {
        self.all.get(&Fired { rule, ids: *ids }).is_some()
    }
}
