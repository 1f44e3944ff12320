//! Changes that are made later.
ghost use Rattle.std.specs.Prelude.{◌≡◌, ◌+◌, ◌≤◌, ◌++◌, ◌∷◌, [], ℕ, IfNone, IfSome, List, OnOk, drop, vec_capacity, vec_len};

use crate::Memory;
use std::alloc::{Allocator, Global};
use std::marker::Model;

/// Changes that are noted first and made later, in their order. A change is noted where there is room for it, which takes no memory.
/// Contracts see those that are still to be made, and for how many more there is room.
#[derive(Drop)]
pub struct Pending<C: Drop, A: Allocator = Global> {
    changes: Vec<C, A>,
    /// How many of the changes are made.
    made: usize,
}

impl<C: Drop, A: Allocator> Model for Pending<C, A> {
    ghost use Rattle.chr_keys.specs.PendingValue.{PendingValue, pending_code};

    ghost Value = { PendingValue C };

    ghost coded = { pending_code C.code };

    ghost use Rattle.std.specs.Prelude.{◌-◌, ◌≤◌, drop, vec_capacity, vec_len};

    ghost view = { λ p. record {
      left = drop p.made p.changes.items;
      room = vec_capacity p.changes - vec_len p.changes;
    } };

    ghost invariant = { λ p. p.made ≤ vec_len p.changes };
}

impl<C: Drop, A: Allocator> Pending<C, A> {
    /// No change.
    pub fn new(alloc: A) -> Pending<C, A>
        ensures { result.left ≡ [] }
    {
        Pending {
            changes: Vec::new(alloc),
            made: 0,
        }
    }

    /// Makes room for more changes.
    pub fn reserve(&mut self, more: usize) -> Result<(), Memory>
        ensures left { self.new.left ≡ self.old.left }
        ensures ok { OnOk result (more ≤ self.new.room) }
    {
        self.changes.reserve(more)
    }

    /// Notes a change, for which there is room.
    pub fn note(&mut self, change: C)
        requires { 1 ≤ self.old.room }
        ensures left { self.new.left ≡ self.old.left ++ change ∷ [] }
        ensures room { self.new.room + 1 ≡ self.old.room }
    {
        self.changes.push_reserved(change);
    }

    /// The next change that is to be made.
    pub fn next(&self) -> Option<&C>
        ensures some { IfSome result (λ next. self.now.left ≡ next.now ∷ drop 1 self.now.left) }
        ensures none { IfNone result (self.now.left ≡ []) }
    {
        self.changes.get(self.made)
    }

    /// Leaves out the next change, which is made.
    pub fn advance(&mut self)
        ensures { self.new.left ≡ drop 1 self.old.left }
    {
        if self.made + 1 < self.changes.len() {
            self.made += 1;
        } else {
            self.changes.clear();
            self.made = 0;
        }
    }
}
