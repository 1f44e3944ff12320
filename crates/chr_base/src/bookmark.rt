//! Where the search for a constraint goes on.
use chr_find::{Active, Cursor};
use chr_store::Id;
use std::alloc::Allocator;

/// A constraint that fired at a head of a rule and stayed, with the place at which its search goes on.
#[derive(Clone, Copy, Drop)]
pub(crate) struct Bookmark {
    pub(crate) id: Id,
    /// The number of the rule, from 0.
    pub(crate) number: usize,
    /// The head, from 0.
    pub(crate) place: usize,
    pub(crate) cursor: Cursor,
}

impl Bookmark {
    ghost use Rattle.std.specs.Prelude.{◌≡◌, true};

    /// Whether it is of the active constraint, at its head.
    pub(crate) fn is_of<A: Allocator>(&self, active: &Active<'_, A>) -> bool
        ensures id { result ≡ true → self.now.id.0 ≡ active.now.id.0 }
        ensures number { result ≡ true → self.now.number ≡ active.now.number }
        ensures place { result ≡ true → self.now.place ≡ active.now.place }
    {
        self.id == active.id && self.number == active.number && self.place == active.place
    }
}
