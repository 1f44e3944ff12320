//! Ascending lists of identities of which most have one.
ghost use Rattle.std.specs.Prelude.{◌≡◌, ◌<◌, ◌++◌, ◌∷◌, ◌==◌, [], All, filter, not, OnOk};
ghost use Rattle.std.specs.List.Sorted.{IsStrictlyIncreasing};
ghost use Rattle.chr_store.specs.Numbers.{numbers};

use crate::id::Id;
use crate::ids::Ids;
use chr_term::Memory;
use std::alloc::Allocator;
use std::marker::Model;
use std::slice;

/// No identity, one, which stands in the value itself, or a list.
#[derive(Drop)]
enum Held<A: Allocator> {
    Nothing,
    One(Id),
    Many(Ids<A>),
}

/// The identities of the constraints that have a key, ascending. A single one takes no memory of its own: most keys have one constraint.
#[derive(Drop)]
pub(crate) struct KeyIds<A: Allocator> {
    held: Held<A>,
}

impl<A: Allocator> Model for KeyIds<A> {
    ghost use Rattle.chr_store.specs.IdsValue.{IdsValue, ids_code};

    ghost Value = { IdsValue };

    ghost coded = { ids_code };

    ghost use Rattle.chr_store.specs.KeyIdsView.{held_view};

    ghost view = { λ list. held_view list.held };
}

impl<A: Allocator> KeyIds<A> {
    /// No identity, with room for one.
    pub(crate) fn new() -> KeyIds<A>
        ensures { result.ids ≡ [] }
    {
        KeyIds {
            held: Held::Nothing,
        }
    }

    /// The identities, ascending.
    pub(crate) fn as_slice(&self) -> &[Id]
        ensures ids { numbers result.now ≡ self.now.ids }
        ensures ascending { IsStrictlyIncreasing self.now.ids }
    {
        match &self.held {
            Held::Nothing => &[],
            Held::One(id) => slice::from_ref(id),
            Held::Many(ids) => ids.as_slice(),
        }
    }

    /// Appends an identity that is greater than all, with room for it.
    pub(crate) fn push_reserved(&mut self, id: Id)
        requires room { 0 < self.old.spare }
        requires greatest { All (λ i. i < id.0) self.old.ids }
        ensures { self.new.ids ≡ self.old.ids ++ id.0 ∷ [] }
    {
        match &mut self.held {
            Held::Nothing => self.held = Held::One(id),
            Held::One(_) => unreachable!(),
            Held::Many(ids) => ids.push_reserved(id),
        }
    }

    /// Takes an identity out, where it is there.
    pub(crate) fn take_out(&mut self, id: Id)
        ensures { self.new.ids ≡ filter (λ i. not (i == id.0)) self.old.ids }
    {
        match &mut self.held {
            Held::Nothing => {}
            Held::One(only) => {
                if *only == id {
                    self.held = Held::Nothing;
                }
            }
            Held::Many(ids) => ids.take_out(id),
        }
    }
}

impl<A: Allocator + Copy> KeyIds<A> {
    /// Makes room for one more, and changes nothing else.
    pub(crate) fn room(&mut self, alloc: A) -> Result<(), Memory>
        ensures ids { self.new.ids ≡ self.old.ids }
        ensures spare { OnOk result (0 < self.new.spare) }
    {
        match &mut self.held {
            Held::Nothing => Ok(()),
            Held::One(only) => {
                let ids = Ids::beside(alloc, *only)?;
                self.held = Held::Many(ids);
                Ok(())
            }
            Held::Many(ids) => ids.room(),
        }
    }
}
