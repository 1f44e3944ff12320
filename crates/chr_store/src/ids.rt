//! Ascending lists of identities, which lose the least and the greatest at once.
ghost use Rattle.std.specs.Prelude.{◌≡◌, ◌<◌, ◌≤◌, ◌-◌, ◌++◌, ◌∷◌, ◌==◌, [], All, IfNone, IfOk, IfSome, OnOk, drop, filter, length, not, slice_index, vec_capacity, vec_len};
ghost use Rattle.std.specs.List.Sorted.{IsStrictlyIncreasing};
ghost use Rattle.chr_store.specs.Numbers.{numbers};

use crate::id::Id;
use chr_term::Memory;
use std::alloc::Allocator;
use std::marker::Model;

/// Identities in ascending order. Those before `start` were taken off the front.
#[derive(Drop)]
pub(crate) struct Ids<A: Allocator> {
    items: Vec<Id, A>,
    start: usize,
}

impl<A: Allocator> Model for Ids<A> {
    ghost use Rattle.chr_store.specs.IdsValue.{IdsValue, ids_code};

    ghost Value = { IdsValue };

    ghost coded = { ids_code };

    ghost use Rattle.std.specs.Prelude.{◌-◌, ◌≤◌, drop, vec_capacity, vec_len};
    ghost use Rattle.std.specs.List.Sorted.{IsStrictlyIncreasing};
    ghost use Rattle.chr_store.specs.Numbers.{numbers};

    ghost view = { λ list. record {
      ids = numbers (drop list.start list.items.items);
      spare = vec_capacity list.items - vec_len list.items;
    } };

    ghost invariant = { λ list. IsStrictlyIncreasing (numbers (drop list.start list.items.items))
        × (list.start ≤ vec_len list.items) };
}

impl<A: Allocator> Ids<A> {
    /// No identity.
    pub(crate) fn new(alloc: A) -> Ids<A>
        ensures { result.ids ≡ [] }
    {
        Ids {
            items: Vec::new(alloc),
            start: 0,
        }
    }

    /// One identity, with room for one more.
    pub(crate) fn beside(alloc: A, only: Id) -> Result<Ids<A>, Memory>
        ensures ids { IfOk result (λ made. made.ids ≡ only.0 ∷ []) }
        ensures spare { IfOk result (λ made. 0 < made.spare) }
    {
        let mut items = Vec::with_capacity(alloc, 2)?;
        items.push_reserved(only);
        Ok(Ids { items, start: 0 })
    }

    /// The identities, ascending.
    pub(crate) fn as_slice(&self) -> &[Id]
        ensures ids { numbers result.now ≡ self.now.ids }
        ensures ascending { IsStrictlyIncreasing self.now.ids }
    {
        &self.items[self.start..]
    }

    /// Makes room for one more. Where most were taken off the front, their places are used again.
    pub(crate) fn room(&mut self) -> Result<(), Memory>
        ensures ids { self.new.ids ≡ self.old.ids }
        ensures spare { OnOk result (0 < self.new.spare) }
        ensures no_less { self.old.spare ≤ self.new.spare }
    {
        if self.items.len() == self.items.capacity() && self.start > self.items.len() / 2 {
            take_front(&mut self.items, self.start);
            self.start = 0;
        }
        self.items.reserve(1)
    }

    /// Appends an identity that is greater than all, with room for it.
    pub(crate) fn push_reserved(&mut self, id: Id)
        requires room { 0 < self.old.spare }
        requires greatest { All (λ i. i < id.0) self.old.ids }
        ensures { self.new.ids ≡ self.old.ids ++ id.0 ∷ [] }
    {
        self.items.push_reserved(id);
    }

    /// Takes an identity out, where it is there.
    pub(crate) fn take_out(&mut self, id: Id)
        ensures { self.new.ids ≡ filter (λ i. not (i == id.0)) self.old.ids }
    {
        match place_of(self.as_slice(), id) {
            None => {}
            Some(0) => self.start += 1,
            Some(place) => {
                let _ = self.items.remove(self.start + place);
            }
        }
    }
}

/// Takes that many off the front, and keeps the capacity.
fn take_front<A: Allocator>(items: &mut Vec<Id, A>, count: usize)
    requires { count ≤ vec_len items.old }
    ensures items { items.new.items ≡ drop count items.old.items }
    ensures len { vec_len items.new ≡ vec_len items.old - count }
    ensures capacity { vec_capacity items.new ≡ vec_capacity items.old }
{
    let left = items.len() - count;
    items.copy_within(count.., 0);
    items.truncate(left);
}

/// The place of an identity in an ascending list.
fn place_of(ids: &[Id], id: Id) -> Option<usize>
    requires { IsStrictlyIncreasing (numbers ids.now) }
    ensures there { IfSome result (λ place. (place < length ids.now)
        × (slice_index (numbers ids.now) place ≡ id.0)) }
    ensures absent { IfNone result
        (filter (λ i. not (i == id.0)) (numbers ids.now) ≡ numbers ids.now) }
{
    ids.binary_search(&id).ok()
}
