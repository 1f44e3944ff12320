//! Firings as the history keeps them.
ghost use Rattle.std.specs.Prelude.{◌≡◌, ◌≤◌, IfOk, length};
ghost use Rattle.chr_semantics.specs.declared.limits.TheConstants.{MAX_HEADS};
ghost use Rattle.chr_store.specs.EntryIdsView.{ids_in};
ghost use Rattle.chr_store.specs.FiredLaws.{alike_fired, fed_fired, same_fired, same_fired_equiv, same_fired_per};
ghost use Rattle.chr_store.specs.Numbers.{numbers};

use crate::fired::Fired;
use crate::head_ids::HeadIds;
use crate::id::Id;
use chr_term::Memory;
use indexmap::Equivalent;
use std::alloc::{Allocator, Global};
use std::hash::{Hash, Hasher};
use std::marker::Model;

/// Identities. Up to three stand in the value itself.
#[derive(Drop)]
enum EntryIds<A: Allocator> {
    One([Id; 1]),
    Two([Id; 2]),
    Three([Id; 3]),
    More(Vec<Id, A>),
}

impl<A: Allocator + Copy> EntryIds<A> {
    /// These.
    fn of(alloc: A, ids: &[Id]) -> Result<EntryIds<A>, Memory>
        ensures { IfOk result (λ made. numbers (ids_in made) ≡ numbers ids.now) }
    {
        match ids.len() {
            1 => Ok(EntryIds::One([ids[0]])),
            2 => Ok(EntryIds::Two([ids[0], ids[1]])),
            3 => Ok(EntryIds::Three([ids[0], ids[1], ids[2]])),
            _ => {
                let mut more = Vec::with_capacity(alloc, ids.len())?;
                more.extend_from_slice(ids)?;
                Ok(EntryIds::More(more))
            }
        }
    }
}

impl<A: Allocator> EntryIds<A> {
    /// The identities, in their order.
    fn as_slice(&self) -> &[Id]
        ensures { result.now ≡ ids_in self.now }
    {
        match self {
            EntryIds::One(ids) => ids,
            EntryIds::Two(ids) => ids,
            EntryIds::Three(ids) => ids,
            EntryIds::More(ids) => ids.as_slice(),
        }
    }
}

/// A firing as the history keeps it, in less memory.
#[derive(Drop)]
pub struct Entry<A: Allocator = Global> {
    rule: usize,
    ids: EntryIds<A>,
}

impl<A: Allocator> Model for Entry<A> {
    ghost use Rattle.chr_store.specs.FiredCode.{fired_code};
    ghost use Rattle.chr_store.specs.declared.fired.Fired.{Fired as Firing};

    ghost Value = { Firing };

    ghost coded = { fired_code };

    ghost use Rattle.std.specs.Prelude.{◌≤◌, length};
    ghost use Rattle.chr_semantics.specs.declared.limits.TheConstants.{MAX_HEADS};
    ghost use Rattle.chr_store.specs.EntryIdsView.{ids_in};
    ghost use Rattle.chr_store.specs.Numbers.{numbers};

    ghost view = { λ e. record { rule = e.rule; ids = numbers (ids_in e.ids) } };

    ghost invariant = { λ e. length (ids_in e.ids) ≤ MAX_HEADS };
}

impl<A: Allocator + Copy> Entry<A> {
    /// Of a firing.
    pub(crate) fn of(alloc: A, fired: &Fired) -> Result<Entry<A>, Memory>
        ensures { IfOk result (λ entry. entry ≡ fired.now) }
    {
        Ok(Entry {
            rule: fired.rule,
            ids: EntryIds::of(alloc, fired.ids.as_slice())?,
        })
    }
}

impl<A: Allocator> Entry<A> {
    /// The number of the rule, from 0.
    pub fn rule(&self) -> usize
        ensures { result ≡ self.now.rule }
    {
        self.rule
    }

    /// The identities of the constraints at the heads, in head order.
    pub fn ids(&self) -> &[Id]
        ensures ids { numbers result.now ≡ self.now.ids }
        ensures few { length result.now ≤ MAX_HEADS }
    {
        self.ids.as_slice()
    }

    /// The firing.
    pub fn fired(&self) -> Fired
        ensures { result ≡ self.now }
    {
        Fired {
            rule: self.rule,
            ids: HeadIds::of(self.ids()),
        }
    }
}

impl<A: Allocator> PartialEq for Entry<A> {
    ghost eq = { same_fired };

    ghost laws = { same_fired_per };

    fn eq(&self, other: &Self) -> bool {
        self.rule == other.rule && self.ids() == other.ids()
    }
}

impl<A: Allocator> Eq for Entry<A> {
    ghost laws = { same_fired_equiv };
}

impl<A: Allocator> Hash for Entry<A> {
    ghost hash_input = { fed_fired };

    ghost respects_eq = { alike_fired };

    fn hash<H: Hasher>(&self, state: &mut H) {
        self.rule.hash(state);
        self.ids().hash(state);
    }
}

impl<'a, A: Allocator> Equivalent<Entry<A>> for &'a Fired {
    ghost equivalent = { λ q entry. same_fired q.now entry };

    ghost respects_hash = { λ q. alike_fired q.now };

    ghost respects_eq = { λ q. same_fired_equiv.congr q.now };

    fn equivalent(&self, entry: &Entry<A>) -> bool {
        self.rule == entry.rule && self.ids.as_slice() == entry.ids()
    }
}
