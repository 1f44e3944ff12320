//! The identities at the heads of a rule.
ghost use Rattle.std.specs.Prelude.{◌≡◌, ◌<◌, ◌≤◌, ◌++◌, ◌∷◌, [], Some, length, nat_eq, option_map, refl, slice_get};
ghost use Rattle.std.proofs.Common.{ap};
ghost use Rattle.std.specs.Cmp.{partial_equiv_from_equiv};
ghost use Rattle.std.specs.Cmp.Lexicographic.{bytes_decides, nat_list_cmp_total, nat_list_eq_equiv, pointwise, slice_cmp, texts_po, texts_ties};
ghost use Rattle.std.specs.Hash as fed;
ghost use Rattle.std.specs.Ordering.{nat_cmp};
ghost use Rattle.chr_semantics.specs.declared.limits.TheConstants.{MAX_HEADS};
ghost use Rattle.chr_store.specs.Numbers.{numbers};

use crate::id::Id;
use chr_semantics::limits::MAX_HEADS;
use std::cmp::Ordering;
use std::hash::{Hash, Hasher};
use std::marker::Model;

/// The identities of the constraints at the heads of a rule, in head order. They are at most `MAX_HEADS`, and stand in the value itself.
#[derive(Clone, Copy, Drop)]
pub struct HeadIds {
    /// Those behind the last one are 0.
    ids: [Id; MAX_HEADS],
    len: usize,
}

impl Model for HeadIds {
    ghost use Rattle.std.specs.Prelude.{ℕ, List};
    ghost use Rattle.std.specs.Coded.{coded_list, coded_ℕ};

    ghost Value = { List ℕ };

    ghost coded = { coded_list coded_ℕ };

    ghost use Rattle.std.specs.Prelude.{length, take};
    ghost use Rattle.chr_store.specs.HeadIdsValue.{ArePlaced, count_is, padded, places_are};
    ghost use Rattle.chr_store.specs.Numbers.{numbers};

    ghost view = { λ s. numbers (take s.len s.ids) };

    ghost invariant = { λ s. ArePlaced s.len s.ids };

    ghost inverse = { λ ns. record { ids = padded ns; len = length ns } };

    ghost inverse_ok = { λ s h i. record {
      ids = places_are s.len s.ids h i;
      len = count_is s.len s.ids h i;
    } };
}

impl HeadIds {
    /// None.
    pub fn new() -> HeadIds
        ensures { result ≡ [] }
    {
        HeadIds {
            ids: [Id(0); MAX_HEADS],
            len: 0,
        }
    }

    /// These.
    pub fn of(list: &[Id]) -> HeadIds
        requires { length list.now ≤ MAX_HEADS }
        ensures { result ≡ numbers list.now }
    {
        let mut ids = [Id(0); MAX_HEADS];
        ids[..list.len()].copy_from_slice(list);
        HeadIds {
            ids,
            len: list.len(),
        }
    }

    /// How many they are.
    pub fn len(&self) -> usize
        ensures len { result ≡ length self.now }
        ensures few { result ≤ MAX_HEADS }
    {
        self.len
    }

    /// One more, behind the others.
    pub fn push(&mut self, id: Id)
        requires { length self.old < MAX_HEADS }
        ensures { self.new ≡ self.old ++ id.0 ∷ [] }
    {
        self.ids[self.len] = id;
        self.len += 1;
    }

    /// The identity at a head, counted from 0.
    pub fn get(&self, head: usize) -> Option<Id>
        ensures { option_map (λ id. id.0) result ≡ slice_get self.now head }
    {
        self.as_slice().get(head).copied()
    }

    /// The identities, in their order.
    pub fn as_slice(&self) -> &[Id]
        ensures ids { numbers result.now ≡ self.now }
        ensures few { length result.now ≤ MAX_HEADS }
    {
        &self.ids[..self.len]
    }
}

impl PartialEq for HeadIds {
    ghost eq = { pointwise nat_eq };

    ghost laws = { partial_equiv_from_equiv nat_list_eq_equiv };

    fn eq(&self, other: &Self) -> bool {
        self.as_slice() == other.as_slice()
    }
}

impl Eq for HeadIds {
    ghost laws = { nat_list_eq_equiv };
}

impl PartialOrd for HeadIds {
    ghost partial_cmp = { λ x y. Some (slice_cmp nat_cmp x y) };

    ghost laws = { texts_po };

    fn partial_cmp(&self, other: &Self) -> Option<Ordering> {
        Some(self.cmp(other))
    }
}

impl Ord for HeadIds {
    ghost cmp = { slice_cmp nat_cmp };

    ghost total = { nat_list_cmp_total };

    ghost matches_partial_cmp = { λ x y. refl };

    ghost matches_eq = { texts_ties };

    fn cmp(&self, other: &Self) -> Ordering {
        self.as_slice().cmp(&other.as_slice())
    }
}

impl Hash for HeadIds {
    ghost hash_input = { fed.slice fed.u64 };

    ghost respects_eq = { λ x y h. ap (fed.slice fed.u64) ((bytes_decides x y).0 h) };

    fn hash<H: Hasher>(&self, state: &mut H) {
        self.as_slice().hash(state);
    }
}
