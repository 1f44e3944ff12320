//! Which searches are for a rule with a list of constraints.
ghost use Rattle.std.specs.Prelude.{◌≡◌, ◌∷◌, List, Option, is_some, option_map};
ghost use Rattle.std.specs.List.{list_all};
ghost use Rattle.chr_semantics.specs.Life.{is_its_head, looks_at_top};
ghost use Rattle.chr_semantics.specs.Program as semantics;
ghost use Rattle.chr_semantics.specs.Search.{atom_of};
ghost use Rattle.chr_semantics.specs.State.{Element};
ghost use Rattle.chr_store.specs.Numbers.{numbers};
ghost use Rattle.chr_store.specs.StoreView.{store_view};
ghost use Rattle.chr_rules.specs.Index.{pair_of, pair_view};
ghost use Rattle.chr_rules.specs.ProgramView.{rules_of};
ghost use Rattle.chr_trace.specs.State.{elem_view};

use chr_rules::{Occurrence, Program};
use chr_store::{HeadIds, Id, Store};
use chr_trace::Elem;
use std::alloc::Allocator;

/// Whether an occurrence is that of the constraint in the list, in the rule.
fn is_its_head(rule: usize, ids: HeadIds, id: Id, occurrence: Option<Occurrence>) -> bool
    ensures { (o : Option semantics.Occurrence) → option_map pair_view occurrence ≡ option_map pair_of o
        → result ≡ is_its_head rule ids id.0 o }
{
    let Some(occurrence) = occurrence else {
        return false;
    };
    if occurrence.rule != rule {
        return false;
    }
    match ids.as_slice().get(occurrence.place) {
        None => false,
        Some(other) => other.0 == id.0,
    }
}

/// Whether all of these live.
pub(crate) fn all_live<A: Allocator + Copy>(store: &Store<A>, ids: &[Id]) -> bool
    ensures { result ≡ list_all (λ i. is_some (atom_of (store_view store.now).rows i)) (numbers ids.now) }
{
    match ids.split_first() {
        None => true,
        Some((id, ids)) => store.alive(*id) && all_live(store, ids),
    }
}

/// The constraint whose search the element on top asks for, where that is for the rule with the list.
pub(crate) fn looked_at<A: Allocator>(
    program: &Program<A>,
    rule: usize,
    ids: HeadIds,
    top: &Elem<A>,
) -> Option<Id>
    ensures { (below : List Element) → option_map (λ i. i.0) result
        ≡ looks_at_top (rules_of program.now) rule ids (elem_view top.now ∷ below) }
{
    match top {
        Elem::Goal(_) => None,
        Elem::Known(_, _, _) => None,
        Elem::Active(id, number, sym, _) => {
            if is_its_head(rule, ids, *id, program.occurrence(*sym, *number)) {
                Some(*id)
            } else {
                None
            }
        }
    }
}
