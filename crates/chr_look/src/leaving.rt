//! Which firing removed a constraint.
ghost use Rattle.std.specs.Prelude.{◌≡◌, ◌==◌, ℕ, List, IfOk, OnOk, Some, cond, drop, option_and_then, slice_get};
ghost use Rattle.chr_semantics.specs.Search.{has_number};
ghost use Rattle.chr_store.specs.HistoryView.{firings_view};
ghost use Rattle.chr_store.specs.Numbers.{numbers};
ghost use Rattle.chr_rules.specs.ProgramView.{rules_of};
ghost use Rattle.chr_look.specs.Leavings.{AreRemovals, place_at};
ghost use Rattle.chr_look.specs.Logs.{removes_of};

use crate::Memory;
use crate::costs::grow;
use chr_rules::Program;
use chr_store::{Entry, Id};
use std::alloc::{Allocator, Global};

/// Which firing removed each constraint that is gone.
#[derive(Drop)]
pub struct Removals<A: Allocator = Global> {
    /// For each identity the place of the firing in the history, where one removed it.
    places: Vec<Option<usize>, A>,
}

/// Notes that the firing at a place removes the constraint of an identity.
#[tactic(auto, using(crate::proofs::Counted::written_for))]
fn note_one<A: Allocator>(
    places: &mut Vec<Option<usize>, A>,
    id: Id,
    place: usize,
) -> Result<(), Memory>
    ensures { OnOk result ((i : ℕ) → place_at places.new.items i ≡ cond (i == id.0) (Some place) (place_at places.old.items i)) }
{
    grow(places, id.0 as usize, None)?;
    places[id.0 as usize] = Some(place);
    Ok(())
}

/// Notes that the firing at a place removes these, the first few left aside.
fn note_removed<A: Allocator>(
    places: &mut Vec<Option<usize>, A>,
    kept: usize,
    ids: &[Id],
    place: usize,
) -> Result<(), Memory>
    ensures { OnOk result ((i : ℕ) → place_at places.new.items i
        ≡ cond (has_number (drop kept (numbers ids.now)) i) (Some place) (place_at places.old.items i)) }
{
    let Some((first, rest)) = ids.split_first() else {
        return Ok(());
    };
    match kept.checked_sub(1) {
        Some(kept) => note_removed(places, kept, rest, place),
        None => {
            note_one(places, *first, place)?;
            note_removed(places, 0, rest, place)
        }
    }
}

/// Notes what the firing of an entry removes, which stands at a place of the history.
fn note_entry<A: Allocator>(
    program: &Program<A>,
    places: &mut Vec<Option<usize>, A>,
    entry: &Entry<A>,
    place: usize,
) -> Result<(), Memory>
    ensures { OnOk result ((i : ℕ) (ks : List ℕ) → option_and_then (slice_get ks) (place_at places.new.items i)
        ≡ removes_of (slice_get (rules_of program.now) entry.now.rule) entry.now.ids i (slice_get ks place)
        (option_and_then (slice_get ks) (place_at places.old.items i))) }
{
    if entry.rule() >= program.rules() {
        return Ok(());
    }
    note_removed(places, program.rule(entry.rule()).kept, entry.ids(), place)
}

impl<A: Allocator> Removals<A> {
    /// Those of the firings of a history over a program.
    pub(crate) fn of(
        alloc: A,
        program: &Program<A>,
        entries: &[Entry<A>],
    ) -> Result<Removals<A>, Memory>
        ensures { IfOk result (AreRemovals (rules_of program.now) (firings_view entries.now)) }
    {
        let mut places = Vec::new(alloc);
        let mut place = entries.len();
        while place > 0 {
            place -= 1;
            note_entry(program, &mut places, &entries[place], place)?;
        }
        Ok(Removals { places })
    }

    /// The place of the firing that removed the constraint of an identity, where one did.
    pub(crate) fn place(&self, id: Id) -> Option<usize>
        ensures { result ≡ place_at self.now.places.items id.0 }
    {
        match self.places.get(id.0 as usize) {
            None => None,
            Some(place) => *place,
        }
    }
}
