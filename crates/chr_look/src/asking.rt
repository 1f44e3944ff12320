//! What a watched run tells of a constraint.
ghost use Rattle.std.specs.Prelude.{◌≡◌, ◌<◌, IfOk, IfSome, Some, option_map};
ghost use Rattle.chr_semantics.specs.Life.{came, gone, made_by, taken_by};
ghost use Rattle.chr_store.specs.HistoryView.{fired_view};
ghost use Rattle.chr_look.specs.LogView.{atom_of_birth};
ghost use Rattle.chr_look.specs.Watching.{AreRemovalsIn, HasAtom, Tells};

use crate::Memory;
use crate::leaving::Removals;
use crate::log::Birth;
use crate::watching::Watched;
use chr_store::{Entry, Id};
use std::alloc::Allocator;

impl<'p, A: Allocator + Copy> Watched<'p, A> {
    /// How the constraint of an identity came, where it has come.
    pub fn birth(&self, id: Id) -> Option<&Birth<A>>
        ensures came { Tells came self.now id.0 (option_map (λ b. b.now.at) result) }
        ensures atom { IfSome result (λ b. HasAtom self.now id.0 b.now.at (atom_of_birth b.now)) }
    {
        match id.0.checked_sub(1) {
            None => None,
            Some(place) => self.log().birth(place as usize),
        }
    }

    /// The firing that made the constraint of an identity. There is none where it has not come, or is a goal of the query.
    pub fn maker(&self, id: Id) -> Option<&Entry<A>>
        ensures { Tells made_by self.now id.0 (option_map (λ e. fired_view e.now) result) }
    {
        let entries = self.machine().history().list();
        match id.0.checked_sub(1) {
            None => None,
            Some(place) => self.log().maker(place as usize, entries),
        }
    }

    /// Which firing removed each constraint that is gone. The only error is want of memory.
    pub fn removals(&self, alloc: A) -> Result<Removals<A>, Memory>
        ensures { IfOk result (AreRemovalsIn self.now) }
    {
        let machine = self.machine();
        Removals::of(alloc, machine.program(), machine.history().list())
    }

    /// The transition that took the constraint of an identity out, by the run's removals. There is none where it lives or has not come.
    pub fn departure(&self, removals: &Removals<A>, id: Id) -> Option<u64>
        ensures { AreRemovalsIn self.now removals.now → Tells gone self.now id.0 result }
    {
        match removals.place(id) {
            None => None,
            Some(place) => self.log().time(place),
        }
    }

    /// The firing that took the constraint of an identity out, by the run's removals.
    pub fn remover(&self, removals: &Removals<A>, id: Id) -> Option<&Entry<A>>
        ensures { AreRemovalsIn self.now removals.now → Tells taken_by self.now id.0 (option_map (λ e. fired_view e.now) result) }
    {
        let entries = self.machine().history().list();
        match removals.place(id) {
            None => None,
            Some(place) => entries.get(place),
        }
    }
}
