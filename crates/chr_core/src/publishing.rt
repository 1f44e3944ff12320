//! Rounds.
ghost use Rattle.std.specs.Prelude.{◌≡◌, ◌<◌, ◌++◌, ◌∷◌, [], IfErr, IfOk, OnErr, OnOk, length, nat_le, vec_capacity, vec_len};
ghost use Rattle.chr_semantics.specs.Schedule.{publish, state_of};
ghost use Rattle.chr_semantics.specs.Snapshot.{snapshot_of};
ghost use Rattle.chr_semantics.specs.Tasks.{tasks};
ghost use Rattle.chr_semantics.specs.declared.limits.TheConstants.{MAX_ROUNDS};
ghost use Rattle.chr_find.specs.SnapshotView.{IsSnapshot};
ghost use Rattle.chr_shelf.specs.Seat.{place_of, shot_of};
ghost use Rattle.chr_machine.specs.Model.{state_in};
ghost use Rattle.chr_core.specs.PlaceView.{room_in};

use crate::error::CoreError;
use crate::round::Round;
use crate::run_core::Core;
use chr_schedule::Event;
use chr_semantics::limits::MAX_ROUNDS;
use chr_shelf::{RunName, Shelf, Ticket};
use std::alloc::Allocator;
use std::sync::Wait;

impl<'p, J: RunName, A: Allocator + Copy> Core<'p, J, A> {
    ghost use Rattle.chr_core.specs.CoreView.{IsAsBefore, IsSameRun, events_of, machine_in, places_of, progress_of, start_of};
    ghost use Rattle.chr_core.specs.declared.error.CoreError.TheVariants.{Memory as OutOfMemory};
    ghost use Rattle.chr_core.specs.ErrorView.{is_full};
    ghost use Rattle.chr_core.specs.Rooms.{HasRoundRoom};
    ghost use Rattle.chr_core.specs.RoundView.{round_of, round_view};

    /// Makes room for one more round and its event.
    fn room_for_round(&mut self) -> Result<(), CoreError>
        ensures same { IsAsBefore self.old self.new }
        ensures ok { OnOk result (HasRoundRoom self.new) }
        ensures few { length self.new.rounds.items ≡ length self.old.rounds.items }
        ensures err { IfErr result (λ error. error ≡ OutOfMemory) }
    {
        self.events.reserve(1)?;
        self.rounds.reserve(1)?;
        self.tickets.reserve(1)?;
        self.by_place.room()?;
        Ok(())
    }

    /// Appends a round of the state, which a ticket shows.
    fn push_round(&mut self, round: Round<A>, ticket: Ticket<J, A>)
        requires room { HasRoundRoom self.old }
        requires few { length self.old.rounds.items < MAX_ROUNDS }
        requires shown { IsSnapshot (shot_of ticket) (snapshot_of J.rules (state_in (machine_in self.old))) }
        requires round { let p = J.rules in let s = state_in (machine_in self.old) in
            round_view round ≡ round_of (machine_in self.old) (snapshot_of p s).tasks (snapshot_of p s).guest }
        ensures events { events_of self.new ≡ events_of self.old ++ publish ∷ [] }
        ensures places { places_of self.new ≡ places_of self.old ++ place_of ticket ∷ [] }
        ensures run { IsSameRun self.old self.new }
    {
        let number = self.rounds.len() as u32;
        self.by_place.put_reserved(ticket.place(), number);
        self.rounds.push_reserved(round);
        self.tickets.push_reserved(ticket);
        self.events.push_reserved(Event::Publish);
    }

    /// Makes the next round: puts a snapshot of the state on the shelf. It answers the place of that and the number of its tasks. It answers
    /// ShelfFull exactly where the rounds are as many as there can be, before it wants memory. After a refusal all is as before, but that
    /// room may have been made.
    pub fn publish(&mut self, rt: &impl Wait, shelf: &Shelf<A>) -> Result<(usize, u32), CoreError>
        requires name { shelf.now ≡ J.shelf }
        ensures events { OnOk result (events_of self.new ≡ events_of self.old ++ publish ∷ []) }
        ensures place { IfOk result (λ made. places_of self.new ≡ places_of self.old ++ made.0 ∷ []) }
        ensures tasks { IfOk result (λ made. made.1
            ≡ length (tasks J.rules (state_of J.rules (start_of self.old) (events_of self.old)))) }
        ensures few { OnOk result (length (progress_of self.old).rounds < MAX_ROUNDS) }
        ensures run { IsSameRun self.old self.new }
        ensures err { OnErr result (IsAsBefore self.old self.new) }
        ensures why { IfErr result (λ error. is_full error ≡ nat_le MAX_ROUNDS (length (progress_of self.old).rounds)) }
    {
        if self.rounds.len() >= MAX_ROUNDS {
            return Err(CoreError::ShelfFull);
        }
        self.room_for_round()?;
        let snapshot = self.machine.snapshot()?;
        let round = Round::of(self.alloc, &self.machine, &snapshot)?;
        let count = snapshot.tasks().len() as u32;
        match shelf.put(rt, snapshot) {
            Err(_) => Err(CoreError::Memory),
            Ok(ticket) => {
                let place = ticket.place();
                self.push_round(round, ticket);
                Ok((place, count))
            }
        }
    }
}
