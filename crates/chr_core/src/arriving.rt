//! Arrivals.
ghost use Rattle.std.specs.Prelude.{◌≡◌, ◌+◌, ◌<◌, ◌++◌, ◌∷◌, [], ℕ, IfErr, IfOk, OnErr, OnOk, Some, cond, length, nat_le, nat_lt, slice_get, vec_capacity, vec_len};
ghost use Rattle.chr_semantics.specs.Footprint.{answer as answer_in};
ghost use Rattle.chr_semantics.specs.Schedule.{arrive, double, kept, late, took, took_at};
ghost use Rattle.chr_semantics.specs.Step.{after};
ghost use Rattle.chr_semantics.specs.declared.limits.TheConstants.{KEPT_ROUNDS};
ghost use Rattle.chr_laws.specs.Kept.{IsPlaced, at_of, newest, passes};
ghost use Rattle.chr_laws.specs.Rounds.{ats, flag_at};
ghost use Rattle.chr_find.specs.SnapshotView.{task_view};
ghost use Rattle.chr_shelf.specs.Seat.{index_of, place_of, shot_of, shots_in, task_of, ticket_of};
ghost use Rattle.chr_core.specs.PlaceView.{number_at};

use crate::Memory;
use crate::kept::Kept;
use crate::run_core::Core;
use chr_find::Task;
use chr_schedule::Event;
use chr_semantics::limits::KEPT_ROUNDS;
use chr_shelf::{Answer, RunName, Shelf};
use std::alloc::Allocator;

/// What became of an answer, with the number of its round.
#[derive(Clone, Copy, PartialEq, Eq, Debug, Drop)]
pub enum Took {
    Kept(u32),
    /// Its round is not among the last eight.
    Late(u32),
    /// An answer to that task of that round was kept before.
    Double(u32),
    /// This core has no round with a snapshot at its place. It is no event.
    Stranger,
}

impl<'p, J: RunName, A: Allocator + Copy> Core<'p, J, A> {
    ghost use Rattle.chr_core.specs.CoreView.{AllowsArrival, IsAsBefore, IsSameRun, arrived, core_in, events_of, machine_in, places_of, progress_of, start_of, took_view};
    ghost use Rattle.chr_core.specs.AnswersView.{HasRoom};
    ghost use Rattle.chr_core.specs.Arriving.{HasArrived, answered};
    ghost use Rattle.chr_core.specs.Rooms.{HasEventRoom};
    ghost use Rattle.chr_core.specs.Shown.{at_in};

    /// Whether a round is not among the last eight.
    pub(crate) fn is_late(&self, round: u32) -> bool
        ensures { result ≡ nat_lt (round + KEPT_ROUNDS) (length (core_in self.now).rounds) }
    {
        (round as usize + KEPT_ROUNDS) < self.rounds.len()
    }

    /// Whether the answer to a task of a round was kept.
    pub(crate) fn has_kept(&self, round: u32, index: u32) -> bool
        ensures { result ≡ flag_at (core_in self.now).rounds round index }
    {
        match self.rounds.get(round as usize) {
            None => false,
            Some(kept) => kept.has_kept(index),
        }
    }

    /// The transitions before a round: 0 where it does not stand.
    fn transitions_before(&self, round: u32) -> u64
        ensures { result ≡ at_in (core_in self.now).rounds round }
    {
        match self.rounds.get(round as usize) {
            None => 0,
            Some(found) => found.at,
        }
    }

    /// Whether the answer at a position is of a round that is no newer than this one.
    fn is_no_newer(&self, position: usize, round: u32) -> bool
        ensures { result ≡ passes (λ l. nat_le (at_of (ats (core_in self.now).rounds) l)
            (at_in (core_in self.now).rounds round)) (slice_get (core_in self.now).answers position) }
    {
        match self.answers.get(position) {
            None => false,
            Some(kept) => self.transitions_before(kept.round) <= self.transitions_before(round),
        }
    }

    /// Whether an answer of a round takes the place of the one that stands there for a stored constraint's task.
    fn is_newest(&self, round: u32, task: Task) -> bool
        ensures { (c : ℕ) → newest (ats (core_in self.now).rounds) (core_in self.now).answers
            (at_in (core_in self.now).rounds round) c ((core_in self.now).row (task_view task))
            ≡ cond result (Some c) ((core_in self.now).row (task_view task)) }
    {
        match self.answers.row(task) {
            None => true,
            Some(position) => self.is_no_newer(position, round),
        }
    }

    /// Makes room for one more answer to a task, for its event, and for that of the step that uses it.
    fn room_for_answer(&mut self, task: Task) -> Result<(), Memory>
        ensures same { IsAsBefore self.old self.new }
        ensures parts { core_in self.new ≡ core_in self.old }
        ensures tickets { self.new.tickets ≡ self.old.tickets }
        ensures by_place { self.new.by_place ≡ self.old.by_place }
        ensures events { OnOk result (HasEventRoom self.new) }
        ensures answers { OnOk result (HasRoom self.new.answers (task_view task)) }
    {
        self.events.reserve(2)?;
        self.answers.room(task)
    }

    /// Keeps an answer of a round, for which room was made.
    fn keep(&mut self, round: u32, answer: &Answer<J, A>)
        requires events { HasEventRoom self.old }
        requires room { HasRoom self.old.answers (task_of answer.now) }
        requires kept { took (progress_of self.old) round (index_of answer.now) ≡ kept round }
        requires there { IsPlaced J.rules (start_of self.old) (ats (core_in self.old).rounds) (answered round answer.now) }
        requires right { (answered round answer.now).ids ≡ answer_in J.rules
            (after J.rules (start_of self.old) (at_in (core_in self.old).rounds round)) (task_of answer.now) }
        ensures { HasArrived self.old self.new round (index_of answer.now) }
    {
        let (index, task) = (answer.index(), answer.task());
        let is_guests = self.rounds[round as usize].is_guest(task.goal);
        let is_newest = self.is_newest(round, task);
        self.rounds[round as usize].keep(index);
        let kept = Kept {
            round,
            index,
            task,
            ids: answer.found().ids,
        };
        self.answers.put(kept, is_guests, is_newest);
        self.events.push_reserved(Event::Arrive(round, index));
    }

    /// Keeps an answer of a round that is neither late nor kept before, whose ticket shows the snapshot of the round.
    pub(crate) fn keep_found(
        &mut self,
        round: u32,
        answer: Answer<J, A>,
    ) -> Result<(), (Answer<J, A>, Memory)>
        requires shown { slice_get (shots_in self.old.tickets.items) round ≡ Some (shot_of (ticket_of answer)) }
        requires kept { took (progress_of self.old) round (index_of answer) ≡ kept round }
        ensures ok { OnOk result (HasArrived self.old self.new round (index_of answer)) }
        ensures back { IfErr result (λ refused. refused.0 ≡ answer) }
        ensures err { OnErr result (IsAsBefore self.old self.new) }
    {
        if let Err(error) = self.room_for_answer(answer.task()) {
            return Err((answer, error));
        }
        self.keep(round, &answer);
        Ok(())
    }

    /// Notes an arrival that comes late, for which room was made.
    pub(crate) fn note_late(&mut self, round: u32, index: u32)
        requires room { HasEventRoom self.old }
        requires late { took (progress_of self.old) round index ≡ late round }
        ensures { HasArrived self.old self.new round index }
    {
        self.events.push_reserved(Event::Arrive(round, index));
        self.late += 1;
    }

    /// Notes one that comes again.
    pub(crate) fn note_double(&mut self, round: u32, index: u32)
        requires room { HasEventRoom self.old }
        requires double { took (progress_of self.old) round index ≡ double round }
        ensures { HasArrived self.old self.new round index }
    {
        self.events.push_reserved(Event::Arrive(round, index));
        self.double += 1;
    }

    /// Takes an answer of a round, whose ticket shows the snapshot of the round.
    fn take(&mut self, round: u32, answer: Answer<J, A>) -> Result<Took, (Answer<J, A>, Memory)>
        requires shown { slice_get (shots_in self.old.tickets.items) round ≡ Some (shot_of (ticket_of answer)) }
        ensures took { IfOk result (λ found. took_view found ≡ took (progress_of self.old) round (index_of answer)) }
        ensures events { IfOk result
            (λ took. events_of self.new ≡ arrived took (index_of answer) (events_of self.old)) }
        ensures places { places_of self.new ≡ places_of self.old }
        ensures run { IsSameRun self.old self.new }
        ensures back { IfErr result (λ refused. refused.0 ≡ answer) }
        ensures err { OnErr result (IsAsBefore self.old self.new) }
    {
        let index = answer.index();
        if let Err(error) = self.events.reserve(1) {
            return Err((answer, error));
        }
        if self.is_late(round) {
            self.note_late(round, index);
            return Ok(Took::Late(round));
        }
        if self.has_kept(round, index) {
            self.note_double(round, index);
            return Ok(Took::Double(round));
        }
        self.keep_found(round, answer)?;
        Ok(Took::Kept(round))
    }

    /// Takes an answer: it is kept, comes late, or comes again. Where memory is refused, the answer comes back, and all is as before, but
    /// that room may have been made. The event that is appended is never refused.
    pub fn arrive(
        &mut self,
        shelf: &Shelf<A>,
        answer: Answer<J, A>,
    ) -> Result<Took, (Answer<J, A>, Memory)>
        requires name { shelf.now ≡ J.shelf }
        ensures took { IfOk result (λ took. took_view took
            ≡ took_at (progress_of self.old) (places_of self.old) (place_of (ticket_of answer)) (index_of answer)) }
        ensures events { IfOk result
            (λ took. events_of self.new ≡ arrived took (index_of answer) (events_of self.old)) }
        ensures allowed { IfOk result
            (λ took. AllowsArrival J.rules (start_of self.old) (progress_of self.old) (index_of answer) took) }
        ensures places { places_of self.new ≡ places_of self.old }
        ensures run { IsSameRun self.old self.new }
        ensures back { IfErr result (λ refused. refused.0 ≡ answer) }
        ensures err { OnErr result (IsAsBefore self.old self.new) }
    {
        match self.by_place.get(answer.place()) {
            None => Ok(Took::Stranger),
            Some(round) => {
                shelf.agree(&self.tickets[round as usize], answer.ticket());
                self.take(round, answer)
            }
        }
    }
}
