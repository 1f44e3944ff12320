//! Replays of schedules.
ghost use Rattle.std.specs.Prelude.{◌≡◌, ◌≤◌, ◌<◌, ◌+◌, ◌++◌, ◌∷◌, [], IfErr, IfOk, None, OnOk, Some, cond, length, nat_lt, take};
ghost use Rattle.chr_semantics.specs.Bounds.{IsQueryBounded};
ghost use Rattle.chr_semantics.specs.Schedule.{arrive, first_refusal, kept, move, no_progress, performed, publish, too_many_steps, took};
ghost use Rattle.chr_semantics.specs.State.{start};
ghost use Rattle.chr_semantics.specs.Step.{is_running};
ghost use Rattle.chr_semantics.specs.declared.limits.TheConstants.{MAX_TRANSITIONS};
ghost use Rattle.chr_rules.specs.ProgramView.{names_of, rules_of};
ghost use Rattle.chr_rules.specs.RuleView.{query_view};
ghost use Rattle.chr_schedule.specs.EventView.{events_view};
ghost use Rattle.chr_machine.specs.Model.{state_in};
ghost use Rattle.chr_core.specs.Replaying.{HasReplayed, IsOfRun, IsRefusal, Replays};

use crate::error::{CoreError, ReplayError};
use crate::run_core::{Core, Counts};
use chr_machine::Outcome;
use chr_rules::{Program, Query};
use chr_schedule::Event;
use chr_semantics::limits::{MAX_ROUNDS, MAX_TRANSITIONS};
use chr_shelf::{RunName, Shelf, solve};
use std::alloc::Allocator;
use std::marker::Brand;
use std::sync::Wait;

/// An arrival in a schedule: its place there, the round, and the index of the task.
#[derive(Clone, Copy, Drop)]
pub(crate) struct Arrival {
    pub(crate) place: u64,
    pub(crate) round: u32,
    pub(crate) index: u32,
}

/// Where a replay stands: the place of the next event of the schedule, and the Steps before it.
#[derive(Clone, Copy, Drop)]
pub(crate) struct Moment {
    pub(crate) place: usize,
    pub(crate) steps: u64,
}

impl<'p, J: RunName, A: Allocator + Copy> Core<'p, J, A> {
    ghost use Rattle.chr_core.specs.CoreView.{events_of, machine_in, progress_of, query_of, start_of};
    ghost use Rattle.chr_core.specs.Replaying.{IsReplayed, IsSameQuery, refusal_after};

    /// Why an arrival is refused, if it is.
    fn check_arrival(&self, arrival: Arrival) -> Result<(), ReplayError>
        ensures ok { OnOk result (refusal_after self.now arrival.place (arrive arrival.round arrival.index) ≡ None) }
        ensures err { IfErr result (IsRefusal (refusal_after self.now arrival.place (arrive arrival.round arrival.index))) }
    {
        match self.rounds.get(arrival.round as usize) {
            None => Err(ReplayError::UnknownRound(arrival.place)),
            Some(round) => {
                if (arrival.index as usize) < round.touches.len() {
                    Ok(())
                } else {
                    Err(ReplayError::UnknownTask(arrival.place))
                }
            }
        }
    }

    /// Solves the task of a round, and keeps the answer.
    fn replay_answer(
        &mut self,
        program: &Program<A>,
        shelf: &Shelf<A>,
        arrival: Arrival,
    ) -> Result<(), ReplayError>
        requires run { IsOfRun J.shelf J.rules shelf.now program.now }
        requires there { refusal_after self.old arrival.place (arrive arrival.round arrival.index) ≡ None }
        requires kept { took (progress_of self.old) arrival.round arrival.index ≡ kept arrival.round }
        ensures { IsReplayed self.old self.new arrival.place (arrive arrival.round arrival.index) result }
    {
        let ticket = self.tickets[arrival.round as usize].again();
        let answer = match solve(program, shelf, ticket, arrival.index) {
            Ok(answer) => answer,
            Err(_) => return Err(ReplayError::Memory),
        };
        match self.keep_found(arrival.round, answer) {
            Ok(_) => Ok(()),
            Err(_) => Err(ReplayError::Memory),
        }
    }

    /// Replays an arrival. One that is late or double makes no search.
    fn replay_arrival(
        &mut self,
        program: &Program<A>,
        shelf: &Shelf<A>,
        arrival: Arrival,
    ) -> Result<(), ReplayError>
        requires run { IsOfRun J.shelf J.rules shelf.now program.now }
        ensures { IsReplayed self.old self.new arrival.place (arrive arrival.round arrival.index) result }
    {
        self.check_arrival(arrival)?;
        self.room_for_step()?;
        if self.is_late(arrival.round) {
            self.note_late(arrival.round, arrival.index);
            return Ok(());
        }
        if self.has_kept(arrival.round, arrival.index) {
            self.note_double(arrival.round, arrival.index);
            return Ok(());
        }
        self.replay_answer(program, shelf, arrival)
    }

    /// Replays a Step, and answers how many Steps were replayed then. One of a run that has ended is passed over.
    #[tactic(auto, using(crate::proofs::SameNames::step_same))]
    fn replay_step(&mut self, place: u64, steps: u64) -> Result<u64, ReplayError>
        requires few { (machine_in self.old).steps ≤ steps }
        ensures steps { IfOk result (λ made. made ≡ steps + 1) }
        ensures events { OnOk result (events_of self.new
            ≡ cond (is_running (state_in (machine_in self.old)).status) (events_of self.old ++ move ∷ []) (events_of self.old)) }
        ensures few { OnOk result (steps < MAX_TRANSITIONS) }
        ensures same { IsSameQuery self.old self.new }
        ensures err { IfErr result (IsRefusal (cond (nat_lt steps MAX_TRANSITIONS) None (Some (too_many_steps place)))) }
    {
        if steps >= MAX_TRANSITIONS {
            return Err(ReplayError::TooManySteps(place));
        }
        let _stepped = self.step()?;
        Ok(steps + 1)
    }

    /// Replays a Publish.
    fn replay_publish(
        &mut self,
        rt: &impl Wait,
        shelf: &Shelf<A>,
        place: u64,
    ) -> Result<(), ReplayError>
        requires name { shelf.now ≡ J.shelf }
        ensures { IsReplayed self.old self.new place publish result }
    {
        if self.rounds.len() >= MAX_ROUNDS {
            return Err(ReplayError::TooManyRounds(place));
        }
        match self.publish(rt, shelf) {
            Ok(_) => Ok(()),
            Err(CoreError::ShelfFull) => Err(ReplayError::TooManyRounds(place)),
            Err(CoreError::Memory) => Err(ReplayError::Memory),
        }
    }

    /// Replays the next event of a schedule. How many of its Steps were replayed then.
    #[tactic(auto, using(crate::proofs::SameNames::run_same))]
    fn replay_event(
        &mut self,
        rt: &impl Wait,
        program: &Program<A>,
        shelf: &Shelf<A>,
        events: &[Event],
        turn: Moment,
    ) -> Result<u64, ReplayError>
        requires run { IsOfRun J.shelf J.rules shelf.now program.now }
        requires within { turn.place < length events.now }
        requires before { HasReplayed J.rules (query_of self.old) (take turn.place (events_view events.now)) (events_of self.old) turn.steps }
        ensures after { IfOk result (HasReplayed J.rules (query_of self.old) (take (turn.place + 1) (events_view events.now)) (events_of self.new)) }
        ensures same { IsSameQuery self.old self.new }
        ensures err { IfErr result (IsRefusal (first_refusal J.rules (start_of self.old) no_progress 0 (events_view events.now))) }
    {
        let place = turn.place as u64;
        match events[turn.place] {
            Event::Publish => self.replay_publish(rt, shelf, place)?,
            Event::Arrive(round, index) => {
                let arrival = Arrival {
                    place,
                    round,
                    index,
                };
                self.replay_arrival(program, shelf, arrival)?;
            }
            Event::Step => return self.replay_step(place, turn.steps),
        }
        Ok(turn.steps)
    }

    /// Replays the events of a schedule from the start.
    fn replay_all(
        &mut self,
        rt: &impl Wait,
        program: &Program<A>,
        shelf: &Shelf<A>,
        events: &[Event],
    ) -> Result<(), ReplayError>
        requires run { IsOfRun J.shelf J.rules shelf.now program.now }
        requires start { events_of self.old ≡ [] }
        ensures same { IsSameQuery self.old self.new }
        ensures ok { OnOk result (events_of self.new ≡ performed J.rules (start_of self.old) (events_view events.now)) }
        ensures none { OnOk result (first_refusal J.rules (start_of self.old) no_progress 0 (events_view events.now) ≡ None) }
        ensures err { IfErr result (IsRefusal (first_refusal J.rules (start_of self.old) no_progress 0 (events_view events.now))) }
    {
        let mut steps = 0u64;
        for place in 0..events.len() {
            let turn = Moment { place, steps };
            steps = self.replay_event(rt, program, shelf, events, turn)?;
        }
        Ok(())
    }
}

/// As `replay`, over a shelf and under the name of its run.
fn replay_named<J: RunName, A: Allocator + Copy>(
    rt: &impl Wait,
    alloc: A,
    program: &Program<A>,
    shelf: &Shelf<A>,
    query: Query<A>,
    events: &[Event],
) -> Result<(Outcome<A>, Counts), ReplayError>
    requires run { IsOfRun J.shelf J.rules shelf.now program.now }
    requires bounded { IsQueryBounded (query_view query) }
    ensures ok { IfOk result (Replays (names_of program.now) (rules_of program.now) (query_view query) (events_view events.now)) }
    ensures err { IfErr result (IsRefusal (first_refusal (rules_of program.now) (start (query_view query)) no_progress 0 (events_view events.now))) }
{
    let mut core = Core::<J, A>::new(alloc, program, query)?;
    core.replay_all(rt, program, shelf, events)?;
    let counts = core.counts();
    let (outcome, _events) = core.finish();
    Ok((outcome, counts))
}

/// As `replay`, over a shelf with nothing on it, whose run gets a name of its own.
fn replay_over<A: Allocator + Copy>(
    rt: &impl Wait,
    alloc: A,
    program: &Program<A>,
    shelf: &Shelf<A>,
    query: Query<A>,
    events: &[Event],
) -> Result<(Outcome<A>, Counts), ReplayError>
    requires bounded { IsQueryBounded (query_view query) }
    ensures ok { IfOk result (Replays (names_of program.now) (rules_of program.now) (query_view query) (events_view events.now)) }
    ensures err { IfErr result (IsRefusal (first_refusal (rules_of program.now) (start (query_view query)) no_progress 0 (events_view events.now))) }
{
    replay_named::<Brand, A>(rt, alloc, program, shelf, query, events)
}

/// The run of a query, as a schedule has it: what the run has come to, and the counts, which are those of the schedule. The first event
/// that is refused decides, with its place among the events, counted from 0. A Step of a run that has ended is passed over.
pub fn replay<A: Allocator + Copy>(
    rt: &impl Wait,
    alloc: A,
    program: &Program<A>,
    query: Query<A>,
    events: &[Event],
) -> Result<(Outcome<A>, Counts), ReplayError>
    requires bounded { IsQueryBounded (query_view query) }
    ensures ok { IfOk result (Replays (names_of program.now) (rules_of program.now) (query_view query) (events_view events.now)) }
    ensures err { IfErr result (IsRefusal (first_refusal (rules_of program.now) (start (query_view query)) no_progress 0 (events_view events.now))) }
{
    let shelf = Shelf::new(alloc)?;
    replay_over(rt, alloc, program, &shelf, query, events)
}
