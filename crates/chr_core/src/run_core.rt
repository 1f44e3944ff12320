//! The core, and what it shows.
ghost use Rattle.std.specs.Prelude.{◌≡◌, [], IfOk};
ghost use Rattle.chr_semantics.specs.Bounds.{IsQueryBounded};
ghost use Rattle.chr_semantics.specs.Calls.{rise_by_calls};
ghost use Rattle.chr_semantics.specs.Schedule.{counts, state_of};
ghost use Rattle.chr_semantics.specs.State.{start};
ghost use Rattle.chr_semantics.specs.Text.{trace};
ghost use Rattle.chr_rules.specs.ProgramView.{names_of, rules_of};
ghost use Rattle.chr_rules.specs.RuleView.{query_view};
ghost use Rattle.chr_base.specs.Agreement.{agreements};
ghost use Rattle.chr_laws.specs.Stands.{Stands};
ghost use Rattle.chr_schedule.specs.EventView.{events_view};
ghost use Rattle.chr_shelf.specs.Seat.{places_in, shots_in};
ghost use Rattle.chr_machine.specs.MachineView.{machine_view};
ghost use Rattle.chr_machine.specs.Model.{state_in};
ghost use Rattle.chr_core.specs.Cores.{cores};
ghost use Rattle.chr_core.specs.IsAt.{IsAt};
ghost use Rattle.chr_core.specs.Outcomes.{IsOutcomeOf};
ghost use Rattle.chr_core.specs.PlaceView.{number_at};
ghost use Rattle.chr_core.specs.RoundView.{parts, rounds_view};
ghost use Rattle.chr_core.specs.Shown.{AreNumbered, AreShown};

use crate::Memory;
use crate::answers::Answers;
use crate::by_place::ByPlace;
use crate::round::Round;
use chr_machine::{Machine, Outcome};
use chr_rules::{Program, Query};
use chr_schedule::Event;
use chr_shelf::{RunName, Ticket};
use std::alloc::{Allocator, Global};

/// How many answers were kept, came late, or came again; and how many steps used one, or searched themselves.
#[derive(Clone, Copy, PartialEq, Eq, Debug, Drop)]
pub struct Counts {
    pub kept: u64,
    pub late: u64,
    pub double: u64,
    pub used: u64,
    pub own: u64,
}

/// A run of a query to which answers come that were made elsewhere. It stands at a schedule of its query, which is the list of its events.
#[derive(Drop)]
pub struct Core<'p, J: RunName, A: Allocator = Global> {
    pub(crate) machine: Machine<'p, A>,
    pub(crate) query: Query<A>,
    pub(crate) events: Vec<Event, A>,
    pub(crate) rounds: Vec<Round<A>, A>,
    /// Of the snapshots of the rounds.
    pub(crate) tickets: Vec<Ticket<J, A>, A>,
    /// The rounds by the places of their snapshots.
    pub(crate) by_place: ByPlace<A>,
    pub(crate) answers: Answers<A>,
    pub(crate) late: u64,
    pub(crate) double: u64,
    pub(crate) used: u64,
    pub(crate) own: u64,
    pub(crate) alloc: A,
    ghost at: { IsAt (machine_view machine).names J.rules (query_view query) (machine_view machine) } by { Prim.hlevel cores },
    ghost stands: { Stands J.rules (rise_by_calls J.rules) (start (query_view query))
        (events_view events.items) (parts machine rounds.items answers late double used own) } by { Prim.hlevel cores },
    ghost shown: { AreShown J.rules (start (query_view query)) (rounds_view rounds.items)
        (shots_in tickets.items) } by { Prim.hlevel agreements },
    ghost numbered: { AreNumbered (number_at by_place) (places_in tickets.items) } by { Prim.hlevel cores },
}

impl<'p, J: RunName, A: Allocator + Copy> Core<'p, J, A> {
    ghost use Rattle.chr_core.specs.CoreView.{counts_view, events_of, machine_in, names_in, progress_of, query_of, start_of};

    /// The core of a query that was read for this program, at its start.
    pub fn new(alloc: A, program: &'p Program<A>, query: Query<A>) -> Result<Core<'p, J, A>, Memory>
        requires bounded { IsQueryBounded (query_view query) }
        requires rules { rules_of program.now ≡ J.rules }
        ensures events { IfOk result (λ core. events_of core ≡ []) }
        ensures query { IfOk result (λ core. query_of core ≡ query_view query) }
        ensures names { IfOk result (λ core. names_in core ≡ names_of program.now) }
    {
        let copied = query.copy()?;
        Ok(Core {
            machine: Machine::start(alloc, program, query)?,
            query: copied,
            events: Vec::new(alloc),
            rounds: Vec::new(alloc),
            tickets: Vec::new(alloc),
            by_place: ByPlace::new(alloc),
            answers: Answers::new(alloc),
            late: 0,
            double: 0,
            used: 0,
            own: 0,
            alloc,
        })
    }

    /// The machine, which stands where the steps of the schedule lead.
    pub fn machine(&self) -> &Machine<'p, A>
        ensures same { machine_view result.now ≡ machine_in self.now }
        ensures state { state_in (machine_view result.now)
            ≡ state_of J.rules (start_of self.now) (events_of self.now) }
        ensures steps { (machine_view result.now).steps ≡ (progress_of self.now).steps }
        ensures lines { (machine_view result.now).lines ≡ trace (names_in self.now)
            (query_of self.now).var_names J.rules (start_of self.now) 1 (progress_of self.now).steps }
    {
        &self.machine
    }

    /// The numbers of the events so far.
    pub fn counts(&self) -> Counts
        ensures { counts_view result ≡ counts J.rules (start_of self.now) (events_of self.now) }
    {
        Counts {
            kept: self.answers.len() as u64,
            late: self.late,
            double: self.double,
            used: self.used,
            own: self.own,
        }
    }

    /// The events so far.
    pub fn events(&self) -> &[Event]
        ensures { events_view result.now ≡ events_of self.now }
    {
        self.events.as_slice()
    }

    /// What the run has come to, and its events.
    pub fn finish(self) -> (Outcome<A>, Vec<Event, A>)
        ensures outcome { IsOutcomeOf (names_in self.entry) J.rules (query_of self.entry)
            (progress_of self.entry).steps result.0 }
        ensures events { events_view result.1.items ≡ events_of self.entry }
    {
        (self.machine.finish(), self.events)
    }
}
