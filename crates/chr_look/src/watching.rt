//! Runs that are watched: each transition is noted.
ghost use Rattle.std.specs.Prelude.{◌≡◌, IfOk, OnOk, Some, option_map};
ghost use Rattle.chr_semantics.specs.Bounds.{IsQueryBounded};
ghost use Rattle.chr_semantics.specs.Profile.{counted_next, goal_of};
ghost use Rattle.chr_semantics.specs.Program as semantics;
ghost use Rattle.chr_semantics.specs.Search.{atom_of};
ghost use Rattle.chr_semantics.specs.State.{start};
ghost use Rattle.chr_rules.specs.ProgramView.{names_of, rules_of};
ghost use Rattle.chr_rules.specs.RuleView.{query_view};
ghost use Rattle.chr_term.specs.TermView.{atom_over};
ghost use Rattle.chr_store.specs.HistoryView.{firings_view};
ghost use Rattle.chr_find.specs.TriedView.{AreTried};
ghost use Rattle.chr_machine.specs.MachineView.{Steps, Starts, machine_view};
ghost use Rattle.chr_machine.specs.Model.{state_in};
ghost use Rattle.chr_look.specs.Logs.{entry_at, sight};
ghost use Rattle.chr_look.specs.LogView.{sight_view};
ghost use Rattle.chr_look.specs.Watching.{IsWatched, machine_in};

use crate::log::{Log, Sight};
use chr_machine::{Id, Machine, Stepped, Tried};
use chr_rules::{Program, Query};
use chr_store::Entry;
use chr_term::{Args, Memory, Sym};
use std::alloc::{Allocator, Global};

/// A run with what was noted of its transitions.
#[derive(Drop)]
pub struct Watched<'p, A: Allocator + Copy = Global> {
    machine: Machine<'p, A>,
    log: Log<A>,
}

/// What is looked at of the state of a run.
pub(crate) fn sight_of<A: Allocator + Copy>(machine: &Machine<'_, A>) -> Sight
    ensures { sight_view result ≡ sight (state_in (machine_view machine.now)) }
{
    Sight {
        entries: machine.history().list().len(),
        height: machine.stack().len(),
    }
}

/// The constraint of an identity, where it lives.
fn constraint_of<A: Allocator + Copy>(
    machine: &Machine<'_, A>,
    id: Id,
) -> Result<Option<(Sym, Args<A>)>, Memory>
    ensures { IfOk result (λ found. option_map (λ a. atom_over a.0 a.1) found
        ≡ atom_of (state_in (machine_view machine.now)).store id.0) }
{
    match machine.store().row(id) {
        None => Ok(None),
        Some(row) => Ok(Some((row.sym, row.args.share()?))),
    }
}

/// The rule of an entry, by its place.
fn rule_of<A: Allocator>(entries: &[Entry<A>], place: Option<usize>) -> Option<usize>
    ensures { result ≡ option_map (λ f. f.0) (entry_at (firings_view entries.now) (Some place)) }
{
    Some(entries.get(place?)?.rule())
}

impl<'p, A: Allocator + Copy> Watched<'p, A> {
    /// The run of a query before its first transition. The only error is want of memory.
    pub fn start(
        alloc: A,
        program: &'p Program<A>,
        query: Query<A>,
    ) -> Result<Watched<'p, A>, Memory>
        requires { IsQueryBounded (query_view query) }
        ensures starts { IfOk result (λ watched. Starts (names_of program.now) (rules_of program.now) (query_view query) (machine_in watched)) }
        ensures watched { IfOk result (IsWatched (rules_of program.now) (query_view query)) }
    {
        let machine = Machine::start(alloc, program, query)?;
        let log = Log::new(alloc, machine.stack().len())?;
        Ok(Watched { machine, log })
    }

    /// How many lists a search that begins anew looks at for the constraint that is active, complete ones and partial ones; none where the next
    /// transition makes no search. Contracts see the same run.
    pub fn tries(&mut self) -> Result<Tried, Memory>
        ensures same { machine_in self.new ≡ machine_in self.old }
        ensures watched { (p : semantics.Program) (q : semantics.Query) → IsWatched p q self.old → IsWatched p q self.new }
        ensures tries { let m = machine_in self.old in IfOk result (AreTried (λ f. counted_next f m.rules (state_in m))) }
    {
        self.machine.tries()
    }

    /// Makes a transition and notes it, or answers that the run has ended or that the limit stands. After want of memory, the transition may
    /// have been made, and what is noted tells nothing.
    pub fn step(&mut self) -> Result<Stepped, Memory>
        ensures steps { IfOk result (λ stepped. Steps stepped (machine_in self.old) (machine_in self.new)) }
        ensures watched { OnOk result ((p : semantics.Program) (q : semantics.Query)
            → IsWatched p q self.old → IsWatched p q self.new) }
    {
        let before = sight_of(&self.machine);
        let next = self.machine.store().next();
        match self.machine.step()? {
            Stepped::Moved => {
                let born = constraint_of(&self.machine, next)?;
                let now = sight_of(&self.machine);
                self.log.note(self.machine.steps(), born, before, now)?;
                Ok(Stepped::Moved)
            }
            Stepped::Ended => Ok(Stepped::Ended),
            Stepped::Spent => Ok(Stepped::Spent),
        }
    }
}

impl<'p, A: Allocator + Copy> Watched<'p, A> {
    /// The run where it stands.
    pub fn machine(&self) -> &Machine<'p, A>
        ensures { machine_view result.now ≡ machine_in self.now }
    {
        &self.machine
    }

    /// What was noted.
    pub(crate) fn log(&self) -> &Log<A>
        ensures { result.now ≡ self.now.log }
    {
        &self.log
    }

    /// The rule whose firing put the goal on the stack that is its top, where one did.
    pub(crate) fn goal_rule(&self) -> Option<usize>
        ensures { (p : semantics.Program) (q : semantics.Query) → IsWatched p q self.now
            → result ≡ goal_of p (start q) (machine_in self.now).steps }
    {
        let entry = self.log.origin(self.machine.stack().len());
        rule_of(self.machine.history().list(), entry)
    }
}
