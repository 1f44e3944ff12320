//! What a run does with a rule and a list of constraints.
ghost use Rattle.std.specs.Prelude.{◌≡◌, ◌<◌, ◌++◌, IfOk, OnOk, Some, length, option_map, option_to_list, slice_get};
ghost use Rattle.chr_semantics.specs.Bounds.{IsQueryBounded};
ghost use Rattle.chr_semantics.specs.Life.{looks_for};
ghost use Rattle.chr_semantics.specs.Program as semantics;
ghost use Rattle.chr_semantics.specs.Step as steps;
ghost use Rattle.chr_semantics.specs.Verdict.{is_could_fire, verdict};
ghost use Rattle.chr_rules.specs.ProgramView.{names_of, rules_of};
ghost use Rattle.chr_rules.specs.RuleView.{query_view};
ghost use Rattle.chr_trace.specs.State.{status_view};
ghost use Rattle.chr_machine.specs.MachineView.{Steps, machine_view};
ghost use Rattle.chr_machine.specs.Model.{state_in};
ghost use Rattle.chr_look.specs.Looking.{IsListLog, IsSearch, NotesState, list_view, search_view};
ghost use Rattle.chr_look.specs.Watching.{IsRunOf, IsWatched, machine_in};

use crate::judging::judge;
use crate::looked::{all_live, looked_at};
use crate::notes::{Notes, go_on};
use crate::verdict::Verdict;
use crate::watching::Watched;
use chr_machine::{Id, Machine, Status, Stepped};
use chr_rules::{Program, Query};
use chr_store::HeadIds;
use chr_term::Memory;
use std::alloc::{Allocator, Global};

/// A search for a rule with a list of constraints that all lived.
#[derive(Drop)]
pub struct Search<A: Allocator = Global> {
    /// The transition that made it.
    pub at: u64,
    /// The constraint that was active.
    pub active: Id,
    /// The verdict there.
    pub verdict: Verdict<A>,
}

/// What a run did with a rule and a list of constraints.
#[derive(Drop)]
pub struct ListLog<A: Allocator = Global> {
    /// The searches for the rule with the list, in their order.
    pub searches: Vec<Search<A>, A>,
    /// The first transition after which the list could fire the rule, if there was one.
    pub could_from: Option<u64>,
}

/// Whether a run goes on.
pub(crate) fn is_running(status: Status) -> bool
    ensures { result ≡ steps.is_running (status_view status) }
{
    match status {
        Status::Running => true,
        Status::Done | Status::Failed | Status::Faulted(_) => false,
    }
}

/// The constraint whose search, in the next transition, is for the rule with the list, all of which lives.
fn looked_for<A: Allocator + Copy>(
    machine: &Machine<'_, A>,
    rule: usize,
    ids: HeadIds,
) -> Option<Id>
    ensures { let m = machine_view machine.now in option_map (λ i. i.0) result
        ≡ looks_for m.rules (state_in m) rule ids }
{
    if !is_running(machine.status()) || !all_live(machine.store(), ids.as_slice()) {
        return None;
    }
    let (top, _) = machine.stack().split_last()?;
    looked_at(machine.program(), rule, ids, top)
}

/// Whether the list could fire the rule in the state of a run.
fn could_fire<A: Allocator + Copy>(
    alloc: A,
    machine: &Machine<'_, A>,
    rule: usize,
    ids: HeadIds,
) -> Result<bool, Memory>
    requires { rule < length (machine_view machine.now).rules }
    ensures { let m = machine_view machine.now in IfOk result (λ could. (r : semantics.Rule) →
        slice_get m.rules rule ≡ Some r → could ≡ is_could_fire (verdict (state_in m) rule r ids)) }
{
    match judge(alloc, machine, rule, ids)? {
        Verdict::CouldFire => Ok(true),
        _ => Ok(false),
    }
}

impl<A: Allocator + Copy> ListLog<A> {
    /// Notes whether the list could fire the rule after a transition, where it could not before.
    fn note_state(
        &mut self,
        alloc: A,
        machine: &Machine<'_, A>,
        rule: usize,
        ids: HeadIds,
    ) -> Result<(), Memory>
        requires { rule < length (machine_view machine.now).rules }
        ensures could { OnOk result (NotesState (machine_view machine.now) rule ids self.old.could_from self.new.could_from) }
        ensures searches { self.new.searches ≡ self.old.searches }
    {
        if self.could_from.is_none() && could_fire(alloc, machine, rule, ids)? {
            self.could_from = Some(machine.steps());
        }
        Ok(())
    }

    /// Notes the search of a transition, if it made one.
    fn note_search(&mut self, search: Option<Search<A>>) -> Result<(), Memory>
        ensures searches { OnOk result ((list_view self.new).searches
            ≡ (list_view self.old).searches ++ option_to_list (option_map search_view search)) }
        ensures could { self.new.could_from ≡ self.old.could_from }
    {
        if let Some(search) = search {
            self.searches.push(search)?;
        }
        Ok(())
    }
}

/// The search that the next transition makes for the rule with the list, if it makes one.
fn search_for<A: Allocator + Copy>(
    alloc: A,
    machine: &Machine<'_, A>,
    rule: usize,
    ids: HeadIds,
) -> Result<Option<Search<A>>, Memory>
    requires { rule < length (machine_view machine.now).rules }
    ensures { IfOk result (λ search. IsSearch (machine_view machine.now) rule ids (option_map search_view search)) }
{
    let Some(active) = looked_for(machine, rule, ids) else {
        return Ok(None);
    };
    Ok(Some(Search {
        at: machine.steps() + 1,
        active,
        verdict: judge(alloc, machine, rule, ids)?,
    }))
}

/// A rule, by its number from 0, and a list of identities.
#[derive(Clone, Copy, Drop)]
pub(crate) struct Listed<A: Allocator + Copy> {
    alloc: A,
    rule: usize,
    ids: HeadIds,
}

impl<A: Allocator + Copy> Notes<A> for ListLog<A> {
    type Subject = Listed<A>;

    ghost are_of = { λ listed log p q n. (r : semantics.Rule) → slice_get p listed.rule ≡ Some r
        → IsListLog p q n listed.rule r listed.ids (list_view log) };

    ghost has = { λ p listed. listed.rule < length p };

    fn step(
        &mut self,
        listed: &Listed<A>,
        watched: &mut Watched<'_, A>,
    ) -> Result<Stepped, Memory> {
        let Listed { alloc, rule, ids } = *listed;
        let search = search_for(alloc, watched.machine(), rule, ids)?;
        match watched.step()? {
            Stepped::Moved => {
                self.note_search(search)?;
                self.note_state(alloc, watched.machine(), rule, ids)?;
                Ok(Stepped::Moved)
            }
            Stepped::Ended => Ok(Stepped::Ended),
            Stepped::Spent => Ok(Stepped::Spent),
        }
    }
}

/// `watch`, with what the run did with a rule, by its number from 0, and a list of identities, one for each head. The only error is want of
/// memory.
pub fn watch_list<'p, A: Allocator + Copy>(
    alloc: A,
    program: &'p Program<A>,
    query: Query<A>,
    n: u64,
    rule: usize,
    ids: HeadIds,
) -> Result<(Watched<'p, A>, ListLog<A>), Memory>
    requires bounded { IsQueryBounded (query_view query) }
    requires rule { rule < length (rules_of program.now) }
    ensures run { IfOk result (λ both. IsRunOf (names_of program.now) (rules_of program.now) (query_view query) n (machine_in both.0)) }
    ensures watched { IfOk result (λ both. IsWatched (rules_of program.now) (query_view query) both.0) }
    ensures list { IfOk result (λ both. (r : semantics.Rule) → slice_get (rules_of program.now) rule ≡ Some r
        → IsListLog (rules_of program.now) (query_view query) (machine_in both.0).steps rule r ids (list_view both.1)) }
{
    let mut watched = Watched::start(alloc, program, query)?;
    let mut list = ListLog {
        searches: Vec::new(alloc),
        could_from: None,
    };
    list.note_state(alloc, watched.machine(), rule, ids)?;
    go_on(&mut watched, &Listed { alloc, rule, ids }, &mut list, n)?;
    Ok((watched, list))
}
