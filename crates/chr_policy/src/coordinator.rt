//! The coordinator.
ghost use Rattle.std.specs.Prelude.{◌≡◌, ◌+◌, ◌<◌, ◌≤◌, [], IfOk, OnErr, OnOk};
ghost use Rattle.chr_semantics.specs.Bounds.{IsQueryBounded};
ghost use Rattle.chr_semantics.specs.Schedule.{progress, state_of};
ghost use Rattle.chr_semantics.specs.State.{start};
ghost use Rattle.chr_semantics.specs.Text.{trace};
ghost use Rattle.chr_semantics.specs.declared.limits.TheConstants.{MAX_TRANSITIONS};
ghost use Rattle.chr_rules.specs.ProgramView.{names_of, rules_of};
ghost use Rattle.chr_rules.specs.RuleView.{query_view};
ghost use Rattle.chr_find.specs.SnapshotView.{task_view};
ghost use Rattle.chr_machine.specs.MachineView.{Steps, machine_view};
ghost use Rattle.chr_machine.specs.Model.{state_in};
ghost use Rattle.chr_machine.specs.NeedView.{need, search_of};

use crate::Memory;
use crate::sharing::{absorb, has_place, show, step_beside};
use chr_board::{Board, Gate, Point};
use chr_core::{Core, CoreError, Counts, Event, Machine, Need, Outcome, Stepped};
use chr_find::Task;
use chr_rules::{Program, Query};
use chr_shelf::{RunName, Shelf};
use std::alloc::{Allocator, Global};
use std::sync::Wait;

/// What a run has come to: its outcome, its schedule and the counts of that, and how many calls for a round were refused.
#[derive(Drop)]
pub struct Made<A: Allocator = Global> {
    pub outcome: Outcome<A>,
    pub counts: Counts,
    pub schedule: Vec<Event, A>,
    pub skipped: u64,
}

/// A run that shows its state to workers and uses their answers, by the policy: where a step needs a search that no kept answer serves, and
/// there are two tasks or more, it publishes a round and offers it, once between two steps; before each step that needs a search it takes
/// the answers that were posted, calls the gate, and takes them again.
#[derive(Drop)]
pub struct Coordinator<'p, J: RunName, A: Allocator = Global> {
    core: Core<'p, J, A>,
    workers: u32,
    /// How many calls for a round were refused.
    skipped: u64,
    /// Whether the last of the rounds that a run may have was published: then each further call would be refused.
    is_full: bool,
    alloc: A,
}

impl<'p, J: RunName, A: Allocator + Copy> Coordinator<'p, J, A> {
    ghost use Rattle.chr_policy.specs.CoordinatorView.{IsAtRest, IsFullAt, IsMade, IsSame, events_by, machine_by, names_by, query_by, skipped_by, workers_by};
    ghost use Rattle.chr_policy.specs.Standing.{IsReady};

    /// The coordinator of a query that was read for this program, at its start.
    pub fn new(
        alloc: A,
        program: &'p Program<A>,
        query: Query<A>,
        workers: u32,
    ) -> Result<Coordinator<'p, J, A>, Memory>
        requires bounded { IsQueryBounded (query_view query) }
        requires rules { rules_of program.now ≡ J.rules }
        ensures rests { IfOk result (λ made. IsAtRest made) }
        ensures events { IfOk result (λ made. events_by made ≡ []) }
        ensures query { IfOk result (λ made. query_by made ≡ query_view query) }
        ensures names { IfOk result (λ made. names_by made ≡ names_of program.now) }
        ensures workers { IfOk result (λ made. workers_by made ≡ workers) }
    {
        let core = Core::new(alloc, program, query)?;
        Ok(Coordinator {
            core,
            workers,
            skipped: 0,
            is_full: false,
            alloc,
        })
    }

    /// Its machine, which stands where the steps of the schedule lead.
    pub fn machine(&self) -> &Machine<'p, A>
        ensures same { machine_view result.now ≡ machine_by self.now }
        ensures state { state_in (machine_view result.now)
            ≡ state_of J.rules (start (query_by self.now)) (events_by self.now) }
        ensures steps { (machine_view result.now).steps
            ≡ (progress J.rules (start (query_by self.now)) (events_by self.now)).steps }
        ensures lines { (machine_view result.now).lines ≡ trace (names_by self.now) (query_by self.now).var_names
            J.rules (start (query_by self.now)) 1 (progress J.rules (start (query_by self.now)) (events_by self.now)).steps }
    {
        self.core.machine()
    }

    /// Publishes a round and offers its tasks, where there is a place for it. After the last round it looks for none, and counts as refused.
    fn share(&mut self, rt: &impl Wait, shelf: &Shelf<A>, board: &Board<J, A>, task: Task)
        requires name { shelf.now ≡ J.shelf }
        requires rests { IsAtRest self.old }
        requires task { need (machine_by self.old) ≡ search_of (task_view task) }
        requires few { (machine_by self.old).steps < MAX_TRANSITIONS }
        requires workers { 0 < workers_by self.old }
        ensures ready { IsReady J.rules (start (query_by self.old)) (workers_by self.old) (skipped_by self.new)
            (progress J.rules (start (query_by self.old)) (events_by self.old)) (events_by self.new) }
        ensures few { skipped_by self.new ≤ (machine_by self.old).steps + 1 }
        ensures full { IsFullAt (progress J.rules (start (query_by self.old)) (events_by self.old)) self.new }
        ensures same { IsSame self.old self.new }
    {
        if self.is_full {
            self.skipped += 1;
            return;
        }
        if !has_place(&self.core, task) {
            return;
        }
        match show(rt, self.alloc, &mut self.core, shelf, board) {
            Ok(()) => {}
            Err(error) => {
                self.is_full = error == CoreError::ShelfFull;
                self.skipped += 1;
            }
        }
    }

    /// What comes before a step that needs the search of a task.
    fn prepare<G: Gate>(
        &mut self,
        rt: &impl Wait,
        shelf: &Shelf<A>,
        board: &Board<J, A>,
        gate: &G,
        task: Task,
    ) -> Result<(), Memory>
        requires name { shelf.now ≡ J.shelf }
        requires rests { IsAtRest self.old }
        requires task { need (machine_by self.old) ≡ search_of (task_view task) }
        requires few { (machine_by self.old).steps < MAX_TRANSITIONS }
        ensures ready { OnOk result (IsReady J.rules (start (query_by self.old)) (workers_by self.old) (skipped_by self.new)
            (progress J.rules (start (query_by self.old)) (events_by self.old)) (events_by self.new)) }
        ensures few { skipped_by self.new ≤ (machine_by self.old).steps + 1 }
        ensures full { IsFullAt (progress J.rules (start (query_by self.old)) (events_by self.old)) self.new }
        ensures same { IsSame self.old self.new }
    {
        let number = self.core.machine().steps() + 1;
        if self.workers == 0 {
            gate.at(Point::Own(number));
            return Ok(());
        }
        self.share(rt, shelf, board, task);
        absorb(rt, self.alloc, &mut self.core, shelf, board)?;
        gate.at(Point::Own(number));
        absorb(rt, self.alloc, &mut self.core, shelf, board)
    }

    /// Makes one transition by the policy. Ended and Memory leave the machine as before. After Memory the run is to be given up.
    pub fn turn<G: Gate>(
        &mut self,
        rt: &impl Wait,
        shelf: &Shelf<A>,
        board: &Board<J, A>,
        gate: &G,
    ) -> Result<Stepped, Memory>
        requires name { shelf.now ≡ J.shelf }
        requires rests { IsAtRest self.old }
        requires few { (machine_by self.old).steps < MAX_TRANSITIONS }
        ensures machine { IfOk result (λ stepped. Steps stepped (machine_by self.old) (machine_by self.new)) }
        ensures rests { OnOk result (IsAtRest self.new) }
        ensures query { query_by self.new ≡ query_by self.old }
        ensures workers { workers_by self.new ≡ workers_by self.old }
        ensures err { OnErr result (machine_by self.new ≡ machine_by self.old) }
    {
        match self.core.machine().top() {
            Need::Ended => Ok(Stepped::Ended),
            Need::Plain => self.core.step(),
            Need::Search(task) => {
                self.prepare(rt, shelf, board, gate, task)?;
                let has_workers = self.workers > 0;
                step_beside(rt, &mut self.core, board, has_workers, task)
            }
        }
    }

    /// What the run has come to.
    pub fn finish(self) -> Made<A>
        ensures { IsMade self.entry result }
    {
        let counts = self.core.counts();
        let (outcome, schedule) = self.core.finish();
        Made {
            outcome,
            counts,
            schedule,
            skipped: self.skipped,
        }
    }
}
