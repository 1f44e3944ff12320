//! The machine as its callers see it.
ghost use Rattle.std.specs.Prelude.{◌≡◌, ◌≤◌, IfOk, OnErr, length, nat_le, option_map};
ghost use Rattle.chr_semantics.specs.Bounds.{IsQueryBounded};
ghost use Rattle.chr_semantics.specs.Outcome.{outcome_of};
ghost use Rattle.chr_semantics.specs.Profile.{counted_next};
ghost use Rattle.chr_semantics.specs.Snapshot.{snapshot_of};
ghost use Rattle.chr_semantics.specs.Tasks.{guest, tasks};
ghost use Rattle.chr_semantics.specs.declared.limits.TheConstants.{MAX_TRANSITIONS};
ghost use Rattle.chr_rules.specs.ProgramView.{names_of, rules_of};
ghost use Rattle.chr_rules.specs.RuleView.{query_view};
ghost use Rattle.chr_store.specs.HistoryView.{entries_view};
ghost use Rattle.chr_store.specs.Numbers.{numbers};
ghost use Rattle.chr_store.specs.StoreView.{store_view};
ghost use Rattle.chr_find.specs.SnapshotView.{IsSnapshot, guest_view, task_view, tasks_view};
ghost use Rattle.chr_find.specs.TriedView.{AreTried};
ghost use Rattle.chr_trace.specs.State.{stack_view, status_view};
ghost use Rattle.chr_machine.specs.Model.{model_of, state_in};
ghost use Rattle.chr_machine.specs.NeedView.{Answers, need, need_view, plain, search_of};
ghost use Rattle.chr_machine.specs.OutcomeView.{outcome_view};
ghost use Rattle.chr_machine.specs.Proper.{propers};
ghost use Rattle.chr_machine.specs.Step.{IsSteady};

use crate::execution::Execution;
use crate::need::Need;
use crate::outcome::Outcome;
use crate::search_answer::SearchAnswer;
use crate::stepped::Stepped;
use chr_bind::Bindings;
use chr_find::{Found, Snapshot, Task, Tried};
use chr_rules::{Program, Query};
use chr_store::{HeadIds, History, Id, Store};
use chr_term::{Memory, Sym, Term, VarNames};
use chr_trace::{Elem, Lines, Status};
use smallvec::SmallVec;
use std::alloc::{Allocator, Global};

/// A run of a query under a program, a transition at a time, with its trace.
#[derive(Drop)]
pub struct Machine<'p, A: Allocator = Global> {
    execution: Execution<'p, A>,
    ghost steady: { IsSteady execution } by { Prim.hlevel propers },
}

impl<'p, A: Allocator + Copy> Machine<'p, A> {
    ghost use Rattle.chr_machine.specs.MachineView.{IsRefused, Runs, Starts, Steps, machine_view};

    /// The machine before the first transition of the query, which was read for this program.
    pub fn start(
        alloc: A,
        program: &'p Program<A>,
        query: Query<A>,
    ) -> Result<Machine<'p, A>, Memory>
        requires { IsQueryBounded (query_view query) }
        ensures { IfOk result
            (λ machine. Starts (names_of program.now) (rules_of program.now) (query_view query)
            (machine_view machine)) }
    {
        let execution = Execution::start(alloc, program, query)?;
        Ok(Machine { execution })
    }

    /// Makes one transition and appends its line. It answers Ended where the run is not running any more, else Spent where 1,000,000
    /// transitions were made, and only else can it want memory; these and Memory leave the machine as before.
    pub fn step(&mut self) -> Result<Stepped, Memory>
        ensures ok { IfOk result
            (λ stepped. Steps stepped (machine_view self.old) (machine_view self.new)) }
        ensures err { OnErr result (IsRefused (machine_view self.old) (machine_view self.new)) }
    {
        self.execution.step(&SearchAnswer::Missing)
    }

    /// Makes one transition that asks for no search. It answers Spent where 1,000,000 transitions were made; this and Memory leave the
    /// machine as before.
    pub fn step_plain(&mut self) -> Result<Stepped, Memory>
        requires { need (machine_view self.old) ≡ plain }
        ensures ok { IfOk result
            (λ stepped. Steps stepped (machine_view self.old) (machine_view self.new)) }
        ensures err { OnErr result (IsRefused (machine_view self.old) (machine_view self.new)) }
    {
        self.step()
    }

    /// Makes one transition that asks for a search, with the answer of that search, and makes none itself. It answers Spent where 1,000,000
    /// transitions were made; this and Memory leave the machine as before.
    pub fn step_with(&mut self, found: Found<SmallVec<Id, 8, A>>) -> Result<Stepped, Memory>
        requires { Answers (machine_view self.old) (option_map (λ ids. numbers ids.items) found.ids) }
        ensures ok { IfOk result
            (λ stepped. Steps stepped (machine_view self.old) (machine_view self.new)) }
        ensures err { OnErr result (IsRefused (machine_view self.old) (machine_view self.new)) }
    {
        let ids = match &found.ids {
            None => None,
            Some(ids) => Some(HeadIds::of(ids.as_slice())),
        };
        self.step_answered(ids)
    }

    /// As `step_with`, with the identities that the answer has.
    pub fn step_answered(&mut self, ids: Option<HeadIds>) -> Result<Stepped, Memory>
        requires { Answers (machine_view self.old) ids }
        ensures ok { IfOk result
            (λ stepped. Steps stepped (machine_view self.old) (machine_view self.new)) }
        ensures err { OnErr result (IsRefused (machine_view self.old) (machine_view self.new)) }
    {
        self.execution.step(&SearchAnswer::Found(ids))
    }

    /// Makes transitions until it has made n, the run has ended or 1,000,000 stand. It answers Ended where the run has ended then, Spent
    /// where the limit kept it from n, else Moved. Where it meets Memory, it stands after the whole transitions that it made.
    pub fn run_alone(&mut self, n: u64) -> Result<Stepped, Memory>
        ensures { Runs result n (machine_view self.old) (machine_view self.new) }
    {
        self.execution.run_alone(n)
    }
}

impl<'p, A: Allocator + Copy> Machine<'p, A> {
    ghost use Rattle.chr_machine.specs.MachineView.{machine_view};

    /// What the next step asks for: the search of a task, no search, or nothing, since the run has ended.
    pub fn top(&self) -> Need
        ensures { need_view result ≡ need (machine_view self.now) }
    {
        self.execution.need()
    }

    /// The guest, as it stands on the stack: where a constraint is active on top and lives, the topmost goal below it that is a constraint
    /// which is not yet active.
    pub fn guest(&self) -> Option<(Sym, &[Term<A>])>
        ensures { guest_view result ≡ guest (state_in (machine_view self.now)) }
    {
        match self.execution.guest() {
            None => None,
            Some((sym, args)) => Some((sym, args.as_slice())),
        }
    }

    /// The searches that are worth making ahead, at most 64: those of the constraint that is active on top, where it lives, then those of the first
    /// eight living constraints below it, then those of the guest, under the next identity. It costs the stack only as far as these reach. The
    /// only error is want of memory.
    pub fn tasks(&self) -> Result<Vec<Task, A>, Memory>
        ensures { IfOk result (λ list. tasks_view list.items
            ≡ tasks (machine_view self.now).rules (state_in (machine_view self.now))) }
    {
        self.execution.tasks()
    }

    /// Whether there are tasks beside the one that the next step needs: whether there are two or more. It takes no memory, and costs the
    /// stack only as far as the tasks reach.
    pub fn has_other_tasks(&self, task: Task) -> bool
        requires { need (machine_view self.now) ≡ search_of (task_view task) }
        ensures { result
            ≡ nat_le 2 (length (tasks (machine_view self.now).rules (state_in (machine_view self.now)))) }
    {
        self.execution.has_other_tasks(task)
    }

    /// A snapshot of the state with its tasks and its guest, to be searched elsewhere. The first one costs the store; each further one what has
    /// changed since, the tasks, and the stack as far as they reach. The only error is want of memory.
    pub fn snapshot(&mut self) -> Result<Snapshot<A>, Memory>
        ensures same { machine_view self.new ≡ machine_view self.old }
        ensures shown { let m = machine_view self.old in
            IfOk result (λ shared. IsSnapshot shared (snapshot_of m.rules (state_in m))) }
    {
        self.execution.snapshot()
    }

    /// How many lists a search that begins anew looks at for the constraint that is active on top, at its occurrence: the complete ones up to
    /// and with the first that can fire, and the partial ones up to it; no more than 64 bits count. There are none where the next transition
    /// makes no search. The only error is want of memory.
    pub fn tries(&mut self) -> Result<Tried, Memory>
        ensures same { machine_view self.new ≡ machine_view self.old }
        ensures tries { let m = machine_view self.old in
            IfOk result (AreTried (λ f. counted_next f m.rules (state_in m))) }
    {
        self.execution.tries()
    }

    /// What the run has come to, with its trace.
    pub fn finish(self) -> Outcome<A>
        ensures outcome { let m = machine_view self.entry in
            outcome_view result ≡ outcome_of (state_in m) m.steps m.lines m.var_names }
        ensures store { store_view result.store ≡ (machine_view self.entry).base.store }
        ensures history { entries_view result.history ≡ (machine_view self.entry).base.entries }
    {
        self.execution.finish()
    }

    /// The number of transitions that were made.
    pub fn steps(&self) -> u64
        ensures value { result ≡ (machine_view self.now).steps }
        ensures limit { result ≤ MAX_TRANSITIONS }
    {
        self.execution.course.steps
    }

    /// The goal stack, its top last.
    pub fn stack(&self) -> &[Elem<A>]
        ensures { stack_view result.now ≡ (machine_view self.now).stack }
    {
        self.execution.stack.as_slice()
    }

    /// The constraints with their identities.
    pub fn store(&self) -> &Store<A>
        ensures { store_view result.now ≡ (machine_view self.now).base.store }
    {
        self.execution.course.base.store()
    }

    /// The bindings.
    pub fn bindings(&self) -> &Bindings<A>
        ensures subst { result.now.subst ≡ (machine_view self.now).base.subst }
        ensures len { result.now.len ≡ (machine_view self.now).base.next_var }
    {
        self.execution.course.base.bindings()
    }

    /// The propagation history.
    pub fn history(&self) -> &History<A>
        ensures { entries_view result.now ≡ (machine_view self.now).base.entries }
    {
        self.execution.course.base.history()
    }

    /// How the run stands.
    pub fn status(&self) -> Status
        ensures { status_view result ≡ (machine_view self.now).status }
    {
        self.execution.status
    }

    /// The lines of the trace, each without its line feed.
    pub fn lines(&self) -> &Lines<A>
        ensures { result.now.made ≡ (machine_view self.now).lines }
    {
        &self.execution.course.lines
    }

    /// The program that it runs.
    pub fn program(&self) -> &Program<A>
        ensures names { names_of result.now ≡ (machine_view self.now).names }
        ensures rules { rules_of result.now ≡ (machine_view self.now).rules }
    {
        self.execution.course.base.program()
    }

    /// The names of the query's variables.
    pub fn var_names(&self) -> &VarNames<A>
        ensures { result.now ≡ (machine_view self.now).var_names }
    {
        &self.execution.course.var_names
    }
}
