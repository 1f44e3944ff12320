//! The searches that are worth making ahead, and the constraint that may be the next one to be stored.
ghost use Rattle.std.specs.Prelude.{◌≡◌, ◌≤◌, ◌<◌, ◌^◌, ◌++◌, ◌∷◌, [], IfNone, IfOk, IfSome, IsTrue, List, MatchBool, OnOk, length, option_map};
ghost use Rattle.std.specs.List.{list_any};
ghost use Rattle.chr_semantics.specs.Program.{constraint, occurrences};
ghost use Rattle.chr_semantics.specs.State.{Element, goal};
ghost use Rattle.chr_semantics.specs.Tasks.{below_top, element_search, guest, guest_in, guest_tasks, same_task, tasks, tasks_from};
ghost use Rattle.chr_semantics.specs.declared.limits.TheConstants.{MAX_TASKS};
ghost use Rattle.chr_rules.specs.ProgramView.{rules_of};
ghost use Rattle.chr_find.specs.SnapshotView.{task_view, tasks_view, told_view};
ghost use Rattle.chr_term.specs.TermView.{atom_over};
ghost use Rattle.chr_trace.specs.State.{elem_view, stack_view};
ghost use Rattle.chr_base.specs.BaseView.{program_of};
ghost use Rattle.chr_machine.specs.Gathering.{gathered, waiting_view, with_task};
ghost use Rattle.chr_machine.specs.Model.{model_of, state_in};

use crate::execution::Execution;
use chr_find::Task;
use chr_rules::Goal;
use chr_semantics::limits::{MAX_TASKS, MAX_WAITING_ELEMENTS};
use chr_store::Id;
use chr_term::{Args, Memory, Sym};
use chr_trace::Elem;
use std::alloc::Allocator;

/// A constraint that is to be searched, from an occurrence on.
#[derive(Clone, Copy, Drop)]
pub struct Waiting {
    pub sym: Sym,
    pub id: Id,
    pub number: u32,
}

/// The constraint that an element of the stack tells, if it tells one.
fn told<A: Allocator>(elem: &Elem<A>) -> Option<(Sym, &Args<A>)>
    ensures some { IfSome result (λ found. elem_view elem.now
        ≡ goal (constraint (atom_over found.0 found.1.now))) }
    ensures none { IfNone result ((es : List Element) → guest_in (elem_view elem.now ∷ es) ≡ guest_in es) }
{
    match elem {
        Elem::Goal(goal) => match goal {
            Goal::Chr(sym, args) => Some((*sym, args)),
            Goal::Told(_, _, _) => None,
            Goal::Fail => None,
        },
        Elem::Known(_, _, _) | Elem::Active(_, _, _, _) => None,
    }
}

/// The topmost constraint of a stack that is not yet active.
pub fn first_told<A: Allocator>(stack: &[Elem<A>]) -> Option<(Sym, &Args<A>)>
    ensures { told_view result ≡ guest_in (stack_view stack.now) }
{
    let mut left = stack.len();
    while left > 0 {
        left -= 1;
        if let Some(found) = told(&stack[left]) {
            return Some(found);
        }
    }
    None
}

/// Whether the task is one of these.
fn is_among(tasks: &[Task], task: Task) -> bool
    ensures { result ≡ list_any (same_task (task_view task)) (tasks_view tasks.now) }
{
    for other in tasks {
        if task.goal.0 == other.goal.0 && task.occurrence == other.occurrence {
            return true;
        }
    }
    false
}

/// Appends a task, unless 64 stand there already, or it is one of them.
fn put_task<A: Allocator>(tasks: &mut Vec<Task, A>, task: Task) -> Result<(), Memory>
    ensures { OnOk result (tasks_view tasks.new.items
        ≡ with_task MAX_TASKS (tasks_view tasks.old.items) (task_view task)) }
{
    if tasks.len() >= MAX_TASKS || is_among(tasks.as_slice(), task) {
        return Ok(());
    }
    tasks.push(task)?;
    Ok(())
}

impl<'p, A: Allocator + Copy> Execution<'p, A> {
    /// Whether the occurrences of a symbol go on to that number.
    pub fn reaches(&self, sym: Sym, number: u32) -> bool
        ensures cases { let last = length (occurrences (rules_of (program_of self.now.course.base)) sym.0) in
            MatchBool result (number ≤ last) (last < number) }
        ensures few { IsTrue result → number < 2 ^ 31 }
    {
        number == 0 || self.has_occurrence(sym, number)
    }

    /// Appends the tasks of a constraint, as far as 64 do not stand there.
    fn put_tasks(&self, waiting: Waiting, tasks: &mut Vec<Task, A>) -> Result<(), Memory>
        ensures { OnOk result (tasks_view tasks.new.items ≡ gathered MAX_TASKS (tasks_view tasks.old.items)
            (tasks_from (rules_of (program_of self.now.course.base)) waiting.sym.0 waiting.id.0 waiting.number)) }
    {
        let mut number = waiting.number;
        while tasks.len() < MAX_TASKS && self.reaches(waiting.sym, number) {
            put_task(
                tasks,
                Task {
                    goal: waiting.id,
                    occurrence: number,
                },
            )?;
            number += 1;
        }
        Ok(())
    }

    /// What an element below the top of the stack waits for.
    pub fn waiting(&self, elem: &Elem<A>) -> Option<Waiting>
        ensures { option_map waiting_view result
            ≡ element_search (state_in (model_of self.now)) (elem_view elem.now) }
    {
        match elem {
            Elem::Goal(_) => None,
            Elem::Known(id, sym, _) => self.living(*sym, *id, 1),
            Elem::Active(id, number, sym, _) => self.living(*sym, *id, *number),
        }
    }

    /// Appends the tasks of the first eight elements that wait below the top.
    fn put_below(&self, below: &[Elem<A>], tasks: &mut Vec<Task, A>) -> Result<(), Memory>
        ensures { OnOk result (tasks_view tasks.new.items ≡ gathered MAX_TASKS (tasks_view tasks.old.items)
            (below_top (rules_of (program_of self.now.course.base)) (state_in (model_of self.now)) (stack_view below.now))) }
    {
        let mut left = below.len();
        let mut wanted = MAX_WAITING_ELEMENTS;
        while left > 0 && wanted > 0 {
            left -= 1;
            if let Some(waiting) = self.waiting(&below[left]) {
                self.put_tasks(waiting, tasks)?;
                wanted -= 1;
            }
        }
        Ok(())
    }

    /// Appends the tasks of the guest, under the next identity.
    fn put_guest(&self, below: &[Elem<A>], tasks: &mut Vec<Task, A>) -> Result<(), Memory>
        ensures { OnOk result (tasks_view tasks.new.items ≡ gathered MAX_TASKS (tasks_view tasks.old.items)
            (guest_tasks (rules_of (program_of self.now.course.base)) (state_in (model_of self.now))
            (guest_in (stack_view below.now)))) }
    {
        match first_told(below) {
            None => Ok(()),
            Some((sym, _)) => {
                let id = self.course.base.store().next();
                self.put_tasks(Waiting { sym, id, number: 1 }, tasks)
            }
        }
    }

    /// The tasks where a constraint is active on top.
    fn tasks_at(&self, active: Waiting, below: &[Elem<A>]) -> Result<Vec<Task, A>, Memory>
        ensures { let p = rules_of (program_of self.now.course.base) in let s = state_in (model_of self.now) in
            IfOk result (λ list. tasks_view list.items ≡ gathered MAX_TASKS []
            (tasks_from p active.sym.0 active.id.0 active.number ++ below_top p s (stack_view below.now)
            ++ guest_tasks p s (guest_in (stack_view below.now)))) }
    {
        let mut tasks = Vec::with_capacity(self.course.alloc, MAX_TASKS)?;
        self.put_tasks(active, &mut tasks)?;
        self.put_below(below, &mut tasks)?;
        self.put_guest(below, &mut tasks)?;
        Ok(tasks)
    }

    /// The tasks of the state.
    pub fn tasks(&self) -> Result<Vec<Task, A>, Memory>
        ensures { IfOk result (λ list. tasks_view list.items
            ≡ tasks (rules_of (program_of self.now.course.base)) (state_in (model_of self.now))) }
    {
        match self.active_top() {
            None => Ok(Vec::new(self.course.alloc)),
            Some((active, below)) => self.tasks_at(active, below),
        }
    }

    /// The guest of the state.
    pub fn guest(&self) -> Option<(Sym, &Args<A>)>
        ensures { told_view result ≡ guest (state_in (model_of self.now)) }
    {
        match self.active_top() {
            None => None,
            Some((_, below)) => first_told(below),
        }
    }
}
