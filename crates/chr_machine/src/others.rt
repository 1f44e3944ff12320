//! Whether a search is worth sharing: whether there are tasks beside the one that the next step needs.
ghost use Rattle.std.specs.Prelude.{◌≡◌, ◌++◌, length, nat_le};
ghost use Rattle.std.specs.List.{list_any};
ghost use Rattle.chr_semantics.specs.Tasks.{below_top, guest_in, guest_tasks, tasks, tasks_from};
ghost use Rattle.chr_rules.specs.ProgramView.{rules_of};
ghost use Rattle.chr_find.specs.SnapshotView.{task_view};
ghost use Rattle.chr_trace.specs.State.{stack_view};
ghost use Rattle.chr_base.specs.BaseView.{program_of};
ghost use Rattle.chr_machine.specs.Gathering.{is_other};
ghost use Rattle.chr_machine.specs.Model.{model_of, state_in};
ghost use Rattle.chr_machine.specs.NeedView.{need, search_of};

use crate::execution::Execution;
use crate::tasks::{Waiting, first_told};
use chr_find::Task;
use chr_semantics::limits::MAX_WAITING_ELEMENTS;
use chr_trace::Elem;
use std::alloc::Allocator;

impl<'p, A: Allocator + Copy> Execution<'p, A> {
    /// Whether a constraint has a task beside that one.
    fn has_other(&self, waiting: Waiting, task: Task) -> bool
        ensures { result ≡ list_any (is_other (task_view task))
            (tasks_from (rules_of (program_of self.now.course.base)) waiting.sym.0 waiting.id.0 waiting.number) }
    {
        if !self.reaches(waiting.sym, waiting.number) {
            return false;
        }
        if waiting.id.0 != task.goal.0 || waiting.number != task.occurrence {
            return true;
        }
        self.reaches(waiting.sym, waiting.number + 1)
    }

    /// Whether one of the first eight elements that wait below the top has one.
    fn below_has_other(&self, below: &[Elem<A>], task: Task) -> bool
        ensures { result ≡ list_any (is_other (task_view task))
            (below_top (rules_of (program_of self.now.course.base)) (state_in (model_of self.now)) (stack_view below.now)) }
    {
        let mut left = below.len();
        let mut wanted = MAX_WAITING_ELEMENTS;
        while left > 0 && wanted > 0 {
            left -= 1;
            if let Some(waiting) = self.waiting(&below[left]) {
                if self.has_other(waiting, task) {
                    return true;
                }
                wanted -= 1;
            }
        }
        false
    }

    /// Whether the guest has one.
    fn guest_has_other(&self, below: &[Elem<A>], task: Task) -> bool
        ensures { result ≡ list_any (is_other (task_view task))
            (guest_tasks (rules_of (program_of self.now.course.base)) (state_in (model_of self.now))
            (guest_in (stack_view below.now))) }
    {
        match first_told(below) {
            None => false,
            Some((sym, _)) => {
                let id = self.course.base.store().next();
                self.has_other(Waiting { sym, id, number: 1 }, task)
            }
        }
    }

    /// Whether one of these has one: the constraint that is active on top, an element below it, the guest.
    fn has_other_at(&self, active: Waiting, below: &[Elem<A>], task: Task) -> bool
        ensures { let p = rules_of (program_of self.now.course.base) in let s = state_in (model_of self.now) in
            result ≡ list_any (is_other (task_view task)) (tasks_from p active.sym.0 active.id.0 active.number
            ++ below_top p s (stack_view below.now) ++ guest_tasks p s (guest_in (stack_view below.now))) }
    {
        if self.has_other(active, task) {
            return true;
        }
        if self.below_has_other(below, task) {
            return true;
        }
        self.guest_has_other(below, task)
    }

    /// Whether there are tasks beside the one that the next step needs.
    pub fn has_other_tasks(&self, task: Task) -> bool
        requires { need (model_of self.now) ≡ search_of (task_view task) }
        ensures { result
            ≡ nat_le 2 (length (tasks (rules_of (program_of self.now.course.base)) (state_in (model_of self.now)))) }
    {
        match self.active_top() {
            None => false,
            Some((active, below)) => self.has_other_at(active, below, task),
        }
    }
}
