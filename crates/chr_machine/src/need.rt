//! What the next step asks for.
ghost use Rattle.std.specs.Prelude.{◌≡◌, ◌∷◌, ◌^◌, ◌<◌, [], IfNone, IfSome, IsTrue, cond, is_some, option_map};
ghost use Rattle.chr_semantics.specs.Program.{occurrence};
ghost use Rattle.chr_semantics.specs.Tasks.{lives, needed_task};
ghost use Rattle.chr_rules.specs.ProgramView.{rules_of};
ghost use Rattle.chr_trace.specs.State.{elem_view, stack_view};
ghost use Rattle.chr_base.specs.BaseView.{program_of};
ghost use Rattle.chr_machine.specs.Gathering.{active_of, waiting_view};
ghost use Rattle.chr_machine.specs.Model.{model_of, state_in};
ghost use Rattle.chr_machine.specs.NeedView.{asked, need, need_view};

use crate::execution::Execution;
use crate::stack::top_of;
use crate::tasks::Waiting;
use chr_find::Task;
use chr_store::Id;
use chr_term::Sym;
use chr_trace::{Elem, Status};
use std::alloc::Allocator;

/// What the next step asks for.
#[derive(Clone, Copy, PartialEq, Eq, Drop)]
pub enum Need {
    /// The search for the partners of the active constraint, which lives, at its occurrence, which is there.
    Search(Task),
    /// No search.
    Plain,
    /// The run has ended, so there is no next step.
    Ended,
}

impl<'p, A: Allocator + Copy> Execution<'p, A> {
    /// Whether a symbol has an occurrence of that number.
    pub fn has_occurrence(&self, sym: Sym, number: u32) -> bool
        ensures is { result ≡ is_some (occurrence (rules_of (program_of self.now.course.base)) sym.0 number) }
        ensures few { IsTrue result → number < 2 ^ 31 }
    {
        self.course.base.program().occurrence(sym, number).is_some()
    }

    /// The constraint, where it lives.
    pub fn living(&self, sym: Sym, id: Id, number: u32) -> Option<Waiting>
        ensures { option_map waiting_view result
            ≡ cond (lives (state_in (model_of self.now)) id.0) (Some (sym.0, id.0, number)) None }
    {
        if self.course.base.store().alive(id) {
            Some(Waiting { sym, id, number })
        } else {
            None
        }
    }

    /// The constraint that is active on top of the stack, where it lives, and the stack below it.
    pub fn active_top(&self) -> Option<(Waiting, &[Elem<A>])>
        ensures { option_map (λ t. (waiting_view t.0, stack_view t.1.now)) result
            ≡ active_of (state_in (model_of self.now)) (model_of self.now).stack }
    {
        let (top, below) = match top_of(self.stack.as_slice()) {
            None => return None,
            Some(parts) => parts,
        };
        match top {
            Elem::Active(id, number, sym, _) => match self.living(*sym, *id, *number) {
                None => None,
                Some(active) => Some((active, below)),
            },
            Elem::Known(_, _, _) | Elem::Goal(_) => None,
        }
    }

    /// What the top of the stack asks for.
    fn need_top(&self) -> Need
        ensures { need_view result
            ≡ asked (needed_task (rules_of (program_of self.now.course.base)) (state_in (model_of self.now))) }
    {
        let active = match self.active_top() {
            None => return Need::Plain,
            Some((active, _)) => active,
        };
        if self.has_occurrence(active.sym, active.number) {
            Need::Search(Task {
                goal: active.id,
                occurrence: active.number,
            })
        } else {
            Need::Plain
        }
    }

    /// What the next step asks for.
    pub fn need(&self) -> Need
        ensures { need_view result ≡ need (model_of self.now) }
    {
        match self.status {
            Status::Running => self.need_top(),
            Status::Done | Status::Failed | Status::Faulted(_) => Need::Ended,
        }
    }
}
