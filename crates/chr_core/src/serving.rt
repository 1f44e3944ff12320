//! Whether a kept answer serves the next step, or is still good.
ghost use Rattle.std.specs.Prelude.{◌≡◌, ◌&&◌, ◌+◌, ◌==◌, IfNone, IfSome, None, false, is_some, true};
ghost use Rattle.std.specs.List.{list_any};
ghost use Rattle.chr_semantics.specs.Search.{atom_of};
ghost use Rattle.chr_semantics.specs.State.{resolved_atom};
ghost use Rattle.chr_semantics.specs.Tasks.{guest};
ghost use Rattle.chr_term.specs.TermView.{atom_view};
ghost use Rattle.chr_laws.specs.Good.{is_good};
ghost use Rattle.chr_laws.specs.Stands.{HasOccurrence};
ghost use Rattle.chr_find.specs.SnapshotView.{task_view};
ghost use Rattle.chr_machine.specs.Model.{state_in};
ghost use Rattle.chr_machine.specs.NeedView.{need};

use crate::run_core::Core;
use crate::stamps::{own_touches, touches};
use crate::touching::has_occurrence;
use chr_find::Task;
use chr_machine::Need;
use chr_shelf::RunName;
use chr_term::{Sym, Term};
use std::alloc::Allocator;

/// What an answer to a task is held against: the constraint, how often the footprint was touched, and how much of that the Activate of the
/// constraint adds, which is nothing while it waits.
#[derive(Clone, Copy, Drop)]
struct Asked<'c, A: Allocator> {
    sym: Sym,
    args: &'c [Term<A>],
    touches: u128,
    own: u128,
}

/// Whether the first two numbers, added up, are the third.
fn is_sum(one: u128, other: u128, sum: u128) -> bool
    ensures { result ≡ (one + other == sum) }
{
    match one.checked_add(other) {
        None => false,
        Some(found) => found == sum,
    }
}

impl<'p, J: RunName, A: Allocator + Copy> Core<'p, J, A> {
    ghost use Rattle.chr_core.specs.CoreView.{core_in, machine_in, progress_of, start_of};
    ghost use Rattle.chr_core.specs.Serving.{GuestPasses, IsAsked, IsWaiting, NoneServes, ServesAt, guest_passes, row_passes, served_by, task_occurrence};

    /// What a task of the store asks for: nothing where no such constraint is in the store.
    fn asked(&self, task: Task) -> Option<Asked<'_, A>>
        ensures some { IfSome result (λ asked. IsAsked (machine_in self.now) (task_view task)
            (atom_view asked.sym asked.args.now) asked.touches asked.own) }
        ensures none { IfNone result
            (atom_of (machine_in self.now).base.store.rows (task_view task).0 ≡ None) }
    {
        let row = self.machine.store().row(task.goal)?;
        let program = self.machine.program();
        let (store, history) = (self.machine.store(), self.machine.history());
        Some(Asked {
            sym: row.sym,
            args: row.args.as_slice(),
            touches: touches(program, row.sym, task.occurrence, store, history),
            own: own_touches(program, row.sym, task.occurrence),
        })
    }

    /// What the task of the guest at an occurrence asks for: nothing where there is no guest.
    fn asked_of_guest(&self, occurrence: u32) -> Option<Asked<'_, A>>
        ensures some { IfSome result (λ asked. IsWaiting (machine_in self.now) occurrence
            (atom_view asked.sym asked.args.now) asked.touches asked.own) }
        ensures none { IfNone result (guest (state_in (machine_in self.now)) ≡ None) }
    {
        let guest = self.machine.guest()?;
        let program = self.machine.program();
        let (store, history) = (self.machine.store(), self.machine.history());
        Some(Asked {
            sym: guest.0,
            args: guest.1,
            touches: touches(program, guest.0, occurrence, store, history),
            own: 0,
        })
    }

    /// Whether the answer at a position, to a stored constraint's task, serves.
    fn row_serves(&self, position: usize, touches: u128) -> bool
        ensures { result ≡ row_passes (core_in self.now) touches position }
    {
        match self.answers.get(position) {
            None => false,
            Some(kept) => match self.rounds.get(kept.round as usize) {
                None => touches == 0,
                Some(round) => round.touches_at(kept.index) == touches,
            },
        }
    }

    /// Whether the answer at a position, to a guest's task, was made for what is asked.
    fn guest_serves(&self, position: usize, asked: Asked<'_, A>) -> bool
        ensures { result ≡ guest_passes (core_in self.now)
            (resolved_atom (machine_in self.now).base.subst (atom_view asked.entry.sym asked.entry.args.now)) asked.entry.own asked.entry.touches position }
    {
        match self.answers.get(position) {
            None => false,
            Some(kept) => match self.rounds.get(kept.round as usize) {
                None => false,
                Some(round) => {
                    round.has_guest(self.machine.bindings(), asked.sym, asked.args)
                        && is_sum(round.touches_at(kept.index), asked.own, asked.touches)
                }
            },
        }
    }

    /// Of positions of answers to guests' tasks, one whose answer was made for what is asked.
    fn guest_serving(&self, positions: &[usize], asked: Asked<'_, A>) -> Option<usize>
        ensures some { IfSome result (λ n. GuestPasses (core_in self.now) positions.now
            (resolved_atom (machine_in self.now).base.subst (atom_view asked.entry.sym asked.entry.args.now)) asked.entry.own asked.entry.touches n) }
        ensures none { IfNone result (list_any (guest_passes (core_in self.now)
            (resolved_atom (machine_in self.now).base.subst (atom_view asked.entry.sym asked.entry.args.now)) asked.entry.own asked.entry.touches)
            positions.now ≡ false) }
    {
        for position in positions {
            if self.guest_serves(*position, asked) {
                return Some(*position);
            }
        }
        None
    }

    /// The position of a kept answer that serves the search of a task of the store.
    pub(crate) fn serving(&self, task: Task) -> Option<usize>
        requires { HasOccurrence J.rules (state_in (machine_in self.now)) (task_view task) }
        ensures some { IfSome result
            (λ n. ServesAt J.rules (start_of self.now) (core_in self.now) (task_view task) n) }
        ensures none { IfNone result
            (NoneServes J.rules (start_of self.now) (core_in self.now) (task_view task)) }
    {
        let positions = self.answers.positions(task)?;
        let asked = self.asked(task)?;
        if let Some(position) = positions.row() {
            if self.row_serves(position, asked.touches) {
                return Some(position);
            }
        }
        self.guest_serving(positions.guests(), asked)
    }

    /// Whether the next step would use a kept answer.
    pub fn serves(&self) -> bool
        ensures { result ≡ served_by J.rules (start_of self.now) (progress_of self.now) (need (machine_in self.now)) }
    {
        match self.machine.top() {
            Need::Search(task) => self.serving(task).is_some(),
            Need::Plain | Need::Ended => false,
        }
    }

    /// Whether a kept answer to the task of the guest is good, of those at these positions.
    fn guest_is_good(&self, task: Task, positions: &[usize]) -> bool
        requires positions { positions.now ≡ (core_in self.now).guests (task_view task) }
        requires next { (task.goal.0 == (state_in (machine_in self.now)).next_id) ≡ true }
        requires occurs { is_some (task_occurrence J.rules (state_in (machine_in self.now)) (task_view task)) ≡ true }
        ensures { result ≡ is_good J.rules (start_of self.now) (progress_of self.now) (task_view task) }
    {
        match self.asked_of_guest(task.occurrence) {
            None => false,
            Some(asked) => self.guest_serving(positions, asked).is_some(),
        }
    }

    /// Whether a kept answer to a task is good, so that the task is not worth a search: for a constraint of the store, where it would serve a
    /// step now; for the guest, which can't be served before its Activate, where the answer was made for the same guest under the same
    /// identity and nothing that the search depends on has changed since. It is not where there is no such constraint, or where its symbol
    /// has no such occurrence.
    pub fn is_good(&self, task: Task) -> bool
        ensures { result ≡ (is_some (task_occurrence J.rules (state_in (machine_in self.now)) (task_view task))
            && is_good J.rules (start_of self.now) (progress_of self.now) (task_view task)) }
    {
        let Some(positions) = self.answers.positions(task) else {
            return false;
        };
        if !has_occurrence(&self.machine, task) {
            return false;
        }
        if task.goal == self.machine.store().next() {
            self.guest_is_good(task, positions.guests())
        } else {
            self.serving(task).is_some()
        }
    }
}
