//! What a core keeps of a round.
ghost use Rattle.std.specs.Prelude.{◌≡◌, ◌<◌, ◌==◌, IfOk, Some, false, length, option_map, replicate, set, slice_get, true, unwrap_or};
ghost use Rattle.chr_semantics.specs.Schedule.{same_goal};
ghost use Rattle.chr_semantics.specs.Snapshot as semantics;
ghost use Rattle.chr_semantics.specs.State.{resolved_atom};
ghost use Rattle.chr_term.specs.TermView.{atom_view};
ghost use Rattle.chr_store.specs.Rows.{row_atom};
ghost use Rattle.chr_find.specs.SnapshotView.{IsSnapshot};
ghost use Rattle.chr_machine.specs.MachineView.{machine_view};
ghost use Rattle.chr_laws.specs.Rounds.{flag_in};
ghost use Rattle.chr_core.specs.RoundView.{kept_guest, round_of, round_view};

use crate::Memory;
use crate::touching::touches_of;
use chr_bind::Bindings;
use chr_find::Snapshot;
use chr_machine::Machine;
use chr_store::{Id, Row};
use chr_term::{Args, Sym, Term};
use std::alloc::Allocator;

/// A round: the transitions before it, the next identity there, its guest with the bindings applied, how often the footprint of each task
/// was touched, and to which tasks the answer was kept.
#[derive(Drop)]
pub(crate) struct Round<A: Allocator> {
    pub(crate) at: u64,
    pub(crate) next: Id,
    pub(crate) guest: Option<(Sym, Args<A>)>,
    pub(crate) touches: Vec<u128, A>,
    pub(crate) is_kept: Vec<bool, A>,
}

/// The guest of a snapshot again.
fn shared_guest<A: Allocator + Copy>(
    guest: Option<&Row<A>>,
) -> Result<Option<(Sym, Args<A>)>, Memory>
    ensures { IfOk result (λ shared. kept_guest shared ≡ option_map (λ row. row_atom row.now) guest.entry) }
{
    match guest {
        None => Ok(None),
        Some(row) => Ok(Some((row.sym, row.args.share()?))),
    }
}

/// So many times no.
fn none_kept<A: Allocator + Copy>(alloc: A, count: usize) -> Result<Vec<bool, A>, Memory>
    ensures { IfOk result (λ flags. flags.items ≡ replicate count false) }
{
    let mut flags = Vec::with_capacity(alloc, count)?;
    for _ in 0..count {
        flags.push(false)?;
    }
    Ok(flags)
}

impl<A: Allocator + Copy> Round<A> {
    /// The round of a machine's state, whose snapshot this is. No answer was kept.
    pub(crate) fn of(
        alloc: A,
        machine: &Machine<A>,
        snapshot: &Snapshot<A>,
    ) -> Result<Round<A>, Memory>
        ensures { IfOk result (λ round. (q : semantics.Snapshot) → IsSnapshot snapshot.now q →
            round_view round ≡ round_of (machine_view machine.now) q.tasks q.guest) }
    {
        let tasks = snapshot.tasks();
        Ok(Round {
            at: machine.steps(),
            next: machine.store().next(),
            guest: shared_guest(snapshot.guest_row())?,
            touches: touches_of(alloc, machine, tasks)?,
            is_kept: none_kept(alloc, tasks.len())?,
        })
    }
}

impl<A: Allocator> Round<A> {
    /// How often the footprint of a task was touched: 0 where the round has no such task.
    pub(crate) fn touches_at(&self, index: u32) -> u128
        ensures { result ≡ unwrap_or (slice_get (round_view self.now).sums index) 0 }
    {
        match self.touches.get(index as usize) {
            None => 0,
            Some(touches) => *touches,
        }
    }

    /// Whether the answer to a task was kept.
    pub(crate) fn has_kept(&self, index: u32) -> bool
        ensures { result ≡ flag_in index (Some (round_view self.now)) }
    {
        match self.is_kept.get(index as usize) {
            None => false,
            Some(is_kept) => *is_kept,
        }
    }

    /// Notes that the answer to a task was kept.
    pub(crate) fn keep(&mut self, index: u32)
        requires { index < length (round_view self.old).flags }
        ensures { round_view self.new
            ≡ record (round_view self.old) { flags = set (round_view self.old).flags index true } }
    {
        self.is_kept[index as usize] = true;
    }

    /// Whether the next identity is this, so that a task of it is the guest's.
    pub(crate) fn is_guest(&self, goal: Id) -> bool
        ensures { result ≡ (goal.0 == (round_view self.now).next) }
    {
        goal.0 == self.next.0
    }

    /// Whether the guest is this constraint under bindings.
    pub(crate) fn has_guest(&self, bindings: &Bindings<A>, sym: Sym, args: &[Term<A>]) -> bool
        ensures { result ≡ same_goal (round_view self.now).guest
            (Some (resolved_atom bindings.now.subst (atom_view sym args.now))) }
    {
        match &self.guest {
            None => false,
            Some((kept_sym, kept_args)) => {
                *kept_sym == sym && bindings.resolve_to(args, kept_args.as_slice())
            }
        }
    }
}
