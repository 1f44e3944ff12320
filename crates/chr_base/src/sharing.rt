//! What is handed out to be searched elsewhere.
ghost use Rattle.std.specs.Prelude.{◌≡◌, IfOk, OnOk, option_map};
ghost use Rattle.chr_semantics.specs.Snapshot.{snapshot_for};
ghost use Rattle.chr_semantics.specs.State.{State, resolved_atom};
ghost use Rattle.chr_store.specs.Rows.{row_atom};
ghost use Rattle.chr_find.specs.SnapshotView.{IsSnapshot, tasks_view, told_view};
ghost use Rattle.chr_base.specs.Lending.{AreAlike, HasPlace, IsNoted};

use crate::Memory;
use crate::base::Base;
use chr_find::{PendingFirings, Snapshot, Task};
use chr_store::{Fired, Row};
use chr_term::{Args, Sym};
use std::alloc::Allocator;

/// Makes room for a firing, where firings are kept.
pub(crate) fn room_to_note<A: Allocator + Copy>(
    firings: &mut Option<PendingFirings<A>>,
) -> Result<(), Memory>
    ensures same { AreAlike firings.old firings.new }
    ensures ok { OnOk result (HasPlace firings.new) }
{
    match firings {
        None => Ok(()),
        Some(firings) => firings.room(1),
    }
}

/// Notes a firing, where firings are kept.
pub(crate) fn note<A: Allocator + Copy>(firings: &mut Option<PendingFirings<A>>, fired: &Fired)
    requires { HasPlace firings.old }
    ensures { IsNoted fired.now firings.old firings.new }
{
    match firings {
        None => {}
        Some(firings) => firings.note(*fired),
    }
}

impl<'p, A: Allocator + Copy> Base<'p, A> {
    ghost use Rattle.chr_base.specs.BaseView.{IsSameBase, base_view, program_of};
    ghost use Rattle.chr_base.specs.Sharing.{AreKept, IsShareable, IsStateOf};

    /// Keeps what has fired, for snapshots.
    fn keep_firings(&mut self) -> Result<(), Memory>
        ensures same { IsSameBase self.old self.new }
        ensures ok { OnOk result (AreKept self.new.firings) }
    {
        match &mut self.firings {
            Some(firings) => firings.settle(),
            None => {
                let mut firings = PendingFirings::of(self.alloc, &self.store, &self.history)?;
                firings.settle()?;
                self.firings = Some(firings);
                Ok(())
            }
        }
    }

    /// Makes the base ready to be shared. The first call costs the store and the history, and each further one what has changed since.
    /// Contracts see the same base, after a refusal too.
    pub fn begin_sharing(&mut self) -> Result<(), Memory>
        ensures same { base_view self.new ≡ base_view self.old }
        ensures ok { OnOk result (IsShareable self.new) }
        ensures program { program_of self.new ≡ program_of self.old }
    {
        self.freshen()?;
        self.table.settle_all()?;
        self.table.keep_keys()?;
        self.keep_firings()
    }

    /// A guest with the bindings applied.
    fn resolved_guest(&self, guest: Option<(Sym, &Args<A>)>) -> Result<Option<Row<A>>, Memory>
        ensures { IfOk result (λ resolved. option_map row_atom resolved
            ≡ option_map (resolved_atom (base_view self.now).subst) (told_view guest.entry)) }
    {
        match guest {
            None => Ok(None),
            Some((sym, args)) => Ok(Some(self.resolved_row(sym, args)?)),
        }
    }

    /// The constraints and what has fired, as they stand now, with tasks and a guest, which is given as it stands on the stack. It costs some
    /// pointers. The only error is want of memory.
    pub fn snapshot(
        &self,
        tasks: Vec<Task, A>,
        guest: Option<(Sym, &Args<A>)>,
    ) -> Result<Snapshot<A>, Memory>
        requires { IsShareable self.now }
        ensures { IfOk result (λ shared. (s : State) → IsStateOf (base_view self.now) s →
            IsSnapshot shared (snapshot_for s (tasks_view tasks.items) (told_view guest.entry))) }
    {
        match &self.firings {
            None => unreachable!(),
            Some(firings) => {
                let resolved = self.resolved_guest(guest)?;
                Snapshot::of(&self.table, firings, self.store.next(), tasks, resolved)
            }
        }
    }
}
