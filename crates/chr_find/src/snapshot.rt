//! What searches look at.
ghost use Rattle.std.specs.Prelude.{◌≡◌, ◌==◌, ◌≤◌, IfOk, None, OnOk, Some, ℕ, cond, option_map};
ghost use Rattle.chr_semantics.specs.Keys.{rows_keyed};
ghost use Rattle.chr_semantics.specs.Snapshot as semantics;
ghost use Rattle.chr_semantics.specs.Snapshot.{found_in, tries_in};
ghost use Rattle.chr_rules.specs.ProgramView.{rules_of};
ghost use Rattle.chr_store.specs.KeyView.{keys_view};
ghost use Rattle.chr_store.specs.Numbers.{numbers};
ghost use Rattle.chr_store.specs.Rows.{row_atom};
ghost use Rattle.chr_find.specs.AtomCode.{atoms};
ghost use Rattle.chr_find.specs.TableView.{IsFor, IsKeyed, IsSettled as IsTableSettled, IsWhole, atom_at};

use crate::Memory;
use crate::answer::Found;
use crate::firings::Firings;
use crate::pending_firings::PendingFirings;
use crate::table::Table;
use crate::task_search::search;
use chr_map::Share;
use chr_rules::Program;
use chr_store::{HeadIds, Id, Key, Row};
use chr_term::{Sym, Term};
use std::alloc::{Allocator, Global};

/// An occurrence of a constraint, to be searched.
#[derive(Clone, Copy, PartialEq, Eq, Drop)]
pub struct Task {
    pub goal: Id,
    /// Counted from 1.
    pub occurrence: u32,
}

/// A table that changes no more, with the next identity, the tasks that are worth searching, and the guest: a constraint that may be the next
/// one to be stored.
#[derive(Drop)]
pub struct Snapshot<A: Allocator = Global> {
    pub(crate) table: Table<A>,
    pub(crate) firings: Firings<A>,
    pub(crate) next: Id,
    pub(crate) tasks: Vec<Task, A>,
    pub(crate) guest: Option<Row<A>>,
    ghost whole: { IsWhole table },
    ghost keyed: { IsKeyed table },
    ghost free: { (i : ℕ) → next.0 ≤ i → atom_at table i ≡ None } by { Prim.hlevel atoms },
}

impl<A: Allocator> Snapshot<A> {
    ghost use Rattle.chr_find.specs.SnapshotView.{IsSnapshot, guest_view, tasks_view};

    /// The tasks.
    pub fn tasks(&self) -> &[Task]
        ensures { (q : semantics.Snapshot) → IsSnapshot self.now q → q.tasks ≡ tasks_view result.now }
    {
        self.tasks.as_slice()
    }

    /// The guest: its symbol, and its arguments with bindings applied.
    pub fn guest(&self) -> Option<(Sym, &[Term<A>])>
        ensures { (q : semantics.Snapshot) → IsSnapshot self.now q → q.guest ≡ guest_view result }
    {
        match &self.guest {
            None => None,
            Some(row) => Some((row.sym, row.args.as_slice())),
        }
    }

    /// The guest, with bindings applied.
    pub fn guest_row(&self) -> Option<&Row<A>>
        ensures { (q : semantics.Snapshot) → IsSnapshot self.now q →
            q.guest ≡ option_map (λ row. row_atom row.now) result }
    {
        match &self.guest {
            None => None,
            Some(row) => Some(row),
        }
    }
}

impl<A: Allocator + Copy> Snapshot<A> {
    ghost use Rattle.chr_find.specs.PendingFiringsView.{IsSettled, noted_in};
    ghost use Rattle.chr_find.specs.AnswerView.{IsAnswer};
    ghost use Rattle.chr_find.specs.SnapshotView.{IsSnapshot, IsTaken, tasks_view};

    /// A table that keeps keys as it stands now, at the price of some pointers. The guest's arguments have the bindings applied.
    pub fn of(
        table: &Table<A>,
        firings: &PendingFirings<A>,
        next: Id,
        tasks: Vec<Task, A>,
        guest: Option<Row<A>>,
    ) -> Result<Snapshot<A>, Memory>
        requires whole { IsWhole table.now }
        requires keyed { IsKeyed table.now }
        requires settled { IsSettled firings.now }
        requires free { (i : ℕ) → next.0 ≤ i → atom_at table.now i ≡ None }
        ensures { IfOk result (λ shared. (q : semantics.Snapshot) →
            IsTaken table.now (noted_in firings.now) next.0 (tasks_view tasks.items) (option_map row_atom guest) q →
            IsSnapshot shared q) }
    {
        let table = table.share()?;
        let firings = firings.share()?;
        Ok(Snapshot {
            table,
            firings,
            next,
            tasks,
            guest,
        })
    }

    /// The identities of a symbol's constraints whose first argument has that key, or has none, ascending.
    pub fn rows_keyed(&self, sym: Sym, key: Option<Key>) -> &[Id]
        ensures { (q : semantics.Snapshot) → IsSnapshot self.now q →
            numbers result.now ≡ rows_keyed q.rows sym.0 (keys_view key) }
    {
        self.table.keyed.of(sym, key)
    }

    /// The table with the guest as the constraint of the next identity, ready to be searched for it.
    fn with_guest(&self, guest: &Row<A>) -> Result<Table<A>, Memory>
        ensures atoms { IfOk result (λ table. (i : ℕ) → atom_at table i
            ≡ cond (i == self.now.next.0) (Some (row_atom guest.now)) (atom_at self.now.table i)) }
        ensures settled { IfOk result IsTableSettled }
        ensures own { IfOk result (IsFor self.now.next.0) }
    {
        let mut table = self.table.share()?;
        add_for_search(&mut table, self.next, guest)?;
        Ok(table)
    }

    /// What the snapshot has for a task of the guest, which gets the next identity.
    fn find_for_guest(
        &self,
        program: &Program<A>,
        guest: &Row<A>,
        occurrence: u32,
    ) -> Result<Found<HeadIds>, Memory>
        ensures { IfOk result (λ found. (q : semantics.Snapshot) → IsSnapshot self.now q →
            q.guest ≡ Some (row_atom guest.now) →
            IsAnswer (found_in (rules_of program.now) q (self.now.next.0, occurrence))
            (tries_in (rules_of program.now) q (self.now.next.0, occurrence))
            found.ids found.tries) }
    {
        let table = self.with_guest(guest)?;
        let task = Task {
            goal: self.next,
            occurrence,
        };
        search(program, &table, &self.firings, task)
    }

    /// What the snapshot has for a task: the identities of the first firing, or that there is none. For the next identity the guest is added
    /// to the constraints.
    pub fn find(&self, program: &Program<A>, task: Task) -> Result<Found<HeadIds>, Memory>
        ensures { IfOk result (λ found. (q : semantics.Snapshot) → IsSnapshot self.now q →
            IsAnswer (found_in (rules_of program.now) q (task.goal.0, task.occurrence))
            (tries_in (rules_of program.now) q (task.goal.0, task.occurrence))
            found.ids found.tries) }
    {
        if task.goal != self.next {
            return search(program, &self.table, &self.firings, task);
        }
        match &self.guest {
            None => Ok(Found::nothing()),
            Some(guest) => self.find_for_guest(program, guest, task.occurrence),
        }
    }
}

/// Adds a constraint, where there is none, and makes the table ready to be searched for it.
fn add_for_search<A: Allocator + Copy>(
    table: &mut Table<A>,
    id: Id,
    row: &Row<A>,
) -> Result<(), Memory>
    requires { atom_at table.old id.0 ≡ None }
    ensures atoms { OnOk result ((i : ℕ) → atom_at table.new i
        ≡ cond (i == id.0) (Some (row_atom row.now)) (atom_at table.old i)) }
    ensures settled { OnOk result (IsTableSettled table.new) }
    ensures own { OnOk result (IsFor id.0 table.new) }
{
    table.room(1)?;
    table.add(id, row.share()?);
    table.settle_for(id)
}
