//! Snapshots that are taken of a store, bindings and a history.
ghost use Rattle.std.specs.Prelude.{◌≡◌, ◌||◌, ◌&&◌, ◌==◌, ◌≤◌, IfOk, List, None, OnOk, ℕ, cond, false, is_some, length, option_and_then, option_map, take, true};
ghost use Rattle.std.specs.List.{list_all};
ghost use Rattle.chr_semantics.specs.Program.{occurrence};
ghost use Rattle.chr_semantics.specs.Search.{atom_of, fired_before, has_number, same_ids};
ghost use Rattle.chr_semantics.specs.Snapshot.{snapshot_for, snapshot_for_task};
ghost use Rattle.chr_semantics.specs.State.{State, resolved_atom};
ghost use Rattle.chr_rules.specs.ProgramView.{rules_of};
ghost use Rattle.chr_store.specs.HistoryView.{entries_view, fired_view};
ghost use Rattle.chr_store.specs.Numbers.{numbers};
ghost use Rattle.chr_store.specs.Rows.{row_atom};
ghost use Rattle.chr_store.specs.StoreView.{store_view};
ghost use Rattle.chr_find.specs.Firings.{fired_in};
ghost use Rattle.chr_find.specs.ScopeView.{IsScope, entries_kept, keeps_row, rows_kept, takes};
ghost use Rattle.chr_find.specs.SnapshotView.{guest_view, tasks_view};
ghost use Rattle.chr_find.specs.TableView.{atom_at};
ghost use Rattle.chr_find.specs.Taking.{AreTakenOf, IsStateOf, IsTakenOf};

use crate::Memory;
use crate::firings::Firings;
use crate::plan::Plan;
use crate::scope::Scope;
use crate::snapshot::{Snapshot, Task};
use crate::table::Table;
use chr_bind::Bindings;
use chr_map::Pointer;
use chr_rules::Program;
use chr_store::{Entry, History, Id, Row, Store};
use chr_term::{Args, Sym, Term};
use std::alloc::Allocator;

/// A constraint with bindings applied.
fn resolved_row<A: Allocator + Copy>(bindings: &Bindings<A>, row: &Row<A>) -> Result<Row<A>, Memory>
    ensures { IfOk result (λ made. row_atom made ≡ resolved_atom bindings.now.subst (row_atom row.now)) }
{
    let args = bindings.resolve_args(&row.args)?;
    Ok(Row { sym: row.sym, args })
}

/// Adds a constraint, where there is none.
fn put_row<A: Allocator + Copy>(table: &mut Table<A>, id: Id, row: Row<A>) -> Result<(), Memory>
    requires { atom_at table.old id.0 ≡ None }
    ensures { OnOk result ((i : ℕ) → atom_at table.new i
        ≡ cond (i == id.0) (Some (row_atom row)) (atom_at table.old i)) }
{
    table.room(1)?;
    table.add(id, row);
    Ok(())
}

/// Adds a constraint with bindings applied, if it is in the scope.
fn add_row<A: Allocator + Copy>(
    table: &mut Table<A>,
    bindings: &Bindings<A>,
    scope: Scope<'_, A>,
    id: Id,
    row: &Row<A>,
) -> Result<(), Memory>
    requires { atom_at table.old id.0 ≡ None }
    ensures { OnOk result ((i : ℕ) → atom_at table.new i
        ≡ cond (i == id.0 && keeps_row scope.entry (id.0, resolved_atom bindings.now.subst (row_atom row.now)))
        (Some (resolved_atom bindings.now.subst (row_atom row.now))) (atom_at table.old i)) }
{
    if !scope.has_symbol(row.sym) {
        return Ok(());
    }
    let row = resolved_row(bindings, row)?;
    if scope.has_row(&row) {
        put_row(table, id, row)?;
    }
    Ok(())
}

/// Adds the constraints of a store that are in the scope, with bindings applied, where there is no constraint.
fn add_rows<A: Allocator + Copy>(
    table: &mut Table<A>,
    store: &Store<A>,
    bindings: &Bindings<A>,
    scope: Scope<'_, A>,
) -> Result<(), Memory>
    requires { (i : ℕ) → atom_at table.old i ≡ None }
    ensures { OnOk result ((i : ℕ) → atom_at table.new i
        ≡ atom_of (rows_kept scope.entry bindings.now.subst (store_view store.now).rows) i) }
{
    for (id, row) in store.rows() {
        add_row(table, bindings, scope, id, row)?;
    }
    Ok(())
}

/// Whether the constraints of the identities all live.
fn all_live<A: Allocator>(store: &Store<A>, ids: &[Id]) -> bool
    ensures { result ≡ list_all (λ i. is_some (atom_of (store_view store.now).rows i)) (numbers ids.now) }
{
    for id in ids {
        if !store.alive(*id) {
            return false;
        }
    }
    true
}

/// Whether a firing is in the scope, and its constraints all live.
fn is_taken<A: Allocator>(store: &Store<A>, scope: Scope<'_, A>, entry: &Entry<A>) -> bool
    ensures { result ≡ takes scope.entry (store_view store.now).rows (fired_view entry.now) }
{
    scope.has_rule(entry.rule()) && all_live(store, entry.ids())
}

/// Adds the firings of a history that are in the scope and whose constraints all live.
fn add_firings<A: Allocator + Copy>(
    firings: &mut Firings<A>,
    store: &Store<A>,
    history: &History<A>,
    scope: Scope<'_, A>,
) -> Result<(), Memory>
    ensures { OnOk result ((r : ℕ) (ids : List ℕ) → fired_in firings.new r ids
        ≡ (fired_in firings.old r ids
        || fired_before (entries_kept scope.entry (store_view store.now).rows (entries_view history.now).list) r ids)) }
{
    for entry in history.list() {
        if is_taken(store, scope, entry) {
            firings.enter(entry.fired())?;
        }
    }
    Ok(())
}

/// The firings of a history that are in the scope and whose constraints all live.
pub(crate) fn firings_taken<A: Allocator + Copy>(
    alloc: A,
    store: &Store<A>,
    history: &History<A>,
    scope: Scope<'_, A>,
) -> Result<Firings<A>, Memory>
    ensures { IfOk result (AreTakenOf scope.entry (store_view store.now).rows (entries_view history.now).list) }
{
    let mut firings = Firings::new(alloc);
    add_firings(&mut firings, store, history, scope)?;
    Ok(firings)
}

/// A table with no constraint.
fn empty_table<A: Allocator + Copy>(alloc: A) -> Result<Table<A>, Memory>
    ensures { IfOk result (λ table. (i : ℕ) → atom_at table i ≡ None) }
{
    let plan = Pointer::new(alloc, Plan::first(alloc)?)?;
    Ok(Table::new(alloc, plan))
}

/// Fills a table that has no constraint with those of a store that are in the scope, with bindings applied, and makes it ready to be shared.
fn fill<A: Allocator + Copy>(
    table: &mut Table<A>,
    store: &Store<A>,
    bindings: &Bindings<A>,
    scope: Scope<'_, A>,
) -> Result<(), Memory>
    requires { (i : ℕ) → atom_at table.old i ≡ None }
    ensures { OnOk result (IsTakenOf scope.entry bindings.now.subst (store_view store.now).rows table.new) }
{
    add_rows(table, store, bindings, scope)?;
    table.settle_all()?;
    table.keep_keys()
}

/// A table with the constraints of a store that are in the scope, with bindings applied.
fn taken<A: Allocator + Copy>(
    alloc: A,
    store: &Store<A>,
    bindings: &Bindings<A>,
    scope: Scope<'_, A>,
) -> Result<Table<A>, Memory>
    ensures { IfOk result (IsTakenOf scope.entry bindings.now.subst (store_view store.now).rows) }
{
    let mut table = empty_table(alloc)?;
    fill(&mut table, store, bindings, scope)?;
    Ok(table)
}

/// That table, and the firings in the scope whose constraints all live.
fn all_taken<A: Allocator + Copy>(
    alloc: A,
    store: &Store<A>,
    bindings: &Bindings<A>,
    history: &History<A>,
    scope: Scope<'_, A>,
) -> Result<(Table<A>, Firings<A>), Memory>
    ensures table { IfOk result (λ both. IsTakenOf scope.entry bindings.now.subst (store_view store.now).rows both.0) }
    ensures firings { IfOk result (λ both. AreTakenOf scope.entry (store_view store.now).rows (entries_view history.now).list both.1) }
{
    let table = taken(alloc, store, bindings, scope)?;
    let firings = firings_taken(alloc, store, history, scope)?;
    Ok((table, firings))
}

/// A guest with bindings applied.
fn resolved_guest<A: Allocator + Copy>(
    alloc: A,
    bindings: &Bindings<A>,
    guest: Option<(Sym, &[Term<A>])>,
) -> Result<Option<Row<A>>, Memory>
    ensures { IfOk result (λ row. option_map row_atom row
        ≡ option_map (resolved_atom bindings.now.subst) (guest_view guest.entry)) }
{
    let (sym, args) = match guest {
        None => return Ok(None),
        Some(guest) => guest,
    };
    let args = Args::new(alloc, bindings.resolve_all(args)?)?;
    Ok(Some(Row { sym, args }))
}

/// What a task looks at.
fn scope_of<'a, A: Allocator>(program: &'a Program<A>, store: &Store<A>, task: Task) -> Scope<'a, A>
    ensures { IsScope (option_and_then (λ a. occurrence (rules_of program.now) a.sym task.occurrence)
        (atom_of (store_view store.now).rows task.goal.0)) result }
{
    let sym = match store.row(task.goal) {
        None => return Scope::Nothing,
        Some(row) => row.sym,
    };
    match program.occurrence(sym, task.occurrence) {
        None => Scope::Nothing,
        Some(occurrence) => Scope::Rule(occurrence.rule, program.rule(occurrence.rule)),
    }
}

impl<A: Allocator + Copy> Snapshot<A> {
    ghost use Rattle.chr_find.specs.SnapshotView.{IsCopy};

    /// Of the constraints of a store with bindings applied, and of the entries of a history whose constraints all live. The guest is handed
    /// in as it stands on the stack.
    pub fn take(
        alloc: A,
        store: &Store<A>,
        bindings: &Bindings<A>,
        history: &History<A>,
        tasks: Vec<Task, A>,
        guest: Option<(Sym, &[Term<A>])>,
    ) -> Result<Snapshot<A>, Memory>
        ensures { IfOk result (λ taken. (s : State) → IsStateOf store.now bindings.now.subst history.now s →
            IsCopy taken (snapshot_for s (tasks_view tasks.items) (guest_view guest.entry))) }
    {
        let scope = Scope::whole(store);
        let (table, firings) = all_taken(alloc, store, bindings, history, scope)?;
        let guest = resolved_guest(alloc, bindings, guest)?;
        Ok(Snapshot {
            table,
            firings,
            next: store.next(),
            tasks,
            guest,
        })
    }

    /// For one task: the constraints that its rule can look at, and the entries of that rule.
    pub fn for_task(
        alloc: A,
        program: &Program<A>,
        store: &Store<A>,
        bindings: &Bindings<A>,
        history: &History<A>,
        task: Task,
    ) -> Result<Snapshot<A>, Memory>
        ensures { IfOk result (λ taken. (s : State) → IsStateOf store.now bindings.now.subst history.now s →
            IsCopy taken (snapshot_for_task (rules_of program.now) s (task.goal.0, task.occurrence))) }
    {
        let mut tasks = Vec::new(alloc);
        tasks.push(task)?;
        let scope = scope_of(program, store, task);
        let (table, firings) = all_taken(alloc, store, bindings, history, scope)?;
        Ok(Snapshot {
            table,
            firings,
            next: store.next(),
            tasks,
            guest: None,
        })
    }
}
