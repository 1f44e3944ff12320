//! How often the footprints of tasks were touched.
ghost use Rattle.std.specs.Prelude.{◌≡◌, IfOk, is_some, map, option_map};
ghost use Rattle.chr_semantics.specs.Program.{Atom};
ghost use Rattle.chr_laws.specs.Sums.{task_atom};
ghost use Rattle.chr_find.specs.SnapshotView.{task_view, tasks_view};
ghost use Rattle.chr_machine.specs.MachineView.{machine_view};
ghost use Rattle.chr_machine.specs.Model.{state_in};
ghost use Rattle.chr_core.specs.RoundView.{touches_at};
ghost use Rattle.chr_core.specs.Serving.{task_occurrence};

use crate::Memory;
use crate::stamps::touches;
use chr_find::Task;
use chr_machine::Machine;
use chr_term::Sym;
use std::alloc::Allocator;

/// The symbol of a task's constraint, which for the next identity is the guest.
fn symbol_of<A: Allocator + Copy>(machine: &Machine<A>, task: Task) -> Option<Sym>
    ensures { option_map (λ sym. sym.0) result ≡ option_map (λ (a : Atom). a.sym)
        (task_atom (state_in (machine_view machine.now)) (task_view task)) }
{
    if task.goal.0 == machine.store().next().0 {
        match machine.guest() {
            None => None,
            Some((sym, _)) => Some(sym),
        }
    } else {
        match machine.store().row(task.goal) {
            None => None,
            Some(row) => Some(row.sym),
        }
    }
}

/// Whether the constraint of a task is there, and its symbol has that occurrence.
pub(crate) fn has_occurrence<A: Allocator + Copy>(machine: &Machine<A>, task: Task) -> bool
    ensures { let m = machine_view machine.now in
        result ≡ is_some (task_occurrence m.rules (state_in m) (task_view task)) }
{
    match symbol_of(machine, task) {
        None => false,
        Some(sym) => machine.program().occurrence(sym, task.occurrence).is_some(),
    }
}

/// How often the footprint of a task was touched.
fn task_touches<A: Allocator + Copy>(machine: &Machine<A>, task: Task) -> u128
    ensures { result ≡ touches_at (machine_view machine.now) (task_view task) }
{
    let (program, store, history) = (machine.program(), machine.store(), machine.history());
    match symbol_of(machine, task) {
        None => 0,
        Some(sym) => touches(program, sym, task.occurrence, store, history),
    }
}

/// How often the footprint of each task was touched.
pub(crate) fn touches_of<A: Allocator + Copy>(
    alloc: A,
    machine: &Machine<A>,
    tasks: &[Task],
) -> Result<Vec<u128, A>, Memory>
    ensures { IfOk result (λ sums. sums.items
        ≡ map (touches_at (machine_view machine.now)) (tasks_view tasks.now)) }
{
    let mut sums = Vec::with_capacity(alloc, tasks.len())?;
    for task in tasks {
        sums.push(task_touches(machine, *task))?;
    }
    Ok(sums)
}
