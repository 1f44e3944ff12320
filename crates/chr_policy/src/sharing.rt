//! What a run hands to its workers, and takes from them.
ghost use Rattle.std.specs.Prelude.{◌≡◌, ◌<◌, ◌++◌, ◌∷◌, [], ℕ, Bool, IfErr, OnErr, OnOk, length, nat_le};
ghost use Rattle.chr_semantics.specs.Policy.{is_place};
ghost use Rattle.chr_semantics.specs.Schedule.{Progress, publish};
ghost use Rattle.chr_semantics.specs.declared.limits.TheConstants.{MAX_ROUNDS};
ghost use Rattle.chr_find.specs.SnapshotView.{task_view};
ghost use Rattle.chr_machine.specs.NeedView.{need, search_of};
ghost use Rattle.chr_core.specs.CoreView.{IsAsBefore, IsSameRun, events_of, machine_in, progress_of, start_of};
ghost use Rattle.chr_core.specs.ErrorView.{is_full};
ghost use Rattle.chr_core.specs.Stepping.{IsStep};
ghost use Rattle.chr_policy.specs.Standing.{Keeps};

use crate::Memory;
use chr_board::{Board, RoundTask};
use chr_core::{Core, CoreError, Stepped};
use chr_find::Task;
use chr_shelf::{RunName, Shelf};
use std::alloc::Allocator;
use std::sync::Wait;

/// Whether there is a place to publish where the next step needs the search of a task: no kept answer serves it, and there are two tasks or
/// more.
pub(crate) fn has_place<J: RunName, A: Allocator + Copy>(core: &Core<'_, J, A>, task: Task) -> bool
    requires { need (machine_in core.now) ≡ search_of (task_view task) }
    ensures { result ≡ is_place J.rules (start_of core.now) (progress_of core.now) }
{
    if core.serves() {
        return false;
    }
    core.machine().has_other_tasks(task)
}

/// Offers the tasks of the round at a place of the shelf, and says of which of them the core keeps a good answer.
fn offer<J: RunName, A: Allocator + Copy>(
    rt: &impl Wait,
    alloc: A,
    core: &Core<'_, J, A>,
    shelf: &Shelf<A>,
    board: &Board<J, A>,
    place: usize,
) -> Result<(), Memory>
    requires name { shelf.now ≡ J.shelf }
{
    let Some(ticket) = shelf.ticket::<J>(place) else {
        return Ok(());
    };
    let tasks = shelf.see(&ticket).tasks();
    let mut round = Vec::with_capacity(alloc, tasks.len())?;
    for task in tasks {
        let task = *task;
        let is_good = core.is_good(task);
        round.push(RoundTask { task, is_good })?;
    }
    let _offered = board.offer_round(rt, place, round).is_ok();
    Ok(())
}

/// Publishes a round and offers its tasks. Where the board refuses them, they are never offered. After a refusal all is as before, but that
/// room may have been made.
pub(crate) fn show<J: RunName, A: Allocator + Copy>(
    rt: &impl Wait,
    alloc: A,
    core: &mut Core<'_, J, A>,
    shelf: &Shelf<A>,
    board: &Board<J, A>,
) -> Result<(), CoreError>
    requires name { shelf.now ≡ J.shelf }
    ensures events { OnOk result (events_of core.new ≡ events_of core.old ++ publish ∷ []) }
    ensures few { OnOk result (length (progress_of core.old).rounds < MAX_ROUNDS) }
    ensures run { IsSameRun core.old core.new }
    ensures err { OnErr result (IsAsBefore core.old core.new) }
    ensures why { IfErr result (λ error. is_full error ≡ nat_le MAX_ROUNDS (length (progress_of core.old).rounds)) }
{
    let (place, _tasks) = core.publish(rt, shelf)?;
    let _offered = offer(rt, alloc, core, shelf, board, place).is_ok();
    Ok(())
}

/// Makes the step that needs the search of a task. Where the core searches itself, beside workers, none of them begins that search meanwhile.
pub(crate) fn step_beside<J: RunName, A: Allocator + Copy>(
    rt: &impl Wait,
    core: &mut Core<'_, J, A>,
    board: &Board<J, A>,
    has_workers: bool,
    task: Task,
) -> Result<Stepped, Memory>
    ensures { IsStep core.old core.new result }
{
    match has_workers && !core.serves() {
        false => core.step(),
        true => {
            board.set_own(rt, Some(task));
            let stepped = core.step();
            board.set_own(rt, None);
            stepped
        }
    }
}

/// Takes the answers that were posted. Where their list finds no memory, they stay on the board.
pub(crate) fn absorb<J: RunName, A: Allocator + Copy>(
    rt: &impl Wait,
    alloc: A,
    core: &mut Core<'_, J, A>,
    shelf: &Shelf<A>,
    board: &Board<J, A>,
) -> Result<(), Memory>
    requires name { shelf.now ≡ J.shelf }
    ensures keeps { OnOk result ((at : Progress) (published : Bool) (missed : ℕ)
        → Keeps J.rules (start_of core.old) (events_of core.old) at published missed
        → Keeps J.rules (start_of core.old) (events_of core.new) at published missed) }
    ensures run { IsSameRun core.old core.new }
{
    let mut inbox = Vec::new(alloc);
    if board.drain(rt, &mut inbox).is_err() {
        return Ok(());
    }
    for answer in inbox {
        match core.arrive(shelf, answer) {
            Err(_) => return Err(Memory),
            Ok(_took) => {}
        }
    }
    Ok(())
}
