//! The offered tasks of a desk.
ghost use Rattle.std.specs.Prelude.{◌≡◌, ◌≤◌, ◌+◌, ◌++◌, vec_capacity, vec_len};
ghost use Rattle.chr_semantics.specs.Desk.{count_of, with_phase};
ghost use Rattle.chr_board.specs.IsDesk.{marked, tasks_at};
ghost use Rattle.chr_board.specs.OfferedView.{is_in, phase_view, offered_view};

use std::alloc::Allocator;

/// How far a task has come.
#[derive(Clone, Copy, PartialEq, Eq, Debug, Drop)]
pub enum Phase {
    /// It was offered.
    Waiting,
    /// It was handed out.
    Out,
    /// No answer will come.
    GivenUp,
    /// Its answer waits to be drained.
    Posted,
    /// Its answer was drained.
    Drained,
}

/// A task that was offered.
#[derive(Clone, Copy, Debug, Drop)]
pub struct OfferedTask {
    /// The place of its round on the shelf.
    pub place: usize,
    /// Its index there.
    pub index: u32,
    pub phase: Phase,
}

/// How many tasks have this phase.
pub fn count(offered: &[OfferedTask], phase: Phase) -> usize
    ensures { result ≡ count_of (is_in phase) (offered_view offered.now) }
{
    let mut count = 0usize;
    for task in offered {
        if task.phase == phase {
            count += 1;
        }
    }
    count
}

/// Moves the task with that serial to a phase. Nothing changes where there is none.
pub fn move_to<A: Allocator>(offered: &mut Vec<OfferedTask, A>, serial: usize, phase: Phase)
    ensures { offered_view offered.new.items ≡ with_phase (phase_view phase) (offered_view offered.old.items) serial }
{
    if serial < offered.len() {
        offered[serial].phase = phase;
    }
}

/// Moves the tasks with these serials to the phase `Drained`.
pub fn mark_drained<A: Allocator>(offered: &mut Vec<OfferedTask, A>, serials: &[usize])
    ensures { offered_view offered.new.items ≡ marked (offered_view offered.old.items) serials.now }
{
    for serial in serials {
        move_to(offered, *serial, Phase::Drained);
    }
}

/// Offers the tasks of a round, behind those that stand. There is room for them.
pub fn push_tasks<A: Allocator>(offered: &mut Vec<OfferedTask, A>, place: usize, tasks: u32)
    requires { vec_len offered.now + tasks ≤ vec_capacity offered.now }
    ensures { offered_view offered.new.items ≡ offered_view offered.old.items ++ tasks_at place 0 tasks }
{
    for index in 0..tasks {
        offered.push_reserved(OfferedTask {
            place,
            index,
            phase: Phase::Waiting,
        });
    }
}
