//! Tasks that are solved.
ghost use Rattle.std.specs.Prelude.{◌≡◌, IfErr, IfOk, option_map, slice_get};
ghost use Rattle.chr_rules.specs.ProgramView.{rules_of};
ghost use Rattle.chr_semantics.specs.Snapshot as semantics;
ghost use Rattle.chr_find.specs.SnapshotView.{IsSnapshot, task_view};
ghost use Rattle.chr_shelf.specs.Answers.{IsUnsolvedIn};
ghost use Rattle.chr_shelf.specs.Seat.{index_of, shot_of, ticket_of};

use crate::answer::Answer;
use crate::run::RunName;
use crate::shelf::{Shelf, Ticket};
use chr_find::{Snapshot, Task};
use chr_rules::Program;
use std::alloc::Allocator;
use thiserror::Error;

/// Why a task was not solved.
#[derive(Clone, Copy, PartialEq, Eq, Debug, Drop, Error)]
pub enum Unsolved {
    /// The snapshot has no task with that index.
    #[error("no such task")]
    NoTask,
    /// The search lacked memory.
    #[error("memory")]
    Memory,
}

/// The task with that index.
fn task_at<A: Allocator>(snapshot: &Snapshot<A>, index: u32) -> Option<Task>
    ensures { (q : semantics.Snapshot) → IsSnapshot snapshot.now q →
        slice_get q.tasks index ≡ option_map task_view result }
{
    match snapshot.tasks().get(index as usize) {
        None => None,
        Some(task) => Some(*task),
    }
}

/// Solves the task with an index of a ticket's snapshot. Where it has no such task, or memory is refused, the ticket comes back.
pub fn solve<J: RunName, A: Allocator + Copy>(
    program: &Program<A>,
    shelf: &Shelf<A>,
    ticket: Ticket<J, A>,
    index: u32,
) -> Result<Answer<J, A>, (Ticket<J, A>, Unsolved)>
    requires name { shelf.now ≡ J.shelf }
    requires rules { rules_of program.now ≡ J.rules }
    ensures ok { IfOk result (λ answer. (ticket_of answer ≡ ticket) × (index_of answer ≡ index)) }
    ensures back { IfErr result (λ refused. refused.0 ≡ ticket) }
    ensures err { IfErr result (λ refused. IsUnsolvedIn (shot_of ticket) index refused.1) }
{
    let snapshot = shelf.see(&ticket);
    let task = match task_at(snapshot, index) {
        None => return Err((ticket, Unsolved::NoTask)),
        Some(task) => task,
    };
    match snapshot.find(program, task) {
        Err(_) => Err((ticket, Unsolved::Memory)),
        Ok(found) => Ok(Answer {
            ticket,
            index,
            task,
            found,
        }),
    }
}
