//! Answers to the tasks of snapshots.
ghost use Rattle.std.proofs.Props.{props};
ghost use Rattle.std.specs.Prelude.{◌≡◌};
ghost use Rattle.chr_find.specs.SnapshotView.{task_view};
ghost use Rattle.chr_shelf.specs.Answers.{IsTrueIn};

use crate::run::RunName;
use crate::shelf::Ticket;
use chr_find::{Found, Task};
use chr_store::HeadIds;
use std::alloc::{Allocator, Global};

/// The answer to a task: what a search finds in the snapshot where the task stands. `solve` alone makes one.
#[derive(Drop)]
pub struct Answer<J: RunName, A: Allocator = Global> {
    pub(crate) ticket: Ticket<J, A>,
    pub(crate) index: u32,
    pub(crate) task: Task,
    pub(crate) found: Found<HeadIds>,
    ghost of_run: { IsTrueIn J.rules ticket.pushed.value index (task_view task) found.ids } by { Prim.hlevel props },
}

impl<J: RunName, A: Allocator> Answer<J, A> {
    ghost use Rattle.chr_shelf.specs.Seat.{ids_of, index_of, place_of, shot_of, task_of, ticket_of};

    /// The ticket of the snapshot where the task stands.
    pub fn ticket(&self) -> &Ticket<J, A>
        ensures { result.now ≡ ticket_of self.now }
    {
        &self.ticket
    }

    /// The place of that snapshot on the shelf.
    pub fn place(&self) -> usize
        ensures { result ≡ place_of (ticket_of self.now) }
    {
        self.ticket.place()
    }

    /// The index of the task there.
    pub fn index(&self) -> u32
        ensures { result ≡ index_of self.now }
    {
        self.index
    }

    /// The task.
    pub fn task(&self) -> Task
        ensures { task_view result ≡ task_of self.now }
    {
        self.task
    }

    /// What was found, which is the first firing there.
    pub fn found(&self) -> &Found<HeadIds>
        ensures ids { result.now.ids ≡ ids_of self.now }
        ensures of_run { IsTrueIn J.rules (shot_of (ticket_of self.now)) (index_of self.now) (task_of self.now)
            (ids_of self.now) }
    {
        &self.found
    }
}
