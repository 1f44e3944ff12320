//! Which searches for the tasks of a round may begin.
ghost use Rattle.std.specs.Prelude.{◌≡◌, [], ◌++◌, ◌∷◌, None, OnErr, OnOk, Some};
ghost use Rattle.chr_board.specs.Searching.{fresh_tasks, is_free, is_fresh, task_at, without_search};

use crate::Memory;
use chr_find::Task;
use std::alloc::{Allocator, Global};

/// A task of a round, and whether an answer to it that is kept was good when the round was offered: then it is not searched for again.
#[derive(Clone, Copy, Drop)]
pub struct RoundTask {
    pub task: Task,
    pub is_good: bool,
}

/// What is known of the searches: the round that was offered last, with its tasks, the searches that have begun, and the one that the
/// coordinator makes itself.
#[derive(Drop)]
pub(crate) struct Searches<A: Allocator = Global> {
    /// The place of the round that was offered last.
    place: Option<usize>,
    /// Its tasks, as far as they were named.
    tasks: Vec<RoundTask, A>,
    /// The tasks whose search has begun, and whose answer was not drained yet.
    begun: Vec<Task, A>,
    /// The task that the coordinator searches for.
    own: Option<Task>,
}

impl<A: Allocator + Copy> Searches<A> {
    /// No round was offered, and no search has begun.
    pub(crate) fn new(alloc: A) -> Searches<A>
        ensures round { result.place ≡ None }
        ensures tasks { result.tasks.items ≡ [] }
        ensures begun { result.begun.items ≡ [] }
        ensures own { result.own ≡ None }
    {
        Searches {
            place: None,
            tasks: Vec::new(alloc),
            begun: Vec::new(alloc),
            own: None,
        }
    }

    /// Makes room for more searches, and changes nothing else.
    pub(crate) fn room(&mut self, more: usize) -> Result<(), Memory>
        ensures round { self.new.place ≡ self.old.place }
        ensures tasks { self.new.tasks ≡ self.old.tasks }
        ensures begun { self.new.begun.items ≡ self.old.begun.items }
        ensures own { self.new.own ≡ self.old.own }
    {
        self.begun.reserve(more)?;
        Ok(())
    }

    /// The round at a place is offered, with these tasks.
    pub(crate) fn begin_round(&mut self, place: usize, tasks: Vec<RoundTask, A>)
        ensures round { self.new.place ≡ Some place }
        ensures tasks { self.new.tasks ≡ tasks }
        ensures begun { self.new.begun ≡ self.old.begun }
        ensures own { self.new.own ≡ self.old.own }
    {
        self.place = Some(place);
        self.tasks = tasks;
    }

    /// Whether the search for a task may begin: nobody has begun it whose answer was not drained yet, and the coordinator does not make it.
    fn is_free(&self, task: Task) -> bool
        ensures { result ≡ is_free self.now task }
    {
        self.own != Some(task) && !self.begun.contains(&task)
    }

    /// Whether a search for the task at an index of the round at a place is worth while: the round is the one that was offered last, the task
    /// is not good as it was kept, and its search may begin. Of a task that was not named nothing is known.
    pub(crate) fn is_fresh(&self, place: usize, index: u32) -> bool
        ensures { result ≡ is_fresh self.now place index }
    {
        if self.place != Some(place) {
            return false;
        }
        match self.tasks.get(index as usize) {
            None => true,
            Some(found) => !found.is_good && self.is_free(found.task),
        }
    }

    /// How many of the tasks that were named are worth a search.
    pub(crate) fn fresh_tasks(&self) -> usize
        ensures { result ≡ fresh_tasks self.now }
    {
        let mut count = 0;
        for found in self.tasks.as_slice() {
            if !found.is_good && self.is_free(found.task) {
                count += 1;
            }
        }
        count
    }

    /// The task at an index of the round that was offered last, where it was named.
    pub(crate) fn task_at(&self, index: u32) -> Option<Task>
        ensures { result ≡ task_at self.now index }
    {
        let found = self.tasks.get(index as usize)?;
        Some(found.task)
    }

    /// Begins the search for a task. Where memory is refused, it is not noted.
    pub(crate) fn begin(&mut self, task: Task) -> Result<(), Memory>
        ensures ok { OnOk result (self.new.begun.items ≡ self.old.begun.items ++ task ∷ []) }
        ensures err { OnErr result (self.new.begun.items ≡ self.old.begun.items) }
        ensures own { self.new.own ≡ self.old.own }
    {
        self.begun.push(task)?;
        Ok(())
    }

    /// Forgets a search: its answer was drained, or none will come.
    pub(crate) fn end(&mut self, task: Task)
        ensures begun { self.new.begun.items ≡ without_search self.old.begun.items task }
        ensures own { self.new.own ≡ self.old.own }
    {
        self.begun.retain(|begun| *begun != task);
    }

    /// The coordinator searches for this task, or for none.
    pub(crate) fn set_own(&mut self, own: Option<Task>)
        ensures own { self.new.own ≡ own }
        ensures begun { self.new.begun ≡ self.old.begun }
    {
        self.own = own;
    }
}
