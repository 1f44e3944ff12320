//! The kept answers.
ghost use Rattle.std.specs.Prelude.{◌≡◌, ◌&&◌, ◌++◌, ◌∷◌, [], None, OnOk, Some, cond, length, map, not, option_and_then, option_map, slice_get};
ghost use Rattle.chr_semantics.specs.Tasks as semantics;
ghost use Rattle.chr_semantics.specs.Tasks.{same_task};
ghost use Rattle.chr_find.specs.SnapshotView.{task_view};
ghost use Rattle.chr_laws.specs.Kept.{Answered};

use crate::Memory;
use crate::kept::Kept;
use crate::positions::Positions;
use crate::spots::{Spots, TaskKey};
use chr_find::Task;
use chr_store::HeadIds;
use std::alloc::Allocator;

/// The kept answers in the order in which they came, and where those to a task stand among them.
#[derive(Drop)]
pub(crate) struct Answers<A: Allocator> {
    pub(crate) kept: Vec<Kept, A>,
    pub(crate) spots: Spots<A>,
}

fn key_of(task: Task) -> TaskKey
    ensures goal { result.goal ≡ task.goal.0 }
    ensures occurrence { result.occurrence ≡ task.occurrence }
{
    TaskKey {
        goal: task.goal.0,
        occurrence: task.occurrence,
    }
}

impl<A: Allocator + Copy> Answers<A> {
    ghost use Rattle.chr_core.specs.AnswersView.{HasRoom, answers_in, guests_in, row_in};

    /// No answer was kept.
    pub(crate) fn new(alloc: A) -> Answers<A>
        ensures answers { answers_in result ≡ [] }
        ensures row { (t : semantics.Task) → row_in result t ≡ None }
        ensures guests { (t : semantics.Task) → guests_in result t ≡ [] }
    {
        Answers {
            kept: Vec::new(alloc),
            spots: Spots::new(alloc),
        }
    }

    /// Makes room for one more answer to a task.
    pub(crate) fn room(&mut self, task: Task) -> Result<(), Memory>
        ensures answers { answers_in self.new ≡ answers_in self.old }
        ensures row { (t : semantics.Task) → row_in self.new t ≡ row_in self.old t }
        ensures guests { (t : semantics.Task) → guests_in self.new t ≡ guests_in self.old t }
        ensures ok { OnOk result (HasRoom self.new (task_view task)) }
    {
        self.kept.reserve(1)?;
        self.spots.room(key_of(task))?;
        Ok(())
    }
}

impl<A: Allocator> Answers<A> {
    ghost use Rattle.chr_core.specs.AnswersView.{HasRoom, answers_in, guests_in, row_in};
    ghost use Rattle.chr_core.specs.KeptView.{kept_view};
    ghost use Rattle.chr_core.specs.SpotsView.{guests_or_none, row_or_none};

    pub(crate) fn len(&self) -> usize
        ensures { result ≡ length (answers_in self.now) }
    {
        self.kept.len()
    }

    /// The answer at a position.
    pub(crate) fn get(&self, position: usize) -> Option<&Kept>
        ensures { option_map (λ kept. kept_view kept.now) result ≡ slice_get (answers_in self.now) position }
    {
        self.kept.get(position)
    }

    /// What was found for the answer at a position: nothing also where there is none.
    pub(crate) fn ids(&self, position: usize) -> Option<HeadIds>
        ensures { result ≡ option_and_then (λ (k : Answered). k.ids) (slice_get (answers_in self.now) position) }
    {
        self.get(position)?.ids
    }

    /// Where those to a task stand: the newest to a stored constraint's task, and all to a guest's.
    pub(crate) fn positions(&self, task: Task) -> Option<&Positions<A>>
        ensures row { row_or_none (option_map (λ positions. positions.now) result) ≡ row_in self.now (task_view task) }
        ensures guests { guests_or_none (option_map (λ positions. positions.now) result) ≡ guests_in self.now (task_view task) }
    {
        self.spots.at(key_of(task))
    }

    /// The position of the newest answer to a stored constraint's task.
    pub(crate) fn row(&self, task: Task) -> Option<usize>
        ensures { result ≡ row_in self.now (task_view task) }
    {
        self.positions(task)?.row()
    }

    /// Appends an answer, for which room was made. One to a stored constraint's task takes the place of the one that stood there if it is
    /// the newest.
    pub(crate) fn put(&mut self, kept: Kept, is_guests: bool, is_newest: bool)
        requires { HasRoom self.old (task_view kept.task) }
        ensures answers { answers_in self.new ≡ answers_in self.old ++ kept_view kept ∷ [] }
        ensures row { (t : semantics.Task) → row_in self.new t ≡ cond (same_task t (task_view kept.task) && not is_guests)
            (cond is_newest (Some (length (answers_in self.old))) (row_in self.old t)) (row_in self.old t) }
        ensures guests { (t : semantics.Task) → guests_in self.new t ≡ cond (same_task t (task_view kept.task) && is_guests)
            (guests_in self.old t ++ length (answers_in self.old) ∷ []) (guests_in self.old t) }
    {
        let (key, position) = (key_of(kept.task), self.kept.len());
        if is_guests {
            self.spots.push_guest(key, position);
        } else if is_newest {
            self.spots.set_row(key, position);
        }
        self.kept.push_reserved(kept);
    }
}
