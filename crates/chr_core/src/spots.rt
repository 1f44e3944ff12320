//! The positions of answers, by task.
ghost use Rattle.std.specs.Prelude.{◌≡◌, ◌<◌, ◌++◌, ◌∷◌, [], None, OnOk, Some, cond, option_map};
ghost use Rattle.indexmap.specs.IndexMap.{get};
ghost use Rattle.chr_semantics.specs.Tasks.{Task, same_task};

use crate::positions::Positions;
use chr_term::FoldState;
use indexmap::IndexMap;
use std::alloc::{AllocError, Allocator};

/// A task: the search for the constraint with this identity at this occurrence of its symbol.
#[derive(Clone, Copy, PartialEq, Eq, Hash, Drop)]
pub(crate) struct TaskKey {
    pub(crate) goal: u64,
    pub(crate) occurrence: u32,
}

/// For each task the position of one answer to a stored constraint's task, and the positions of answers to guests' tasks.
#[derive(Drop)]
pub(crate) struct Spots<A: Allocator> {
    positions: IndexMap<TaskKey, Positions<A>, FoldState, A>,
    alloc: A,
}

impl<A: Allocator + Copy> Spots<A> {
    ghost use Rattle.chr_core.specs.SpotsView.{guests_at, row_at, spare_at, task_of};

    /// No answer stands anywhere.
    pub(crate) fn new(alloc: A) -> Spots<A>
        ensures row { (t : Task) → row_at result t ≡ None }
        ensures guests { (t : Task) → guests_at result t ≡ [] }
    {
        Spots {
            positions: IndexMap::new(alloc),
            alloc,
        }
    }

    /// Makes room for one more answer to a task, and changes nothing else.
    pub(crate) fn room(&mut self, key: TaskKey) -> Result<(), AllocError>
        ensures row { (t : Task) → row_at self.new t ≡ row_at self.old t }
        ensures guests { (t : Task) → guests_at self.new t ≡ guests_at self.old t }
        ensures ok { OnOk result (0 < spare_at self.new (task_of key)) }
    {
        if let Some(positions) = self.positions.get_mut(&key) {
            return positions.room();
        }
        let mut positions = Positions::new(self.alloc);
        positions.room()?;
        self.positions.insert(key, positions)?;
        Ok(())
    }
}

impl<A: Allocator> Spots<A> {
    ghost use Rattle.chr_core.specs.SpotsView.{guests_at, row_at, same_key, spare_at, task_of};

    /// Where the answers to a task stand.
    pub(crate) fn at(&self, key: TaskKey) -> Option<&Positions<A>>
        ensures { option_map (λ positions. positions.now) result ≡ get same_key self.now.positions key }
    {
        // Most runs keep no answer: nothing is hashed in these.
        if self.positions.is_empty() {
            return None;
        }
        self.positions.get(&key)
    }

    /// Puts the position of the answer to a stored constraint's task, for which room was made.
    pub(crate) fn set_row(&mut self, key: TaskKey, position: usize)
        requires { 0 < spare_at self.old (task_of key) }
        ensures row { (t : Task) → row_at self.new t
            ≡ cond (same_task t (task_of key)) (Some position) (row_at self.old t) }
        ensures guests { (t : Task) → guests_at self.new t ≡ guests_at self.old t }
    {
        if let Some(positions) = self.positions.get_mut(&key) {
            positions.set_row(position);
        }
    }

    /// Appends the position of an answer to a guest's task, for which room was made.
    pub(crate) fn push_guest(&mut self, key: TaskKey, position: usize)
        requires { 0 < spare_at self.old (task_of key) }
        ensures row { (t : Task) → row_at self.new t ≡ row_at self.old t }
        ensures guests { (t : Task) → guests_at self.new t
            ≡ cond (same_task t (task_of key)) (guests_at self.old t ++ position ∷ []) (guests_at self.old t) }
    {
        if let Some(positions) = self.positions.get_mut(&key) {
            positions.push_guest(position);
        }
    }
}
