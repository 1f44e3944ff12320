//! The places of a node: in front of each branch, and behind all.
ghost use Rattle.std.specs.Prelude.{◌≡◌, ◌<◌, ◌≤◌, ◌++◌, ◌∷◌, OnOk, drop};
ghost use Rattle.chr_map.specs.Entries.{subtree_entries, subtree_seen, node_entries, node_seen};
ghost use Rattle.chr_map.specs.Order.{on_first};
ghost use Rattle.chr_map.specs.Places.{SameParts, Swaps, entries_at, entries_before, entries_behind, branch_count, branch_room, with_tree};
ghost use Rattle.chr_map.specs.Taking.{with_up};

use crate::Memory;
use crate::node::{Branch, Node, Subtree, size};
use std::alloc::Allocator;
use std::mem;

impl<K: Drop, V: Drop, A: Allocator> Node<K, V, A> {
    /// The tree at a place.
    pub(crate) fn tree(&self, place: usize) -> &Subtree<K, V, A>
        requires { place ≤ branch_count self.now }
        ensures entries { subtree_entries result.now ≡ entries_at self.now place }
        ensures fewer { (subtree_seen result.now).nodes < (node_seen self.now).nodes }
    {
        if place == 0 {
            &self.first
        } else {
            &self.branches[place - 1].after
        }
    }

    /// Swaps the tree at a place with another.
    pub(crate) fn swap_tree(&mut self, place: usize, tree: &mut Subtree<K, V, A>)
        requires { place ≤ branch_count self.old }
        ensures swaps { Swaps self.old self.new place tree.old tree.new }
        ensures room { branch_room self.new ≡ branch_room self.old }
    {
        let more = size(tree);
        self.exchange(place, tree);
        self.size = self.size.wrapping_add(more).wrapping_sub(size(tree));
    }

    /// As `swap_tree`, but for the size.
    fn exchange(&mut self, place: usize, tree: &mut Subtree<K, V, A>)
        requires { place ≤ branch_count self.old }
        ensures swaps { Swaps self.old self.new place tree.old tree.new }
        ensures room { branch_room self.new ≡ branch_room self.old }
    {
        if place == 0 {
            mem::swap(&mut self.first, tree);
        } else {
            mem::swap(&mut self.branches[place - 1].after, tree);
        }
    }

    /// Makes room for one more branch.
    pub(crate) fn reserve(&mut self) -> Result<(), Memory>
        ensures same { SameParts self.new self.old }
        ensures room { OnOk result (branch_count self.new < branch_room self.new) }
    {
        self.branches.reserve(1)
    }

    /// Puts a branch behind the tree at a place. There is room for it.
    pub(crate) fn add(&mut self, place: usize, branch: Branch<K, V, Subtree<K, V, A>>)
        requires inside { place ≤ branch_count self.old }
        requires room { branch_count self.old < branch_room self.old }
        ensures { node_entries self.new ≡ with_tree self.old place
            (entries_at self.old place ++ (branch.key, branch.value) ∷ subtree_entries branch.after) }
    {
        let more = size(&branch.after).wrapping_add(1);
        match self.branches.insert(place, branch) {
            Ok(()) => {}
            Err(_) => {}
        }
        self.size = self.size.wrapping_add(more);
    }

    /// Puts a branch that is handed up behind the tree at a place, if there is one. There is room for it.
    pub(crate) fn add_up(&mut self, place: usize, up: Option<Branch<K, V, Subtree<K, V, A>>>)
        requires inside { place ≤ branch_count self.old }
        requires room { branch_count self.old < branch_room self.old }
        ensures { node_entries self.new ≡ with_tree self.old place (with_up (entries_at self.old place) up) }
    {
        match up {
            None => {}
            Some(branch) => self.add(place, branch),
        }
    }

    /// Takes a branch out. The tree behind it comes into the place of the one in front of it.
    pub(crate) fn take_branch(&mut self, place: usize)
        requires { place < branch_count self.old }
        ensures { node_entries self.new ≡ entries_before self.old place ++ drop 1 (entries_behind self.old place) }
    {
        let branch = self.branches.remove(place);
        let less = size(&branch.after).wrapping_add(1);
        let mut tree = branch.after;
        self.swap_tree(place, &mut tree);
        self.size = self.size.wrapping_sub(less);
    }
}

impl<K: Copy, V: Drop, A: Allocator> Node<K, V, A> {
    /// Puts an entry in the place of a branch's.
    pub(crate) fn set(&mut self, place: usize, key: K, value: V)
        requires { place < branch_count self.old }
        ensures { node_entries self.new ≡ entries_before self.old place ++ (entries_at self.old place
            ++ on_first (λ _. (key, value)) (entries_behind self.old place)) }
    {
        let branch = &mut self.branches[place];
        branch.key = key;
        branch.value = value;
    }
}
