//! Looking for keys.
ghost use Rattle.std.specs.Prelude.{◌≡◌, ◌<◌, ◌≤◌, IfErr, IfOk};
ghost use Rattle.std.specs.Option.{option_copied};
ghost use Rattle.chr_map.specs.Entries.{subtree_entries};
ghost use Rattle.chr_map.specs.Order.{Ascends, IsAbove, IsAtFirst, IsBelow, value_of};
ghost use Rattle.chr_map.specs.Places.{IsBetween, IsFound, entries_before, entries_behind, branch_count};

use crate::node::{Branch, Node, Subtree};
use std::alloc::Allocator;
use std::cmp::Ordering;

/// The branch of a key, or the place where it belongs.
fn place_among<K: Ord + Drop, V: Drop, L: Drop, A: Allocator>(
    branches: &Vec<Branch<K, V, L>, A>,
    key: &K,
) -> Result<usize, usize>
    ensures found { IfOk result (IsFound K.cmp key.now branches.now.items) }
    ensures between { IfErr result (IsBetween K.cmp key.now branches.now.items) }
{
    let mut low = 0;
    let mut high = branches.len();
    while low < high {
        let middle = low + (high - low) / 2;
        match key.cmp(&branches[middle].key) {
            Ordering::Less => high = middle,
            Ordering::Equal => return Ok(middle),
            Ordering::Greater => low = middle + 1,
        }
    }
    Err(low)
}

impl<K: Ord + Drop, V: Drop, A: Allocator> Node<K, V, A> {
    /// The branch of a key, or the place of the tree where it belongs.
    pub(crate) fn place(&self, key: &K) -> Result<usize, usize>
        ensures branch { IfOk result (λ place. place < branch_count self.now) }
        ensures found { IfOk result (λ place. IsAtFirst K.cmp key.now (entries_behind self.now place)) }
        ensures inside { IfErr result (λ place. place ≤ branch_count self.now) }
        ensures above { IfErr result (λ place. IsAbove K.cmp key.now (entries_before self.now place)) }
        ensures below { IfErr result (λ place. IsBelow K.cmp key.now (entries_behind self.now place)) }
    {
        place_among(&self.branches, key)
    }
}

/// The value at a key.
pub(crate) fn found<'a, K: Ord + Drop, V: Drop, A: Allocator>(
    subtree: &'a Subtree<K, V, A>,
    key: &K,
) -> Option<&'a V>
    ensures { Ascends K.cmp (subtree_entries subtree.now) →
        option_copied result ≡ value_of K.cmp (subtree_entries subtree.now) key.now }
{
    let node: &'a Node<K, V, A> = match subtree {
        None => return None,
        Some(node) => node,
    };
    match node.place(key) {
        Ok(place) => Some(&node.branches[place].value),
        Err(place) => found(node.tree(place), key),
    }
}
