//! Taking entries out of trees.
ghost use Rattle.std.specs.Prelude.{◌≡◌, ◌<◌, ◌≤◌, [], ◌++◌, IfOk, OnErr, OnOk, drop};
ghost use Rattle.chr_map.specs.Entries.{subtree_entries, node_entries};
ghost use Rattle.chr_map.specs.Order.{Ascends, entry_removed};
ghost use Rattle.chr_map.specs.Places.{entries_at, entries_before, entries_behind, branch_count, with_tree};
ghost use Rattle.chr_map.specs.Taking.{HasLast, left_entries};

use crate::node::{Node, Subtree, Taken};
use crate::{Memory, Share};
use std::alloc::Allocator;
use std::mem;
use std::sync::Arc;

/// What stands in the place of a node out of which an entry was taken.
#[derive(Drop)]
pub(crate) enum Left<K: Drop, V: Drop, A: Allocator> {
    /// The node, changed.
    Node,
    /// Another tree.
    Tree(Subtree<K, V, A>),
}

/// What stands in the place of a changed node: a node without branches gives way to the tree that it has.
fn rest<K: Drop, V: Drop, A: Allocator>(node: &mut Node<K, V, A>) -> Left<K, V, A>
    ensures { left_entries result node.new ≡ node_entries node.old }
{
    if node.branches.is_empty() {
        Left::Tree(mem::replace(&mut node.first, None))
    } else {
        Left::Node
    }
}

/// Takes out a key. A refused call leaves the entries as they were.
#[cycle(take_out)]
pub(crate) fn take_out<K: Ord + Copy, V: Share, A: Allocator + Copy>(
    subtree: &mut Subtree<K, V, A>,
    key: &K,
) -> Result<(), Memory>
    ensures ok { OnOk result (Ascends K.cmp (subtree_entries subtree.old) → subtree_entries subtree.new
        ≡ entry_removed K.cmp (subtree_entries subtree.old) key.now) }
    ensures err { OnErr result (subtree_entries subtree.new ≡ subtree_entries subtree.old) }
{
    match subtree {
        None => Ok(()),
        Some(node) => {
            if let Left::Tree(tree) = take_below(Arc::make_mut(node)?, key)? {
                *subtree = tree;
            }
            Ok(())
        }
    }
}

#[cycle(take_out)]
fn take_below<K: Ord + Copy, V: Share, A: Allocator + Copy>(
    node: &mut Node<K, V, A>,
    key: &K,
) -> Result<Left<K, V, A>, Memory>
    ensures ok { IfOk result (λ rest. Ascends K.cmp (node_entries node.old) → left_entries rest node.new
        ≡ entry_removed K.cmp (node_entries node.old) key.now) }
    ensures err { OnErr result (node_entries node.new ≡ node_entries node.old) }
{
    match node.place(key) {
        Ok(place) => take_top(node, place),
        Err(place) => {
            take_in(node, place, key)?;
            Ok(Left::Node)
        }
    }
}

/// Takes out a key from the tree at a place.
#[cycle(take_out)]
fn take_in<K: Ord + Copy, V: Share, A: Allocator + Copy>(
    node: &mut Node<K, V, A>,
    place: usize,
    key: &K,
) -> Result<(), Memory>
    requires { place ≤ branch_count node.old }
    ensures ok { OnOk result (Ascends K.cmp (entries_at node.old place) → node_entries node.new
        ≡ with_tree node.old place (entry_removed K.cmp (entries_at node.old place) key.now)) }
    ensures err { OnErr result (node_entries node.new ≡ node_entries node.old) }
{
    let mut tree = None;
    node.swap_tree(place, &mut tree);
    let answer = take_out(&mut tree, key);
    node.swap_tree(place, &mut tree);
    answer
}

/// Takes out the entry of a branch. The last entry of the tree in front of it comes into its place, where there is one.
fn take_top<K: Copy, V: Share, A: Allocator + Copy>(
    node: &mut Node<K, V, A>,
    place: usize,
) -> Result<Left<K, V, A>, Memory>
    requires { place < branch_count node.old }
    ensures ok { IfOk result (λ rest. left_entries rest node.new ≡ entries_before node.old place
        ++ (entries_at node.old place ++ drop 1 (entries_behind node.old place))) }
    ensures err { OnErr result (node_entries node.new ≡ node_entries node.old) }
{
    let mut tree = None;
    node.swap_tree(place, &mut tree);
    let last = take_last(&mut tree);
    node.swap_tree(place, &mut tree);
    match last? {
        Some(last) => {
            node.set(place, last.key, last.value);
            Ok(Left::Node)
        }
        None => {
            node.take_branch(place);
            Ok(rest(node))
        }
    }
}

/// Takes out the greatest entry. A refused call leaves the entries as they were.
#[cycle(take_last)]
fn take_last<K: Copy, V: Share, A: Allocator + Copy>(
    subtree: &mut Subtree<K, V, A>,
) -> Result<Option<Taken<K, V>>, Memory>
    ensures ok { IfOk result (λ taken. HasLast (subtree_entries subtree.old) taken (subtree_entries subtree.new)) }
    ensures err { OnErr result (subtree_entries subtree.new ≡ subtree_entries subtree.old) }
{
    match subtree {
        None => Ok(None),
        Some(node) => {
            let node_mut = Arc::make_mut(node)?;
            let last = take_last_below(node_mut)?;
            if let Left::Tree(tree) = rest(node_mut) {
                *subtree = tree;
            }
            Ok(last)
        }
    }
}

#[cycle(take_last)]
fn take_last_below<K: Copy, V: Share, A: Allocator + Copy>(
    node: &mut Node<K, V, A>,
) -> Result<Option<Taken<K, V>>, Memory>
    ensures ok { IfOk result (λ taken. HasLast (node_entries node.old) taken (node_entries node.new)) }
    ensures err { OnErr result (node_entries node.new ≡ node_entries node.old) }
{
    let place = node.branches.len();
    let mut tree = None;
    node.swap_tree(place, &mut tree);
    let last = take_last(&mut tree);
    node.swap_tree(place, &mut tree);
    match last? {
        Some(last) => Ok(Some(last)),
        None => Ok(pop(node)),
    }
}

/// Takes out the entry of the last branch, behind which there is no entry.
fn pop<K: Drop, V: Drop, A: Allocator>(node: &mut Node<K, V, A>) -> Option<Taken<K, V>>
    requires { entries_at node.old (branch_count node.old) ≡ [] }
    ensures { HasLast (node_entries node.old) result (node_entries node.new) }
{
    let branch = node.branches.pop()?;
    node.size = node.size.wrapping_sub(1);
    Some(Taken {
        key: branch.key,
        value: branch.value,
    })
}
