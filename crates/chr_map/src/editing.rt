//! Changing values in trees.
ghost use Rattle.std.specs.Prelude.{◌≡◌, ◌≤◌, OnErr, OnOk};
ghost use Rattle.chr_map.specs.Entries.{subtree_entries, node_entries};
ghost use Rattle.chr_map.specs.Order.{Ascends, entry_edited};
ghost use Rattle.chr_map.specs.Places.{entries_at, branch_count, with_tree};

use crate::node::{Node, Subtree};
use crate::{Edit, Memory, Share};
use std::alloc::Allocator;
use std::sync::Arc;

/// Changes the value at a key. A refused call leaves the entries as they were.
#[cycle(edit_at)]
pub(crate) fn edit_at<K: Ord + Copy, V: Share, A: Allocator + Copy, E: Edit<V>>(
    subtree: &mut Subtree<K, V, A>,
    key: &K,
    edit: &E,
) -> Result<(), Memory>
    ensures ok { OnOk result (Ascends K.cmp (subtree_entries subtree.old) → subtree_entries subtree.new
        ≡ entry_edited K.cmp (E.edited edit.now) (subtree_entries subtree.old) key.now) }
    ensures err { OnErr result (subtree_entries subtree.new ≡ subtree_entries subtree.old) }
{
    match subtree {
        None => Ok(()),
        Some(node) => edit_below(Arc::make_mut(node)?, key, edit),
    }
}

#[cycle(edit_at)]
fn edit_below<K: Ord + Copy, V: Share, A: Allocator + Copy, E: Edit<V>>(
    node: &mut Node<K, V, A>,
    key: &K,
    edit: &E,
) -> Result<(), Memory>
    ensures ok { OnOk result (Ascends K.cmp (node_entries node.old) → node_entries node.new
        ≡ entry_edited K.cmp (E.edited edit.now) (node_entries node.old) key.now) }
    ensures err { OnErr result (node_entries node.new ≡ node_entries node.old) }
{
    match node.place(key) {
        Ok(place) => edit.edit(&mut node.branches[place].value),
        Err(place) => edit_in(node, place, key, edit),
    }
}

/// Changes the value at a key in the tree at a place.
#[cycle(edit_at)]
fn edit_in<K: Ord + Copy, V: Share, A: Allocator + Copy, E: Edit<V>>(
    node: &mut Node<K, V, A>,
    place: usize,
    key: &K,
    edit: &E,
) -> Result<(), Memory>
    requires { place ≤ branch_count node.old }
    ensures ok { OnOk result (Ascends K.cmp (entries_at node.old place) → node_entries node.new
        ≡ with_tree node.old place (entry_edited K.cmp (E.edited edit.now) (entries_at node.old place) key.now)) }
    ensures err { OnErr result (node_entries node.new ≡ node_entries node.old) }
{
    let mut tree = None;
    node.swap_tree(place, &mut tree);
    let answer = edit_at(&mut tree, key, edit);
    node.swap_tree(place, &mut tree);
    answer
}
