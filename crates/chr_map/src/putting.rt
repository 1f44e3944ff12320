//! Putting values into trees.
ghost use Rattle.std.specs.Prelude.{◌≡◌, ◌<◌, ◌≤◌, ◌++◌, ◌∷◌, [], IfOk, OnErr, OnOk};
ghost use Rattle.std.specs.Bool.{OnFalse, OnTrue};
ghost use Rattle.chr_map.specs.Entries.{subtree_entries, node_entries};
ghost use Rattle.chr_map.specs.Order.{Ascends, entry_put};
ghost use Rattle.chr_map.specs.Places.{entries_at, branch_count, with_tree};
ghost use Rattle.chr_map.specs.Taking.{IsCut, with_up};

use crate::node::{Branch, Node, Subtree, Taken, count};
use crate::{Memory, Share};
use std::alloc::Allocator;
use std::sync::Arc;

/// As many branches as a node is to have. One that has more is cut in two.
const MAX_BRANCHES: usize = 15;

/// As many branches as stay in a node that is cut.
const HALF: usize = 8;

/// Puts a value at a key. A refused call leaves the entries as they were.
pub(crate) fn put<K: Ord + Copy, V: Share, A: Allocator + Copy>(
    subtree: &mut Subtree<K, V, A>,
    alloc: A,
    key: &K,
    value: V,
) -> Result<(), Memory>
    ensures ok { OnOk result (Ascends K.cmp (subtree_entries subtree.old) → subtree_entries subtree.new
        ≡ entry_put K.cmp (subtree_entries subtree.old) key.now value) }
    ensures err { OnErr result (subtree_entries subtree.new ≡ subtree_entries subtree.old) }
{
    match subtree {
        None => {
            *subtree = Some(single(alloc, *key, value)?);
            Ok(())
        }
        Some(node) => {
            put_below(Arc::make_mut(node)?, alloc, key, value)?;
            raise(subtree, alloc);
            Ok(())
        }
    }
}

/// A node of one entry.
fn single<K: Copy, V: Share, A: Allocator + Copy>(
    alloc: A,
    key: K,
    value: V,
) -> Result<Arc<Node<K, V, A>, A>, Memory>
    ensures { IfOk result (λ node. subtree_entries (Some node) ≡ (key, value) ∷ []) }
{
    let mut branches = Vec::new(alloc);
    branches.push(Branch {
        key,
        value,
        after: None,
    })?;
    let node = Node {
        first: None,
        branches,
        size: 1,
    };
    Ok(Arc::new(alloc, node)?)
}

/// Puts a value at a key in a tree below. A branch that does not fit there is handed up, and belongs behind that tree. A refused call leaves
/// the entries as they were.
#[cycle(put)]
fn put_in_tree<K: Ord + Copy, V: Share, A: Allocator + Copy>(
    subtree: &mut Subtree<K, V, A>,
    alloc: A,
    key: &K,
    value: V,
) -> Result<Option<Branch<K, V, Subtree<K, V, A>>>, Memory>
    ensures ok { IfOk result (λ up. Ascends K.cmp (subtree_entries subtree.old) → with_up (subtree_entries subtree.new) up
        ≡ entry_put K.cmp (subtree_entries subtree.old) key.now value) }
    ensures err { OnErr result (subtree_entries subtree.new ≡ subtree_entries subtree.old) }
{
    match subtree {
        None => Ok(Some(Branch {
            key: *key,
            value,
            after: None,
        })),
        Some(node) => {
            let node = Arc::make_mut(node)?;
            put_below(node, alloc, key, value)?;
            Ok(cut(node, alloc))
        }
    }
}

#[cycle(put)]
fn put_below<K: Ord + Copy, V: Share, A: Allocator + Copy>(
    node: &mut Node<K, V, A>,
    alloc: A,
    key: &K,
    value: V,
) -> Result<(), Memory>
    ensures ok { OnOk result (Ascends K.cmp (node_entries node.old) → node_entries node.new
        ≡ entry_put K.cmp (node_entries node.old) key.now value) }
    ensures err { OnErr result (node_entries node.new ≡ node_entries node.old) }
{
    match node.place(key) {
        Ok(place) => {
            node.branches[place].value = value;
            Ok(())
        }
        Err(place) => put_at(node, place, alloc, key, value),
    }
}

/// Puts a value at a key in the tree at a place.
#[cycle(put)]
fn put_at<K: Ord + Copy, V: Share, A: Allocator + Copy>(
    node: &mut Node<K, V, A>,
    place: usize,
    alloc: A,
    key: &K,
    value: V,
) -> Result<(), Memory>
    requires { place ≤ branch_count node.old }
    ensures ok { OnOk result (Ascends K.cmp (entries_at node.old place) → node_entries node.new
        ≡ with_tree node.old place (entry_put K.cmp (entries_at node.old place) key.now value)) }
    ensures err { OnErr result (node_entries node.new ≡ node_entries node.old) }
{
    node.reserve()?;
    if let None = node.tree(place) {
        node.add(
            place,
            Branch {
                key: *key,
                value,
                after: None,
            },
        );
        return Ok(());
    }
    let mut tree = None;
    node.swap_tree(place, &mut tree);
    let answer = put_in_tree(&mut tree, alloc, key, value);
    node.swap_tree(place, &mut tree);
    let up = answer?;
    node.add_up(place, up);
    Ok(())
}

/// Cuts a node that has too many branches, unless there is no memory for it. What comes off is handed up in a branch.
fn cut<K: Copy, V: Share, A: Allocator + Copy>(
    node: &mut Node<K, V, A>,
    alloc: A,
) -> Option<Branch<K, V, Subtree<K, V, A>>>
    ensures { with_up (node_entries node.new) result ≡ node_entries node.old }
{
    if node.branches.len() <= MAX_BRANCHES {
        return None;
    }
    let mut after = match empty(alloc) {
        Ok(node) => node,
        Err(_) => return None,
    };
    let right = match Arc::make_mut(&mut after) {
        Ok(right) => right,
        Err(_) => return None,
    };
    let middle = cut_off(node, right)?;
    Some(Branch {
        key: middle.key,
        value: middle.value,
        after: Some(after),
    })
}

/// A node with no entry.
fn empty<K: Copy, V: Share, A: Allocator + Copy>(alloc: A) -> Result<Arc<Node<K, V, A>, A>, Memory>
    ensures { IfOk result (λ node. subtree_entries (Some node) ≡ []) }
{
    let node = Node {
        first: None,
        branches: Vec::new(alloc),
        size: 0,
    };
    Ok(Arc::new(alloc, node)?)
}

/// Moves what stands behind the middle branch into another node, in place of all that this had.
fn cut_off<K: Copy, V: Share, A: Allocator + Copy>(
    node: &mut Node<K, V, A>,
    right: &mut Node<K, V, A>,
) -> Option<Taken<K, V>>
    requires { HALF < branch_count node.old }
    ensures { IsCut node.old node.new right.new result }
{
    let mut branches = match node.branches.split_off(HALF) {
        Ok(branches) => branches,
        Err(_) => return None,
    };
    let middle = branches.remove(0);
    let size = count(&middle.after, &branches);
    node.size = node.size.wrapping_sub(size).wrapping_sub(1);
    *right = Node {
        first: middle.after,
        branches,
        size,
    };
    Some(Taken {
        key: middle.key,
        value: middle.value,
    })
}

/// Gives a tree whose top has too many branches a new top, unless there is no memory for it.
fn raise<K: Copy, V: Share, A: Allocator + Copy>(subtree: &mut Subtree<K, V, A>, alloc: A)
    ensures { subtree_entries subtree.new ≡ subtree_entries subtree.old }
{
    if is_full(subtree) {
        if let Ok(mut top) = empty(alloc) {
            if let Ok(node) = Arc::make_mut(&mut top) {
                if raise_to(node, subtree, alloc) {
                    *subtree = Some(top);
                }
            }
        }
    }
}

/// Whether the top of a tree has too many branches.
fn is_full<K: Copy, V: Share, A: Allocator + Copy>(subtree: &Subtree<K, V, A>) -> bool {
    match subtree {
        None => false,
        Some(node) => node.branches.len() > MAX_BRANCHES,
    }
}

/// Cuts the top of a tree in two, and makes another node, with no entry, the top of both. Where it says no, the tree is as it was.
fn raise_to<K: Copy, V: Share, A: Allocator + Copy>(
    top: &mut Node<K, V, A>,
    subtree: &mut Subtree<K, V, A>,
    alloc: A,
) -> bool
    requires { node_entries top.old ≡ [] }
    ensures yes { OnTrue result (node_entries top.new ≡ subtree_entries subtree.old) }
    ensures no { OnFalse result (subtree_entries subtree.new ≡ subtree_entries subtree.old) }
{
    if top.reserve().is_err() {
        return false;
    }
    let branch = match cut_tree(subtree, alloc) {
        None => return false,
        Some(branch) => branch,
    };
    top.swap_tree(0, subtree);
    top.add(0, branch);
    true
}

/// Cuts the top of a tree, if it has too many branches.
fn cut_tree<K: Copy, V: Share, A: Allocator + Copy>(
    subtree: &mut Subtree<K, V, A>,
    alloc: A,
) -> Option<Branch<K, V, Subtree<K, V, A>>>
    ensures { with_up (subtree_entries subtree.new) result ≡ subtree_entries subtree.old }
{
    match subtree {
        None => None,
        Some(node) => match Arc::make_mut(node) {
            Ok(node) => cut(node, alloc),
            Err(_) => None,
        },
    }
}
