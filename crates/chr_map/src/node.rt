//! Nodes of a search tree. Trees share them; one that is shared is copied before it is changed.
ghost use Rattle.std.specs.Prelude.{◌≡◌, IfOk, map};
ghost use Rattle.chr_map.specs.Entries.{subtree_seen, node_seen, branch_seen};

use crate::{Memory, Share};
use std::alloc::Allocator;
use std::sync::Arc;

/// Entries in their order: those of a tree, and then, for each branch, its own and those of the tree behind it.
#[derive(Drop)]
pub(crate) struct Node<K: Drop, V: Drop, A: Allocator> {
    pub(crate) first: Subtree<K, V, A>,
    pub(crate) branches: Branches<K, V, A>,
    /// The number of entries. Sizes wrap, which no tree in memory comes to.
    pub(crate) size: u64,
}

/// An entry, and what stands between it and the next one.
#[derive(Drop)]
pub(crate) struct Branch<K: Drop, V: Drop, L: Drop> {
    pub(crate) key: K,
    pub(crate) value: V,
    pub(crate) after: L,
}

/// An entry that was taken out.
#[derive(Drop)]
pub(crate) struct Taken<K: Drop, V: Drop> {
    pub(crate) key: K,
    pub(crate) value: V,
}

/// A tree that may be empty.
pub(crate) type Subtree<K, V, A> = Option<Arc<Node<K, V, A>, A>>;

/// The branches of a node.
pub(crate) type Branches<K, V, A> = Vec<Branch<K, V, Subtree<K, V, A>>, A>;

impl<K: Copy, V: Share, A: Allocator + Copy> Clone for Node<K, V, A> {
    ghost is_clone = { λ old new. node_seen new ≡ node_seen old };

    fn clone(&self) -> Result<Node<K, V, A>, Memory> {
        Ok(Node {
            first: share_subtree(&self.first)?,
            branches: share_branches(&self.branches)?,
            size: self.size,
        })
    }
}

/// The branches a second time, and room for one to four more.
fn share_branches<K: Copy, V: Share, A: Allocator + Copy>(
    branches: &Branches<K, V, A>,
) -> Result<Branches<K, V, A>, Memory>
    ensures { IfOk result (λ shared. map branch_seen shared.items ≡ map branch_seen branches.now.items) }
{
    let mut shared = Vec::with_capacity(*branches.allocator(), branches.len() / 4 * 4 + 4)?;
    for branch in branches {
        let copy = share_branch(branch)?;
        shared.push_reserved(copy);
    }
    Ok(shared)
}

/// A branch a second time.
fn share_branch<K: Copy, V: Share, A: Allocator>(
    branch: &Branch<K, V, Subtree<K, V, A>>,
) -> Result<Branch<K, V, Subtree<K, V, A>>, Memory>
    ensures { IfOk result (λ shared. branch_seen shared ≡ branch_seen branch.now) }
{
    Ok(Branch {
        key: branch.key,
        value: branch.value.share()?,
        after: share_subtree(&branch.after)?,
    })
}

/// The tree a second time, for a pointer.
pub(crate) fn share_subtree<K: Drop, V: Drop, A: Allocator>(
    subtree: &Subtree<K, V, A>,
) -> Result<Subtree<K, V, A>, Memory>
    ensures { IfOk result (λ shared. subtree_seen shared ≡ subtree_seen subtree.now) }
{
    match subtree {
        None => Ok(None),
        Some(node) => Ok(Some(Arc::try_clone(node)?)),
    }
}

/// The number of entries.
pub(crate) fn size<K: Drop, V: Drop, A: Allocator>(subtree: &Subtree<K, V, A>) -> u64 {
    match subtree {
        None => 0,
        Some(node) => node.size,
    }
}

/// The number of entries of a tree and the branches behind it.
pub(crate) fn count<K: Drop, V: Drop, A: Allocator>(
    first: &Subtree<K, V, A>,
    branches: &[Branch<K, V, Subtree<K, V, A>>],
) -> u64 {
    let mut entries = size(first);
    for branch in branches {
        entries = entries.wrapping_add(size(&branch.after)).wrapping_add(1);
    }
    entries
}
