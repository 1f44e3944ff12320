//! The way through a map.
ghost use Rattle.std.specs.Prelude.{◌≡◌, ◌++◌, ◌∷◌, [], ◌<◌, IfNone, IfSome, length, true};
ghost use Rattle.chr_map.specs.Entries.{subtree_entries, run};
ghost use Rattle.chr_map.specs.Order.{Ascends};

use crate::Share;
use crate::node::{Branch, Node, Subtree, count};
use std::alloc::{Allocator, Global};
use std::marker::Model;

/// Entries of a map that stand next to each other, by which it is walked in order. Contracts see their list.
#[derive(Drop)]
pub struct Span<'a, K: Ord + Copy, V: Share, A: Allocator = Global> {
    /// A tree, and branches that stand behind it.
    first: &'a Subtree<K, V, A>,
    branches: &'a [Branch<K, V, Subtree<K, V, A>>],
}

impl<'a, K: Ord + Copy, V: Share, A: Allocator> Model for Span<'a, K, V, A> {
    ghost use Rattle.std.specs.Prelude.{List};

    ghost Value = { List (K × V) };

    ghost use Rattle.chr_map.specs.Entries.{run};
    ghost use Rattle.chr_map.specs.Order.{Ascends};

    ghost view = { λ span. run span.first.now span.branches.now };

    ghost invariant = { λ span. Ascends K.cmp (run span.first.now span.branches.now) };
}

/// An entry of a span, with those before it and those after it.
#[derive(Drop)]
pub struct Middle<'a, K: Ord + Copy, V: Share, A: Allocator = Global> {
    pub before: Span<'a, K, V, A>,
    pub key: &'a K,
    pub value: &'a V,
    pub after: Span<'a, K, V, A>,
}

impl<'a, K: Ord + Copy, V: Share, A: Allocator> Span<'a, K, V, A> {
    pub(crate) fn new(subtree: &'a Subtree<K, V, A>) -> Span<'a, K, V, A>
        requires { Ascends K.cmp (subtree_entries subtree.now) }
        ensures { result ≡ subtree_entries subtree.now }
    {
        Span {
            first: subtree,
            branches: &[],
        }
    }

    /// How many entries it has, as the map counts them. Nothing is promised of it: it is for choosing the shorter way.
    pub fn weight(&self) -> u64 {
        count(self.first, self.branches)
    }

    /// Whether it is seen at once that there are no entries.
    pub fn is_empty(&self) -> bool
        ensures { result ≡ true → self.now ≡ [] }
    {
        self.branches.is_empty() && self.first.is_none()
    }

    /// An entry from about the middle, where there is one, and the spans before and after it.
    pub fn middle(&self) -> Option<Middle<'a, K, V, A>>
        ensures some { IfSome result
            (λ m. self.now ≡ m.before ++ (m.key.now, m.value.now) ∷ m.after) }
        ensures none { IfNone result (self.now ≡ []) }
        ensures ascending { Ascends K.cmp self.now }
    {
        match opened(self.first, self.branches) {
            None => None,
            Some((first, branches)) => Some(parted(first, branches, branches.len() / 2)),
        }
    }

    /// As `middle`, but with few entries before the one that is given: those of a tree, of which a leaf has none.
    pub fn leading(&self) -> Option<Middle<'a, K, V, A>>
        ensures some { IfSome result
            (λ m. self.now ≡ m.before ++ (m.key.now, m.value.now) ∷ m.after) }
        ensures none { IfNone result (self.now ≡ []) }
        ensures ascending { Ascends K.cmp self.now }
    {
        match opened(self.first, self.branches) {
            None => None,
            Some((first, branches)) => Some(parted(first, branches, 0)),
        }
    }
}

/// A tree and branches behind it, of which there are some, with these entries; where there are no entries, nothing.
fn opened<'a, K: Ord + Copy, V: Share, A: Allocator>(
    first: &'a Subtree<K, V, A>,
    branches: &'a [Branch<K, V, Subtree<K, V, A>>],
) -> Option<(&'a Subtree<K, V, A>, &'a [Branch<K, V, Subtree<K, V, A>>])>
    ensures some { IfSome result (λ parts. 0 < length parts.1.now) }
    ensures same { IfSome result (λ parts. run first.now branches.now ≡ run parts.0.now parts.1.now) }
    ensures none { IfNone result (run first.now branches.now ≡ []) }
{
    if !branches.is_empty() {
        return Some((first, branches));
    }
    let node: &'a Node<K, V, A> = match first {
        None => return None,
        Some(node) => node,
    };
    opened(&node.first, node.branches.as_slice())
}

/// The entry of one of some branches, with those before and after it.
fn parted<'a, K: Ord + Copy, V: Share, A: Allocator>(
    first: &'a Subtree<K, V, A>,
    branches: &'a [Branch<K, V, Subtree<K, V, A>>],
    place: usize,
) -> Middle<'a, K, V, A>
    requires inside { place < length branches.now }
    requires ascending { Ascends K.cmp (run first.now branches.now) }
    ensures { run first.now branches.now ≡ result.before ++ (result.key.now, result.value.now) ∷ result.after }
{
    let branch = &branches[place];
    Middle {
        before: Span {
            first,
            branches: &branches[..place],
        },
        key: &branch.key,
        value: &branch.value,
        after: Span {
            first: &branch.after,
            branches: &branches[place + 1..],
        },
    }
}
