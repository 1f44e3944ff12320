//! Ordered maps.
ghost use Rattle.std.specs.Prelude.{◌≡◌, [], OnErr, OnOk};
ghost use Rattle.std.specs.Option.{option_copied};
ghost use Rattle.chr_map.specs.Order.{Ascends, entry_edited, entry_put, entry_removed, value_of};

use crate::editing::edit_at;
use crate::node::{Subtree, share_subtree};
use crate::putting::put;
use crate::search::found;
use crate::span::Span;
use crate::taking::take_out;
use crate::{Edit, Memory, Share};
use std::alloc::{Allocator, Global};
use std::marker::Model;

/// A map in the order of its keys. A change makes a new map, which shares with the old one all but some nodes: as many as the logarithm of
/// the greatest number of entries that it had. Contracts see the list of its entries, ascending.
#[derive(Drop)]
pub struct Map<K: Ord + Copy, V: Share, A: Allocator = Global> {
    root: Subtree<K, V, A>,
    alloc: A,
}

impl<K: Ord + Copy, V: Share, A: Allocator> Model for Map<K, V, A> {
    ghost use Rattle.std.specs.Prelude.{List};

    ghost Value = { List (K × V) };

    ghost use Rattle.chr_map.specs.Entries.{subtree_entries};
    ghost use Rattle.chr_map.specs.Order.{Ascends};

    ghost view = { λ map. subtree_entries map.root };

    ghost invariant = { λ map. Ascends K.cmp (subtree_entries map.root) };
}

impl<K: Ord + Copy, V: Share, A: Allocator + Copy> Map<K, V, A> {
    /// No entry.
    pub fn new(alloc: A) -> Map<K, V, A>
        ensures { result ≡ [] }
    {
        Map { root: None, alloc }
    }

    /// The value at a key.
    pub fn get(&self, key: &K) -> Option<&V>
        ensures value { option_copied result ≡ value_of K.cmp self.now key.now }
        ensures ascending { Ascends K.cmp self.now }
    {
        found(&self.root, key)
    }

    /// Puts a value at a key, in place of the one that was there. A refused call leaves the map as it was.
    pub fn put(&mut self, key: K, value: V) -> Result<(), Memory>
        ensures ok { OnOk result (self.new ≡ entry_put K.cmp self.old key value) }
        ensures err { OnErr result (self.new ≡ self.old) }
    {
        put(&mut self.root, self.alloc, &key, value)
    }

    /// Changes the value at a key, if there is one. What other maps have in common with this one is copied first. A refused call leaves the
    /// map as it was.
    pub fn edit<E: Edit<V>>(&mut self, key: &K, edit: &E) -> Result<(), Memory>
        ensures ok { OnOk result (self.new ≡ entry_edited K.cmp (E.edited edit.now) self.old key.now) }
        ensures err { OnErr result (self.new ≡ self.old) }
    {
        edit_at(&mut self.root, key, edit)
    }

    /// Takes out a key and its value, if it is there. A refused call leaves the map as it was.
    pub fn take_out(&mut self, key: &K) -> Result<(), Memory>
        ensures ok { OnOk result (self.new ≡ entry_removed K.cmp self.old key.now) }
        ensures err { OnErr result (self.new ≡ self.old) }
        ensures ascending { Ascends K.cmp self.old }
    {
        take_out(&mut self.root, key)
    }
}

impl<K: Ord + Copy, V: Share, A: Allocator> Map<K, V, A> {
    /// All entries, to be walked in order.
    pub fn entries(&self) -> Span<'_, K, V, A>
        ensures value { result ≡ self.now }
        ensures ascending { Ascends K.cmp self.now }
    {
        Span::new(&self.root)
    }
}

impl<K: Ord + Copy, V: Share, A: Allocator + Copy> Share for Map<K, V, A> {
    fn share(&self) -> Result<Map<K, V, A>, Memory> {
        Ok(Map {
            root: share_subtree(&self.root)?,
            alloc: self.alloc,
        })
    }
}
