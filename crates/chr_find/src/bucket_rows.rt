//! The rows of a bucket.
ghost use Rattle.std.specs.Prelude.{◌≡◌, ◌∷◌, [], List, OnErr, OnOk, IfOk, length, true};
ghost use Rattle.chr_map.specs.Order.{Ascends, entry_put, entry_removed};
ghost use Rattle.chr_store.specs.declared.id.Id.{Id};
ghost use Rattle.chr_store.specs.declared.row.Row.{Row};
ghost use Rattle.chr_find.specs.IdRows.{IsOnly, id_cmp, id_rows};
ghost use Rattle.chr_find.specs.RowSpans.{span_rows};

use crate::Memory;
use chr_map::{Map, Share, Span};
use chr_store::{Id, Row};
use std::alloc::Allocator;
use std::marker::Model;
use std::sync::Arc;

/// Rows by their identities.
#[derive(Drop)]
struct Rows<A: Allocator> {
    map: Map<Id, Row<A>, A>,
}

impl<A: Allocator + Copy> Clone for Rows<A> {
    ghost is_clone = { λ old new. new.map ≡ old.map };

    fn clone(&self) -> Result<Rows<A>, Memory> {
        Ok(Rows {
            map: self.map.share()?,
        })
    }
}

/// One row stands in the value itself, several ones behind a pointer that is shared.
#[derive(Drop)]
enum Held<A: Allocator> {
    One(Id, Row<A>),
    Many(Arc<Rows<A>, A>),
}

/// The rows of a bucket. Contracts see the list of them with their identities, ascending.
#[derive(Drop)]
pub(crate) struct BucketRows<A: Allocator> {
    held: Held<A>,
}

impl<A: Allocator> Model for BucketRows<A> {
    ghost use Rattle.std.specs.Prelude.{List};
    ghost use Rattle.chr_store.specs.declared.id.Id.{Id};
    ghost use Rattle.chr_store.specs.declared.row.Row.{Row};
    ghost use Rattle.chr_find.specs.IdRows.{id_rows_code};

    ghost Value = { List (Id × Row A) };

    ghost coded = { id_rows_code };

    ghost use Rattle.chr_find.specs.BucketRowsView.{held_rows};

    ghost view = { λ rows. held_rows rows.held };
}

/// Rows of a bucket that stand next to each other.
#[derive(Drop)]
pub(crate) enum RowSpan<'a, A: Allocator> {
    Empty,
    One(Id, &'a Row<A>),
    Many(Span<'a, Id, Row<A>, A>),
}

impl<A: Allocator + Copy> BucketRows<A> {
    /// One row.
    pub(crate) fn one(id: Id, row: Row<A>) -> BucketRows<A>
        ensures { result ≡ (id, row) ∷ [] }
    {
        BucketRows {
            held: Held::One(id, row),
        }
    }

    /// The rows, to be walked in order.
    pub(crate) fn span(&self) -> RowSpan<'_, A>
        ensures rows { span_rows result ≡ id_rows self.now }
        ensures ascending { Ascends id_cmp self.now }
    {
        match &self.held {
            Held::One(id, row) => RowSpan::One(*id, row),
            Held::Many(rows) => RowSpan::Many(rows.map.entries()),
        }
    }

    /// How many rows there are, as the map counts them. Nothing is promised of it: it is for choosing the shorter bucket.
    pub(crate) fn weight(&self) -> u64 {
        match &self.held {
            Held::One(_, _) => 1,
            Held::Many(rows) => rows.map.entries().weight(),
        }
    }

    /// Whether it is seen at once that the row of an identity is the only one.
    pub(crate) fn is_only(&self, id: Id) -> bool
        ensures only { result ≡ true → IsOnly id.0 self.now }
        ensures ascending { Ascends id_cmp self.now }
    {
        match &self.held {
            Held::One(other, _) => *other == id,
            Held::Many(rows) => match rows.map.entries().leading() {
                None => false,
                Some(first) => {
                    *first.key == id && first.before.is_empty() && first.after.is_empty()
                }
            },
        }
    }

    /// Puts a row under its identity. A refused call leaves the rows as they were.
    pub(crate) fn put(&mut self, alloc: A, id: Id, row: Row<A>) -> Result<(), Memory>
        ensures ok { OnOk result (self.new ≡ entry_put id_cmp self.old id row) }
        ensures err { OnErr result (self.new ≡ self.old) }
    {
        match &mut self.held {
            Held::Many(rows) => Arc::make_mut(rows)?.map.put(id, row),
            Held::One(first_id, first) => {
                let mut map = Map::new(alloc);
                map.put(*first_id, first.share()?)?;
                map.put(id, row)?;
                self.held = Held::Many(Arc::new(alloc, Rows { map })?);
                Ok(())
            }
        }
    }

    /// Takes out the row of an identity, if it is there. A refused call leaves the rows as they were.
    pub(crate) fn take_out(&mut self, alloc: A, id: Id) -> Result<(), Memory>
        ensures ok { OnOk result (self.new ≡ entry_removed id_cmp self.old id) }
        ensures err { OnErr result (self.new ≡ self.old) }
    {
        match &mut self.held {
            Held::Many(rows) => Arc::make_mut(rows)?.map.take_out(&id),
            Held::One(only, _) => {
                if *only == id {
                    let map = Map::new(alloc);
                    self.held = Held::Many(Arc::new(alloc, Rows { map })?);
                }
                Ok(())
            }
        }
    }
}

impl<A: Allocator> Share for BucketRows<A> {
    fn share(&self) -> Result<BucketRows<A>, Memory> {
        let held = match &self.held {
            Held::One(id, row) => Held::One(*id, row.share()?),
            Held::Many(rows) => Held::Many(Arc::try_clone(rows)?),
        };
        Ok(BucketRows { held })
    }
}
