//! The index: rows by their buckets.
ghost use Rattle.std.specs.Option.{option_copied};
ghost use Rattle.std.specs.Prelude.{◌≡◌, ◌≤◌, [], IfOk, None, OnErr, OnOk, cond, false, length};
ghost use Rattle.chr_map.specs.Order.{Ascends};
ghost use Rattle.chr_find.specs.IdRows.{id_cmp};
ghost use Rattle.chr_find.specs.IndexKeys.{AreKept, AreSet, AreSetAt, IndexKey, held, is_all, other_rows, row_if, rows_in, same_index_key};
ghost use Rattle.chr_find.specs.IndexSize.{index_size};
ghost use Rattle.chr_find.specs.RowSpans.{span_rows};
ghost use Rattle.chr_find.specs.Shown.{walk};

use crate::Memory;
use crate::bucket::Bucket;
use crate::bucket_rows::{BucketRows, RowSpan};
use crate::plan::Lookup;
use crate::root::Root;
use chr_map::{Edit, Map, Share};
use chr_store::{Id, Row};
use std::alloc::Allocator;

/// Rows by their buckets, each row once in each of its buckets, and in each by ascending identity.
#[derive(Drop)]
pub(crate) struct Index<A: Allocator> {
    /// The bucket of all rows.
    all: Map<Id, Row<A>, A>,
    /// Each other bucket that has rows.
    buckets: Map<Bucket, BucketRows<A>, A>,
    alloc: A,
}

impl<A: Allocator + Copy> Index<A> {
    /// No row.
    pub(crate) fn new(alloc: A) -> Index<A>
        ensures { (q : IndexKey) → held result q ≡ None }
    {
        Index {
            all: Map::new(alloc),
            buckets: Map::new(alloc),
            alloc,
        }
    }

    /// The row of an identity.
    pub(crate) fn row(&self, id: Id) -> Option<&Row<A>>
        ensures { option_copied result ≡ held self.now (record { bucket = Bucket.All; id = id }) }
    {
        self.all.get(&id)
    }

    /// The rows of a bucket.
    pub(crate) fn rows(&self, bucket: &Bucket) -> RowSpan<'_, A>
        ensures rows { span_rows result ≡ walk bucket.now self.now }
        ensures ascending { Ascends id_cmp (rows_in self.now bucket.now) }
        ensures some { length (span_rows result) ≤ index_size self.now }
    {
        match bucket {
            Bucket::All => RowSpan::Many(self.all.entries()),
            _ => match self.buckets.get(bucket) {
                None => RowSpan::Empty,
                Some(rows) => rows.span(),
            },
        }
    }

    /// How many rows a bucket has, as maps count them. Nothing is promised of it: it is for choosing the shorter bucket.
    pub(crate) fn weight(&self, bucket: &Bucket) -> u64 {
        match bucket {
            Bucket::All => self.all.entries().weight(),
            _ => match self.buckets.get(bucket) {
                None => 0,
                Some(rows) => rows.weight(),
            },
        }
    }

    /// The rows a second time, at the price of some pointers.
    pub(crate) fn share(&self) -> Result<Index<A>, Memory>
        ensures { IfOk result (λ shared. shared ≡ self.now) }
    {
        Ok(Index {
            all: self.all.share()?,
            buckets: self.buckets.share()?,
            alloc: self.alloc,
        })
    }
}

/// A row that is put into its buckets, or taken out of them.
#[derive(Drop)]
pub(crate) struct Change<A: Allocator> {
    pub(crate) id: Id,
    pub(crate) row: Row<A>,
    pub(crate) is_there: bool,
}

/// A change of the rows of a bucket.
#[derive(Drop)]
struct Within<'c, A: Allocator> {
    change: &'c Change<A>,
    alloc: A,
}

impl<'c, A: Allocator + Copy> Edit<BucketRows<A>> for Within<'c, A> {
    ghost use Rattle.chr_find.specs.ChangeView.{rows_changed};

    ghost edited = { λ within rows. rows_changed within.change.now rows };

    fn edit(&self, rows: &mut BucketRows<A>) -> Result<(), Memory> {
        let change = self.change;
        if change.is_there {
            rows.put(self.alloc, change.id, change.row.share()?)
        } else {
            rows.take_out(self.alloc, change.id)
        }
    }
}

impl<A: Allocator + Copy> Change<A> {
    /// Makes the change in the bucket of all rows.
    fn set_all(&self, index: &mut Index<A>) -> Result<(), Memory>
        ensures ok { OnOk result ((q : IndexKey) → held index.new q
            ≡ cond (same_index_key q (record { bucket = Bucket.All; id = self.now.id }))
            (row_if self.now.is_there self.now.row) (held index.old q)) }
        ensures err { OnErr result (index.new ≡ index.old) }
    {
        if self.is_there {
            index.all.put(self.id, self.row.share()?)
        } else {
            index.all.take_out(&self.id)
        }
    }

    /// Makes the change in a bucket that has no rows.
    fn begin(&self, index: &mut Index<A>, bucket: Bucket) -> Result<(), Memory>
        requires other { is_all bucket ≡ false }
        requires none { other_rows index.old bucket ≡ [] }
        ensures ok { OnOk result ((q : IndexKey) → held index.new q
            ≡ cond (same_index_key q (record { bucket = bucket; id = self.now.id }))
            (row_if self.now.is_there self.now.row) (held index.old q)) }
        ensures err { OnErr result (index.new ≡ index.old) }
    {
        if self.is_there {
            let rows = BucketRows::one(self.id, self.row.share()?);
            index.buckets.put(bucket, rows)
        } else {
            Ok(())
        }
    }

    /// Makes the change in another bucket than that of all rows. One that loses its last row goes.
    fn set(&self, index: &mut Index<A>, bucket: Bucket) -> Result<(), Memory>
        requires { is_all bucket ≡ false }
        ensures ok { OnOk result ((q : IndexKey) → held index.new q
            ≡ cond (same_index_key q (record { bucket = bucket; id = self.now.id }))
            (row_if self.now.is_there self.now.row) (held index.old q)) }
        ensures err { OnErr result (index.new ≡ index.old) }
    {
        let is_only = match index.buckets.get(&bucket) {
            None => return self.begin(index, bucket),
            Some(rows) => rows.is_only(self.id),
        };
        if is_only && !self.is_there {
            return index.buckets.take_out(&bucket);
        }
        let within = Within {
            change: self,
            alloc: index.alloc,
        };
        index.buckets.edit(&bucket, &within)
    }

    /// Makes the change in the buckets of all rows and of the rows with a variable.
    fn set_first(&self, index: &mut Index<A>) -> Result<(), Memory>
        ensures ok { OnOk result
            (AreSet [] self.now.id.0 self.now.row self.now.is_there index.new index.old) }
        ensures err { OnErr result (AreKept [] self.now.id.0 self.now.row index.new index.old) }
    {
        self.set_all(index)?;
        if self.row.args.is_ground() {
            return Ok(());
        }
        self.set(index, Bucket::Open)
    }

    /// Makes the change in the bucket by a lookup.
    fn set_at(&self, index: &mut Index<A>, lookup: Lookup) -> Result<(), Memory>
        ensures ok { OnOk result
            (AreSetAt lookup self.now.id.0 self.now.row self.now.is_there index.new index.old) }
        ensures err { OnErr result (index.new ≡ index.old) }
    {
        let row = &self.row;
        match lookup {
            Lookup::Symbol => self.set(index, Bucket::Symbol(row.sym)),
            Lookup::Position(position) => match Root::at(row.args.as_slice(), position as usize) {
                None => Ok(()),
                Some(root) => self.set(index, Bucket::At(row.sym, position, root)),
            },
        }
    }

    /// Makes the change in all buckets of the row, whose symbol has these lookups.
    pub(crate) fn make(&self, index: &mut Index<A>, lookups: &[Lookup]) -> Result<(), Memory>
        ensures ok { OnOk result
            (AreSet lookups.now self.now.id.0 self.now.row self.now.is_there index.new index.old) }
        ensures err { OnErr result
            (AreKept lookups.now self.now.id.0 self.now.row index.new index.old) }
    {
        self.set_first(index)?;
        for lookup in lookups {
            self.set_at(index, *lookup)?;
        }
        Ok(())
    }
}
