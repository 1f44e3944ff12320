//! The walk over the constraints of a store.
ghost use Rattle.std.specs.Prelude.{◌≡◌, ◌+◌, ◌<◌, ◌^◌, length};
ghost use Rattle.std.specs.Iterator.{YieldsFirstBy, item_count};
ghost use Rattle.chr_store.specs.Rows.{rows_from};

use crate::id::Id;
use crate::row::Row;
use std::alloc::Allocator;

/// The constraints that are left of a walk, with their identities, ascending.
#[derive(Drop)]
pub struct Rows<'a, A: Allocator> {
    next: u64,
    slots: &'a [Option<Row<A>>],
    ghost few: { next + length slots.now < 2 ^ 64 },
}

impl<'a, A: Allocator> Rows<'a, A> {
    ghost use Rattle.chr_store.specs.RowsLeft.{rows_left};

    /// All constraints in these slots, of which the first has the identity 1.
    pub(crate) fn new(slots: &'a [Option<Row<A>>]) -> Rows<'a, A>
        requires { length slots.now < 2 ^ 63 }
        ensures { rows_left result ≡ rows_from 1 slots.now }
    {
        Rows { next: 1, slots }
    }
}

impl<'a, A: Allocator> Iterator for Rows<'a, A> {
    ghost use Rattle.chr_store.specs.RowsLeft.{rows_left, shown_row};

    type Item = (Id, &'a Row<A>);

    ghost next_gives = { YieldsFirstBy shown_row rows_left };

    ghost remaining = { item_count rows_left };

    fn next(&mut self) -> Option<(Id, &'a Row<A>)> {
        while let Some((slot, others)) = self.slots.split_first() {
            let id = Id(self.next);
            *self = Rows {
                next: self.next + 1,
                slots: others,
            };
            if let Some(row) = slot {
                return Some((id, row));
            }
        }
        None
    }
}
