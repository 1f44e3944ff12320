//! Constraints of a table with their identities.
ghost use Rattle.std.specs.Prelude.{◌≡◌, ◌++◌, ◌∷◌, [], OnOk};
ghost use Rattle.chr_store.specs.Rows.{row_atom};
ghost use Rattle.chr_find.specs.IdRows.{id_rows};
ghost use Rattle.chr_find.specs.Rebinding.{standing_rows};
ghost use Rattle.chr_find.specs.RowSpans.{span_rows};

use crate::Memory;
use crate::bucket_rows::RowSpan;
use chr_map::{Share, Span};
use chr_store::{Id, Row};
use std::alloc::Allocator;

/// A row with its identity.
#[derive(Drop)]
pub(crate) struct Constraint<A: Allocator> {
    pub(crate) id: Id,
    pub(crate) row: Row<A>,
}

/// Adds a row.
fn collect_row<A: Allocator + Copy>(
    id: Id,
    row: &Row<A>,
    rows: &mut Vec<Constraint<A>, A>,
) -> Result<(), Memory>
    ensures { OnOk result (standing_rows rows.new.items
        ≡ standing_rows rows.old.items ++ (id.0, row_atom row.now) ∷ []) }
{
    rows.push(Constraint {
        id,
        row: row.share()?,
    })?;
    Ok(())
}

/// Adds the rows of a map's span.
fn collect_span<A: Allocator + Copy>(
    span: &Span<'_, Id, Row<A>, A>,
    rows: &mut Vec<Constraint<A>, A>,
) -> Result<(), Memory>
    ensures { OnOk result (standing_rows rows.new.items ≡ standing_rows rows.old.items ++ id_rows span.now) }
{
    match span.middle() {
        None => Ok(()),
        Some(middle) => {
            collect_span(&middle.before, rows)?;
            collect_row(*middle.key, middle.value, rows)?;
            collect_span(&middle.after, rows)
        }
    }
}

/// Adds rows that stand next to each other.
pub(crate) fn collect<A: Allocator + Copy>(
    span: RowSpan<'_, A>,
    rows: &mut Vec<Constraint<A>, A>,
) -> Result<(), Memory>
    ensures { OnOk result (standing_rows rows.new.items ≡ standing_rows rows.old.items ++ span_rows span.entry) }
{
    match span {
        RowSpan::Empty => Ok(()),
        RowSpan::One(id, row) => collect_row(id, row, rows),
        RowSpan::Many(span) => collect_span(&span, rows),
    }
}
