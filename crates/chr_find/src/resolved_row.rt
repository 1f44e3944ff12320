//! What bindings make of a row.
ghost use Rattle.std.specs.Prelude.{IfOk};
ghost use Rattle.chr_store.specs.Rows.{row_atom};
ghost use Rattle.chr_find.specs.Rebinding.{IsResolved};

use crate::Memory;
use chr_bind::Bindings;
use chr_store::Row;
use std::alloc::Allocator;

/// The row with bindings applied, where they change it.
pub(crate) fn resolved<A: Allocator + Copy>(
    bindings: &Bindings<A>,
    row: &Row<A>,
) -> Result<Option<Row<A>>, Memory>
    ensures { IfOk result (IsResolved bindings.now.subst (row_atom row.now)) }
{
    match bindings.replaced_args(&row.args)? {
        None => Ok(None),
        Some(args) => Ok(Some(Row { sym: row.sym, args })),
    }
}
