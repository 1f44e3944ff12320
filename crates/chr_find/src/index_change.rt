//! Changes of an index.
ghost use Rattle.std.specs.Prelude.{◌≡◌, OnErr, OnOk};
ghost use Rattle.chr_find.specs.IndexChangeView.{changed_at, rows_after};
ghost use Rattle.chr_find.specs.IndexKeys.{AreKept, IndexKey, held};
ghost use Rattle.chr_find.specs.PlanView.{lookups_of};

use crate::Memory;
use crate::index::{Change, Index};
use crate::plan::Plan;
use std::alloc::Allocator;

/// A change of a table.
#[derive(Drop)]
pub(crate) enum IndexChange<A: Allocator> {
    Changed(Change<A>),
    /// A row is taken out, and another put in its place.
    Replaced(Change<A>, Change<A>),
}

/// Makes a change of the rows.
fn make<A: Allocator + Copy>(
    change: &Change<A>,
    plan: &Plan<A>,
    rows: &mut Index<A>,
) -> Result<(), Memory>
    ensures ok { OnOk result ((q : IndexKey) → held rows.new q
        ≡ changed_at plan.now change.now (held rows.old) q) }
    ensures err { OnErr result (AreKept (lookups_of plan.now change.now.row.sym.0) change.now.id.0
        change.now.row rows.new rows.old) }
{
    change.make(rows, plan.lookups(change.row.sym))
}

impl<A: Allocator + Copy> IndexChange<A> {
    /// Makes what is noted. Where that is refused, it can be made again, and comes to the same.
    pub(crate) fn make(&self, plan: &Plan<A>, rows: &mut Index<A>) -> Result<(), Memory>
        ensures ok { OnOk result ((q : IndexKey) → held rows.new q
            ≡ rows_after plan.now self.now (held rows.old) q) }
        ensures again { OnErr result ((q : IndexKey) → rows_after plan.now self.now (held rows.new) q
            ≡ rows_after plan.now self.now (held rows.old) q) }
    {
        match self {
            IndexChange::Replaced(out, into) => {
                make(out, plan, rows)?;
                make(into, plan, rows)
            }
            IndexChange::Changed(change) => make(change, plan, rows),
        }
    }
}
