//! Constraints whose variables were bound.
ghost use Rattle.std.specs.Prelude.{◌≡◌, ◌<◌, ◌+◌, ◌&&◌, ℕ, cond, nat_lt};
ghost use Rattle.chr_semantics.specs.Search.{atom_of};
ghost use Rattle.chr_semantics.specs.Subst.{instances, value_at};
ghost use Rattle.chr_semantics.specs.Tree.{is_ground_trees};
ghost use Rattle.chr_term.specs.TermView.{trees_view};
ghost use Rattle.chr_store.specs.Counts.{AreStamped, count_at, has_stamp, last_at};
ghost use Rattle.chr_store.specs.SlotsView.{rows_in};
ghost use Rattle.chr_store.specs.Waking.{has_symbol, has_symbol_among, wakes_row};

use crate::id::Id;
use crate::row::Row;
use crate::slots::Slots;
use crate::stamps::Stamps;
use chr_bind::Bindings;
use chr_term::Term;
use std::alloc::Allocator;

/// Whether there is a constraint, and it is not ground under the bindings.
pub(crate) fn wakes<A: Allocator>(row: Option<&Row<A>>, bindings: &Bindings<A>) -> bool
    ensures { result ≡ wakes_row bindings.now.subst row.entry }
{
    match row {
        Some(row) => !are_ground_under(bindings, row.args.as_slice()),
        None => false,
    }
}

/// Whether all terms stand for ones with no variable.
fn are_ground_under<A: Allocator>(bindings: &Bindings<A>, terms: &[Term<A>]) -> bool
    ensures { result ≡ is_ground_trees (instances (value_at bindings.now.subst) (trees_view terms.now)) }
{
    for term in terms {
        if !bindings.ground(term) {
            return false;
        }
    }
    true
}

/// Raises the stamps of these constraints' symbols for a call, each once.
pub(crate) fn raise_all<A: Allocator>(
    slots: &Slots<A>,
    stamps: &mut Stamps<A>,
    ids: &[Id],
    call: u64,
)
    requires earlier { (n : ℕ) → last_at stamps.old.stamps.items n < call }
    requires stamped { AreStamped stamps.old.stamps.items (rows_in slots.now) }
    ensures counts { (n : ℕ) → count_at stamps.new.stamps.items n ≡ count_at stamps.old.stamps.items n
        + cond (has_symbol_among (rows_in slots.now) ids.now n) 1 0 }
    ensures lasts { (n : ℕ) → last_at stamps.new.stamps.items n
        ≡ cond (has_symbol_among (rows_in slots.now) ids.now n) call
        (last_at stamps.old.stamps.items n) }
    ensures kept { (n : ℕ) → has_stamp stamps.new.stamps.items n ≡ has_stamp stamps.old.stamps.items n }
{
    for id in ids {
        raise_one(slots, stamps, *id, call);
    }
}

/// Raises the stamp of a constraint's symbol for a call, where the constraint is there and the call has not raised it yet.
fn raise_one<A: Allocator>(slots: &Slots<A>, stamps: &mut Stamps<A>, id: Id, call: u64)
    requires { AreStamped stamps.old.stamps.items (rows_in slots.now) }
    ensures counts { (n : ℕ) → count_at stamps.new.stamps.items n ≡ count_at stamps.old.stamps.items n
        + cond (has_symbol n (atom_of (rows_in slots.now) id.0)
        && nat_lt (last_at stamps.old.stamps.items n) call) 1 0 }
    ensures lasts { (n : ℕ) → last_at stamps.new.stamps.items n
        ≡ cond (has_symbol n (atom_of (rows_in slots.now) id.0)
        && nat_lt (last_at stamps.old.stamps.items n) call) call (last_at stamps.old.stamps.items n) }
    ensures kept { (n : ℕ) → has_stamp stamps.new.stamps.items n ≡ has_stamp stamps.old.stamps.items n }
{
    if let Some(row) = slots.row(id) {
        stamps.raise(u64::from(row.sym.0), call);
    }
}
