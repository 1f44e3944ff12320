//! From which head on a search need not look for new constraints.
ghost use Rattle.std.specs.Prelude.{◌≡◌, ◌<◌, Some, false, slice_get, vec_len};
ghost use Rattle.chr_rules.specs.RuleView.{rule_view};
ghost use Rattle.chr_semantics.specs.Program.{Head};
ghost use Rattle.chr_find.specs.IdRows.{id_rows};
ghost use Rattle.chr_find.specs.Joins.{IsQuiet, IsQuietAt};
ghost use Rattle.chr_find.specs.PlanView.{lookups_of};
ghost use Rattle.chr_find.specs.RowSpans.{span_rows};
ghost use Rattle.chr_find.specs.Shown.{ForRows, any_new};

use crate::bucket::Bucket;
use crate::bucket_rows::RowSpan;
use crate::index::Index;
use crate::plan::Plan;
use chr_map::Span;
use chr_rules::Rule;
use chr_store::{Id, Row};
use std::alloc::Allocator;

/// Whether a row of a map's span has an identity that is not below `from`.
fn has_new_in<A: Allocator + Copy>(span: Span<'_, Id, Row<A>, A>, from: u64) -> bool
    ensures { result ≡ any_new from (id_rows span.entry) }
{
    let mut left = span;
    while let Some(middle) = left.middle() {
        if middle.key.0 >= from {
            return true;
        }
        left = middle.after;
    }
    false
}

/// Whether one of some rows has an identity that is not below `from`.
pub(crate) fn has_new<A: Allocator + Copy>(rows: RowSpan<'_, A>, from: u64) -> bool
    ensures { result ≡ any_new from (span_rows rows.entry) }
{
    match rows {
        RowSpan::Empty => false,
        RowSpan::One(id, _) => id.0 >= from,
        RowSpan::Many(span) => has_new_in(span, from),
    }
}

/// Whether a constraint for the head at a level may be new.
fn is_new_at<A: Allocator + Copy>(
    plan: &Plan<A>,
    rows: &Index<A>,
    rule: &Rule<A>,
    place: usize,
    own: u64,
    from: u64,
    level: usize,
) -> bool
    requires { level < vec_len rule.now.heads }
    ensures { result ≡ false → ForRows (lookups_of plan.now) rows.now
        (λ shown. (x : Head) → slice_get (rule_view rule.now).heads level ≡ Some x →
        IsQuietAt shown place own from level x) }
{
    if level == place {
        return own >= from;
    }
    let sym = rule.heads[level].0;
    if !plan.has_by_symbol(sym) {
        return true;
    }
    has_new(rows.rows(&Bucket::Symbol(sym)), from)
}

/// A number of heads after which no constraint for a head is new.
pub(crate) fn quiet_from<A: Allocator + Copy>(
    plan: &Plan<A>,
    rows: &Index<A>,
    rule: &Rule<A>,
    place: usize,
    own: u64,
    from: u64,
) -> usize
    ensures { ForRows (lookups_of plan.now) rows.now
        (λ shown. IsQuiet shown (rule_view rule.now).heads place own from result) }
{
    // The heads up to the first one with a partner are not asked for.
    let asked = if place == 0 { 2 } else { 1 };
    let mut quiet = rule.heads.len();
    while quiet > asked && !is_new_at(plan, rows, rule, place, own, from, quiet - 1) {
        quiet -= 1;
    }
    quiet
}
