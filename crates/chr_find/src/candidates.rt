//! Which rows are candidates for a head, and which of them fit.
ghost use Rattle.std.specs.Prelude.{◌≡◌, ◌∷◌, IfSome};
ghost use Rattle.chr_bind.specs.Matching.{AgreesWith, Keeps};
ghost use Rattle.chr_semantics.specs.Bounds.{AreBelow};
ghost use Rattle.chr_semantics.specs.Keys.{pattern_root};
ghost use Rattle.chr_semantics.specs.Search.{has_number};
ghost use Rattle.chr_semantics.specs.Subst.{Subst};
ghost use Rattle.chr_store.specs.Numbers.{numbers};
ghost use Rattle.chr_store.specs.Rows.{row_atom};
ghost use Rattle.chr_term.specs.TermView.{atom_view, trees_view, view};
ghost use Rattle.chr_find.specs.Enough.{FitsHead, IsEnough, IsEnoughBy, IsOneOf, StaysEnough, TakesAs};
ghost use Rattle.chr_find.specs.PlanView.{lookups_of};
ghost use Rattle.chr_find.specs.RootView.{roots_view};

use crate::bucket::Bucket;
use crate::index::Index;
use crate::plan::{Lookup, Plan};
use crate::root::Root;
use chr_bind::{Match, fit_or_spoil};
use chr_semantics::limits::MAX_RULE_VARIABLES;
use chr_store::{HeadIds, Id, Row};
use chr_term::{Sym, Term};
use std::alloc::Allocator;

/// The root that a pattern asks for under the match.
fn root_under<A: Allocator>(pattern: &Term<A>, matching: &Match<'_, A>) -> Option<Root>
    ensures { (m : Subst) → AgreesWith matching.now m →
        roots_view result ≡ pattern_root m (view pattern.now) }
{
    match pattern {
        Term::Var(x) => match matching.get(*x) {
            None => None,
            Some(term) => Some(Root::of(term)),
        },
        Term::Int(z) => Some(Root::Int(*z)),
        Term::Node(sym, _) => Some(Root::Name(*sym)),
    }
}

/// The bucket by the position, if the head asks for a root there under the match.
fn bucket_at<A: Allocator>(
    sym: Sym,
    position: u8,
    args: &[Term<A>],
    matching: &Match<'_, A>,
) -> Option<Bucket>
    ensures { IfSome result
        (IsEnoughBy matching.now (atom_view sym args.now) (Lookup.Position position)) }
{
    let pattern = match args.get(position as usize) {
        None => return None,
        Some(pattern) => pattern,
    };
    match root_under(pattern, matching) {
        None => None,
        Some(root) => Some(Bucket::At(sym, position, root)),
    }
}

/// The bucket by the lookup, if the head asks for it under the match.
fn bucket_by<A: Allocator>(
    sym: Sym,
    lookup: Lookup,
    args: &[Term<A>],
    matching: &Match<'_, A>,
) -> Option<Bucket>
    ensures { IfSome result (IsEnoughBy matching.now (atom_view sym args.now) lookup) }
{
    match lookup {
        Lookup::Position(position) => bucket_at(sym, position, args, matching),
        Lookup::Symbol => Some(Bucket::Symbol(sym)),
    }
}

/// The shorter of two buckets that are enough. One by a root is shorter than others, which are not counted, and one of all rows is the
/// longest. Where the first has one row at the most, the other is not counted either.
fn shorter<A: Allocator + Copy>(rows: &Index<A>, one: Bucket, other: Bucket) -> Bucket
    ensures { IsOneOf one other result }
{
    match (one, other) {
        (Bucket::At(_, _, _), Bucket::At(_, _, _)) => {
            let length = rows.weight(&one);
            if length <= 1 || length <= rows.weight(&other) {
                one
            } else {
                other
            }
        }
        (Bucket::At(_, _, _), _) => one,
        _ => other,
    }
}

/// The bucket by the lookup, if the head asks for it under the match, and it is shorter.
fn shorter_by<A: Allocator + Copy>(
    rows: &Index<A>,
    best: Bucket,
    sym: Sym,
    lookup: Lookup,
    args: &[Term<A>],
    matching: &Match<'_, A>,
) -> Bucket
    ensures { StaysEnough matching.now (atom_view sym args.now) lookup best result }
{
    match bucket_by(sym, lookup, args, matching) {
        None => best,
        Some(bucket) => shorter(rows, best, bucket),
    }
}

/// A bucket with all rows that may fit the head: by the first lookup that the head asks for under the match. None is counted.
pub(crate) fn some_bucket_for<A: Allocator + Copy>(
    plan: &Plan<A>,
    sym: Sym,
    args: &[Term<A>],
    matching: &Match<'_, A>,
) -> Bucket
    ensures { (m : Subst) → AgreesWith matching.now m →
        IsEnough (lookups_of plan.now) (atom_view sym args.now) m result }
{
    for lookup in plan.lookups(sym) {
        if let Some(bucket) = bucket_by(sym, *lookup, args, matching) {
            return bucket;
        }
    }
    Bucket::All
}

/// The bucket to look at for a head: the shortest of those by a lookup that the head asks for under the match.
pub(crate) fn bucket_for<A: Allocator + Copy>(
    plan: &Plan<A>,
    rows: &Index<A>,
    sym: Sym,
    args: &[Term<A>],
    matching: &Match<'_, A>,
) -> Bucket
    ensures { (m : Subst) → AgreesWith matching.now m →
        IsEnough (lookups_of plan.now) (atom_view sym args.now) m result }
{
    let mut best = Bucket::All;
    for lookup in plan.lookups(sym) {
        best = shorter_by(rows, best, sym, *lookup, args, matching);
    }
    best
}

/// Whether an identity is among these.
fn is_among(ids: &[Id], id: Id) -> bool
    ensures { result ≡ has_number (numbers ids.now) id.0 }
{
    for other in ids {
        if id == *other {
            return true;
        }
    }
    false
}

/// Extends the match by a row that fits the head. Where it does not, some variables more may be matched.
pub(crate) fn fits<'a, A: Allocator + Copy>(
    head: &(Sym, Vec<Term<A>, A>),
    row: &'a Row<A>,
    matching: &mut Match<'a, A>,
) -> bool
    requires { AreBelow MAX_RULE_VARIABLES (trees_view head.now.1.items) }
    ensures fits { FitsHead result (atom_view head.now.0 head.now.1.items)
        (row_atom row.now) matching.old matching.new }
    ensures kept { Keeps matching.old matching.new }
{
    let (sym, args) = head;
    if *sym == row.sym {
        fit_or_spoil(args.as_slice(), row.args.as_slice(), matching)
    } else {
        false
    }
}

/// Extends the match by a row that was not used and fits the head. Where it is not taken, some variables more may be matched. The own
/// constraint is used.
pub(crate) fn takes<'a, A: Allocator + Copy>(
    own: Id,
    used: &HeadIds,
    head: &(Sym, Vec<Term<A>, A>),
    id: Id,
    row: &'a Row<A>,
    matching: &mut Match<'a, A>,
) -> bool
    requires { AreBelow MAX_RULE_VARIABLES (trees_view head.now.1.items) }
    ensures takes { TakesAs result (own.0 ∷ used.now) (atom_view head.now.0 head.now.1.items)
        (id.0, row_atom row.now) matching.old matching.new }
    ensures kept { Keeps matching.old matching.new }
{
    if id == own || is_among(used.as_slice(), id) {
        return false;
    }
    fits(head, row, matching)
}
