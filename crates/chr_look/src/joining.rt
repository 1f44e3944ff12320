//! Terms made equal, or where they part.
ghost use Rattle.std.specs.Prelude.{◌≡◌, ◌<◌, ◌≤◌, ◌+◌, ◌^◌, ℕ, Bool, List, IfOk, length};
ghost use Rattle.chr_semantics.specs.Bounds.{AreBelow, IsBelow};
ghost use Rattle.chr_semantics.specs.Subst.{apply};
ghost use Rattle.chr_semantics.specs.Verdict.{join_arguments as arguments_joined, join_rows as rows_joined, join_terms as terms_joined};
ghost use Rattle.chr_semantics.specs.declared.limits.TheConstants.{MAX_RULE_VARIABLES};
ghost use Rattle.chr_term.specs.TermView.{trees_view, view};
ghost use Rattle.chr_rules.specs.RuleView.{heads_from};
ghost use Rattle.chr_look.specs.Joinings.{Joins, PartsAlone, Unifies};
ghost use Rattle.chr_look.specs.Matches.{AreHeadsBelow, AreRowsBelow};
ghost use Rattle.chr_look.specs.VerdictView.{rows_view};

use crate::Memory;
use crate::constraint::Constraint;
use crate::renaming::rename_all;
use chr_bind::{Bindings, Unified};
use chr_term::{Sym, Term, copy};
use std::alloc::{Allocator, Global};

/// Both terms of a place where two terms part.
#[derive(Drop)]
pub struct Parting<A: Allocator = Global> {
    pub left: Term<A>,
    pub right: Term<A>,
}

impl<A: Allocator + Copy> Parting<A> {
    /// These, with what is bound put in.
    fn under(bindings: &Bindings<A>, left: &Term<A>, right: &Term<A>) -> Result<Parting<A>, Memory>
        ensures left { IfOk result
            (λ parting. view parting.left ≡ apply bindings.now.subst (view left.now)) }
        ensures right { IfOk result
            (λ parting. view parting.right ≡ apply bindings.now.subst (view right.now)) }
    {
        Ok(Parting {
            left: bindings.resolve(left)?,
            right: bindings.resolve(right)?,
        })
    }
}

/// Binds what makes the terms equal, by unification. Where nothing does, they part here.
fn unify<A: Allocator + Copy>(
    bindings: &mut Bindings<A>,
    left: &Term<A>,
    right: &Term<A>,
) -> Result<Option<Parting<A>>, Memory>
    requires left { IsBelow bindings.old.len (view left.now) }
    requires right { IsBelow bindings.old.len (view right.now) }
    ensures joins { IfOk result
        (Unifies (view left.now) (view right.now) bindings.old.subst bindings.new.subst) }
    ensures len { bindings.new.len ≡ bindings.old.len }
{
    match bindings.unify(left, right)? {
        Unified::Same => Ok(None),
        Unified::Bound => Ok(None),
        Unified::Clash => Ok(Some(Parting::under(bindings, left, right)?)),
    }
}

/// Binds what makes the terms equal, a variable at a time. Where nothing does, the answer is where they part, and the way goes on to there by
/// numbers of arguments from 1.
#[cycle(join)]
pub(crate) fn join_terms<A: Allocator + Copy>(
    bindings: &mut Bindings<A>,
    way: &mut Vec<usize, A>,
    left: &Term<A>,
    right: &Term<A>,
) -> Result<Option<Parting<A>>, Memory>
    requires left { IsBelow bindings.old.len (view left.now) }
    requires right { IsBelow bindings.old.len (view right.now) }
    ensures joins { IfOk result
        (Joins (terms_joined bindings.old.subst (view left.now) (view right.now))
        bindings.new.subst way.old.items way.new.items) }
    ensures len { bindings.new.len ≡ bindings.old.len }
{
    match (left, right) {
        (Term::Node(f, lefts), Term::Node(g, rights)) => {
            if *f == *g {
                join_arguments(bindings, way, 1, lefts.as_slice(), rights.as_slice())
            } else {
                Ok(Some(Parting::under(bindings, left, right)?))
            }
        }
        (Term::Node(_, _), Term::Int(_)) => Ok(Some(Parting::under(bindings, left, right)?)),
        (_, _) => unify(bindings, left, right),
    }
}

/// The same of arguments, of which the first one has the number k. Where one list is shorter, they part at the first argument that has none
/// beside it.
#[cycle(join)]
pub(crate) fn join_arguments<A: Allocator + Copy>(
    bindings: &mut Bindings<A>,
    way: &mut Vec<usize, A>,
    k: usize,
    lefts: &[Term<A>],
    rights: &[Term<A>],
) -> Result<Option<Parting<A>>, Memory>
    requires lefts { AreBelow bindings.old.len (trees_view lefts.now) }
    requires rights { AreBelow bindings.old.len (trees_view rights.now) }
    requires few { k + length lefts.now < 2 ^ 64 }
    ensures joins { IfOk result
        (Joins (arguments_joined bindings.old.subst k (trees_view lefts.now) (trees_view rights.now))
        bindings.new.subst way.old.items way.new.items) }
    ensures len { bindings.new.len ≡ bindings.old.len }
{
    match (lefts.split_first(), rights.split_first()) {
        (None, None) => Ok(None),
        (Some((term, _)), None) => part_alone(way, k, term),
        (None, Some((term, _))) => part_alone(way, k, term),
        (Some((left, lefts)), Some((right, rights))) => {
            way.push(k)?;
            if let Some(parting) = join_terms(bindings, way, left, right)? {
                return Ok(Some(parting));
            }
            let _number = way.pop();
            join_arguments(bindings, way, k + 1, lefts, rights)
        }
    }
}

/// They part at an argument that has none beside it.
fn part_alone<A: Allocator + Copy>(
    way: &mut Vec<usize, A>,
    k: usize,
    term: &Term<A>,
) -> Result<Option<Parting<A>>, Memory>
    ensures { IfOk result (PartsAlone k (view term.now) way.old.items way.new.items) }
{
    way.push(k)?;
    Ok(Some(Parting {
        left: copy(term)?,
        right: copy(term)?,
    }))
}

/// Makes heads, renamed apart from the variables below n, equal to constraints, of which the first one has the number k. Where nothing does,
/// the way begins with the number of a head.
pub(crate) fn join_heads<A: Allocator + Copy>(
    alloc: A,
    bindings: &mut Bindings<A>,
    way: &mut Vec<usize, A>,
    n: u64,
    k: usize,
    heads: &[(Sym, Vec<Term<A>, A>)],
    constraints: &[Constraint<A>],
) -> Result<Option<Parting<A>>, Memory>
    requires heads { AreHeadsBelow MAX_RULE_VARIABLES heads.now }
    requires constraints { AreRowsBelow n (rows_view constraints.now) }
    requires room { n + MAX_RULE_VARIABLES ≤ bindings.old.len }
    requires small { n < 2 ^ 63 }
    requires few { k + length heads.now < 2 ^ 64 }
    ensures joins { IfOk result (λ parting. (flags : List Bool) (j : ℕ) →
        Joins (rows_joined bindings.old.subst n k (heads_from flags j heads.now) (rows_view constraints.now))
        bindings.new.subst way.old.items way.new.items parting) }
    ensures len { bindings.new.len ≡ bindings.old.len }
{
    match (heads.split_first(), constraints.split_first()) {
        (None, _) => Ok(None),
        (Some(_), None) => Ok(None),
        (Some((head, heads)), Some((constraint, constraints))) => {
            let args = rename_all(alloc, n, head.1.as_slice())?;
            way.push(k)?;
            let others = constraint.args.as_slice();
            if let Some(parting) = join_arguments(bindings, way, 1, args.as_slice(), others)? {
                return Ok(Some(parting));
            }
            let _number = way.pop();
            join_heads(alloc, bindings, way, n, k + 1, heads, constraints)
        }
    }
}
