//! Terms with their variables renamed apart, and the greatest variable of some.
ghost use Rattle.std.specs.Prelude.{◌≡◌, ◌+◌, ◌<◌, ◌^◌, IfOk, max};
ghost use Rattle.chr_semantics.specs.Bounds.{AreBelow, IsBelow};
ghost use Rattle.chr_semantics.specs.Mgu.{vars, vars_of_all};
ghost use Rattle.chr_semantics.specs.Subst.{instance};
ghost use Rattle.chr_semantics.specs.Tree.{var};
ghost use Rattle.chr_semantics.specs.Verdict.{past, renamed as renamed_trees, row_vars};
ghost use Rattle.chr_semantics.specs.declared.limits.TheConstants.{MAX_RULE_VARIABLES};
ghost use Rattle.chr_term.specs.TermView.{trees_view, view};
ghost use Rattle.chr_look.specs.Variables.{past_by};
ghost use Rattle.chr_look.specs.VerdictView.{rows_view};

use crate::Memory;
use crate::constraint::Constraint;
use chr_semantics::limits::MAX_RULE_VARIABLES;
use chr_term::{Args, Term};
use std::alloc::Allocator;

/// The term of a rule with its variables renamed apart from those below n.
#[cycle(rename)]
fn rename<A: Allocator + Copy>(alloc: A, n: u64, term: &Term<A>) -> Result<Term<A>, Memory>
    requires below { IsBelow MAX_RULE_VARIABLES (view term.now) }
    requires few { n < 2 ^ 63 }
    ensures { IfOk result (λ renamed. view renamed ≡ instance (λ x. var (n + x)) (view term.now)) }
{
    match term {
        Term::Var(x) => Ok(Term::Var(n + x)),
        Term::Int(number) => Ok(Term::Int(*number)),
        Term::Node(sym, args) => Ok(Term::Node(
            *sym,
            Args::new(alloc, rename_all(alloc, n, args.as_slice())?)?,
        )),
    }
}

/// The same of terms.
#[cycle(rename)]
pub(crate) fn rename_all<A: Allocator + Copy>(
    alloc: A,
    n: u64,
    terms: &[Term<A>],
) -> Result<Vec<Term<A>, A>, Memory>
    requires below { AreBelow MAX_RULE_VARIABLES (trees_view terms.now) }
    requires few { n < 2 ^ 63 }
    ensures { IfOk result (λ renamed. trees_view renamed.items ≡ renamed_trees n (trees_view terms.now)) }
{
    let mut items = Vec::with_capacity(alloc, terms.len())?;
    for term in terms {
        items.push(rename(alloc, n, term)?)?;
    }
    Ok(items)
}

/// The greater one, where there are two.
fn greater(left: Option<u64>, right: Option<u64>) -> Option<u64>
    ensures { past_by result ≡ max (past_by left) (past_by right) }
{
    match (left, right) {
        (None, _) => right,
        (Some(_), None) => left,
        (Some(x), Some(y)) => { if x < y { right } else { left } }
    }
}

/// The greatest variable of the term, if it has one.
#[cycle(greatest)]
fn greatest<A: Allocator>(term: &Term<A>) -> Option<u64>
    ensures { past_by result ≡ past (vars (view term.now)) }
{
    match term {
        Term::Var(x) => Some(*x),
        Term::Int(_) => None,
        Term::Node(_, args) => greatest_of(args.as_slice()),
    }
}

/// The same of terms.
#[tactic(auto, using(crate::proofs::Variables::past_append))]
#[cycle(greatest)]
fn greatest_of<A: Allocator>(terms: &[Term<A>]) -> Option<u64>
    ensures { past_by result ≡ past (vars_of_all (trees_view terms.now)) }
{
    match terms.split_first() {
        None => None,
        Some((term, terms)) => greater(greatest(term), greatest_of(terms)),
    }
}

/// The greatest variable of constraints, if they have one.
#[tactic(auto, using(crate::proofs::Variables::past_append))]
pub(crate) fn greatest_in<A: Allocator>(constraints: &[Constraint<A>]) -> Option<u64>
    ensures { past_by result ≡ past (row_vars (rows_view constraints.now)) }
{
    match constraints.split_first() {
        None => None,
        Some((constraint, constraints)) => {
            let greatest = greatest_of(constraint.args.as_slice());
            greater(greatest, greatest_in(constraints))
        }
    }
}
