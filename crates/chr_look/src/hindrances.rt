//! What stands in the way of a firing before terms are looked at, and what a unifier binds.
ghost use Rattle.std.specs.Prelude.{◌≡◌, ◌<◌, ◌+◌, ◌^◌, ℕ, Bool, List, find, length, option_map};
ghost use Rattle.chr_semantics.specs.Mgu.{vars, vars_of_all};
ghost use Rattle.chr_semantics.specs.Search.{has_number};
ghost use Rattle.chr_semantics.specs.State.{State};
ghost use Rattle.chr_semantics.specs.Subst.{IsSolved, binds_var};
ghost use Rattle.chr_semantics.specs.Verdict.{first_absent, first_bound, first_of_another, first_repeated};
ghost use Rattle.chr_term.specs.TermView.{trees_view, view};
ghost use Rattle.chr_store.specs.Numbers.{numbers};
ghost use Rattle.chr_store.specs.StoreView.{store_view};
ghost use Rattle.chr_rules.specs.RuleView.{heads_from};
ghost use Rattle.chr_look.specs.VerdictView.{rows_view, verdict_view};

use crate::constraint::Constraint;
use crate::verdict::Verdict;
use chr_bind::Bindings;
use chr_store::{Id, Store};
use chr_term::{Sym, Term};
use std::alloc::Allocator;

/// The first identity whose constraint does not live, with why.
pub(crate) fn absence<A: Allocator + Copy>(store: &Store<A>, ids: &[Id]) -> Option<Verdict<A>>
    ensures { (s : State) → s.store ≡ (store_view store.now).rows →
        s.next_id ≡ (store_view store.now).next_id →
        option_map verdict_view result ≡ first_absent s (numbers ids.now) }
{
    match ids.split_first() {
        None => None,
        Some((id, ids)) => {
            if store.alive(*id) {
                absence(store, ids)
            } else if id.0 < store.next().0 {
                Some(Verdict::Removed(*id))
            } else {
                Some(Verdict::NotYetThere(*id))
            }
        }
    }
}

/// Whether an identity is among others.
pub(crate) fn is_among(id: Id, ids: &[Id]) -> bool
    ensures { result ≡ has_number (numbers ids.now) id.0 }
{
    match ids.split_first() {
        None => false,
        Some((other, ids)) => id.0 == other.0 || is_among(id, ids),
    }
}

/// The first identity that stands for a later head too.
pub(crate) fn repetition<A: Allocator>(ids: &[Id]) -> Option<Verdict<A>>
    ensures { option_map verdict_view result ≡ first_repeated (numbers ids.now) }
{
    match ids.split_first() {
        None => None,
        Some((id, ids)) => {
            if is_among(*id, ids) {
                Some(Verdict::Twice(*id))
            } else {
                repetition(ids)
            }
        }
    }
}

/// The first head, counted from k, whose constraint has another symbol.
pub(crate) fn other_symbol<A: Allocator>(
    k: usize,
    heads: &[(Sym, Vec<Term<A>, A>)],
    constraints: &[Constraint<A>],
) -> Option<Verdict<A>>
    requires { k + length heads.now < 2 ^ 64 }
    ensures { (flags : List Bool) (j : ℕ) → option_map verdict_view result
        ≡ first_of_another k (heads_from flags j heads.now) (rows_view constraints.now) }
{
    match (heads.split_first(), constraints.split_first()) {
        (None, _) => None,
        (Some(_), None) => None,
        (Some((head, heads)), Some((constraint, constraints))) => {
            if head.0 == constraint.sym {
                other_symbol(k + 1, heads, constraints)
            } else {
                Some(Verdict::OtherSymbol(k))
            }
        }
    }
}

/// The first variable of the term that is bound.
#[cycle(bound)]
fn bound<A: Allocator + Copy>(bindings: &Bindings<A>, term: &Term<A>) -> Option<u64>
    requires { IsSolved bindings.now.subst }
    ensures { result ≡ find (binds_var bindings.now.subst) (vars (view term.now)) }
{
    match term {
        Term::Var(x) => {
            if bindings.resolves_to(term, term) {
                None
            } else {
                Some(*x)
            }
        }
        Term::Int(_) => None,
        Term::Node(_, args) => bound_of(bindings, args.as_slice()),
    }
}

/// The same of terms.
#[tactic(auto, using(crate::proofs::Variables::find_append))]
#[cycle(bound)]
fn bound_of<A: Allocator + Copy>(bindings: &Bindings<A>, terms: &[Term<A>]) -> Option<u64>
    requires { IsSolved bindings.now.subst }
    ensures { result ≡ find (binds_var bindings.now.subst) (vars_of_all (trees_view terms.now)) }
{
    match terms.split_first() {
        None => None,
        Some((term, terms)) => match bound(bindings, term) {
            Some(x) => Some(x),
            None => bound_of(bindings, terms),
        },
    }
}

/// The first constraint, counted from k, with a variable that is bound.
pub(crate) fn waiting<A: Allocator + Copy>(
    bindings: &Bindings<A>,
    k: usize,
    constraints: &[Constraint<A>],
) -> Option<Verdict<A>>
    requires solved { IsSolved bindings.now.subst }
    requires few { k + length constraints.now < 2 ^ 64 }
    ensures { option_map verdict_view result
        ≡ first_bound bindings.now.subst k (rows_view constraints.now) }
{
    match constraints.split_first() {
        None => None,
        Some((constraint, constraints)) => match bound_of(bindings, constraint.args.as_slice()) {
            Some(x) => Some(Verdict::Waits(k, x)),
            None => waiting(bindings, k + 1, constraints),
        },
    }
}
