//! Whether two terms have a unifier, whatever numbers their variables have.
ghost use Rattle.std.specs.Prelude.{◌≡◌, [], IfOk, OnOk, length, is_some, ℕ};
ghost use Rattle.chr_semantics.specs.Bounds.{IsBelow};
ghost use Rattle.chr_semantics.specs.Mgu.{mgu};
ghost use Rattle.chr_term.specs.TermView.{trees_view, view};
ghost use Rattle.chr_term.specs.Extension.{IsExtension};
ghost use Rattle.chr_bind.specs.Renamed.{AreRenamed, IsNames, IsRenamed};

use crate::Memory;
use crate::bindings::{Bindings, Unified};
use chr_term::{Args, Term};
use indexmap::IndexSet;
use std::alloc::Allocator;
use std::hash::{BuildHasherDefault, FoldHasher};

/// The variables of some terms, each at the place that is its new number.
type NewNumbers<A> = IndexSet<u64, BuildHasherDefault<FoldHasher>, A>;

/// Whether terms have a unifier whose variables are numbered below a count.
fn have_unifier<A: Allocator + Copy>(
    alloc: A,
    count: usize,
    left: &Term<A>,
    right: &Term<A>,
) -> Result<bool, Memory>
    requires left { IsBelow count (view left.now) }
    requires right { IsBelow count (view right.now) }
    ensures { IfOk result (λ so. so ≡ is_some (mgu [] (view left.now) (view right.now))) }
{
    let mut bindings = Bindings::new(alloc);
    bindings.fresh(count)?;
    match bindings.unify(left, right)? {
        Unified::Same => Ok(true),
        Unified::Bound => Ok(true),
        Unified::Clash => Ok(false),
    }
}

/// Whether the terms have a unifier. The work is that of their own variables alone.
pub(crate) fn are_unifiable<A: Allocator + Copy>(
    alloc: A,
    left: &Term<A>,
    right: &Term<A>,
) -> Result<bool, Memory>
    ensures { IfOk result (λ unifiable.
        unifiable ≡ is_some (mgu [] (view left.now) (view right.now))) }
{
    let mut numbers = IndexSet::new(alloc);
    let left = renumber(alloc, &mut numbers, left)?;
    let right = renumber(alloc, &mut numbers, right)?;
    have_unifier(alloc, numbers.len(), &left, &right)
}

/// The term with its variables numbered anew.
#[cycle(renumber)]
fn renumber<A: Allocator + Copy>(
    alloc: A,
    numbers: &mut NewNumbers<A>,
    term: &Term<A>,
) -> Result<Term<A>, Memory>
    requires { IsNames numbers.old.keys }
    ensures renamed { IfOk result (λ renamed.
        IsRenamed numbers.new.keys (view renamed) (view term.now)) }
    ensures names { OnOk result (IsNames numbers.new.keys) }
    ensures extends { OnOk result (IsExtension numbers.old.keys numbers.new.keys) }
{
    match term {
        Term::Var(x) => {
            let (place, _) = numbers.insert_full(*x)?;
            Ok(Term::Var(place as u64))
        }
        Term::Int(number) => Ok(Term::Int(*number)),
        Term::Node(sym, args) => Ok(Term::Node(
            *sym,
            Args::new(alloc, renumber_all(alloc, numbers, args.as_slice())?)?,
        )),
    }
}

#[cycle(renumber)]
fn renumber_all<A: Allocator + Copy>(
    alloc: A,
    numbers: &mut NewNumbers<A>,
    terms: &[Term<A>],
) -> Result<Vec<Term<A>, A>, Memory>
    requires { IsNames numbers.old.keys }
    ensures renamed { IfOk result (λ renamed.
        AreRenamed numbers.new.keys (trees_view renamed.items) (trees_view terms.now)) }
    ensures names { OnOk result (IsNames numbers.new.keys) }
    ensures extends { OnOk result (IsExtension numbers.old.keys numbers.new.keys) }
{
    let mut items = Vec::with_capacity(alloc, terms.len())?;
    for term in terms {
        items.push(renumber(alloc, numbers, term)?)?;
    }
    Ok(items)
}
