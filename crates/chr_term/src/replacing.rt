//! Terms that are replaced in lists. Where nothing replaces a term, it stays, and is shared.
ghost use Rattle.std.specs.Prelude.{◌≡◌, ◌<◌, ◌≤◌, ◌+◌, ◌++◌, ◌∷◌, [], IfOk, OnOk, length, map, take};
ghost use Rattle.chr_term.specs.Replaced.{args_by, list_by, tree_at, tree_by, trees_by};
ghost use Rattle.chr_term.specs.TermView.{trees_view, view};

use crate::Memory;
use crate::args::{Args, copy, copy_all};
use crate::term::Term;
use std::alloc::Allocator;

/// What stands in the place of a term, or the term itself, shared, where nothing does.
pub fn term_or_same<A: Allocator + Copy>(
    term: &Term<A>,
    replaced: Option<Term<A>>,
) -> Result<Term<A>, Memory>
    ensures { IfOk result (λ whole. view whole ≡ tree_by (view term.now) replaced) }
{
    match replaced {
        None => copy(term),
        Some(whole) => Ok(whole),
    }
}

/// What stands in the place of arguments, or these themselves, shared, where nothing does.
pub fn args_or_same<A: Allocator + Copy>(
    args: &Args<A>,
    replaced: Option<Args<A>>,
) -> Result<Args<A>, Memory>
    ensures { IfOk result (λ whole. whole ≡ args_by args.now replaced) }
{
    match replaced {
        None => args.share(),
        Some(whole) => Ok(whole),
    }
}

/// What stands in the place of terms, or these themselves, in a list of their own, where nothing does.
pub fn terms_or_same<A: Allocator + Copy>(
    alloc: A,
    terms: &[Term<A>],
    replaced: Option<Vec<Term<A>, A>>,
) -> Result<Vec<Term<A>, A>, Memory>
    ensures { IfOk result (λ whole. trees_view whole.items ≡ trees_by terms.now replaced) }
{
    match replaced {
        None => copy_all(alloc, terms),
        Some(whole) => Ok(whole),
    }
}

/// Copies of the first terms, with room for all.
fn first_copies<A: Allocator + Copy>(
    alloc: A,
    terms: &[Term<A>],
    count: usize,
) -> Result<Vec<Term<A>, A>, Memory>
    requires { count ≤ length terms.now }
    ensures { IfOk result (λ copies. map view copies.items ≡ map view (take count terms.now)) }
{
    let mut copies = Vec::with_capacity(alloc, terms.len())?;
    for i in 0..count {
        copies.push(copy(&terms[i])?)?;
    }
    Ok(copies)
}

/// A list that is begun with a term: copies of those before its place, and the term, with room for all.
fn begun_with<A: Allocator + Copy>(
    alloc: A,
    terms: &[Term<A>],
    place: usize,
    term: Term<A>,
) -> Result<Vec<Term<A>, A>, Memory>
    requires { place ≤ length terms.now }
    ensures { IfOk result (λ items. map view items.items ≡ map view (take place terms.now) ++ view term ∷ []) }
{
    let mut items = first_copies(alloc, terms, place)?;
    items.push(term)?;
    Ok(items)
}

/// Puts what stands in the place of a term, or the term itself, behind what stands in the places of those before it. A list is begun
/// where the first term is replaced: no list means that each stays.
pub fn push_replaced<A: Allocator + Copy>(
    alloc: A,
    terms: &[Term<A>],
    place: usize,
    replaced: Option<Term<A>>,
    made: &mut Option<Vec<Term<A>, A>>,
) -> Result<(), Memory>
    requires { place < length terms.now }
    ensures { OnOk result (list_by (take (place + 1) terms.now) made.new
        ≡ list_by (take place terms.now) made.old ++ tree_at terms.now place replaced) }
{
    match replaced {
        None => match made {
            None => Ok(()),
            Some(items) => Ok(items.push(copy(&terms[place])?)?),
        },
        Some(term) => match made {
            None => {
                *made = Some(begun_with(alloc, terms, place, term)?);
                Ok(())
            }
            Some(items) => Ok(items.push(term)?),
        },
    }
}
