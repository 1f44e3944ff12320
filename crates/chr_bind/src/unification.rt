//! Unification by an agenda of lists of terms that are still to be made equal, so that no comparison begins anew after a binding.
ghost use Rattle.std.specs.Prelude.{◌≡◌, ◌≢◌, ◌<◌, ◌≤◌, ◌+◌, ◌++◌, ◌∷◌, [], false, true, ℕ, IfOk, OnErr, OnOk, IsTrue, Ok, Some, None, length, set, slice_get, vec_len, vec_capacity};
ghost use Rattle.chr_semantics.specs.Subst.{Subst, apply, occurs};
ghost use Rattle.chr_semantics.specs.Mgu.{both};
ghost use Rattle.chr_term.specs.TermView.{view, trees_view};
ghost use Rattle.chr_semantics.specs.Bounds.{AreBelow, IsBelow};
ghost use Rattle.chr_term.specs.Size.{size};
ghost use Rattle.chr_bind.specs.Chains.{AreSound, IsAttached, IsJoined, IsSound, lent_pairs, changed_links, name_of, owned_pairs, pairs_in, solution, subst_of, links_before};
ghost use Rattle.chr_bind.specs.Agenda.{Differs, IsAllDone, IsBelowAgenda, IsBinding, IsBound, IsRootComparison, Eliminates, agenda_size, lists_apart, lists_size, rest_apart, terms_apart};
ghost use Rattle.chr_bind.specs.Unified.{AreLinked, IsAnswer, IsUnification, IsUnified};

use crate::Memory;
use crate::bindings::Unified;
use crate::chains::{Chains, Link, ResolvedRoot};
use chr_term::{Term, copy};
use std::alloc::Allocator;

/// A variable that has to be bound: the place of its class's link, the least variable of that class, and its term.
#[derive(Drop)]
struct Binding<'t, A: Allocator> {
    end: usize,
    name: u64,
    term: &'t Term<A>,
}

/// What the roots of two terms come to.
#[derive(Drop)]
enum RootComparison<'t, A: Allocator> {
    Same,
    Clash,
    Bind(Binding<'t, A>),
    /// One symbol over arguments, which are still to be compared.
    Arguments(&'t [Term<A>], &'t [Term<A>]),
}

/// What a comparison came to: nothing differs, or nothing can make it equal, or a variable has to be bound first.
#[derive(Drop)]
enum Difference<'t, A: Allocator> {
    None,
    Clash,
    Bind(Binding<'t, A>),
}

/// Lists of terms that are still to be made equal, the next ones last.
type Agenda<'t, A> = Vec<(&'t [Term<A>], &'t [Term<A>]), A>;

/// What a unification has added, and what it changed.
#[derive(Drop)]
struct Progress<'t, A: Allocator> {
    /// The bindings in their order.
    added: Vec<(u64, &'t Term<A>), A>,
    /// The links that were changed, each as it was before.
    before: Vec<(usize, Link), A>,
}

/// The variable at the end of a class is to be bound to the term.
fn to_bind<'t, A: Allocator>(end: usize, name: u64, term: &'t Term<A>) -> RootComparison<'t, A>
    ensures { result
        ≡ RootComparison.Bind (record { end = end; name = name; term = term.entry }) }
{
    RootComparison::Bind(Binding { end, name, term })
}

/// Compares the roots of two terms. Of two free variables the greater is to be bound to the lesser.
fn compare<'t, A: Allocator>(
    chains: &Chains<'_, 't, A>,
    left: &'t Term<A>,
    right: &'t Term<A>,
) -> RootComparison<'t, A>
    requires sound { AreSound chains.now }
    requires left { IsBelow (length chains.now.links.now) (view left.now) }
    requires right { IsBelow (length chains.now.links.now) (view right.now) }
    ensures { IsRootComparison chains.now.links.now (subst_of chains.now)
        (view left.now) (view right.now) result }
{
    match (chains.root(left), chains.root(right)) {
        (ResolvedRoot::Free(end, x), ResolvedRoot::Free(other, y)) => {
            if x == y {
                RootComparison::Same
            } else if x < y {
                to_bind(other, y, left)
            } else {
                to_bind(end, x, right)
            }
        }
        (ResolvedRoot::Free(end, name), _) => to_bind(end, name, right),
        (_, ResolvedRoot::Free(end, name)) => to_bind(end, name, left),
        (ResolvedRoot::Int(x), ResolvedRoot::Int(y)) if x == y => RootComparison::Same,
        (ResolvedRoot::Node(f, lefts), ResolvedRoot::Node(g, rights)) => {
            if f == g {
                RootComparison::Arguments(lefts.as_slice(), rights.as_slice())
            } else {
                RootComparison::Clash
            }
        }
        _ => RootComparison::Clash,
    }
}

/// Puts two lists of terms on the agenda. Two empty ones leave nothing to compare.
fn put<'t, A: Allocator>(
    agenda: &mut Agenda<'t, A>,
    lefts: &'t [Term<A>],
    rights: &'t [Term<A>],
) -> Result<(), Memory>
    ensures below { (n : ℕ) → AreBelow n (trees_view lefts.now) →
        AreBelow n (trees_view rights.now) →
        IsBelowAgenda n agenda.old.items → IsBelowAgenda n agenda.new.items }
    ensures apart { OnOk result ((s : Subst) → rest_apart s agenda.new.items
        ≡ both (lists_apart s lefts.now rights.now) (rest_apart s agenda.old.items)) }
    ensures size { OnOk result ((s : Subst) → agenda_size s agenda.new.items
        ≤ agenda_size s agenda.old.items + lists_size s lefts.now) }
{
    if lefts.is_empty() && rights.is_empty() {
        return Ok(());
    }
    agenda.push((lefts, rights))?;
    Ok(())
}

/// Compares two terms, and puts their arguments on the agenda where these are still to be compared.
fn descend<'t, A: Allocator>(
    chains: &Chains<'_, 't, A>,
    agenda: &mut Agenda<'t, A>,
    left: &'t Term<A>,
    right: &'t Term<A>,
) -> Result<Difference<'t, A>, Memory>
    requires sound { AreSound chains.now }
    requires agenda { IsBelowAgenda (length chains.now.links.now) agenda.old.items }
    requires left { IsBelow (length chains.now.links.now) (view left.now) }
    requires right { IsBelow (length chains.now.links.now) (view right.now) }
    ensures below { IsBelowAgenda (length chains.now.links.now) agenda.new.items }
    ensures step { let s = subst_of chains.now in IfOk result (Differs chains.now.links.now s
        (both (terms_apart s left.now right.now) (rest_apart s agenda.old.items))
        agenda.new.items) }
    ensures smaller { let s = subst_of chains.now in OnOk result (agenda_size s agenda.new.items
        < agenda_size s agenda.old.items + size (apply s (view left.now))) }
{
    match compare(chains, left, right) {
        RootComparison::Same => Ok(Difference::None),
        RootComparison::Clash => Ok(Difference::Clash),
        RootComparison::Bind(binding) => Ok(Difference::Bind(binding)),
        RootComparison::Arguments(lefts, rights) => {
            put(agenda, lefts, rights)?;
            Ok(Difference::None)
        }
    }
}

/// Compares the first terms of two lists, and puts what is left to compare on the agenda.
fn advance<'t, A: Allocator>(
    chains: &Chains<'_, 't, A>,
    agenda: &mut Agenda<'t, A>,
    lefts: &'t [Term<A>],
    rights: &'t [Term<A>],
) -> Result<Difference<'t, A>, Memory>
    requires sound { AreSound chains.now }
    requires agenda { IsBelowAgenda (length chains.now.links.now) agenda.old.items }
    requires lefts { AreBelow (length chains.now.links.now) (trees_view lefts.now) }
    requires rights { AreBelow (length chains.now.links.now) (trees_view rights.now) }
    ensures below { IsBelowAgenda (length chains.now.links.now) agenda.new.items }
    ensures step { let s = subst_of chains.now in IfOk result (Differs chains.now.links.now s
        (both (lists_apart s lefts.now rights.now) (rest_apart s agenda.old.items))
        agenda.new.items) }
    ensures smaller { let s = subst_of chains.now in OnOk result (agenda_size s agenda.new.items
        < agenda_size s agenda.old.items + lists_size s lefts.now) }
{
    match (lefts.split_first(), rights.split_first()) {
        (Some((left, lefts)), Some((right, rights))) => {
            put(agenda, lefts, rights)?;
            descend(chains, agenda, left, right)
        }
        (None, None) => Ok(Difference::None),
        (Some(_), None) => Ok(Difference::Clash),
        (None, Some(_)) => Ok(Difference::Clash),
    }
}

/// Goes on with the agenda up to the next variable that has to be bound.
fn next_difference<'t, A: Allocator>(
    chains: &Chains<'_, 't, A>,
    agenda: &mut Agenda<'t, A>,
) -> Result<Difference<'t, A>, Memory>
    requires sound { AreSound chains.now }
    requires agenda { IsBelowAgenda (length chains.now.links.now) agenda.old.items }
    ensures below { IsBelowAgenda (length chains.now.links.now) agenda.new.items }
    ensures step { let s = subst_of chains.now in IfOk result
        (Differs chains.now.links.now s (rest_apart s agenda.old.items) agenda.new.items) }
    ensures none { IfOk result (IsAllDone agenda.new.items) }
{
    while let Some((lefts, rights)) = agenda.pop() {
        match advance(chains, agenda, lefts, rights)? {
            Difference::None => {}
            Difference::Clash => return Ok(Difference::Clash),
            Difference::Bind(binding) => return Ok(Difference::Bind(binding)),
        }
    }
    Ok(Difference::None)
}

/// Compares two terms up to the first variable that has to be bound.
fn first_difference<'t, A: Allocator>(
    chains: &Chains<'_, 't, A>,
    agenda: &mut Agenda<'t, A>,
    left: &'t Term<A>,
    right: &'t Term<A>,
) -> Result<Difference<'t, A>, Memory>
    requires sound { AreSound chains.now }
    requires empty { agenda.old.items ≡ [] }
    requires left { IsBelow (length chains.now.links.now) (view left.now) }
    requires right { IsBelow (length chains.now.links.now) (view right.now) }
    ensures below { IsBelowAgenda (length chains.now.links.now) agenda.new.items }
    ensures step { let s = subst_of chains.now in IfOk result
        (Differs chains.now.links.now s (terms_apart s left.now right.now) agenda.new.items) }
    ensures none { IfOk result (IsAllDone agenda.new.items) }
{
    match descend(chains, agenda, left, right)? {
        Difference::None => next_difference(chains, agenda),
        Difference::Clash => Ok(Difference::Clash),
        Difference::Bind(binding) => Ok(Difference::Bind(binding)),
    }
}

/// The links that a binding changed, each as it was before, the last change last.
#[derive(Clone, Copy, Drop)]
enum Changed {
    One((usize, Link)),
    Two((usize, Link), (usize, Link)),
}

/// Changes a link, and answers what it was.
fn change(links: &mut [Link], place: usize, link: Link) -> (usize, Link)
    requires { place < length links.old }
    ensures links { links.new ≡ set links.old place link }
    ensures undone { set links.new result.0 result.1 ≡ links.old }
{
    let before = (place, links[place]);
    links[place] = link;
    before
}

/// Adds what was changed to what is remembered, with room for it.
fn remember<A: Allocator>(before: &mut Vec<(usize, Link), A>, changed: Changed)
    requires { vec_len before.old + 2 ≤ vec_capacity before.old }
    ensures { before.new.items ≡ before.old.items ++ changed_links changed }
{
    match changed {
        Changed::One(only) => before.push_reserved(only),
        Changed::Two(first, second) => {
            before.push_reserved(first);
            before.push_reserved(second);
        }
    }
}

/// Makes the links what they were before all changes.
fn undo<A: Allocator>(links: &mut [Link], before: Vec<(usize, Link), A>)
    ensures { links.new ≡ links_before before.items links.old }
{
    let mut before = before;
    while let Some((place, link)) = before.pop() {
        if place < links.len() {
            links[place] = link;
        }
    }
}

/// About how many variables a free class has.
fn size_of(link: Link) -> u64 {
    match link {
        Link::Free(_, size) => size,
        Link::Follows(_, _) => 0,
        Link::Bound(_) => 0,
    }
}

/// Joins a free class with another one, whose least variable stays: the smaller class goes on at the larger one.
fn join(links: &mut [Link], end: usize, other: usize, number: usize) -> Changed
    requires known { end < length links.old }
    requires other { other < length links.old }
    ensures joined { IsJoined links.old links.new end other number }
    ensures undone { links_before (changed_links result) links.new ≡ links.old }
{
    match links[other] {
        Link::Free(name, many) => {
            let few = size_of(links[end]);
            let all = many.saturating_add(few);
            if few <= many {
                let first = change(links, end, Link::Follows(other, number));
                Changed::Two(first, change(links, other, Link::Free(name, all)))
            } else {
                let first = change(links, other, Link::Follows(end, number));
                Changed::Two(first, change(links, end, Link::Free(name, all)))
            }
        }
        Link::Follows(_, _) => Changed::One(change(links, end, Link::Follows(other, number))),
        Link::Bound(_) => Changed::One(change(links, end, Link::Follows(other, number))),
    }
}

/// Links the class of a variable, which does not occur in its term, to that term.
fn attach<'t, A: Allocator>(
    links: &mut [Link],
    made: &'t [(u64, Term<A>)],
    added: &[(u64, &'t Term<A>)],
    binding: &Binding<'t, A>,
) -> Changed
    requires sound { IsSound links.old (pairs_in made.now added.now) }
    requires end { name_of (slice_get links.old binding.now.end) ≡ Some binding.now.name }
    requires below { IsBelow (length links.old) (view binding.now.term.now) }
    requires absent { let s = solution (pairs_in made.now added.now) in
        occurs binding.now.name (apply s (view binding.now.term.now)) ≡ false }
    ensures bound { IsAttached links.old links.new (pairs_in made.now added.now)
        (binding.now.name, view binding.now.term.now) }
    ensures undone { links_before (changed_links result) links.new ≡ links.old }
{
    let number = made.len() + added.len();
    match binding.term {
        Term::Var(x) => {
            let other = Chains { links, made, added }.end(*x as usize);
            join(links, binding.end, other, number)
        }
        Term::Int(_) => Changed::One(change(links, binding.end, Link::Bound(number))),
        Term::Node(_, _) => Changed::One(change(links, binding.end, Link::Bound(number))),
    }
}

/// Binds the class of a variable, which does not occur in its term. Where memory is refused, the links are as before.
fn bind<'t, A: Allocator>(
    links: &mut [Link],
    made: &'t [(u64, Term<A>)],
    progress: &mut Progress<'t, A>,
    binding: &Binding<'t, A>,
) -> Result<(), Memory>
    requires sound { IsSound links.old (pairs_in made.now progress.old.added.items) }
    requires end { name_of (slice_get links.old binding.now.end) ≡ Some binding.now.name }
    requires below { IsBelow (length links.old) (view binding.now.term.now) }
    requires absent { let s = solution (pairs_in made.now progress.old.added.items) in
        occurs binding.now.name (apply s (view binding.now.term.now)) ≡ false }
    ensures bound { OnOk result (IsAttached links.old links.new
        (pairs_in made.now progress.old.added.items)
        (binding.now.name, view binding.now.term.now)) }
    ensures added { OnOk result (progress.new.added.items
        ≡ progress.old.added.items ++ (binding.now.name, binding.now.term) ∷ []) }
    ensures undone { links_before progress.new.before.items links.new
        ≡ links_before progress.old.before.items links.old }
{
    progress.added.reserve(1)?;
    progress.before.reserve(2)?;
    let changed = attach(links, made, progress.added.as_slice(), binding);
    remember(&mut progress.before, changed);
    progress.added.push_reserved((binding.name, binding.term));
    Ok(())
}

/// Binds the class of a variable, and says whether it was possible: not where the variable occurs in its term.
fn try_bind<'t, A: Allocator>(
    links: &mut [Link],
    made: &'t [(u64, Term<A>)],
    progress: &mut Progress<'t, A>,
    binding: &Binding<'t, A>,
) -> Result<bool, Memory>
    requires sound { IsSound links.old (pairs_in made.now progress.old.added.items) }
    requires binding { IsBinding links.old binding.now }
    ensures bound { IfOk result (IsBound links.old links.new
        (pairs_in made.now progress.old.added.items) binding.now) }
    ensures added { result ≡ Ok true → progress.new.added.items
        ≡ progress.old.added.items ++ (binding.now.name, binding.now.term) ∷ [] }
    ensures undone { links_before progress.new.before.items links.new
        ≡ links_before progress.old.before.items links.old }
{
    let added = progress.added.as_slice();
    if (Chains { links, made, added }).occurs(binding.name, binding.term) {
        return Ok(false);
    }
    bind(links, made, progress, binding)?;
    Ok(true)
}

/// Adds bindings until nothing on the agenda differs, and says whether that is possible. Where it is not, or memory is refused, the
/// links are to be undone.
fn make_rest_equal<'t, A: Allocator>(
    links: &mut [Link],
    made: &'t [(u64, Term<A>)],
    progress: &mut Progress<'t, A>,
    agenda: &mut Agenda<'t, A>,
) -> Result<bool, Memory>
    requires sound { IsSound links.old (pairs_in made.now progress.old.added.items) }
    requires agenda { IsBelowAgenda (length links.old) agenda.old.items }
    ensures added { let s = solution (pairs_in made.now progress.old.added.items) in
        IfOk result (Eliminates s (rest_apart s agenda.old.items)
        (length progress.old.added.items) (length progress.new.added.items)
        (solution (pairs_in made.now progress.new.added.items))) }
    ensures sound { result ≡ Ok true →
        IsSound links.new (pairs_in made.now progress.new.added.items) }
    ensures undone { links_before progress.new.before.items links.new
        ≡ links_before progress.old.before.items links.old }
{
    loop {
        let added = progress.added.as_slice();
        let binding = match next_difference(&Chains { links, made, added }, agenda)? {
            Difference::None => return Ok(true),
            Difference::Clash => return Ok(false),
            Difference::Bind(binding) => binding,
        };
        if !try_bind(links, made, progress, &binding)? {
            return Ok(false);
        }
    }
}

/// Makes two terms equal by adding bindings, and says whether that is possible. Where it is not, or memory is refused, the links are to
/// be undone.
fn make_equal<'t, A: Allocator + Copy>(
    alloc: A,
    links: &mut [Link],
    made: &'t [(u64, Term<A>)],
    progress: &mut Progress<'t, A>,
    left: &'t Term<A>,
    right: &'t Term<A>,
) -> Result<bool, Memory>
    requires sound { IsSound links.old (pairs_in made.now progress.old.added.items) }
    requires left { IsBelow (length links.old) (view left.now) }
    requires right { IsBelow (length links.old) (view right.now) }
    ensures added { let s = solution (pairs_in made.now progress.old.added.items) in
        IfOk result (Eliminates s (terms_apart s left.now right.now)
        (length progress.old.added.items) (length progress.new.added.items)
        (solution (pairs_in made.now progress.new.added.items))) }
    ensures sound { result ≡ Ok true →
        IsSound links.new (pairs_in made.now progress.new.added.items) }
    ensures undone { links_before progress.new.before.items links.new
        ≡ links_before progress.old.before.items links.old }
{
    let mut agenda = Vec::new(alloc);
    let added = progress.added.as_slice();
    let chains = Chains { links, made, added };
    let binding = match first_difference(&chains, &mut agenda, left, right)? {
        Difference::None => return Ok(true),
        Difference::Clash => return Ok(false),
        Difference::Bind(binding) => binding,
    };
    if !try_bind(links, made, progress, &binding)? {
        return Ok(false);
    }
    make_rest_equal(links, made, progress, &mut agenda)
}

/// What a unification added, and the links that it changed, each as it was before.
#[derive(Drop)]
struct Additions<A: Allocator> {
    pairs: Vec<(u64, Term<A>), A>,
    before: Vec<(usize, Link), A>,
}

/// The bindings with copies of their terms.
fn copy_pairs<A: Allocator + Copy>(
    alloc: A,
    added: &[(u64, &Term<A>)],
) -> Result<Vec<(u64, Term<A>), A>, Memory>
    ensures { IfOk result (λ owned. owned_pairs owned.items ≡ lent_pairs added.now) }
{
    let mut items = Vec::with_capacity(alloc, added.len())?;
    for pair in added {
        items.push((pair.0, copy(pair.1)?))?;
    }
    Ok(items)
}

/// Hands out what was added. Where memory is refused, the links are as they were before.
fn keep<A: Allocator + Copy>(
    alloc: A,
    links: &mut [Link],
    progress: Progress<'_, A>,
) -> Result<Additions<A>, Memory>
    ensures kept { OnOk result (links.new ≡ links.old) }
    ensures pairs { IfOk result (λ added.
        owned_pairs added.pairs.items ≡ lent_pairs progress.entry.added.items) }
    ensures before { IfOk result (λ added. added.before.items ≡ progress.entry.before.items) }
    ensures undone { OnErr result (links.new ≡ links_before progress.entry.before.items links.old) }
{
    match copy_pairs(alloc, progress.added.as_slice()) {
        Ok(pairs) => Ok(Additions {
            pairs,
            before: progress.before,
        }),
        Err(error) => {
            undo(links, progress.before);
            Err(error)
        }
    }
}

/// Makes two terms equal, and hands out what was added for that: the links are then those with it. They are as before where nothing makes
/// the terms equal, and where memory is refused.
fn add_bindings<A: Allocator + Copy>(
    alloc: A,
    links: &mut [Link],
    made: &[(u64, Term<A>)],
    left: &Term<A>,
    right: &Term<A>,
) -> Result<Option<Additions<A>>, Memory>
    requires sound { IsSound links.old (owned_pairs made.now) }
    requires left { IsBelow (length links.old) (view left.now) }
    requires right { IsBelow (length links.old) (view right.now) }
    ensures unified { IfOk result (IsUnification links.old links.new (owned_pairs made.now)
        (view left.now) (view right.now)) }
    ensures refused { OnErr result (links.new ≡ links.old) }
{
    let mut progress = Progress {
        added: Vec::new(alloc),
        before: Vec::new(alloc),
    };
    match make_equal(alloc, links, made, &mut progress, left, right) {
        Ok(true) => Ok(Some(keep(alloc, links, progress)?)),
        Ok(false) => {
            undo(links, progress.before);
            Ok(None)
        }
        Err(error) => {
            undo(links, progress.before);
            Err(error)
        }
    }
}

/// Appends what was added to the bindings, or undoes the links that it changed where memory is refused.
fn take_over<A: Allocator>(
    links: &mut [Link],
    made: &mut Vec<(u64, Term<A>), A>,
    added: Additions<A>,
) -> Result<(), Memory>
    ensures made { OnOk result (made.new.items ≡ made.old.items ++ added.pairs.items) }
    ensures kept { OnOk result (links.new ≡ links.old) }
    ensures refused { OnErr result (made.new.items ≡ made.old.items) }
    ensures undone { OnErr result (links.new ≡ links_before added.before.items links.old) }
{
    let mut added = added;
    match made.append(&mut added.pairs) {
        Ok(()) => Ok(()),
        Err(error) => {
            undo(links, added.before);
            Err(error)
        }
    }
}

/// The answer of a unification that is possible.
fn answer_of<A: Allocator>(added: &Additions<A>) -> Unified
    ensures { IsAnswer (length added.now.pairs.items) result }
{
    if added.pairs.is_empty() {
        Unified::Same
    } else {
        Unified::Bound
    }
}

/// As `unify_terms`, by as many bindings as are needed.
fn unify_all<A: Allocator + Copy>(
    alloc: A,
    links: &mut [Link],
    made: &mut Vec<(u64, Term<A>), A>,
    left: &Term<A>,
    right: &Term<A>,
) -> Result<Unified, Memory>
    requires { AreLinked links.old (owned_pairs made.old.items) (view left.now) (view right.now) }
    ensures sound { IsSound links.new (owned_pairs made.new.items) }
    ensures unified { IfOk result (IsUnified (view left.now) (view right.now)
        (solution (owned_pairs made.old.items)) (solution (owned_pairs made.new.items))) }
    ensures refused { OnErr result (made.new.items ≡ made.old.items) }
    ensures len { length links.new ≡ length links.old }
{
    let added = match add_bindings(alloc, links, made.as_slice(), left, right)? {
        None => return Ok(Unified::Clash),
        Some(added) => added,
    };
    let answer = answer_of(&added);
    take_over(links, made, added)?;
    Ok(answer)
}

/// Binds the class of a variable, which ends there, to a term in which it does not occur. Where memory is refused, nothing changes.
fn bind_alone<A: Allocator>(
    links: &mut [Link],
    made: &mut Vec<(u64, Term<A>), A>,
    end: usize,
    name: u64,
    term: Term<A>,
) -> Result<(), Memory>
    requires sound { IsSound links.old (owned_pairs made.old.items) }
    requires end { name_of (slice_get links.old end) ≡ Some name }
    requires below { IsBelow (length links.old) (view term) }
    requires absent { let s = solution (owned_pairs made.old.items) in
        occurs name (apply s (view term)) ≡ false }
    ensures sound { IsSound links.new (owned_pairs made.new.items) }
    ensures made { OnOk result
        (owned_pairs made.new.items ≡ owned_pairs made.old.items ++ (name, view term) ∷ []) }
    ensures refused { OnErr result (made.new.items ≡ made.old.items) }
    ensures len { length links.new ≡ length links.old }
{
    made.reserve(1)?;
    let binding = Binding {
        end,
        name,
        term: &term,
    };
    let _changed = attach(links, made.as_slice(), &[], &binding);
    made.push_reserved((name, term));
    Ok(())
}

/// Makes two terms equal, with the occurs check, and says what was done: the links are those of the bindings that were made. Most often
/// one is all that is needed. After `Clash`, and where memory is refused, the bindings are as before.
pub(crate) fn unify_terms<A: Allocator + Copy>(
    alloc: A,
    links: &mut [Link],
    made: &mut Vec<(u64, Term<A>), A>,
    left: &Term<A>,
    right: &Term<A>,
) -> Result<Unified, Memory>
    requires { AreLinked links.old (owned_pairs made.old.items) (view left.now) (view right.now) }
    ensures sound { IsSound links.new (owned_pairs made.new.items) }
    ensures unified { IfOk result (IsUnified (view left.now) (view right.now)
        (solution (owned_pairs made.old.items)) (solution (owned_pairs made.new.items))) }
    ensures refused { OnErr result (made.new.items ≡ made.old.items) }
    ensures len { length links.new ≡ length links.old }
{
    let chains = Chains {
        links,
        made: made.as_slice(),
        added: &[],
    };
    match compare(&chains, left, right) {
        RootComparison::Same => Ok(Unified::Same),
        RootComparison::Clash => Ok(Unified::Clash),
        RootComparison::Bind(Binding { end, name, term }) => {
            if chains.occurs(name, term) {
                return Ok(Unified::Clash);
            }
            let term = copy(term)?;
            bind_alone(links, made, end, name, term)?;
            Ok(Unified::Bound)
        }
        RootComparison::Arguments(_, _) => unify_all(alloc, links, made, left, right),
    }
}
