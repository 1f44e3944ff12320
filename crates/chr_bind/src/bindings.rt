//! The bindings of variables, seen by contracts as one solved substitution.
ghost use Rattle.std.specs.Prelude.{◌≡◌, ◌≤◌, ◌<◌, ◌+◌, ◌^◌, [], IfOk, OnErr, OnOk, IsTrue, ◌↔◌, length, vec_len, vec_capacity};
ghost use Rattle.chr_semantics.specs.Tree.{is_ground_tree};
ghost use Rattle.chr_semantics.specs.Subst.{IsSolved, apply, instances, value_at};
ghost use Rattle.chr_semantics.specs.Value.{value as value_of};
ghost use Rattle.chr_term.specs.Replaced.{args_by};
ghost use Rattle.chr_term.specs.TermView.{trees_view, view};
ghost use Rattle.chr_semantics.specs.Bounds.{IsBelow};
ghost use Rattle.chr_bind.specs.Chains.{AreSound, IsSound, Pairs, subst_of};
ghost use Rattle.chr_bind.specs.Unified.{IsUnified};
ghost use Rattle.chr_bind.specs.Values.{value_view};

use crate::Memory;
use crate::chains::{Chains, Link};
use crate::fault::Fault;
use crate::unification::unify_terms;
use chr_term::{Args, Term};
use std::alloc::{Allocator, Global};
use std::marker::Model;

/// What a unification did.
#[derive(Clone, Copy, PartialEq, Eq, Debug, Drop)]
pub enum Unified {
    /// Both terms stood for one term already.
    Same,
    /// They do now: the bindings are the most general ones.
    Bound,
    /// Nothing makes them equal.
    Clash,
}

/// The bindings of the variables below `len`. Contracts see one solved substitution, and the number `spare` of further variables that
/// take no memory.
#[derive(Drop)]
pub struct Bindings<A: Allocator = Global> {
    links: Vec<Link, A>,
    made: Vec<(u64, Term<A>), A>,
    alloc: A,
}

impl<A: Allocator> Model for Bindings<A> {
    ghost use Rattle.chr_bind.specs.BindingsModel.{BindingsValue, bindings_code};

    ghost Value = { BindingsValue };

    ghost coded = { bindings_code };

    ghost use Rattle.std.specs.Prelude.{vec_len, vec_capacity, ◌-◌};
    ghost use Rattle.chr_bind.specs.Chains.{IsSound, owned_pairs, solution};

    ghost view = { λ b. record {
      len = vec_len b.links;
      subst = solution (owned_pairs b.made.items);
      spare = vec_capacity b.links - vec_len b.links;
    } };

    ghost invariant = { λ b. IsSound b.links.items (owned_pairs b.made.items) };
}

impl<A: Allocator + Copy> Bindings<A> {
    /// No variable, and nothing bound.
    pub fn new(alloc: A) -> Bindings<A>
        ensures len { result.len ≡ 0 }
        ensures subst { result.subst ≡ [] }
    {
        Bindings {
            links: Vec::new(alloc),
            made: Vec::new(alloc),
            alloc,
        }
    }

    /// The term with what its variables stand for put in.
    pub fn resolve(&self, term: &Term<A>) -> Result<Term<A>, Memory>
        ensures { IfOk result (λ resolved. view resolved ≡ apply self.now.subst (view term.now)) }
    {
        self.chains().resolve(self.alloc, term)
    }

    /// The arguments with what their variables stand for put in: the very same where that changes nothing.
    pub fn resolve_args(&self, args: &Args<A>) -> Result<Args<A>, Memory>
        ensures { IfOk result (λ resolved. resolved ≡ instances (value_at self.now.subst) args.now) }
    {
        self.chains().resolve_args(self.alloc, args)
    }

    /// What the bindings make of the arguments: nothing where that is the arguments as they are.
    pub fn replaced_args(&self, args: &Args<A>) -> Result<Option<Args<A>>, Memory>
        ensures { IfOk result (λ replaced.
            args_by args.now replaced ≡ instances (value_at self.now.subst) args.now) }
    {
        self.chains().replaced_args(self.alloc, args)
    }

    /// The terms with what their variables stand for put in.
    pub fn resolve_all(&self, terms: &[Term<A>]) -> Result<Vec<Term<A>, A>, Memory>
        ensures { IfOk result (λ resolved. trees_view resolved.items
            ≡ instances (value_at self.now.subst) (trees_view terms.now)) }
    {
        self.chains().resolve_all(self.alloc, terms)
    }

    /// Makes two terms equal, with the occurs check; of two free variables the greater is bound to the lesser. After `Clash`, and where
    /// memory is refused, the bindings are as before.
    pub fn unify(&mut self, left: &Term<A>, right: &Term<A>) -> Result<Unified, Memory>
        requires left { IsBelow self.old.len (view left.now) }
        requires right { IsBelow self.old.len (view right.now) }
        ensures unified { IfOk result
            (IsUnified (view left.now) (view right.now) self.old.subst self.new.subst) }
        ensures refused { OnErr result (self.new.subst ≡ self.old.subst) }
        ensures len { self.new.len ≡ self.old.len }
        ensures spare { self.new.spare ≡ self.old.spare }
    {
        let links = self.links.as_mut_slice();
        unify_terms(self.alloc, links, &mut self.made, left, right)
    }
}

impl<A: Allocator> Bindings<A> {
    /// How many variables there are.
    pub fn len(&self) -> u64
        ensures len { result ≡ self.now.len }
        ensures small { result < 2 ^ 63 }
        ensures solved { IsSolved self.now.subst }
    {
        self.links.len() as u64
    }

    /// Whether there is no variable.
    pub fn is_empty(&self) -> bool
        ensures { IsTrue result ↔ (self.now.len ≡ 0) }
    {
        self.links.is_empty()
    }

    /// Makes room for that many further variables, and changes nothing else.
    pub fn room(&mut self, count: usize) -> Result<(), Memory>
        ensures len { self.new.len ≡ self.old.len }
        ensures subst { self.new.subst ≡ self.old.subst }
        ensures spare { OnOk result (count ≤ self.new.spare) }
        ensures no_less { self.old.spare ≤ self.new.spare }
    {
        self.links.reserve(count)
    }

    /// That many new variables, and the number of the first. Where memory is refused, there are none. It takes no memory where there is
    /// room for them.
    pub fn fresh(&mut self, count: usize) -> Result<u64, Memory>
        ensures first { IfOk result (λ first. first ≡ self.old.len) }
        ensures len { OnOk result (self.new.len ≡ self.old.len + count) }
        ensures spare { count ≤ self.old.spare → self.new.spare + count ≡ self.old.spare }
        ensures no_less { self.old.spare ≤ self.new.spare + count }
        ensures subst { self.new.subst ≡ self.old.subst }
        ensures refused { OnErr result ((self.new.len ≡ self.old.len)
            × (self.old.spare < count) × (self.old.spare ≤ self.new.spare)) }
    {
        if self.links.capacity() - self.links.len() < count {
            self.room(count)?;
        }
        let first = self.len();
        add_free(&mut self.links, count);
        Ok(first)
    }

    /// Whether the term stands for one with no variable.
    pub fn ground(&self, term: &Term<A>) -> bool
        ensures { result ≡ is_ground_tree (apply self.now.subst (view term.now)) }
    {
        self.chains().is_ground(term)
    }

    /// The value of the term, resolved, for which no term is made.
    pub fn value(&self, term: &Term<A>) -> Result<i128, Fault>
        ensures { value_view result ≡ value_of (apply self.now.subst (view term.now)) }
    {
        self.chains().number(term)
    }

    /// Whether the first term, resolved, is the second.
    pub fn resolves_to(&self, term: &Term<A>, other: &Term<A>) -> bool
        ensures { IsTrue result ↔ (apply self.now.subst (view term.now) ≡ view other.now) }
    {
        self.chains().resolves_to(term, other)
    }

    /// Whether the first terms, resolved, are the second.
    pub fn resolve_to(&self, terms: &[Term<A>], others: &[Term<A>]) -> bool
        ensures { IsTrue result ↔ (instances (value_at self.now.subst) (trees_view terms.now)
            ≡ trees_view others.now) }
    {
        self.chains().resolve_to(terms, others)
    }

    fn chains(&self) -> Chains<'_, '_, A>
        ensures sound { AreSound result }
        ensures subst { subst_of result ≡ self.now.subst }
    {
        Chains {
            links: self.links.as_slice(),
            made: self.made.as_slice(),
            added: &[],
        }
    }
}

/// Adds that many free variables, for which there is room.
fn add_free<A: Allocator>(links: &mut Vec<Link, A>, count: usize)
    requires room { vec_len links.old + count ≤ vec_capacity links.old }
    ensures sound { (pairs : Pairs) →
        IsSound links.old.items pairs → IsSound links.new.items pairs }
    ensures len { vec_len links.new ≡ vec_len links.old + count }
    ensures capacity { vec_capacity links.new ≡ vec_capacity links.old }
{
    for _ in 0..count {
        let name = links.len() as u64;
        links.push_reserved(Link::Free(name, 1));
    }
}
