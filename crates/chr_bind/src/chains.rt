//! Bindings that are followed: terms stay as they were, and nothing is replaced in them.
ghost use Rattle.std.specs.Prelude.{◌≡◌, ◌<◌, ◌↔◌, IfSome, IsTrue, Ok, Some, ℕ, length, option_map, slice_get};
ghost use Rattle.chr_semantics.specs.Tree.{Tree, is_ground_tree, is_ground_trees, var as variable};
ghost use Rattle.chr_semantics.specs.Subst.{apply, occurs, occurs_any, instances, value_at};
ghost use Rattle.chr_semantics.specs.Value.{node_value, value as value_of, values};
ghost use Rattle.chr_term.specs.TermView.{trees_view, view};
ghost use Rattle.chr_bind.specs.Chains.{AreSound, IsEnd, pairs_of, subst_of};
ghost use Rattle.chr_bind.specs.ResolvedRoot.{IsRoot, IsWrittenRoot};
ghost use Rattle.chr_bind.specs.Terms.{IsNoVar};
ghost use Rattle.chr_bind.specs.Values.{value_view};

use crate::arithmetic::{evaluate_operator, pair_of};
use crate::fault::Fault;
use crate::short::{apply_short, short};
use chr_term::{Args, Sym, Term};
use std::alloc::Allocator;

/// How the class of a variable goes on from it. A class is the variables that stand for one another.
#[derive(Clone, Copy, Drop)]
pub(crate) enum Link {
    /// The class ends here and is free: its least variable, and about how many it has.
    Free(u64, u64),
    /// It goes on at another variable of the class, since the binding of this number.
    Follows(usize, usize),
    /// The class ends here and stands for the term of the binding of this number.
    Bound(usize),
}

/// The bindings as they are read: those that stand, and after them those that a unification has added since.
#[derive(Drop)]
pub(crate) struct Chains<'l, 't, A: Allocator> {
    pub links: &'l [Link],
    pub made: &'t [(u64, Term<A>)],
    pub added: &'l [(u64, &'t Term<A>)],
}

/// The root of a term under the bindings.
#[derive(Drop)]
pub(crate) enum ResolvedRoot<'t, A: Allocator> {
    /// A free class by the place of its link, and its least variable.
    Free(usize, u64),
    Int(i128),
    Node(Sym, &'t Args<A>),
}

impl<'l, 't, A: Allocator> Chains<'l, 't, A> {
    /// Where the class of a variable ends. Classes are joined by size, so the way is short.
    pub fn end(&self, var: usize) -> usize
        requires sound { AreSound self.now }
        requires known { var < length self.now.links.now }
        ensures { IsEnd self.now var result }
    {
        match self.links[var] {
            Link::Follows(next, _) => self.end(next),
            Link::Free(_, _) => var,
            Link::Bound(_) => var,
        }
    }

    /// The term of a binding.
    fn term(&self, number: usize) -> &'t Term<A>
        requires { number < length (pairs_of self.now) }
        ensures { option_map (λ (e : ℕ × Tree). e.1) (slice_get (pairs_of self.now) number)
            ≡ Some (view result.now) }
    {
        if number < self.made.len() {
            &self.made[number].1
        } else {
            self.added[number - self.made.len()].1
        }
    }

    /// What a variable stands for.
    pub fn value(&self, var: u64) -> ResolvedRoot<'t, A>
        requires { AreSound self.now }
        ensures { IsRoot self.now (variable var) result }
    {
        let place = var as usize;
        if place >= self.links.len() {
            return ResolvedRoot::Free(place, var);
        }
        let end = self.end(place);
        match self.links[end] {
            Link::Free(name, _) => ResolvedRoot::Free(end, name),
            Link::Follows(_, _) => unreachable!(),
            Link::Bound(number) => written_root(self.term(number)),
        }
    }

    /// The root of a term.
    pub fn root(&self, term: &'t Term<A>) -> ResolvedRoot<'t, A>
        requires { AreSound self.now }
        ensures { IsRoot self.now (view term.now) result }
    {
        match term {
            Term::Var(x) => self.value(*x),
            Term::Int(_) => written_root(term),
            Term::Node(_, _) => written_root(term),
        }
    }
}

/// The root of a term that is no variable.
fn written_root<'t, A: Allocator>(term: &'t Term<A>) -> ResolvedRoot<'t, A>
    requires { IsNoVar (view term.now) }
    ensures { IsWrittenRoot (view term.now) result }
{
    match term {
        Term::Var(_) => unreachable!(),
        Term::Int(z) => ResolvedRoot::Int(*z),
        Term::Node(sym, args) => ResolvedRoot::Node(*sym, args),
    }
}

impl<'l, 't, A: Allocator> Chains<'l, 't, A> {
    /// Whether the term stands for one with no variable.
    #[cycle(ground)]
    pub fn is_ground(&self, term: &'t Term<A>) -> bool
        requires { AreSound self.now }
        ensures { result ≡ is_ground_tree (apply (subst_of self.now) (view term.now)) }
    {
        match self.root(term) {
            ResolvedRoot::Free(_, _) => false,
            ResolvedRoot::Int(_) => true,
            ResolvedRoot::Node(_, args) => args.is_ground() || self.are_ground(args.as_slice()),
        }
    }

    #[cycle(ground)]
    fn are_ground(&self, terms: &'t [Term<A>]) -> bool
        requires { AreSound self.now }
        ensures { result
            ≡ is_ground_trees (instances (value_at (subst_of self.now)) (trees_view terms.now)) }
    {
        for term in terms {
            if !self.is_ground(term) {
                return false;
            }
        }
        true
    }

    /// Whether the first term stands for the second, which is taken as it is written.
    #[cycle(matches)]
    pub fn resolves_to(&self, term: &'t Term<A>, other: &Term<A>) -> bool
        requires { AreSound self.now }
        ensures { IsTrue result ↔ (apply (subst_of self.now) (view term.now) ≡ view other.now) }
    {
        match (self.root(term), other) {
            (ResolvedRoot::Free(_, name), Term::Var(x)) => name == *x,
            (ResolvedRoot::Int(y), Term::Int(z)) => y == *z,
            (ResolvedRoot::Node(f, args), Term::Node(g, others)) => f == *g
                && self.resolve_to(args.as_slice(), others.as_slice()),
            _ => false,
        }
    }

    #[cycle(matches)]
    pub fn resolve_to(&self, terms: &'t [Term<A>], others: &[Term<A>]) -> bool
        requires { AreSound self.now }
        ensures { IsTrue result ↔ (instances (value_at (subst_of self.now)) (trees_view terms.now)
            ≡ trees_view others.now) }
    {
        if terms.len() != others.len() {
            return false;
        }
        for i in 0..terms.len() {
            if !self.resolves_to(&terms[i], &others[i]) {
                return false;
            }
        }
        true
    }

    /// Whether a free variable occurs in what the term stands for.
    #[cycle(occurs)]
    pub fn occurs(&self, var: u64, term: &'t Term<A>) -> bool
        requires { AreSound self.now }
        ensures { result ≡ occurs var (apply (subst_of self.now) (view term.now)) }
    {
        match self.root(term) {
            ResolvedRoot::Free(_, name) => var == name,
            ResolvedRoot::Int(_) => false,
            ResolvedRoot::Node(_, args) => !args.is_ground()
                && self.occurs_any(var, args.as_slice()),
        }
    }

    #[cycle(occurs)]
    fn occurs_any(&self, var: u64, terms: &'t [Term<A>]) -> bool
        requires { AreSound self.now }
        ensures { result
            ≡ occurs_any var (instances (value_at (subst_of self.now)) (trees_view terms.now)) }
    {
        for term in terms {
            if self.occurs(var, term) {
                return true;
            }
        }
        false
    }

    /// The value of what the term stands for.
    pub fn number(&self, term: &'t Term<A>) -> Result<i128, Fault>
        requires { AreSound self.now }
        ensures { value_view result ≡ value_of (apply (subst_of self.now) (view term.now)) }
    {
        match self.short_number(term) {
            Some(number) => Ok(i128::from(number)),
            None => self.full_number(term),
        }
    }

    /// The value of what the term stands for, where it and all that it is made of have 64 bits.
    #[cycle(short_number)]
    fn short_number(&self, term: &'t Term<A>) -> Option<i64>
        requires { AreSound self.now }
        ensures { IfSome result (λ short. value_of (apply (subst_of self.now) (view term.now)) ≡ Ok short) }
    {
        match self.root(term) {
            ResolvedRoot::Free(_, _) => None,
            ResolvedRoot::Int(number) => short(number),
            ResolvedRoot::Node(sym, args) => self.short_node_number(sym, args.as_slice()),
        }
    }

    #[cycle(short_number)]
    fn short_node_number(&self, sym: Sym, args: &'t [Term<A>]) -> Option<i64>
        requires { AreSound self.now }
        ensures { IfSome result (λ short.
            node_value sym.0 (values (instances (value_at (subst_of self.now)) (trees_view args.now))) ≡ Ok short) }
    {
        let (left, right) = pair_of(args)?;
        let left = self.short_number(left)?;
        let right = self.short_number(right)?;
        apply_short(sym, left, right)
    }

    /// As `number`, for all numbers.
    #[cycle(number)]
    fn full_number(&self, term: &'t Term<A>) -> Result<i128, Fault>
        requires { AreSound self.now }
        ensures { value_view result ≡ value_of (apply (subst_of self.now) (view term.now)) }
    {
        match self.root(term) {
            ResolvedRoot::Free(_, _) => Err(Fault::Unbound),
            ResolvedRoot::Int(z) => Ok(z),
            ResolvedRoot::Node(sym, args) => self.node_number(sym, args.as_slice()),
        }
    }

    #[cycle(number)]
    fn node_number(&self, sym: Sym, args: &'t [Term<A>]) -> Result<i128, Fault>
        requires { AreSound self.now }
        ensures { value_view result
            ≡ node_value sym.0 (values (instances (value_at (subst_of self.now)) (trees_view args.now))) }
    {
        match pair_of(args) {
            Some((left, right)) => {
                let left = self.full_number(left);
                evaluate_operator(sym, left, self.full_number(right))
            }
            None => Err(Fault::NotNumber),
        }
    }
}
