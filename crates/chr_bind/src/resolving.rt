//! Terms with all that their variables stand for put in. What no binding touches is shared.
ghost use Rattle.std.specs.Prelude.{◌≡◌, IfOk};
ghost use Rattle.chr_semantics.specs.Tree.{var as variable};
ghost use Rattle.chr_semantics.specs.Subst.{apply, instances, value_at};
ghost use Rattle.chr_term.specs.TermView.{trees_view, view};
ghost use Rattle.chr_bind.specs.Chains.{AreSound, subst_of};
ghost use Rattle.chr_term.specs.Replaced.{args_by, tree_by, trees_by};

use crate::chains::{Chains, ResolvedRoot};
use chr_term::{Args, Memory, Term, args_or_same, push_replaced, term_or_same, terms_or_same};
use std::alloc::Allocator;

impl<'l, 't, A: Allocator + Copy> Chains<'l, 't, A> {
    /// What stands in the place of a term: nothing where it is the term as it is written.
    #[cycle(resolve)]
    fn replaced(&self, alloc: A, term: &'t Term<A>) -> Result<Option<Term<A>>, Memory>
        requires { AreSound self.now }
        ensures { IfOk result (λ replaced.
            tree_by (view term.now) replaced ≡ apply (subst_of self.now) (view term.now)) }
    {
        match term {
            Term::Var(x) => self.replaced_variable(alloc, *x),
            Term::Int(_) => Ok(None),
            Term::Node(sym, args) => match self.replaced_args(alloc, args)? {
                None => Ok(None),
                Some(args) => Ok(Some(Term::Node(*sym, args))),
            },
        }
    }

    #[cycle(resolve)]
    fn replaced_variable(&self, alloc: A, var: u64) -> Result<Option<Term<A>>, Memory>
        requires { AreSound self.now }
        ensures { IfOk result (λ replaced.
            tree_by (variable var) replaced ≡ apply (subst_of self.now) (variable var)) }
    {
        match self.value(var) {
            ResolvedRoot::Free(_, name) => {
                if name == var {
                    return Ok(None);
                }
                Ok(Some(Term::Var(name)))
            }
            ResolvedRoot::Int(z) => Ok(Some(Term::Int(z))),
            ResolvedRoot::Node(sym, args) => Ok(Some(Term::Node(
                sym,
                self.resolve_args(alloc, args)?,
            ))),
        }
    }

    /// What stands in the place of arguments: nothing where it is these as they are.
    #[cycle(resolve)]
    pub fn replaced_args(&self, alloc: A, args: &'t Args<A>) -> Result<Option<Args<A>>, Memory>
        requires { AreSound self.now }
        ensures { IfOk result (λ replaced.
            args_by args.now replaced ≡ instances (value_at (subst_of self.now)) args.now) }
    {
        if args.is_ground() {
            return Ok(None);
        }
        match self.replaced_all(alloc, args.as_slice())? {
            None => Ok(None),
            Some(terms) => Ok(Some(Args::new(alloc, terms)?)),
        }
    }

    /// The arguments with all that they stand for put in: the very same where that changes nothing.
    #[cycle(resolve)]
    pub fn resolve_args(&self, alloc: A, args: &'t Args<A>) -> Result<Args<A>, Memory>
        requires { AreSound self.now }
        ensures { IfOk result (λ resolved.
            resolved ≡ instances (value_at (subst_of self.now)) args.now) }
    {
        let replaced = self.replaced_args(alloc, args)?;
        args_or_same(args, replaced)
    }

    #[cycle(resolve)]
    fn replaced_all(
        &self,
        alloc: A,
        terms: &'t [Term<A>],
    ) -> Result<Option<Vec<Term<A>, A>>, Memory>
        requires { AreSound self.now }
        ensures { IfOk result (λ replaced. trees_by terms.now replaced
            ≡ instances (value_at (subst_of self.now)) (trees_view terms.now)) }
    {
        let mut made = None;
        for i in 0..terms.len() {
            let replaced = self.replaced(alloc, &terms[i])?;
            push_replaced(alloc, terms, i, replaced, &mut made)?;
        }
        Ok(made)
    }
}

impl<'l, 't, A: Allocator + Copy> Chains<'l, 't, A> {
    /// The term with all that it stands for put in.
    pub fn resolve(&self, alloc: A, term: &'t Term<A>) -> Result<Term<A>, Memory>
        requires { AreSound self.now }
        ensures { IfOk result (λ resolved.
            view resolved ≡ apply (subst_of self.now) (view term.now)) }
    {
        let replaced = self.replaced(alloc, term)?;
        term_or_same(term, replaced)
    }

    /// The terms with all that they stand for put in.
    pub fn resolve_all(&self, alloc: A, terms: &'t [Term<A>]) -> Result<Vec<Term<A>, A>, Memory>
        requires { AreSound self.now }
        ensures { IfOk result (λ resolved. trees_view resolved.items
            ≡ instances (value_at (subst_of self.now)) (trees_view terms.now)) }
    {
        let replaced = self.replaced_all(alloc, terms)?;
        terms_or_same(alloc, terms, replaced)
    }
}
