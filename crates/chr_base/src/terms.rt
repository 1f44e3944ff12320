//! Terms of a body with their variables replaced.
ghost use Rattle.std.specs.Prelude.{◌≡◌, ◌<◌, IfOk};
ghost use Rattle.chr_semantics.specs.Bounds.{AreBelow, IsBelow};
ghost use Rattle.chr_semantics.specs.Subst.{Subst, instance, instances};
ghost use Rattle.chr_term.specs.Replaced.{args_by, tree_by, trees_by};
ghost use Rattle.chr_term.specs.TermView.{trees_view, view};

use crate::body::Body;
use chr_term::{Args, Memory, Term, args_or_same, copy, push_replaced, term_or_same};
use std::alloc::Allocator;

impl<'a, 'm, A: Allocator + Copy> Body<'a, 'm, A> {
    ghost use Rattle.chr_base.specs.Bodies.{IsMatch, rule_in, stands_for};

    /// What a variable of the rule stands for. A matched term is shared.
    fn variable(&self, var: u64) -> Result<Term<A>, Memory>
        requires { var < (rule_in self.now).vars }
        ensures { IfOk result (λ built. (m : Subst) → IsMatch self.now m → view built ≡ stands_for self.now m var) }
    {
        let head_vars = self.rule.head_vars() as u64;
        if var >= head_vars {
            return Ok(Term::Var(self.next + (var - head_vars)));
        }
        match self.matching.get(var) {
            Some(matched) => copy(matched),
            None => Ok(Term::Var(var)),
        }
    }

    /// What stands in the place of a term of the rule: nothing where it is that term itself.
    #[cycle(build)]
    fn new_term(&self, term: &Term<A>) -> Result<Option<Term<A>>, Memory>
        requires { IsBelow (rule_in self.now).vars (view term.now) }
        ensures { IfOk result (λ built. (m : Subst) → IsMatch self.now m →
            tree_by (view term.now) built ≡ instance (stands_for self.now m) (view term.now)) }
    {
        match term {
            Term::Var(x) => Ok(Some(self.variable(*x)?)),
            Term::Int(_) => Ok(None),
            Term::Node(sym, args) => match self.new_args(args)? {
                None => Ok(None),
                Some(args) => Ok(Some(Term::Node(*sym, args))),
            },
        }
    }

    #[cycle(build)]
    fn new_args(&self, args: &Args<A>) -> Result<Option<Args<A>>, Memory>
        requires { AreBelow (rule_in self.now).vars args.now }
        ensures { IfOk result (λ built. (m : Subst) → IsMatch self.now m →
            args_by args.now built ≡ instances (stands_for self.now m) args.now) }
    {
        match self.new_terms(args.as_slice())? {
            None => Ok(None),
            Some(terms) => Ok(Some(Args::new(self.alloc, terms)?)),
        }
    }

    #[cycle(build)]
    fn new_terms(&self, terms: &[Term<A>]) -> Result<Option<Vec<Term<A>, A>>, Memory>
        requires { AreBelow (rule_in self.now).vars (trees_view terms.now) }
        ensures { IfOk result (λ built. (m : Subst) → IsMatch self.now m →
            trees_by terms.now built ≡ instances (stands_for self.now m) (trees_view terms.now)) }
    {
        let mut made = None;
        for i in 0..terms.len() {
            let replaced = self.new_term(&terms[i])?;
            push_replaced(self.alloc, terms, i, replaced, &mut made)?;
        }
        Ok(made)
    }

    /// The term with its variables replaced by what they stand for.
    pub(crate) fn term(&self, term: &Term<A>) -> Result<Term<A>, Memory>
        requires { IsBelow (rule_in self.now).vars (view term.now) }
        ensures { IfOk result (λ built. (m : Subst) → IsMatch self.now m →
            view built ≡ instance (stands_for self.now m) (view term.now)) }
    {
        let replaced = self.new_term(term)?;
        term_or_same(term, replaced)
    }

    /// The arguments with their variables replaced by what they stand for.
    pub(crate) fn args(&self, args: &Args<A>) -> Result<Args<A>, Memory>
        requires { AreBelow (rule_in self.now).vars args.now }
        ensures { IfOk result (λ built. (m : Subst) → IsMatch self.now m →
            built ≡ instances (stands_for self.now m) args.now) }
    {
        let replaced = self.new_args(args)?;
        args_or_same(args, replaced)
    }
}
