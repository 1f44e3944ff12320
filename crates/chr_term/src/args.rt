//! Arguments: terms that are shared.
ghost use Rattle.std.specs.Prelude.{◌≡◌, ◌≤◌, ◌+◌, ◌*◌, IfOk, MatchResult};
ghost use Rattle.chr_semantics.specs.Tree.{is_ground_trees, node};
ghost use Rattle.chr_term.specs.Depth.{depth};
ghost use Rattle.chr_term.specs.Size.{size_all};
ghost use Rattle.chr_term.specs.TermView.{trees_view, view};

use crate::Memory;
use crate::term::{Sym, Term, are_ground};
use std::alloc::{Allocator, Global};
use std::marker::Model;
use std::sync::Arc;

/// Terms that several owners share: to have them again costs a pointer. They never change. Contracts see the list of their trees.
#[derive(Drop)]
#[cycle(term)]
pub struct Args<A: Allocator = Global> {
    terms: Arc<Vec<Term<A>, A>, A>,
    /// Whether no variable occurs in them: so no call walks through a term to see it.
    is_ground: bool,
}

impl<A: Allocator> Model for Args<A> {
    ghost use Rattle.chr_semantics.specs.Tree.{Trees};

    ghost Value = { Trees };

    ghost use Rattle.chr_term.specs.Code.{trees_code};

    ghost coded = { trees_code };

    ghost use Rattle.std.specs.Arc.{arc_value};
    ghost use Rattle.chr_term.specs.Size.{size_all};
    ghost use Rattle.chr_term.specs.TermView.{trees_view};

    ghost view = { λ args. trees_view (arc_value args.terms).items };

    ghost use Rattle.std.specs.Prelude.{◌≡◌};
    ghost use Rattle.chr_semantics.specs.Tree.{is_ground_trees};

    ghost invariant = { λ args. args.is_ground ≡ is_ground_trees (trees_view (arc_value args.terms).items) };

    ghost size = { size_all };

    ghost use Rattle.chr_term.specs.Depth.{most_le-size_all};

    ghost size_decreases = { λ args h. most_le-size_all A.Allocator (arc_value args.terms).items };
}

impl<A: Allocator> Args<A> {
    /// The terms.
    pub fn as_slice(&self) -> &[Term<A>]
        ensures value { trees_view result.now ≡ self.now }
        ensures depth { depth A.Allocator result.now ≤ 2 * size_all self.now + 1 }
    {
        self.terms.as_slice()
    }

    /// Whether no variable occurs in them. It is known, and takes no walk.
    pub fn is_ground(&self) -> bool
        ensures { result ≡ is_ground_trees self.now }
    {
        self.is_ground
    }

    /// The terms a second time, for a pointer. That takes no memory, but it is refused to the owner after 2^63 others, as memory is.
    pub fn again(&self) -> Result<Args<A>, Memory>
        ensures { IfOk result (λ again. again ≡ self.now) }
    {
        Ok(Args {
            terms: Arc::try_clone(&self.terms)?,
            is_ground: self.is_ground,
        })
    }
}

impl<A: Allocator + Copy> Args<A> {
    /// Terms that are shared from now on, by one growth.
    pub fn new(alloc: A, terms: Vec<Term<A>, A>) -> Result<Args<A>, Memory>
        ensures { IfOk result (λ args. args ≡ trees_view terms.items) }
    {
        let is_ground = are_ground(terms.as_slice());
        Ok(Args {
            terms: Arc::new(alloc, terms)?,
            is_ground,
        })
    }

    /// The terms, for their last owner; else the same again.
    pub fn into_vec(self) -> Result<Vec<Term<A>, A>, Args<A>>
        ensures { MatchResult result (λ terms. trees_view terms.items ≡ self) (λ args. args ≡ self) }
    {
        let Args { terms, is_ground } = self;
        match Arc::try_unwrap(terms) {
            Ok(terms) => Ok(terms),
            Err(terms) => Err(Args { terms, is_ground }),
        }
    }

    /// The terms a second time, for a pointer. Where that is refused, they get a list of their own.
    #[cycle(copy)]
    pub fn share(&self) -> Result<Args<A>, Memory>
        ensures { IfOk result (λ shared. shared ≡ self.now) }
    {
        match self.again() {
            Ok(args) => Ok(args),
            Err(_) => {
                let alloc = *self.terms.allocator();
                Args::new(alloc, copy_all(alloc, self.as_slice())?)
            }
        }
    }
}

impl<A: Allocator + Copy> Term<A> {
    /// A symbol over terms, by one growth.
    pub fn node(alloc: A, sym: Sym, args: Vec<Term<A>, A>) -> Result<Term<A>, Memory>
        ensures { IfOk result (λ term. view term ≡ node sym.0 (trees_view args.items)) }
    {
        Ok(Term::Node(sym, Args::new(alloc, args)?))
    }
}

/// The term a second time, for a pointer.
#[cycle(copy)]
pub fn copy<A: Allocator + Copy>(term: &Term<A>) -> Result<Term<A>, Memory>
    ensures { IfOk result (λ copied. view copied ≡ view term.now) }
{
    match term {
        Term::Var(x) => Ok(Term::Var(*x)),
        Term::Int(z) => Ok(Term::Int(*z)),
        Term::Node(sym, args) => Ok(Term::Node(*sym, args.share()?)),
    }
}

/// The terms a second time, in a list of their own.
#[cycle(copy)]
pub fn copy_all<A: Allocator + Copy>(alloc: A, terms: &[Term<A>]) -> Result<Vec<Term<A>, A>, Memory>
    ensures { IfOk result (λ copied. trees_view copied.items ≡ trees_view terms.now) }
{
    let mut copied = Vec::with_capacity(alloc, terms.len())?;
    for term in terms {
        copied.push(copy(term)?)?;
    }
    Ok(copied)
}
