//! What the variables of a rule are matched to.
ghost use Rattle.chr_bind.specs.MatchedTerms.{AreFilled};

use chr_semantics::limits::MAX_RULE_VARIABLES;
use chr_term::Term;
use std::alloc::{Allocator, Global};

/// Which variables of a match are matched: a bit for each, and there are no more variables than bits.
#[derive(Clone, Copy, Drop)]
pub struct Marks {
    marks: u64,
}

impl Marks {
    ghost use Rattle.std.specs.Prelude.{◌≡◌, ◌<◌};
    ghost use Rattle.chr_bind.specs.MatchedTerms.{is_marked, with_mark};

    /// Whether a variable is marked.
    fn has(self, var: usize) -> bool
        requires { var < MAX_RULE_VARIABLES }
        ensures { result ≡ is_marked self.marks var }
    {
        (self.marks >> var) & 1 == 1
    }

    /// Marks a variable.
    fn put(&mut self, var: usize)
        requires { var < MAX_RULE_VARIABLES }
        ensures { self.new.marks ≡ with_mark self.old.marks var }
    {
        self.marks |= 1 << var;
    }
}

/// Places for terms, by the numbers of variables.
#[derive(Drop)]
struct MatchedTerms<'t, A: Allocator> {
    terms: [Option<&'t Term<A>>; MAX_RULE_VARIABLES],
}

impl<'t, A: Allocator> MatchedTerms<'t, A> {
    ghost use Rattle.std.specs.Prelude.{◌≡◌, ◌<◌, ◌==◌, ℕ, Some, cond};
    ghost use Rattle.chr_term.specs.TermView.{view};
    ghost use Rattle.chr_bind.specs.MatchedTerms.{tree_at};

    /// Puts a term at the place of a variable.
    fn put(&mut self, var: usize, term: &'t Term<A>)
        requires { var < MAX_RULE_VARIABLES }
        ensures { (x : ℕ) → tree_at self.new.terms x
            ≡ cond (x == var) (Some (view term.now)) (tree_at self.old.terms x) }
    {
        let terms = &mut self.terms[..];
        terms[var] = Some(term);
    }
}

/// What the variables of a rule are matched to: references to terms, of which none is copied.
#[derive(Drop)]
pub struct Match<'t, A: Allocator = Global> {
    /// What a variable is matched to, where it is marked; else it means nothing.
    matched: MatchedTerms<'t, A>,
    marks: Marks,
    ghost filled: { AreFilled marks.marks matched.terms },
}

impl<'t, A: Allocator> Match<'t, A> {
    ghost use Rattle.std.specs.Prelude.{◌≡◌, ◌<◌, ◌∷◌, [], None, option_map};
    ghost use Rattle.chr_semantics.specs.Subst.{Subst};
    ghost use Rattle.chr_term.specs.TermView.{view};
    ghost use Rattle.chr_bind.specs.Matching.{AgreesWith, AreMarksOf, Covers, GoesBack, Keeps, matched_tree};

    /// Nothing is matched.
    pub fn new() -> Match<'t, A>
        ensures { AgreesWith result [] }
    {
        Match {
            matched: MatchedTerms {
                terms: [None; MAX_RULE_VARIABLES],
            },
            marks: Marks { marks: 0 },
        }
    }

    /// What a variable is matched to.
    pub fn get(&self, var: u64) -> Option<&'t Term<A>>
        ensures { option_map (λ term. view term.now) result ≡ matched_tree self.now var }
    {
        let place = var as usize;
        let matched = &self.matched.terms[..];
        if place < matched.len() && self.marks.has(place) {
            matched[place]
        } else {
            None
        }
    }

    /// Which variables are matched, to go back to.
    pub fn marks(&self) -> Marks
        ensures { AreMarksOf result self.now }
    {
        self.marks
    }

    /// Goes back to where these variables were matched, and no others: what was matched then is matched to the same still.
    pub fn back_to(&mut self, marks: &Marks)
        requires { Covers self.old marks.now }
        ensures { GoesBack marks.now self.old self.new }
    {
        self.marks = *marks;
    }

    /// Matches a variable that is not matched.
    pub(crate) fn put(&mut self, var: usize, term: &'t Term<A>)
        requires small { var < MAX_RULE_VARIABLES }
        requires free { matched_tree self.old var ≡ None }
        ensures agrees { (m : Subst) → AgreesWith self.old m → AgreesWith self.new ((var, view term.now) ∷ m) }
        ensures kept { Keeps self.old self.new }
    {
        self.matched.put(var, term);
        self.marks.put(var);
    }
}
