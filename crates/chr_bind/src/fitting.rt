//! One-way matching of patterns with resolved terms.
ghost use Rattle.std.specs.Prelude.{◌<◌};
ghost use Rattle.chr_semantics.specs.Bounds.{AreBelow, IsBelow};
ghost use Rattle.chr_semantics.specs.Tree.{var as variable};
ghost use Rattle.chr_term.specs.TermView.{trees_view, view};
ghost use Rattle.chr_bind.specs.Matching.{FitsAs, FitsOrSpoils, FitsTermTo, Keeps};

use crate::matching::Match;
use chr_semantics::limits::MAX_RULE_VARIABLES;
use chr_term::{Term, same};
use std::alloc::Allocator;

/// Matches the patterns with the terms, one with one, and says whether that is possible: the variables of the patterns are matched, where
/// they are not yet, so that the patterns become the terms. A variable that is matched needs an identical term. Where it is not possible,
/// the match is as before.
pub fn fit<'t, A: Allocator>(
    patterns: &[Term<A>],
    terms: &'t [Term<A>],
    matching: &mut Match<'t, A>,
) -> bool
    requires { AreBelow MAX_RULE_VARIABLES (trees_view patterns.now) }
    ensures { FitsAs result
        (trees_view patterns.now) (trees_view terms.now) matching.old matching.new }
{
    let marks = matching.marks();
    if fit_or_spoil(patterns, terms, matching) {
        return true;
    }
    matching.back_to(&marks);
    false
}

/// As `fit`, but where it is not possible, some variables more may be matched: for a match that is then taken back, or not used again.
/// What was matched stays.
pub fn fit_or_spoil<'t, A: Allocator>(
    patterns: &[Term<A>],
    terms: &'t [Term<A>],
    matching: &mut Match<'t, A>,
) -> bool
    requires { AreBelow MAX_RULE_VARIABLES (trees_view patterns.now) }
    ensures fits { FitsOrSpoils result
        (trees_view patterns.now) (trees_view terms.now) matching.old matching.new }
    ensures kept { Keeps matching.old matching.new }
{
    fit_all(patterns, terms, matching)
}

/// Matches the patterns, and leaves what was matched where it is not possible.
#[cycle(fit)]
fn fit_all<'t, A: Allocator>(
    patterns: &[Term<A>],
    terms: &'t [Term<A>],
    matching: &mut Match<'t, A>,
) -> bool
    requires { AreBelow MAX_RULE_VARIABLES (trees_view patterns.now) }
    ensures fits { FitsOrSpoils result
        (trees_view patterns.now) (trees_view terms.now) matching.old matching.new }
    ensures kept { Keeps matching.old matching.new }
{
    if patterns.len() != terms.len() {
        return false;
    }
    for i in 0..patterns.len() {
        if !fit_term(&patterns[i], &terms[i], matching) {
            return false;
        }
    }
    true
}

#[cycle(fit)]
fn fit_term<'t, A: Allocator>(
    pattern: &Term<A>,
    term: &'t Term<A>,
    matching: &mut Match<'t, A>,
) -> bool
    requires { IsBelow MAX_RULE_VARIABLES (view pattern.now) }
    ensures fits { FitsTermTo result (view pattern.now) (view term.now) matching.old matching.new }
    ensures kept { Keeps matching.old matching.new }
{
    match pattern {
        Term::Var(x) => fit_var(*x as usize, term, matching),
        Term::Int(number) => match term {
            Term::Int(other) => *number == *other,
            Term::Var(_) | Term::Node(_, _) => false,
        },
        Term::Node(sym, patterns) => match term {
            Term::Node(other, terms) => sym == other
                && fit_all(patterns.as_slice(), terms.as_slice(), matching),
            Term::Var(_) | Term::Int(_) => false,
        },
    }
}

/// Matches a variable, or compares the term with what it is matched to.
fn fit_var<'t, A: Allocator>(var: usize, term: &'t Term<A>, matching: &mut Match<'t, A>) -> bool
    requires { var < MAX_RULE_VARIABLES }
    ensures fits { FitsTermTo result (variable var) (view term.now) matching.old matching.new }
    ensures kept { Keeps matching.old matching.new }
{
    match matching.get(var as u64) {
        Some(matched) => same(matched, term),
        None => {
            matching.put(var, term);
            true
        }
    }
}
