//! Rules that never fire, that come too late, or that look before duplicates are gone.
ghost use Rattle.std.specs.Prelude.{◌≡◌, ◌==◌, ℕ, Bool, List};
ghost use Rattle.std.specs.List.{list_all, list_any};
ghost use Rattle.chr_semantics.specs.Bounds.{AreBelow, IsBounded};
ghost use Rattle.chr_semantics.specs.Match.{fit_atom};
ghost use Rattle.chr_semantics.specs.Program.{Head};
ghost use Rattle.chr_semantics.specs.Subst.{Subst};
ghost use Rattle.chr_semantics.specs.Suspicion.{covers, drops_duplicates, has_head, is_barren, looks_before, takes_from};
ghost use Rattle.chr_semantics.specs.declared.limits.TheConstants.{MAX_RULE_VARIABLES};
ghost use Rattle.chr_bind.specs.Matching.{AgreesWith, Keeps};
ghost use Rattle.chr_term.specs.TermView.{atom_view, trees_view};
ghost use Rattle.chr_rules.specs.RuleView.{heads_from, rule_view};
ghost use Rattle.chr_suspicions.specs.Covering.{AreHeadsBelow, FitsHead, covers_under};

use chr_bind::{Match, fit_or_spoil};
use chr_rules::Rule;
use chr_semantics::limits::MAX_RULE_VARIABLES;
use chr_term::{Sym, Term, same_all};
use std::alloc::Allocator;

/// Whether all flags are set.
fn are_all_set(flags: &[bool]) -> bool
    ensures { result ≡ list_all (λ (b : Bool). b) flags.now }
{
    flags.iter().all(|flag| *flag)
}

/// Whether a flag is set.
fn is_one_set(flags: &[bool]) -> bool
    ensures { result ≡ list_any (λ (b : Bool). b) flags.now }
{
    flags.iter().any(|flag| *flag)
}

/// Whether all heads of the rule are passive, so that it never fires.
pub fn is_barren<A: Allocator>(rule: &Rule<A>) -> bool
    ensures { result ≡ is_barren (rule_view rule.now) }
{
    are_all_set(rule.passive.as_slice())
}

/// Whether a head of the rule is passive.
fn has_passive<A: Allocator>(rule: &Rule<A>) -> bool
    ensures { result ≡ list_any (λ (h : Head). h.passive) (rule_view rule.now).heads }
{
    is_one_set(rule.passive.as_slice())
}

/// Matches a head with another one, which is taken as a constraint. Where that is not possible, some variables more may be matched.
fn fits_head<'t, A: Allocator>(
    pattern: &(Sym, Vec<Term<A>, A>),
    head: &'t (Sym, Vec<Term<A>, A>),
    matching: &mut Match<'t, A>,
) -> bool
    requires { AreBelow MAX_RULE_VARIABLES (trees_view pattern.now.1.items) }
    ensures fits { FitsHead result (atom_view pattern.now.0 pattern.now.1.items)
        (atom_view head.now.0 head.now.1.items) matching.old matching.new }
    ensures kept { Keeps matching.old matching.new }
{
    pattern.0 == head.0 && fit_or_spoil(pattern.1.as_slice(), head.1.as_slice(), matching)
}

/// Whether the first of these heads matches one, and the others some of those after it.
#[cycle(covers)]
fn covers_with<'t, A: Allocator>(
    pattern: &(Sym, Vec<Term<A>, A>),
    patterns: &[(Sym, Vec<Term<A>, A>)],
    head: &'t (Sym, Vec<Term<A>, A>),
    heads: &'t [(Sym, Vec<Term<A>, A>)],
    matching: &mut Match<'t, A>,
) -> bool
    requires first { AreBelow MAX_RULE_VARIABLES (trees_view pattern.now.1.items) }
    requires others { AreHeadsBelow MAX_RULE_VARIABLES patterns.now }
    ensures covers { (m : Subst) (fs gs : List Bool) (i j : ℕ) → AgreesWith matching.old m → result ≡ covers_under
        (fit_atom (atom_view pattern.now.0 pattern.now.1.items) (atom_view head.now.0 head.now.1.items) m)
        (heads_from fs i patterns.now) (heads_from gs j heads.now) }
    ensures kept { Keeps matching.old matching.new }
{
    fits_head(pattern, head, matching) && covers(patterns, heads, matching)
}

/// Whether these heads match some of the others, in their order, which are taken as constraints. More may be matched then.
#[cycle(covers)]
fn covers<'t, A: Allocator>(
    patterns: &[(Sym, Vec<Term<A>, A>)],
    heads: &'t [(Sym, Vec<Term<A>, A>)],
    matching: &mut Match<'t, A>,
) -> bool
    requires { AreHeadsBelow MAX_RULE_VARIABLES patterns.now }
    ensures covers { (m : Subst) (fs gs : List Bool) (i j : ℕ) → AgreesWith matching.old m →
        result ≡ covers (heads_from fs i patterns.now) (heads_from gs j heads.now) m }
    ensures kept { Keeps matching.old matching.new }
{
    match (patterns.split_first(), heads.split_first()) {
        (None, _) => true,
        (Some(_), None) => false,
        (Some((pattern, others)), Some((head, heads))) => {
            let marks = matching.marks();
            if covers_with(pattern, others, head, heads, matching) {
                return true;
            }
            matching.back_to(&marks);
            covers(patterns, heads, matching)
        }
    }
}

/// Whether the earlier rule takes constraints away wherever the later one could fire: it has no guard, removes all its heads, of which none
/// is passive, and they match some of the later one's.
pub fn takes_from<A: Allocator>(earlier: &Rule<A>, later: &Rule<A>) -> bool
    requires { IsBounded (rule_view earlier.now) }
    ensures { result ≡ takes_from (rule_view earlier.now) (rule_view later.now) }
{
    if !earlier.guard.is_empty() || earlier.kept != 0 || has_passive(earlier) {
        return false;
    }
    let mut matching = Match::new();
    covers(
        earlier.heads.as_slice(),
        later.heads.as_slice(),
        &mut matching,
    )
}

/// Whether the rule keeps one of two equal constraints.
fn drops_duplicates<A: Allocator>(rule: &Rule<A>) -> bool
    ensures { result ≡ drops_duplicates (rule_view rule.now) }
{
    if !rule.guard.is_empty() || rule.kept != 1 {
        return false;
    }
    match rule.heads.as_slice() {
        [first, second] => first.0 == second.0 && same_all(first.1.as_slice(), second.1.as_slice()),
        _ => false,
    }
}

/// Whether one of these heads is of the symbol.
fn have_symbol<A: Allocator>(heads: &[(Sym, Vec<Term<A>, A>)], sym: Sym) -> bool
    ensures { result ≡ list_any (λ h. h.0.0 == sym.0) heads.now }
{
    heads.iter().any(|head| head.0.0 == sym.0)
}

/// Whether a head of the rule is of the symbol.
fn has_head<A: Allocator>(rule: &Rule<A>, sym: Sym) -> bool
    ensures { result ≡ has_head sym.0 (rule_view rule.now) }
{
    have_symbol(rule.heads.as_slice(), sym)
}

/// Whether a head of the rule is of the symbol of one of these heads.
fn shares_symbol<A: Allocator>(rule: &Rule<A>, heads: &[(Sym, Vec<Term<A>, A>)]) -> bool
    ensures { result ≡ list_any (λ h. has_head h.0.0 (rule_view rule.now)) heads.now }
{
    heads.iter().any(|head| has_head(rule, head.0))
}

/// Whether the earlier rule looks for constraints of which the later one drops duplicates.
pub fn looks_before<A: Allocator>(earlier: &Rule<A>, later: &Rule<A>) -> bool
    ensures { result ≡ looks_before (rule_view earlier.now) (rule_view later.now) }
{
    drops_duplicates(later) && shares_symbol(earlier, later.heads.as_slice())
}
