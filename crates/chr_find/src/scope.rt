//! What a snapshot has of a store and a history.
ghost use Rattle.std.specs.Prelude.{◌≡◌, Bool, false, true, ℕ};
ghost use Rattle.chr_semantics.specs.Keys.{clashes, clashes_with};
ghost use Rattle.chr_semantics.specs.Match as semantics;
ghost use Rattle.chr_semantics.specs.Tree.{Trees};
ghost use Rattle.chr_rules.specs.RuleView.{rule_view};
ghost use Rattle.chr_store.specs.Rows.{row_atom};
ghost use Rattle.chr_term.specs.TermView.{atom_view};

use chr_rules::Rule;
use chr_store::{Key, Row, Store};
use chr_term::{Sym, Term};
use std::alloc::Allocator;

/// Which constraints and firings are taken.
#[derive(Clone, Copy, Drop)]
pub(crate) enum Scope<'a, A: Allocator> {
    Nothing,
    /// What the search of a rule can look at, given with its number.
    Rule(usize, &'a Rule<A>),
    Whole,
}

/// Whether the constraint does not fit the head, by its symbol and its first argument.
fn clashes_with<A: Allocator>(sym: Sym, args: &[Term<A>], row: &Row<A>) -> bool
    ensures { (i : ℕ) (passive : Bool) → result ≡ clashes_with (i, row_atom row.now)
        (record { atom = atom_view sym args.now; passive = passive }) }
{
    if sym != row.sym {
        return true;
    }
    let wanted = match Key::of_first(args) {
        None => return false,
        Some(key) => key,
    };
    match Key::of_first(row.args.as_slice()) {
        None => true,
        Some(key) => wanted != key,
    }
}

/// Whether that is so of each head of the rule.
fn clashes<A: Allocator>(rule: &Rule<A>, row: &Row<A>) -> bool
    ensures { (i : ℕ) → result ≡ clashes (rule_view rule.now) (i, row_atom row.now) }
{
    for (sym, args) in &rule.heads {
        if !clashes_with(*sym, args.as_slice(), row) {
            return false;
        }
    }
    true
}

/// Whether the rule has a head of the symbol.
fn has_head<A: Allocator>(rule: &Rule<A>, sym: Sym) -> bool
    ensures { result ≡ false → (i : ℕ) (ts : Trees) →
        clashes (rule_view rule.now) (i, record { sym = sym.0; args = ts }) ≡ true }
{
    for (other, _) in &rule.heads {
        if *other == sym {
            return true;
        }
    }
    false
}

impl<'a, A: Allocator> Scope<'a, A> {
    ghost use Rattle.chr_find.specs.ScopeView.{keeps_row, keeps_rule};

    /// All of a store.
    pub(crate) fn whole(_store: &'a Store<A>) -> Scope<'a, A>
        ensures rows { (c : semantics.Row) → keeps_row result c ≡ true }
        ensures rules { (n : ℕ) → keeps_rule result n ≡ true }
    {
        Scope::Whole
    }

    /// Whether some constraint of the symbol may be taken.
    pub(crate) fn has_symbol(&self, sym: Sym) -> bool
        ensures { result ≡ false → (i : ℕ) (ts : Trees) →
            keeps_row self.now (i, record { sym = sym.0; args = ts }) ≡ false }
    {
        match self {
            Scope::Nothing => false,
            Scope::Rule(_, rule) => has_head(rule, sym),
            Scope::Whole => true,
        }
    }

    /// Whether a constraint is taken.
    pub(crate) fn has_row(&self, row: &Row<A>) -> bool
        ensures { (i : ℕ) → result ≡ keeps_row self.now (i, row_atom row.now) }
    {
        match self {
            Scope::Nothing => false,
            Scope::Rule(_, rule) => !clashes(rule, row),
            Scope::Whole => true,
        }
    }

    /// Whether the firings of a rule are taken.
    pub(crate) fn has_rule(&self, number: usize) -> bool
        ensures { result ≡ keeps_rule self.now number }
    {
        match self {
            Scope::Nothing => false,
            Scope::Rule(other, _) => number == *other,
            Scope::Whole => true,
        }
    }
}
