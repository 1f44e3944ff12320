//! Which lookups are worth their price, by the rules of a program.
ghost use Rattle.std.specs.Prelude.{◌≡◌, ◌<◌, vec_len};
ghost use Rattle.chr_semantics.specs.Subst.{occurs, occurs_any};
ghost use Rattle.chr_term.specs.TermView.{trees_view, view};

use crate::Memory;
use crate::plan::{Lookup, Plan};
use chr_rules::{Program, Rule};
use chr_term::{Sym, Term};
use std::alloc::Allocator;

/// Whether the variable occurs in the term.
#[cycle(occurs)]
fn occurs<A: Allocator>(var: u64, term: &Term<A>) -> bool
    ensures { result ≡ occurs var (view term.now) }
{
    match term {
        Term::Var(x) => var == *x,
        Term::Int(_) => false,
        Term::Node(_, args) => occurs_any(var, args.as_slice()),
    }
}

/// Whether the variable occurs in the terms.
#[cycle(occurs)]
fn occurs_any<A: Allocator>(var: u64, terms: &[Term<A>]) -> bool
    ensures { result ≡ occurs_any var (trees_view terms.now) }
{
    for term in terms {
        if occurs(var, term) {
            return true;
        }
    }
    false
}

/// Whether a search for the own head has matched the variable before it looks for the head at the level: by the own one, or by an earlier
/// one.
fn is_matched<A: Allocator>(rule: &Rule<A>, own: usize, level: usize, var: u64) -> bool {
    for other in 0..rule.heads.len() {
        let is_before = other == own || other < level;
        if is_before && occurs_any(var, rule.heads[other].1.as_slice()) {
            return true;
        }
    }
    false
}

/// Whether that search knows then what a partner has to have in the place of the pattern.
fn is_known<A: Allocator>(rule: &Rule<A>, own: usize, level: usize, pattern: &Term<A>) -> bool {
    match pattern {
        Term::Var(x) => is_matched(rule, own, level, *x),
        Term::Int(_) | Term::Node(_, _) => true,
    }
}

/// Whether that search knows it at some position.
fn knows_some<A: Allocator>(rule: &Rule<A>, own: usize, level: usize) -> bool
    requires { level < vec_len rule.now.heads }
{
    for pattern in &rule.heads[level].1 {
        if is_known(rule, own, level, pattern) {
            return true;
        }
    }
    false
}

/// Whether searches for the rule's heads ask if a partner is new: those that go on where the last one ended, behind two heads or more.
fn asks_for_new<A: Allocator>(rule: &Rule<A>) -> bool {
    rule.kept > 0 && rule.heads.len() > 2
}

impl<A: Allocator + Copy> Plan<A> {
    /// The lookups for the rules of a program: by the positions at which a search knows what a partner has to have there, and by the symbol
    /// alone where it knows no position, or asks if a partner is new.
    pub fn of(alloc: A, program: &Program<A>) -> Result<Plan<A>, Memory> {
        let mut plan = Plan {
            lookups: Vec::new(alloc),
            others: Vec::new(alloc),
        };
        for k in 0..program.rules() {
            plan.add_rule(alloc, program.rule(k), false)?;
        }
        for k in 0..program.rules() {
            plan.add_rule(alloc, program.rule(k), true)?;
        }
        Ok(plan)
    }

    /// Adds the lookups for the heads of a rule: by their symbols alone, or else by their positions.
    fn add_rule(&mut self, alloc: A, rule: &Rule<A>, by_symbol: bool) -> Result<(), Memory> {
        for level in 0..rule.heads.len() {
            self.add_head(alloc, rule, level, by_symbol)?;
        }
        Ok(())
    }

    /// Adds those for a head, for each other one that can be the own head of a search.
    fn add_head(
        &mut self,
        alloc: A,
        rule: &Rule<A>,
        level: usize,
        by_symbol: bool,
    ) -> Result<(), Memory>
        requires { level < vec_len rule.now.heads }
    {
        for own in 0..rule.heads.len() {
            if own == level || rule.passive[own] {
                continue;
            }
            if !by_symbol {
                self.add_positions(alloc, rule, own, level)?;
            } else if asks_for_new(rule) || !knows_some(rule, own, level) {
                self.put(alloc, rule.heads[level].0, Lookup::Symbol)?;
            }
        }
        Ok(())
    }

    /// Adds the positions of a head that a search for the own head knows.
    fn add_positions(
        &mut self,
        alloc: A,
        rule: &Rule<A>,
        own: usize,
        level: usize,
    ) -> Result<(), Memory>
        requires { level < vec_len rule.now.heads }
    {
        let (sym, args) = &rule.heads[level];
        let mut position = 0u8;
        for pattern in args {
            if is_known(rule, own, level, pattern) {
                self.put(alloc, *sym, Lookup::Position(position))?;
            }
            position = position.saturating_add(1);
        }
        Ok(())
    }

    /// Adds a lookup for a symbol.
    fn put(&mut self, alloc: A, sym: Sym, lookup: Lookup) -> Result<(), Memory> {
        while self.lookups.len() <= sym.0 as usize {
            self.lookups.push(Vec::new(alloc))?;
        }
        let lookups = &mut self.lookups[sym.0 as usize];
        if !lookups.contains(&lookup) {
            lookups.push(lookup)?;
        }
        Ok(())
    }
}
