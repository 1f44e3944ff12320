//! The occurrences of each symbol.
ghost use Rattle.std.specs.Prelude.{◌≡◌, ◌<◌, ◌++◌, ◌∷◌, [], ◌==◌, ℕ, if◌then◌else◌, IfOk, OnOk, slice_get, vec_len};
ghost use Rattle.chr_semantics.specs.Program.{occurrences_in};
ghost use Rattle.chr_rules.specs.Index.{AreListed, pairs_in, pair_view, pairs_of};
ghost use Rattle.chr_rules.specs.RuleView.{flag_at, rule_view, rules_view};

use crate::rule::Rule;
use chr_term::{Memory, Sym};
use std::alloc::Allocator;

/// A head that a constraint can be active at, by its rule and its place in the rule, both from 0.
#[derive(Clone, Copy, PartialEq, Eq, Debug, Drop)]
pub struct Occurrence {
    /// The number of the rule.
    pub rule: usize,
    /// The place of the head, from left to right.
    pub place: usize,
}

/// Makes a place in the index for a symbol.
fn place_for<A: Allocator + Copy>(
    alloc: A,
    index: &mut Vec<Vec<Occurrence, A>, A>,
    sym: Sym,
) -> Result<(), Memory>
    ensures kept { (f : ℕ) → pairs_in (slice_get index.new.items f)
        ≡ pairs_in (slice_get index.old.items f) }
    ensures room { OnOk result (sym.0 < vec_len index.new) }
{
    while index.len() <= sym.0 as usize {
        index.push(Vec::new(alloc))?;
    }
    Ok(())
}

/// Appends an occurrence to those of a symbol.
fn append<A: Allocator + Copy>(
    alloc: A,
    index: &mut Vec<Vec<Occurrence, A>, A>,
    sym: Sym,
    occurrence: Occurrence,
) -> Result<(), Memory>
    ensures { OnOk result
        ((f : ℕ) → pairs_in (slice_get index.new.items f) ≡ pairs_in (slice_get index.old.items f)
        ++ (if sym.0 == f then pair_view occurrence ∷ [] else [])) }
{
    place_for(alloc, index, sym)?;
    let places = &mut index[sym.0 as usize];
    places.push(occurrence)?;
    Ok(())
}

/// Appends the occurrences of a rule, its heads from right to left.
fn append_rule<A: Allocator + Copy>(
    alloc: A,
    index: &mut Vec<Vec<Occurrence, A>, A>,
    number: usize,
    rule: &Rule<A>,
) -> Result<(), Memory>
    ensures { OnOk result
        ((f : ℕ) → pairs_in (slice_get index.new.items f) ≡ pairs_in (slice_get index.old.items f)
        ++ pairs_of (occurrences_in number (rule_view rule.now) f)) }
{
    for place in (0..rule.heads.len()).rev() {
        let sym = rule.heads[place].0;
        if !is_passive(rule, place) {
            append(
                alloc,
                index,
                sym,
                Occurrence {
                    rule: number,
                    place,
                },
            )?;
        }
    }
    Ok(())
}

/// Whether the head at the place is passive.
fn is_passive<A: Allocator>(rule: &Rule<A>, place: usize) -> bool
    ensures { result ≡ flag_at rule.now.passive.items place }
{
    if place < rule.passive.len() {
        rule.passive[place]
    } else {
        false
    }
}

/// The occurrences of each symbol.
pub(crate) fn index_of<A: Allocator + Copy>(
    alloc: A,
    rules: &[Rule<A>],
) -> Result<Vec<Vec<Occurrence, A>, A>, Memory>
    ensures { IfOk result (λ index. AreListed index.items (rules_view rules.now)) }
{
    let mut index = Vec::new(alloc);
    for number in 0..rules.len() {
        append_rule(alloc, &mut index, number, &rules[number])?;
    }
    Ok(index)
}
