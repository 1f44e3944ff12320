//! The stamps of a footprint, added up.
ghost use Rattle.std.specs.Prelude.{◌≡◌, ◌*◌, ◌+◌, ◌^◌, ◌≤◌, ◌∷◌, map};
ghost use Rattle.chr_semantics.specs.Footprint.{marks_added};
ghost use Rattle.chr_semantics.specs.Program.{occurrence};
ghost use Rattle.chr_semantics.specs.Touch.{footprint_of};
ghost use Rattle.chr_rules.specs.ProgramView.{rules_of};
ghost use Rattle.chr_rules.specs.RuleView.{rule_view};
ghost use Rattle.chr_store.specs.HistoryView.{entries_view};
ghost use Rattle.chr_store.specs.StoreView.{store_view};
ghost use Rattle.chr_laws.specs.Sums.{sum_of};
ghost use Rattle.chr_core.specs.Marks.{mark_stamp, marks_of};

use chr_rules::{Program, Rule};
use chr_store::{History, Store};
use chr_term::Sym;
use std::alloc::Allocator;

/// The stamps of a rule and of the symbols of its heads, added up.
fn rule_touches<A: Allocator>(
    rule: &Rule<A>,
    number: usize,
    store: &Store<A>,
    history: &History<A>,
) -> u128
    ensures { result ≡ sum_of (mark_stamp (store_view store.now) (entries_view history.now))
        (marks_of number (rule_view rule.now)) }
{
    let mut sum = history.stamp(number) as u128;
    for head in &rule.heads {
        sum += store.stamp(head.0) as u128;
    }
    sum
}

/// How often the footprint of an occurrence of a symbol was touched: the stamps of its rule and of the symbols of that rule's heads, added
/// up. It is 0 where the symbol has no such occurrence.
pub(crate) fn touches<A: Allocator>(
    program: &Program<A>,
    sym: Sym,
    number: u32,
    store: &Store<A>,
    history: &History<A>,
) -> u128
    ensures { result ≡ sum_of (mark_stamp (store_view store.now) (entries_view history.now))
        (footprint_of (occurrence (rules_of program.now) sym.0 number)) }
{
    match program.occurrence(sym, number) {
        None => 0,
        Some(found) => rule_touches(program.rule(found.rule), found.rule, store, history),
    }
}

/// How many heads of a rule have a symbol.
fn own_heads<A: Allocator>(rule: &Rule<A>, sym: Sym, number: usize) -> u128
    ensures { result ≡ sum_of (marks_added sym.0) (marks_of number (rule_view rule.now)) }
{
    // For the proof, which speaks of the rule by its number.
    let _number = number;
    let mut sum = 0;
    for head in &rule.heads {
        if head.0 == sym {
            sum += 1;
        }
    }
    sum
}

/// How much the Activate of a constraint of a symbol adds to the touches of the footprint of an occurrence of that symbol.
pub(crate) fn own_touches<A: Allocator>(program: &Program<A>, sym: Sym, number: u32) -> u128
    ensures { result ≡ sum_of (marks_added sym.0)
        (footprint_of (occurrence (rules_of program.now) sym.0 number)) }
{
    match program.occurrence(sym, number) {
        None => 0,
        Some(found) => own_heads(program.rule(found.rule), sym, found.rule),
    }
}
