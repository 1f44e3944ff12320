//! Symbols that no body and no query makes, and symbols that stand nowhere.
ghost use Rattle.std.specs.Prelude.{◌≡◌, ◌<◌, ◌==◌, ℕ, IfOk, Some, length, map, not, replicate, false, slice_get, vec_len};
ghost use Rattle.std.specs.List.{list_any};
ghost use Rattle.chr_semantics.specs.Program.{Rule as SemanticRule};
ghost use Rattle.chr_semantics.specs.Suspicion.{has_head, is_made, is_unused, makes};
ghost use Rattle.chr_rules.specs.ProgramView.{names_of, rules_of};
ghost use Rattle.chr_rules.specs.RuleView.{goal_view, rule_view};
ghost use Rattle.chr_suspicions.specs.Marks.{Marks};

use crate::Memory;
use chr_rules::{Goal, Program, Rule};
use chr_term::Sym;
use std::alloc::Allocator;

/// Sets the flag of a symbol, where it has one.
fn mark(flags: &mut [bool], sym: Sym)
    ensures { Marks flags.old (λ f. sym.0 == f) flags.new }
{
    let place = sym.0 as usize;
    if place < flags.len() {
        flags[place] = true;
    }
}

/// Sets the flag of the symbol of a goal, where that is a constraint.
fn mark_goal<A: Allocator>(flags: &mut [bool], goal: &Goal<A>)
    ensures { Marks flags.old (λ f. makes f (goal_view goal.now)) flags.new }
{
    match goal {
        Goal::Chr(sym, _) => mark(flags, *sym),
        Goal::Told(_, _, _) => {}
        Goal::Fail => {}
    }
}

/// Sets the flags of the symbols that goals make.
fn mark_goals<A: Allocator>(flags: &mut [bool], goals: &[Goal<A>])
    ensures { Marks flags.old (λ f. list_any (makes f) (map goal_view goals.now)) flags.new }
{
    for goal in goals {
        mark_goal(flags, goal);
    }
}

/// Sets the flags of the symbols of a rule's heads.
fn mark_heads<A: Allocator>(flags: &mut [bool], rule: &Rule<A>)
    ensures { Marks flags.old (λ f. has_head f (rule_view rule.now)) flags.new }
{
    for head in &rule.heads {
        mark(flags, head.0);
    }
}

/// Sets the flags of the symbols that the bodies of a program make.
fn mark_bodies<A: Allocator>(flags: &mut [bool], program: &Program<A>)
    ensures { Marks flags.old (λ f. list_any (λ (r : SemanticRule). list_any (makes f) r.body) (rules_of program.now)) flags.new }
{
    for k in 0..program.rules() {
        mark_goals(flags, program.rule(k).body.as_slice());
    }
}

/// Sets the flags of the symbols of a program's heads.
fn mark_all_heads<A: Allocator>(flags: &mut [bool], program: &Program<A>)
    ensures { Marks flags.old (λ f. list_any (has_head f) (rules_of program.now)) flags.new }
{
    for k in 0..program.rules() {
        mark_heads(flags, program.rule(k));
    }
}

/// A flag for each symbol of a program.
fn no_flags<A: Allocator + Copy>(alloc: A, program: &Program<A>) -> Result<Vec<bool, A>, Memory>
    ensures { IfOk result (λ flags. flags.items ≡ replicate (length (names_of program.now)) false) }
{
    Ok(vec![in alloc; false; program.names().len()]?)
}

/// The flags that say the opposite.
fn turned<A: Allocator + Copy>(alloc: A, flags: &[bool]) -> Result<Vec<bool, A>, Memory>
    ensures { IfOk result (λ turned. turned.items ≡ map not flags.now) }
{
    flags.iter().map(|flag| !*flag).collect(alloc)
}

/// A flag for each symbol of the program, by its number: whether a body, or one of these goals of a query, makes constraints of it. The only
/// error is want of memory.
pub fn made_symbols<A: Allocator + Copy>(
    alloc: A,
    program: &Program<A>,
    goals: &[Goal<A>],
) -> Result<Vec<bool, A>, Memory>
    ensures len { IfOk result (λ made. vec_len made ≡ length (names_of program.now)) }
    ensures made { IfOk result (λ made. (f : ℕ) → f < length (names_of program.now) →
        slice_get made.items f ≡ Some (is_made (rules_of program.now) (map goal_view goals.now) f)) }
{
    let mut made = no_flags(alloc, program)?;
    mark_bodies(made.as_mut_slice(), program);
    mark_goals(made.as_mut_slice(), goals);
    Ok(made)
}

/// A flag for each symbol of the program, by its number: whether it stands in no head, in no body and not in these goals of a query. The
/// only error is want of memory.
pub fn unused_symbols<A: Allocator + Copy>(
    alloc: A,
    program: &Program<A>,
    goals: &[Goal<A>],
) -> Result<Vec<bool, A>, Memory>
    ensures len { IfOk result (λ unused. vec_len unused ≡ length (names_of program.now)) }
    ensures unused { IfOk result (λ unused. (f : ℕ) → f < length (names_of program.now) →
        slice_get unused.items f ≡ Some (is_unused (rules_of program.now) (map goal_view goals.now) f)) }
{
    let mut used = made_symbols(alloc, program, goals)?;
    mark_all_heads(used.as_mut_slice(), program);
    turned(alloc, used.as_slice())
}
