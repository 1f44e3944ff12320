//! Verdicts on a rule and lists of constraints.
ghost use Rattle.std.specs.Prelude.{◌≡◌, ◌<◌, ◌+◌, ◌-◌, ◌^◌, ◌++◌, [], ℕ, Bool, List, IfOk, OnOk, Some, length, map, option_and_then, option_map, slice_get};
ghost use Rattle.chr_semantics.specs.Bounds.{IsBounded};
ghost use Rattle.chr_semantics.specs.Match.{fits};
ghost use Rattle.chr_semantics.specs.Program as semantics;
ghost use Rattle.chr_semantics.specs.State.{State, rows};
ghost use Rattle.chr_semantics.specs.Subst.{Subst};
ghost use Rattle.chr_semantics.specs.Verdict.{applied as applied_by, first_lack, first_of_another, of_match as of_its_match, of_rows, or_else, past, row_vars, rows_of, tested, verdict};
ghost use Rattle.chr_semantics.specs.declared.limits.TheConstants.{MAX_RULE_VARIABLES};
ghost use Rattle.chr_bind.specs.Guards.{test_view};
ghost use Rattle.chr_bind.specs.Matching.{AgreesWith};
ghost use Rattle.chr_store.specs.Numbers.{numbers};
ghost use Rattle.chr_store.specs.StoreView.{store_view};
ghost use Rattle.chr_rules.specs.RuleView.{heads_from, rule_view};
ghost use Rattle.chr_machine.specs.MachineView.{machine_view};
ghost use Rattle.chr_machine.specs.Model.{state_in};
ghost use Rattle.chr_look.specs.Matches.{AreHeadsBelow, FitsRows};
ghost use Rattle.chr_look.specs.VerdictView.{rows_view, verdict_view};

use crate::Memory;
use crate::constraint::Constraint;
use crate::hindrances::{absence, other_symbol, repetition, waiting};
use crate::joining::join_heads;
use crate::renaming::greatest_in;
use crate::verdict::Verdict;
use chr_bind::{Bindings, Match, Test, applied, fit_or_spoil, holds, lack_of};
use chr_machine::Machine;
use chr_rules::Rule;
use chr_semantics::limits::MAX_RULE_VARIABLES;
use chr_store::{Fired, HeadIds, Id, Store};
use chr_term::{Sym, Term};
use std::alloc::Allocator;

/// Puts the constraints of identities, where they live, behind others, with the bindings put in.
fn push_constraints<A: Allocator + Copy>(
    store: &Store<A>,
    bindings: &Bindings<A>,
    ids: &[Id],
    constraints: &mut Vec<Constraint<A>, A>,
) -> Result<(), Memory>
    ensures { OnOk result ((s : State) → s.store ≡ (store_view store.now).rows → s.subst ≡ bindings.now.subst →
        rows_view constraints.new.items ≡ rows_view constraints.old.items ++ rows_of (rows s) (numbers ids.now)) }
{
    let Some((id, ids)) = ids.split_first() else {
        return Ok(());
    };
    match store.row(*id) {
        None => push_constraints(store, bindings, ids, constraints),
        Some(row) => {
            constraints.push(Constraint {
                id: *id,
                sym: row.sym,
                args: bindings.resolve_args(&row.args)?,
            })?;
            push_constraints(store, bindings, ids, constraints)
        }
    }
}

/// Matches heads with constraints, and says whether that is possible. Where it is not, some variables more may be matched.
fn match_heads<'t, A: Allocator + Copy>(
    heads: &[(Sym, Vec<Term<A>, A>)],
    constraints: &'t [Constraint<A>],
    matching: &mut Match<'t, A>,
) -> bool
    requires { AreHeadsBelow MAX_RULE_VARIABLES heads.now }
    ensures { (flags : List Bool) (j : ℕ) → FitsRows result
        (heads_from flags j heads.now) (rows_view constraints.now) matching.old matching.new }
{
    match (heads.split_first(), constraints.split_first()) {
        (None, None) => true,
        (None, Some(_)) => false,
        (Some(_), None) => false,
        (Some((head, heads)), Some((constraint, constraints))) => {
            if head.0 != constraint.sym {
                return false;
            }
            if !fit_or_spoil(head.1.as_slice(), constraint.args.as_slice(), matching) {
                return false;
            }
            match_heads(heads, constraints, matching)
        }
    }
}

/// The first test of a guard, counted from k, that is not entailed by the match, if one is not.
fn judge_guard<A: Allocator + Copy>(
    alloc: A,
    k: usize,
    tests: &[Test<A>],
    matching: &Match<'_, A>,
) -> Result<Verdict<A>, Memory>
    requires { k + length tests.now < 2 ^ 64 }
    ensures { IfOk result (λ judged. (m : Subst) → AgreesWith matching.now m →
        verdict_view judged ≡ first_lack m k (map test_view tests.now)) }
{
    match tests.split_first() {
        None => Ok(Verdict::CouldFire),
        Some((test, tests)) => {
            if holds(alloc, test, matching)? {
                judge_guard(alloc, k + 1, tests, matching)
            } else {
                Ok(Verdict::Guard(k, lack_of(alloc, test, matching)?))
            }
        }
    }
}

/// The verdict on constraints that these bindings make equal to the heads of the rule.
fn judge_match<A: Allocator + Copy>(
    alloc: A,
    rule: &Rule<A>,
    constraints: &[Constraint<A>],
    bindings: &Bindings<A>,
) -> Result<Verdict<A>, Memory>
    requires { IsBounded (rule_view rule.now) }
    ensures { let r = rule_view rule.now in let cs = rows_view constraints.now in
        IfOk result (λ judged. verdict_view judged ≡ of_its_match r cs bindings.now.subst (fits r.heads cs)) }
{
    let mut matching = Match::new();
    if match_heads(rule.heads.as_slice(), constraints, &mut matching) {
        return judge_guard(alloc, 1, rule.guard.as_slice(), &matching);
    }
    // The bindings say there that they are solved.
    let _variables = bindings.len();
    match waiting(bindings, 1, constraints) {
        Some(waits) => Ok(waits),
        None => Ok(Verdict::Waits(0, 0)),
    }
}

/// Bindings of nothing, with room past the variables of the constraints for those of a rule, and the number of the first of these.
fn bindings_past<A: Allocator + Copy>(
    alloc: A,
    constraints: &[Constraint<A>],
) -> Result<(Bindings<A>, u64), Memory>
    ensures subst { IfOk result (λ both. both.0.subst ≡ []) }
    ensures len { IfOk result (λ both. both.0.len ≡ both.1 + MAX_RULE_VARIABLES) }
    ensures first { IfOk result (λ both. both.1 ≡ past (row_vars (rows_view constraints.now))) }
    ensures small { IfOk result (λ both. both.1 < 2 ^ 63) }
{
    let mut bindings = Bindings::new(alloc);
    if let Some(greatest) = greatest_in(constraints) {
        bindings.fresh(greatest as usize)?;
        bindings.fresh(1)?;
    }
    let first = bindings.len();
    bindings.fresh(MAX_RULE_VARIABLES)?;
    Ok((bindings, first))
}

/// The verdict on constraints with the symbols of the heads and different identities.
fn judge_constraints<A: Allocator + Copy>(
    alloc: A,
    rule: &Rule<A>,
    constraints: &[Constraint<A>],
) -> Result<Verdict<A>, Memory>
    requires { IsBounded (rule_view rule.now) }
    ensures { IfOk result
        (λ judged. verdict_view judged ≡ of_rows (rule_view rule.now) (rows_view constraints.now)) }
{
    let (mut bindings, first) = bindings_past(alloc, constraints)?;
    let mut way = Vec::new(alloc);
    let heads = rule.heads.as_slice();
    let parting = join_heads(alloc, &mut bindings, &mut way, first, 1, heads, constraints)?;
    match parting {
        Some(parting) => Ok(Verdict::Unlike(way, parting)),
        None => judge_match(alloc, rule, constraints, &bindings),
    }
}

/// The verdict on constraints with different identities, one for each head.
fn judge_list<A: Allocator + Copy>(
    alloc: A,
    rule: &Rule<A>,
    constraints: &[Constraint<A>],
) -> Result<Verdict<A>, Memory>
    requires { IsBounded (rule_view rule.now) }
    ensures { let r = rule_view rule.now in let cs = rows_view constraints.now in IfOk result
        (λ judged. verdict_view judged ≡ or_else (first_of_another 1 r.heads cs) (of_rows r cs)) }
{
    match other_symbol(1, rule.heads.as_slice(), constraints) {
        Some(other) => Ok(other),
        None => judge_constraints(alloc, rule, constraints),
    }
}

/// The constraints of identities, where they live, with the bindings of a run put in.
fn constraints_of<A: Allocator + Copy>(
    alloc: A,
    machine: &Machine<'_, A>,
    ids: HeadIds,
) -> Result<Vec<Constraint<A>, A>, Memory>
    ensures { IfOk result (λ constraints. rows_view constraints.items ≡ rows_of (rows (state_in (machine_view machine.now))) ids) }
{
    let mut constraints = Vec::with_capacity(alloc, ids.len())?;
    push_constraints(
        machine.store(),
        machine.bindings(),
        ids.as_slice(),
        &mut constraints,
    )?;
    Ok(constraints)
}

/// The verdict on a rule and a list of different identities whose constraints live, with which the rule has not fired.
fn judge_living<A: Allocator + Copy>(
    alloc: A,
    machine: &Machine<'_, A>,
    rule: usize,
    ids: HeadIds,
) -> Result<Verdict<A>, Memory>
    requires { rule < length (machine_view machine.now).rules }
    ensures { let m = machine_view machine.now in let cs = rows_of (rows (state_in m)) ids in
        IfOk result (λ judged. (r : semantics.Rule) → slice_get m.rules rule ≡ Some r →
        verdict_view judged ≡ or_else (first_of_another 1 r.heads cs) (of_rows r cs)) }
{
    let constraints = constraints_of(alloc, machine, ids)?;
    judge_list(alloc, machine.program().rule(rule), constraints.as_slice())
}

/// The verdict on a rule, by its number from 0, and a list of identities, one for each head, in the state of a run: why the rule does not fire
/// with their constraints, or that it could. The only error is want of memory.
pub fn judge<A: Allocator + Copy>(
    alloc: A,
    machine: &Machine<'_, A>,
    rule: usize,
    ids: HeadIds,
) -> Result<Verdict<A>, Memory>
    requires { rule < length (machine_view machine.now).rules }
    ensures { let m = machine_view machine.now in IfOk result (λ judged. (r : semantics.Rule) →
        slice_get m.rules rule ≡ Some r → verdict_view judged ≡ verdict (state_in m) rule r ids) }
{
    if machine.history().has(&Fired { rule, ids }) {
        return Ok(Verdict::Fired);
    }
    if let Some(absent) = absence(machine.store(), ids.as_slice()) {
        return Ok(absent);
    }
    if let Some(twice) = repetition(ids.as_slice()) {
        return Ok(twice);
    }
    judge_living(alloc, machine, rule, ids)
}

/// The k-th test of a rule's guard, from 1.
fn test_at<A: Allocator>(rule: &Rule<A>, k: usize) -> Option<&Test<A>>
    ensures { option_map (λ t. t.now) result ≡ slice_get rule.now.guard.items (k - 1) }
{
    rule.guard.get(k.saturating_sub(1))
}

/// The k-th test, from 1, with what the rule's variables are matched to put in, where its heads match the constraints.
fn test_applied<A: Allocator + Copy>(
    alloc: A,
    rule: &Rule<A>,
    constraints: &[Constraint<A>],
    k: usize,
) -> Result<Option<Test<A>>, Memory>
    requires { IsBounded (rule_view rule.now) }
    ensures { let r = rule_view rule.now in IfOk result (λ test. option_map test_view test
        ≡ option_and_then (λ m. option_map (applied_by m) (slice_get r.guard (k - 1))) (fits r.heads (rows_view constraints.now))) }
{
    let mut matching = Match::new();
    if !match_heads(rule.heads.as_slice(), constraints, &mut matching) {
        return Ok(None);
    }
    match test_at(rule, k) {
        None => Ok(None),
        Some(test) => Ok(Some(applied(alloc, test, &matching)?)),
    }
}

/// The k-th test of a rule's guard, from 1, with what the rule's variables are matched to put in: as it stands where the heads of the rule, by
/// its number from 0, match the constraints of a list of identities. The only error is want of memory.
pub fn guard_test<A: Allocator + Copy>(
    alloc: A,
    machine: &Machine<'_, A>,
    rule: usize,
    ids: HeadIds,
    k: usize,
) -> Result<Option<Test<A>>, Memory>
    requires { rule < length (machine_view machine.now).rules }
    ensures { let m = machine_view machine.now in IfOk result (λ test. (r : semantics.Rule) →
        slice_get m.rules rule ≡ Some r → option_map test_view test ≡ tested (state_in m) r ids k) }
{
    let constraints = constraints_of(alloc, machine, ids)?;
    test_applied(
        alloc,
        machine.program().rule(rule),
        constraints.as_slice(),
        k,
    )
}
