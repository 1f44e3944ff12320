//! One rule: what is wrong with it, or what it stands for.
ghost use Rattle.std.specs.Prelude.{◌≡◌, ◌&&◌, ◌+◌, [], IfErr, IfOk, None, OnOk, bytes_eq, length, map, option_map, string_bytes};
ghost use Rattle.std.specs.List.{list_any};
ghost use Rattle.chr_semantics.specs.Checked.{first_of, has_label, error_in_rule};
ghost use Rattle.chr_semantics.specs.Meaning.{all_heads, has_backslash, head_from, in_turn, kept_count, label_of, propagates, rule_from, scope};
ghost use Rattle.chr_read.specs.SyntaxView.{arrow_view, rule_view as syntax_rule};
ghost use Rattle.chr_bind.specs.Guards.{test_view};
ghost use Rattle.chr_rules.specs.Checks.{IsFault, fault_of, guard_and_body_from, too_many, wrong_beside_items, wrong_items, wrong_number_or_arrow, wrong_parts, wrong_rule};
ghost use Rattle.chr_rules.specs.Heads.{IsFlagged, heads_of};
ghost use Rattle.chr_rules.specs.RuleView.{goal_view, rule_view, rules_view};

use crate::checks::{Check, in_all_heads, in_heads_and_body, in_items, in_rule};
use crate::error::RuleErrorKind;
use crate::goal::Goal;
use crate::goals::{Heads, add_heads, goals, no_heads, tests};
use crate::parts::Sought;
use crate::rule::Rule;
use crate::variables::Variables;
use chr_bind::Test;
use chr_read::{Arrow, RuleSyntax};
use chr_semantics::limits::{MAX_HEADS, MAX_RULE_VARIABLES, MAX_RULES};
use chr_term::{Memory, Names};
use std::alloc::Allocator;

/// The rule after these, or what is wrong with it first.
pub(crate) fn rule<'s, A: Allocator + Copy>(
    alloc: A,
    names: &mut Names<A>,
    declared: usize,
    earlier: &[Rule<A>],
    written: &'s RuleSyntax<A>,
) -> Result<Rule<A>, RuleErrorKind>
    ensures accepted { IfOk result
        (λ rule. error_in_rule names.old declared (rules_view earlier.now) (syntax_rule written.now)
        ≡ None) }
    ensures rule { IfOk result
        (λ rule. (names.new, rule_view rule)
        ≡ rule_from names.old (length (rules_view earlier.now) + 1) (syntax_rule written.now)) }
    ensures refused { IfErr result
        (λ fault. IsFault fault
        (error_in_rule names.old declared (rules_view earlier.now) (syntax_rule written.now))) }
{
    if let Some(fault) = wrong_items(names, declared, written) {
        return Err(fault);
    }
    let mut variables = Variables::new(alloc);
    rule_beside_items(alloc, names, &mut variables, earlier, written)
}

/// The rule, whose items are right, after these, or what else is wrong with it first.
fn rule_beside_items<'s, A: Allocator + Copy>(
    alloc: A,
    names: &mut Names<A>,
    variables: &mut Variables<'s, A>,
    earlier: &[Rule<A>],
    written: &'s RuleSyntax<A>,
) -> Result<Rule<A>, RuleErrorKind>
    requires { variables.old ≡ [] }
    ensures accepted { IfOk result
        (λ rule. first_of
        (wrong_beside_items names.old (rules_view earlier.now) (syntax_rule written.now))
        ≡ None) }
    ensures rule { IfOk result
        (λ rule. (names.new, rule_view rule)
        ≡ rule_from names.old (length (rules_view earlier.now) + 1) (syntax_rule written.now)) }
    ensures refused { IfErr result
        (λ fault. IsFault fault (first_of
        (wrong_beside_items names.old (rules_view earlier.now) (syntax_rule written.now)))) }
{
    let heads = heads(alloc, names, variables, written)?;
    if let Some(fault) = wrong_rule(variables, earlier, written) {
        return Err(fault);
    }
    let head_vars = variables.len();
    let made = guard_and_body(alloc, names, variables, written)?;
    Ok(Rule {
        label: label(alloc, count(earlier) + 1, &written.label)?,
        kept: kept_count(written),
        heads: heads.atoms,
        passive: heads.passive,
        guard: made.0,
        body: made.1,
        vars: variables.len(),
        head_vars,
    })
}

/// The guard and the body of a rule, unless its variables are too many.
fn guard_and_body<'s, A: Allocator + Copy>(
    alloc: A,
    names: &mut Names<A>,
    variables: &mut Variables<'s, A>,
    written: &'s RuleSyntax<A>,
) -> Result<(Vec<Test<A>, A>, Vec<Goal<A>, A>), RuleErrorKind>
    ensures made { IfOk result
        (λ made. (scope names.new variables.new, map test_view made.0.items, map goal_view made.1.items)
        ≡ guard_and_body_from (scope names.old variables.old) (syntax_rule written.now)) }
    ensures few { OnOk result (first_of (too_many (length variables.new)) ≡ None) }
    ensures refused { IfErr result (λ fault. IsFault fault (first_of (too_many
        (length (guard_and_body_from (scope names.old variables.old) (syntax_rule written.now)).0.variables)))) }
{
    let guard = tests(alloc, names, variables, written.guard.as_slice())?;
    let body = goals(alloc, names, variables, written.body.as_slice())?;
    if variables.len() > MAX_RULE_VARIABLES {
        return Err(RuleErrorKind::TooManyVariables);
    }
    Ok((guard, body))
}

/// The heads on both sides of a `\`.
fn heads<'s, A: Allocator + Copy>(
    alloc: A,
    names: &mut Names<A>,
    variables: &mut Variables<'s, A>,
    written: &'s RuleSyntax<A>,
) -> Result<Heads<A>, Memory>
    ensures heads { IfOk result (λ heads. (scope names.new variables.new, heads_of heads)
        ≡ in_turn head_from (scope names.old variables.old, []) (all_heads (syntax_rule written.now))) }
    ensures flagged { IfOk result IsFlagged }
{
    let mut heads = no_heads(alloc);
    add_heads(
        alloc,
        names,
        variables,
        &mut heads,
        written.heads.as_slice(),
    )?;
    add_heads(
        alloc,
        names,
        variables,
        &mut heads,
        written.behind.as_slice(),
    )?;
    Ok(heads)
}

/// What is wrong first with the items of a rule, before its variables are looked at.
fn wrong_items<A: Allocator + Copy>(
    names: &Names<A>,
    declared: usize,
    rule: &RuleSyntax<A>,
) -> Option<RuleErrorKind>
    ensures { result
        ≡ option_map fault_of (first_of (wrong_items names.now declared (syntax_rule rule.now))) }
{
    if in_heads_and_body(Check::Undeclared(names, declared), rule) {
        return Some(RuleErrorKind::Undeclared);
    }
    if in_all_heads(Check::BuiltIn, rule) {
        return Some(RuleErrorKind::BuiltinInHead);
    }
    if in_heads_and_body(Check::NoGoal, rule) {
        return Some(RuleErrorKind::NotAGoal);
    }
    if in_items(Check::NoTest, rule.guard.as_slice()) {
        return Some(RuleErrorKind::NotATest);
    }
    None
}

/// What is wrong first with a rule whose heads have these variables, beside that.
fn wrong_rule<A: Allocator + Copy>(
    variables: &Variables<'_, A>,
    earlier: &[Rule<A>],
    rule: &RuleSyntax<A>,
) -> Option<RuleErrorKind>
    ensures { result
        ≡ option_map fault_of
        (first_of (wrong_rule variables.now (rules_view earlier.now) (syntax_rule rule.now))) }
{
    if let Some(fault) = wrong_parts(variables, earlier, rule) {
        return Some(fault);
    }
    wrong_number_or_arrow(earlier, rule)
}

/// What is wrong first with the items, the label and the number of heads of such a rule.
fn wrong_parts<A: Allocator + Copy>(
    variables: &Variables<'_, A>,
    earlier: &[Rule<A>],
    rule: &RuleSyntax<A>,
) -> Option<RuleErrorKind>
    ensures { result
        ≡ option_map fault_of
        (first_of (wrong_parts variables.now (rules_view earlier.now) (syntax_rule rule.now))) }
{
    if in_items(Check::Part(Sought::Free(variables)), rule.guard.as_slice()) {
        return Some(RuleErrorKind::GuardVariable);
    }
    if in_items(Check::GuardOnly, rule.body.as_slice()) {
        return Some(RuleErrorKind::GuardOnly);
    }
    if has_label(&rule.label, earlier) {
        return Some(RuleErrorKind::DuplicateName);
    }
    if head_count(rule) > MAX_HEADS {
        return Some(RuleErrorKind::TooManyHeads);
    }
    if in_rule(Check::Part(Sought::Wide), rule) {
        return Some(RuleErrorKind::ArityTooLarge);
    }
    None
}

/// What is wrong first with the number and the arrow of a rule.
fn wrong_number_or_arrow<A: Allocator>(
    earlier: &[Rule<A>],
    rule: &RuleSyntax<A>,
) -> Option<RuleErrorKind>
    ensures { result
        ≡ option_map fault_of
        (first_of (wrong_number_or_arrow (rules_view earlier.now) (syntax_rule rule.now))) }
{
    if count(earlier) >= MAX_RULES {
        return Some(RuleErrorKind::TooManyRules);
    }
    if keeps_and_removes(rule) {
        return Some(RuleErrorKind::BackslashInPropagation);
    }
    None
}

/// Whether a rule has the label, where there is one.
fn has_label<A: Allocator>(label: &Option<String<A>>, rules: &[Rule<A>]) -> bool
    ensures { result ≡ has_label (option_map string_bytes label.now) (rules_view rules.now) }
{
    match label {
        None => false,
        Some(label) => is_label(label.as_str(), rules),
    }
}

fn is_label<A: Allocator>(label: &str, rules: &[Rule<A>]) -> bool
    ensures { result ≡ list_any (λ r. bytes_eq label.now r.label) (rules_view rules.now) }
{
    for rule in rules {
        if label == rule.label.as_str() {
            return true;
        }
    }
    false
}

/// How many rules there are.
pub(crate) fn count<A: Allocator>(rules: &[Rule<A>]) -> usize
    ensures { result ≡ length (rules_view rules.now) }
{
    rules.len()
}

/// How many heads a rule has.
fn head_count<A: Allocator>(rule: &RuleSyntax<A>) -> usize
    ensures { result ≡ length (all_heads (syntax_rule rule.now)) }
{
    rule.heads.len() + rule.behind.len()
}

fn has_backslash<A: Allocator>(rule: &RuleSyntax<A>) -> bool
    ensures { result ≡ has_backslash (syntax_rule rule.now) }
{
    !rule.behind.is_empty()
}

fn propagates(arrow: Arrow) -> bool
    ensures { result ≡ propagates (arrow_view arrow) }
{
    arrow == Arrow::Propagation
}

/// Whether a rule has both `\` and `==>`.
fn keeps_and_removes<A: Allocator>(rule: &RuleSyntax<A>) -> bool
    ensures { result
        ≡ (propagates (syntax_rule rule.now).arrow && has_backslash (syntax_rule rule.now)) }
{
    propagates(rule.arrow) && has_backslash(rule)
}

/// How many heads a rule keeps.
fn kept_count<A: Allocator>(rule: &RuleSyntax<A>) -> usize
    ensures { result ≡ kept_count (syntax_rule rule.now) }
{
    if propagates(rule.arrow) || has_backslash(rule) {
        rule.heads.len()
    } else {
        0
    }
}

/// The label of a rule: its name, or its number from 1.
fn label<A: Allocator + Copy>(
    alloc: A,
    number: usize,
    name: &Option<String<A>>,
) -> Result<String<A>, Memory>
    ensures { IfOk result
        (λ label. string_bytes label ≡ label_of number (option_map string_bytes name.now)) }
{
    match name {
        Some(name) => String::from_str(alloc, name.as_str()),
        None => {
            let mut label = String::from_str(alloc, "#")?;
            let digits = number.to_string(alloc)?;
            label.push_str(digits.as_str())?;
            Ok(label)
        }
    }
}
