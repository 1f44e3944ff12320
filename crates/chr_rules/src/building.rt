//! Declarations and rules of a program, in their order.
ghost use Rattle.std.specs.Prelude.{◌≡◌, [], IfErr, IfOk, Ok, OnOk};
ghost use Rattle.chr_semantics.specs.Checked.{declare, declare_in, each, rule_in};
ghost use Rattle.chr_read.specs.SyntaxView.{declaration_view, declaration_views, part_view, part_views, rule_view as syntax_rule};
ghost use Rattle.chr_rules.specs.Building.{IsPlaced, checked_of, with_rule_in_line};
ghost use Rattle.chr_rules.specs.Checks.{IsError};
ghost use Rattle.chr_rules.specs.RuleView.{rules_view};

use crate::builtins::is_builtin;
use crate::error::{RuleError, RuleErrorKind};
use crate::rule::Rule;
use crate::rules::{count, rule};
use crate::trees::symbol;
use chr_read::{Declaration, Part, RuleSyntax};
use chr_semantics::limits::MAX_ARITY;
use chr_term::Names;
use std::alloc::Allocator;

/// Names the symbols that the parts of a program declare.
pub(crate) fn declare_all<A: Allocator + Copy>(
    names: &mut Names<A>,
    parts: &[Part<A>],
) -> Result<(), RuleError>
    ensures declared { OnOk result (each declare_in names.old (part_views parts.now) ≡ Ok names.new) }
    ensures refused { IfErr result (λ e. IsError e (each declare_in names.old (part_views parts.now))) }
{
    for part in parts {
        declare_part(names, part)?;
    }
    Ok(())
}

/// Names the symbols that a part of a program declares.
fn declare_part<A: Allocator + Copy>(names: &mut Names<A>, part: &Part<A>) -> Result<(), RuleError>
    ensures declared { OnOk result (declare_in names.old (part_view part.now) ≡ Ok names.new) }
    ensures refused { IfErr result (λ e. IsError e (declare_in names.old (part_view part.now))) }
{
    match part {
        Part::Declares(line, declarations) => declare_each(names, *line, declarations.as_slice()),
        Part::Ignored(_) => Ok(()),
        Part::Rule(_, _) => Ok(()),
    }
}

/// Names the symbols of one directive.
fn declare_each<A: Allocator + Copy>(
    names: &mut Names<A>,
    line: u64,
    declarations: &[Declaration<A>],
) -> Result<(), RuleError>
    ensures declared { OnOk result
        (each (declare line) names.old (declaration_views declarations.now) ≡ Ok names.new) }
    ensures refused { IfErr result
        (λ e. IsError e (each (declare line) names.old (declaration_views declarations.now))) }
{
    for declaration in declarations {
        declare(names, line, declaration)?;
    }
    Ok(())
}

/// Names a declared symbol.
fn declare<A: Allocator + Copy>(
    names: &mut Names<A>,
    line: u64,
    declaration: &Declaration<A>,
) -> Result<(), RuleError>
    ensures declared { OnOk result
        (declare line names.old (declaration_view declaration.now) ≡ Ok names.new) }
    ensures refused { IfErr result
        (λ e. IsError e (declare line names.old (declaration_view declaration.now))) }
{
    let name = declaration.name.as_str();
    if declaration.arity > MAX_ARITY as u128 {
        return Err(error(RuleErrorKind::ArityTooLarge, line, 0));
    }
    let arity = declaration.arity as usize;
    if is_builtin(name, arity) {
        return Err(error(RuleErrorKind::BuiltinInHead, line, 0));
    }
    symbol(names, name, arity)?;
    Ok(())
}

/// The rules of a program's parts.
pub(crate) fn rules<A: Allocator + Copy>(
    alloc: A,
    names: &mut Names<A>,
    declared: usize,
    parts: &[Part<A>],
) -> Result<Vec<Rule<A>, A>, RuleError>
    ensures accepted { IfOk result
        (λ rules. each rule_in (checked_of names.old declared []) (part_views parts.now)
        ≡ Ok (checked_of names.new declared (rules_view rules.items))) }
    ensures refused { IfErr result
        (λ e. IsError e (each rule_in (checked_of names.old declared []) (part_views parts.now))) }
{
    let mut rules = Vec::new(alloc);
    for part in parts {
        add_part(alloc, names, declared, &mut rules, part)?;
    }
    Ok(rules)
}

/// Appends the rule of a part, where it is one.
fn add_part<A: Allocator + Copy>(
    alloc: A,
    names: &mut Names<A>,
    declared: usize,
    rules: &mut Vec<Rule<A>, A>,
    part: &Part<A>,
) -> Result<(), RuleError>
    ensures accepted { OnOk result
        (rule_in (checked_of names.old declared (rules_view rules.old.items)) (part_view part.now)
        ≡ Ok (checked_of names.new declared (rules_view rules.new.items))) }
    ensures refused { IfErr result
        (λ e. IsError e
        (rule_in (checked_of names.old declared (rules_view rules.old.items))
        (part_view part.now))) }
{
    match part {
        Part::Declares(_, _) => Ok(()),
        Part::Ignored(_) => Ok(()),
        Part::Rule(line, written) => add_rule(alloc, names, declared, rules, *line, written),
    }
}

/// Appends a rule.
fn add_rule<A: Allocator + Copy>(
    alloc: A,
    names: &mut Names<A>,
    declared: usize,
    rules: &mut Vec<Rule<A>, A>,
    line: u64,
    written: &RuleSyntax<A>,
) -> Result<(), RuleError>
    ensures accepted { OnOk result
        (with_rule_in_line (checked_of names.old declared (rules_view rules.old.items)) line
        (syntax_rule written.now)
        ≡ Ok (checked_of names.new declared (rules_view rules.new.items))) }
    ensures refused { IfErr result
        (λ e. IsError e
        (with_rule_in_line (checked_of names.old declared (rules_view rules.old.items)) line
        (syntax_rule written.now))) }
{
    let number = count(rules.as_slice()) + 1;
    match rule(alloc, names, declared, rules.as_slice(), written) {
        Ok(made) => {
            rules.push(made)?;
            Ok(())
        }
        Err(fault) => Err(error(fault, line, number)),
    }
}

/// A fault in this line and rule; `Memory` has neither.
pub(crate) fn error(kind: RuleErrorKind, line: u64, rule: usize) -> RuleError
    ensures { IsPlaced kind line rule result }
{
    match kind {
        RuleErrorKind::Memory => RuleError {
            kind,
            line: 0,
            rule: 0,
        },
        _ => RuleError { kind, line, rule },
    }
}
