//! Queries.
ghost use Rattle.std.specs.Prelude.{◌≡◌, ◌≢◌, IfErr, IfOk, Ok, option_map};
ghost use Rattle.chr_semantics.specs.Checked.{checked_query, error_in_query, query_from};
ghost use Rattle.chr_semantics.specs.Program.{Program};
ghost use Rattle.chr_read.specs.SyntaxView.{item_views, query_view as syntax_query};
ghost use Rattle.chr_rules.specs.Building.{checked_of};
ghost use Rattle.chr_rules.specs.Checks.{fault_of, IsError};
ghost use Rattle.chr_rules.specs.Grown.{Grows};
ghost use Rattle.chr_rules.specs.RuleView.{query_view};
ghost use Rattle.chr_rules.specs.declared.error.RuleErrorKind.TheVariants.{Memory as OutOfMemory};

use crate::building::error;
use crate::checks::{Check, in_items};
use crate::error::{RuleError, RuleErrorKind};
use crate::goal::Query;
use crate::goals::goals;
use crate::parts::Sought;
use crate::variables::Variables;
use chr_read::{Item, QuerySyntax};
use chr_term::{Memory, Names};
use std::alloc::Allocator;

/// A query over a program with these names, of which the first ones are the first seven and the declared.
/// The names grow, unless the query has a mistake, which is found before a name is added.
pub(crate) fn query<A: Allocator + Copy>(
    alloc: A,
    names: &mut Names<A>,
    declared: usize,
    syntax: &QuerySyntax<A>,
) -> Result<Query<A>, RuleError>
    ensures accepted { IfOk result
        (λ query. (rules : Program)
        → checked_query (checked_of names.old declared rules) (syntax_query syntax.now)
        ≡ Ok (names.new, query_view query)) }
    ensures refused { IfErr result
        (λ e. (rules : Program)
        → IsError e (checked_query (checked_of names.old declared rules)
        (syntax_query syntax.now))) }
    ensures mistaken { IfErr result (λ e. e.kind ≢ OutOfMemory → names.new ≡ names.old) }
    ensures grows { Grows names.old names.new }
{
    let items = syntax.items.as_slice();
    if let Some(fault) = wrong_goals(names, declared, items) {
        return Err(error(fault, syntax.line, 0));
    }
    Ok(accepted(alloc, names, items)?)
}

/// The query of items that are goals.
fn accepted<A: Allocator + Copy>(
    alloc: A,
    names: &mut Names<A>,
    items: &[Item<A>],
) -> Result<Query<A>, Memory>
    ensures query { IfOk result
        (λ query. query_from names.old (item_views items.now) ≡ (names.new, query_view query)) }
    ensures grows { Grows names.old names.new }
{
    let mut variables = Variables::new(alloc);
    let goals = goals(alloc, names, &mut variables, items)?;
    Ok(Query {
        goals,
        var_names: variables.names(alloc)?,
    })
}

/// What is wrong first with the items of a query.
fn wrong_goals<A: Allocator + Copy>(
    names: &Names<A>,
    declared: usize,
    items: &[Item<A>],
) -> Option<RuleErrorKind>
    ensures { result ≡ option_map fault_of (error_in_query names.now declared (item_views items.now)) }
{
    if in_items(Check::Undeclared(names, declared), items) {
        return Some(RuleErrorKind::Undeclared);
    }
    if in_items(Check::NoGoal, items) {
        return Some(RuleErrorKind::NotAGoal);
    }
    if in_items(Check::GuardOnly, items) {
        return Some(RuleErrorKind::GuardOnly);
    }
    if in_items(Check::Part(Sought::Wide), items) {
        return Some(RuleErrorKind::ArityTooLarge);
    }
    None
}
