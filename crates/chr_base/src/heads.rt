//! The goals of the body of a rule that fires with constraints of a base.
ghost use Rattle.std.specs.Prelude.{◌≡◌, ◌≤◌, ◌^◌, [], IfOk, List, Some, map};
ghost use Rattle.chr_semantics.specs.Bounds.{IsBounded};
ghost use Rattle.chr_semantics.specs.Match.{Row, fits};
ghost use Rattle.chr_semantics.specs.Search.{ids_of};
ghost use Rattle.chr_semantics.specs.State.{goal};
ghost use Rattle.chr_semantics.specs.Step.{body_of};
ghost use Rattle.chr_semantics.specs.Subst.{Subst};
ghost use Rattle.chr_bind.specs.Matching.{AgreesWith};
ghost use Rattle.chr_store.specs.Numbers.{numbers};
ghost use Rattle.chr_rules.specs.RuleView.{goal_view, rule_view};
ghost use Rattle.chr_base.specs.BaseView.{IsFresh};
ghost use Rattle.chr_base.specs.Standing.{AreStanding};

use crate::base::Base;
use crate::body::Body;
use chr_bind::{Match, fit_or_spoil};
use chr_rules::{Goal, Rule};
use chr_store::Id;
use chr_term::Memory;
use std::alloc::Allocator;

/// Matches the heads with the constraints of these identities, where nothing is matched yet.
fn match_heads<'t, A: Allocator + Copy>(
    base: &'t Base<'_, A>,
    rule: &Rule<A>,
    ids: &[Id],
    matching: &mut Match<'t, A>,
)
    requires fresh { IsFresh base.now }
    requires bounded { IsBounded (rule_view rule.now) }
    requires empty { AgreesWith matching.old [] }
    ensures { (t : List Row) → ids_of t ≡ numbers ids.now → AreStanding base.now.table t →
        (m : Subst) → fits (rule_view rule.now).heads t ≡ Some m → AgreesWith matching.new m }
{
    for (head, id) in rule.heads.iter().zip(ids) {
        if let Some(row) = base.row(*id) {
            let args = row.args.as_slice();
            let _fits = fit_or_spoil(head.1.as_slice(), args, matching);
        }
    }
}

/// The goals of the body of a rule that fires with constraints of a base, which are given by their identities in head order: the same as
/// those of `Body::goals` with the match of the heads. Nothing is said where these constraints do not fit the heads. Only the goals take memory.
pub fn build_fired<A: Allocator + Copy>(
    alloc: A,
    base: &Base<'_, A>,
    rule: &Rule<A>,
    ids: &[Id],
    next: u64,
) -> Result<Vec<Goal<A>, A>, Memory>
    requires fresh { IsFresh base.now }
    requires bounded { IsBounded (rule_view rule.now) }
    requires few { next ≤ 2 ^ 63 }
    ensures { IfOk result (λ built. (t : List Row) → ids_of t ≡ numbers ids.now → AreStanding base.now.table t →
        (m : Subst) → fits (rule_view rule.now).heads t ≡ Some m →
        map (λ g. goal (goal_view g)) built.items ≡ body_of (rule_view rule.now) t next) }
{
    let mut matching = Match::new();
    match_heads(base, rule, ids, &mut matching);
    let body = Body {
        alloc,
        rule,
        matching: &matching,
        next,
    };
    body.goals()
}
