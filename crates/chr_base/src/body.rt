//! The goals of the body of a rule that fires.
ghost use Rattle.std.specs.Prelude.{◌≡◌, ◌≤◌, ◌^◌, [], IfOk, List, map, unwrap_or};
ghost use Rattle.chr_semantics.specs.Bounds.{IsBounded, IsGoalBelow};
ghost use Rattle.chr_semantics.specs.Match.{Row, fits};
ghost use Rattle.chr_semantics.specs.State.{goal};
ghost use Rattle.chr_semantics.specs.Step.{body_of, goal_instance};
ghost use Rattle.chr_semantics.specs.Subst.{Subst};
ghost use Rattle.chr_rules.specs.Bounds.{bounds};
ghost use Rattle.chr_rules.specs.RuleView.{goal_view, rule_view};

use chr_bind::Match;
use chr_rules::{Goal, Rule};
use chr_term::Memory;
use std::alloc::Allocator;

/// What the body of a rule that fires is built from. A variable of the heads becomes the term that it is matched to, and each variable of the
/// body alone a new one.
#[derive(Drop)]
pub(crate) struct Body<'a, 'm, A: Allocator> {
    pub(crate) alloc: A,
    pub(crate) rule: &'a Rule<A>,
    /// The match of all heads.
    pub(crate) matching: &'a Match<'m, A>,
    /// The number of the first new variable: there are as many as the rule has variables that are in no head.
    pub(crate) next: u64,
    ghost bounded: { IsBounded (rule_view rule.now) } by { Prim.hlevel bounds },
    ghost few: { next ≤ 2 ^ 63 },
}

impl<'a, 'm, A: Allocator + Copy> Body<'a, 'm, A> {
    ghost use Rattle.chr_base.specs.Bodies.{IsMatch, rule_in, stands_for};

    fn goal(&self, goal: &Goal<A>) -> Result<Goal<A>, Memory>
        requires { IsGoalBelow (rule_in self.now).vars (goal_view goal.now) }
        ensures { IfOk result (λ built. (m : Subst) → IsMatch self.now m →
            goal_view built ≡ goal_instance (stands_for self.now m) (goal_view goal.now)) }
    {
        match goal {
            Goal::Chr(sym, args) => Ok(Goal::Chr(*sym, self.args(args)?)),
            Goal::Told(op, left, right) => {
                let left = self.term(left)?;
                let right = self.term(right)?;
                Ok(Goal::Told(*op, left, right))
            }
            Goal::Fail => Ok(Goal::Fail),
        }
    }

    /// The goals, in their order.
    pub(crate) fn goals(&self) -> Result<Vec<Goal<A>, A>, Memory>
        ensures goals { IfOk result (λ built. (m : Subst) → IsMatch self.now m →
            map goal_view built.items ≡ map (goal_instance (stands_for self.now m)) (rule_in self.now).body) }
        ensures body { IfOk result (λ built. (rows : List Row) →
            IsMatch self.now (unwrap_or (fits (rule_in self.now).heads rows) []) →
            map (λ g. goal (goal_view g)) built.items ≡ body_of (rule_in self.now) rows self.now.next) }
    {
        let mut built = Vec::with_capacity(self.alloc, self.rule.body.len())?;
        for goal in &self.rule.body {
            built.push(self.goal(goal)?)?;
        }
        Ok(built)
    }
}
