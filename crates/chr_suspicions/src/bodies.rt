//! Goals: whether a body makes a constraint again, and whether one holds arithmetic that nothing evaluates.
ghost use Rattle.std.specs.Prelude.{◌≡◌, ◌∷◌, [], map};
ghost use Rattle.chr_semantics.specs.Suspicion.{is_made_again, is_unevaluated};
ghost use Rattle.chr_term.specs.TermView.{atom_view};
ghost use Rattle.chr_rules.specs.RuleView.{goal_view};

use crate::arithmetic::have_arithmetic;
use chr_rules::Goal;
use chr_term::{Sym, Term, same_all};
use std::alloc::Allocator;

/// Whether the goal is a constraint with arithmetic in its arguments, which stays there as it is written.
pub fn is_unevaluated<A: Allocator>(goal: &Goal<A>) -> bool
    ensures { result ≡ is_unevaluated (goal_view goal.now) }
{
    match goal {
        Goal::Chr(_, args) => have_arithmetic(args.as_slice()),
        Goal::Told(_, _, _) => false,
        Goal::Fail => false,
    }
}

/// Whether the goal is this very constraint.
fn is_it<A: Allocator>(goal: &Goal<A>, sym: Sym, args: &[Term<A>]) -> bool
    ensures { result ≡ is_made_again (goal_view goal.now ∷ []) (atom_view sym args.now) }
{
    match goal {
        Goal::Chr(other, others) => sym.0 == other.0 && same_all(args, others.as_slice()),
        Goal::Told(_, _, _) => false,
        Goal::Fail => false,
    }
}

/// Whether this very constraint is among the goals: of a body that makes again what its rule removes, so that the rule can fire without end.
pub fn is_made_again<A: Allocator>(goals: &[Goal<A>], sym: Sym, args: &[Term<A>]) -> bool
    ensures { result ≡ is_made_again (map goal_view goals.now) (atom_view sym args.now) }
{
    for goal in goals {
        if is_it(goal, sym, args) {
            return true;
        }
    }
    false
}
