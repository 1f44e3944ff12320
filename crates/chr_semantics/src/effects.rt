//! The worked examples of what transitions change. Each function is empty, and its clauses are the example.
#![tactic(auto, unfolding(crate::specs::Mgu::mgu))]

ghost use Rattle.std.specs.Prelude.{[], ◌∷◌, true, false};
ghost use Rattle.chr_semantics.specs.Effect.{enters, wakes, passes, leaves, fires, binds, ends};
ghost use Rattle.chr_semantics.specs.Program.{evaluate};
ghost use Rattle.chr_semantics.specs.State.{failed, goal};
ghost use Rattle.chr_semantics.specs.Tree.{var};
ghost use Rattle.chr_semantics.specs.Examples.Effects.{Changes, Makes};
ghost use Rattle.chr_semantics.specs.Examples.Runs.{bound_guard, failing, gcd_example};
ghost use Rattle.chr_semantics.specs.Examples.Terms.{chr, minus, number};

/// A constraint comes, goes on and leaves the stack; a rule fires at a kept head and at a removed one; a constraint is active again.
pub fn constraints()
    ensures enters { Changes gcd_example 0 enters }
    ensures passes { Changes gcd_example 1 passes }
    ensures leaves { Changes gcd_example 4 leaves }
    ensures kept { Changes gcd_example 8 (fires 1 1 (2 ∷ 1 ∷ []) (goal (evaluate (var 0) (minus (number 4) (number 2))) ∷ goal (chr 7 (var 0 ∷ [])) ∷ []) true) }
    ensures removed { Changes gcd_example 15 (fires 0 0 (4 ∷ []) [] false) }
    ensures wakes { Changes bound_guard 4 wakes }
    ensures woken { Changes bound_guard 5 (fires 0 0 (1 ∷ []) [] false) }
{}

/// A built-in gives a variable its value and wakes a constraint, or wakes none, or ends the run.
pub fn built_ins()
    ensures binds { Changes bound_guard 3 (binds ((0, number 3) ∷ []) (1 ∷ [])) }
    ensures wakes_none { Changes gcd_example 9 (binds ((0, number 2) ∷ []) []) }
    ensures fails { Changes failing 2 (ends failed) }
{}

/// The next state, made of the change alone.
pub fn states()
    ensures enters { Makes gcd_example 0 enters }
    ensures passes { Makes gcd_example 1 passes }
    ensures leaves { Makes gcd_example 4 leaves }
    ensures wakes { Makes bound_guard 4 wakes }
    ensures binds { Makes bound_guard 3 (binds ((0, number 3) ∷ []) (1 ∷ [])) }
    ensures fails { Makes failing 2 (ends failed) }
{}
