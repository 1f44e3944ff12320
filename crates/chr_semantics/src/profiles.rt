//! The worked examples of what a run costs. Each function is empty, and its clauses are the example.
#![tactic(auto, unfolding(crate::specs::Mgu::mgu))]

ghost use Rattle.std.specs.Prelude.{◌≡◌, None, Some};
ghost use Rattle.chr_semantics.specs.Profile.{activate, default, drop, propagate, reactivate, simplify, solve};
ghost use Rattle.chr_semantics.specs.Examples.Profiles.{costs, of_kind_in, solves_and_wakes, woken_fire};
ghost use Rattle.chr_semantics.specs.Examples.Runs.{bound_guard, gcd_example};

/// The searches of a run at each head: of the first rule, and of the removed and the kept head of the second one.
pub fn searched()
    ensures first { costs gcd_example 18 0 0 ≡ (4, 1, 1, 0) }
    ensures kept { costs gcd_example 18 1 0 ≡ (3, 1, 1, 3) }
    ensures removed { costs gcd_example 18 1 1 ≡ (3, 1, 2, 3) }
    ensures none { costs gcd_example 18 1 2 ≡ (0, 0, 0, 0) }
{}

/// Its transitions by kind.
pub fn kinds()
    ensures activate { of_kind_in gcd_example 18 activate ≡ 4 }
    ensures solve { of_kind_in gcd_example 18 solve ≡ 2 }
    ensures drop { of_kind_in gcd_example 18 drop ≡ 2 }
    ensures default { of_kind_in gcd_example 18 default ≡ 7 }
    ensures simplify { of_kind_in gcd_example 18 simplify ≡ 2 }
    ensures propagate { of_kind_in gcd_example 18 propagate ≡ 1 }
    ensures none { of_kind_in gcd_example 18 reactivate ≡ 0 }
    ensures ended { of_kind_in gcd_example 20 drop ≡ 2 }
    ensures woken { of_kind_in bound_guard 6 reactivate ≡ 1 }
{}

/// What its Solves woke: those of the query, and of the first and the second rule.
pub fn woken()
    ensures query { solves_and_wakes gcd_example 18 None ≡ (0, 0) }
    ensures zero { solves_and_wakes gcd_example 18 (Some 0) ≡ (0, 0) }
    ensures subtract { solves_and_wakes gcd_example 18 (Some 1) ≡ (2, 0) }
    ensures nothing { woken_fire gcd_example 18 ≡ 0 }
    ensures bound { solves_and_wakes bound_guard 6 None ≡ (1, 1) }
    ensures fires { woken_fire bound_guard 6 ≡ 1 }
{}
