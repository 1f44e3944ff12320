//! The worked examples of verdicts. Each function is empty, and its clauses are the example.
#![tactic(auto, unfolding(crate::specs::Mgu::mgu))]

ghost use Rattle.std.specs.Prelude.{◌≡◌, ◌∷◌, [], None, Some};
ghost use Rattle.chr_semantics.specs.Tree.{var};
ghost use Rattle.chr_semantics.specs.Program.{is_integer};
ghost use Rattle.chr_semantics.specs.State.{done, running};
ghost use Rattle.chr_semantics.specs.Verdict.{could_fire, fired, guard, never, not_yet_there, other_symbol, removed, twice, undecided, unlike, untrue, waits};
ghost use Rattle.chr_semantics.specs.Examples.Terms.{number, term};
ghost use Rattle.chr_semantics.specs.Examples.Example.{EndsAfter, state_after};
ghost use Rattle.chr_semantics.specs.Examples.Runs.{bound_guard, gcd_example, subtract};
ghost use Rattle.chr_semantics.specs.Examples.Verdicts.{came_in, could_in, dup_rule, firings_in, fronts_after, furthest_after, gone_in, like_after, looks_in, made_in, paths, positive, positive_rule, prune_rule, pruning, same_rule, scheduling, stage_after, taken_in, test_after, twice_rule, unlike_first, urgent_rule, verdict_after, woken_in};

/// Of `prune`, which waits for an integer: lists of constraints that have come or not, in order or
/// not, and of `same`, whose head needs two variables to be one.
pub fn pruned()
    ensures undecided { verdict_after pruning 7 1 prune_rule (1 ∷ 2 ∷ []) ≡ guard 1 undecided }
    ensures not_yet { verdict_after pruning 4 1 prune_rule (1 ∷ 2 ∷ []) ≡ not_yet_there 2 }
    ensures turned { verdict_after pruning 7 1 prune_rule (2 ∷ 1 ∷ []) ≡ other_symbol 1 }
    ensures twice { verdict_after pruning 7 1 prune_rule (1 ∷ 1 ∷ []) ≡ twice 1 }
    ensures waits { verdict_after pruning 7 0 same_rule (1 ∷ []) ≡ waits 1 1 }
{}

/// Of a guard: it is entailed, and then has fired; it is false, undecided, or never entailed.
pub fn guarded()
    ensures could { verdict_after (positive (number 1)) 1 0 positive_rule (1 ∷ []) ≡ could_fire }
    ensures fired { verdict_after (positive (number 1)) 2 0 positive_rule (1 ∷ []) ≡ fired }
    ensures removed { verdict_after (positive (number 1)) 2 1 positive_rule (1 ∷ []) ≡ removed 1 }
    ensures untrue { verdict_after (positive (number 0)) 1 0 positive_rule (1 ∷ []) ≡ guard 1 untrue }
    ensures undecided { verdict_after (positive (var 0)) 1 0 positive_rule (1 ∷ []) ≡ guard 1 undecided }
    ensures never { verdict_after (positive (term 8 [])) 1 0 positive_rule (1 ∷ []) ≡ guard 1 never }
{}

/// Of a head that has a variable twice: another symbol stands there, or a number other than before.
pub fn unlike_heads()
    ensures symbol { verdict_after (unlike_first (term 9 (number 1 ∷ []))) 1 0 twice_rule (1 ∷ []) ≡ unlike (1 ∷ 1 ∷ []) (term 8 (var 0 ∷ [])) (term 9 (number 1 ∷ [])) }
    ensures value { verdict_after (unlike_first (term 8 (number 1 ∷ []))) 1 0 twice_rule (1 ∷ []) ≡ unlike (1 ∷ 2 ∷ []) (number 1) (number 2) }
{}

/// A list that waits for an integer to its end, and was looked for once.
pub fn looked_for_once()
    ensures ends { EndsAfter pruning 7 done }
    ensures first_came { came_in pruning 7 1 ≡ Some 1 }
    ensures second_came { came_in pruning 7 2 ≡ Some 5 }
    ensures stays { gone_in pruning 7 2 ≡ None }
    ensures looked_for { looks_in pruning 7 1 prune_rule (1 ∷ 2 ∷ []) ≡ (6, 2, guard 1 undecided) ∷ [] }
    ensures never_could { could_in pruning 7 1 prune_rule (1 ∷ 2 ∷ []) ≡ None }
    ensures test { test_after pruning 7 prune_rule (1 ∷ 2 ∷ []) 1 ≡ Some (is_integer (var 0)) }
    ensures never_woken { woken_in pruning 7 1 ≡ [] }
{}

/// A constraint that a binding wakes.
pub fn woken_once()
    ensures woken { woken_in bound_guard 6 1 ≡ 5 ∷ [] }
    ensures not_yet { woken_in bound_guard 4 1 ≡ [] }
{}

/// A list that could fire once, and whose constraints went to an earlier rule.
pub fn too_late()
    ensures ends { EndsAfter scheduling 20 done }
    ensures fired { firings_in scheduling 20
        ≡ (10, 0, 1 ∷ 3 ∷ []) ∷ (15, 2, 5 ∷ 4 ∷ []) ∷ (17, 0, 2 ∷ 6 ∷ []) ∷ [] }
    ensures task_came { came_in scheduling 20 2 ≡ Some 5 }
    ensures task_went { gone_in scheduling 20 2 ≡ Some 17 }
    ensures task_taken { taken_in scheduling 20 2 ≡ Some (0, 2 ∷ 6 ∷ []) }
    ensures free_came { came_in scheduling 20 3 ≡ Some 9 }
    ensures free_went { gone_in scheduling 20 3 ≡ Some 10 }
    ensures free_taken { taken_in scheduling 20 3 ≡ Some (0, 1 ∷ 3 ∷ []) }
    ensures of_query { made_in scheduling 20 3 ≡ None }
    ensures run_made { made_in scheduling 20 4 ≡ Some (0, 1 ∷ 3 ∷ []) }
    ensures free_made { made_in scheduling 20 6 ≡ Some (2, 5 ∷ 4 ∷ []) }
    ensures could { could_in scheduling 20 1 urgent_rule (2 ∷ 3 ∷ []) ≡ Some 9 }
    ensures not_looked_for { looks_in scheduling 20 1 urgent_rule (2 ∷ 3 ∷ []) ≡ [] }
    ensures removed { verdict_after scheduling 20 1 urgent_rule (2 ∷ 3 ∷ []) ≡ removed 2 }
{}

/// A list that could fire and is not looked for before the budget ends.
pub fn not_reached()
    ensures runs { (state_after paths 24).status ≡ running }
    ensures first_came { came_in paths 24 4 ≡ Some 13 }
    ensures second_came { came_in paths 24 6 ≡ Some 17 }
    ensures could { could_in paths 24 2 dup_rule (4 ∷ 6 ∷ []) ≡ Some 17 }
    ensures not_looked_for { looks_in paths 24 2 dup_rule (4 ∷ 6 ∷ []) ≡ [] }
    ensures still { verdict_after paths 24 2 dup_rule (4 ∷ 6 ∷ []) ≡ could_fire }
{}

/// The lists that are looked at for a rule, and how far they came: of constraints that wait for an
/// integer, of one that is unlike its head, and of two numbers, of which each may be the greater.
pub fn looked_at()
    ensures all { fronts_after pruning 7 1 prune_rule ≡ [] ∷ (1 ∷ []) ∷ (1 ∷ 2 ∷ []) ∷ [] }
    ensures furthest { furthest_after pruning 7 1 prune_rule ≡ (1 ∷ 2 ∷ [], guard 1 undecided) ∷ [] }
    ensures undecided { stage_after pruning 7 1 prune_rule 7 ≡ 1 }
    ensures waits { stage_after pruning 7 0 same_rule 6 ≡ 1 }
    ensures unlike { stage_after (unlike_first (term 9 (number 1 ∷ []))) 1 0 twice_rule 5 ≡ 1 }
    ensures none { like_after (unlike_first (term 9 (number 1 ∷ []))) 1 0 twice_rule 1 ≡ 0 }
    ensures both { fronts_after gcd_example 6 1 subtract ≡ [] ∷ (1 ∷ []) ∷ (1 ∷ 2 ∷ []) ∷ (2 ∷ []) ∷ (2 ∷ 1 ∷ []) ∷ [] }
    ensures like { like_after gcd_example 6 1 subtract 2 ≡ 2 }
    ensures first { furthest_after gcd_example 6 1 subtract ≡ (2 ∷ 1 ∷ [], could_fire) ∷ (1 ∷ 2 ∷ [], guard 1 untrue) ∷ [] }
{}
