//! Worked examples of the policy of a run. Each function is empty, and its clauses are the example.
#![tactic(auto, unfolding(crate::specs::Mgu::mgu))]

ghost use Rattle.std.specs.Prelude.{◌≡◌, ◌∷◌, ◌++◌, [], None, Some, false, true};
ghost use Rattle.chr_semantics.specs.State.{start};
ghost use Rattle.chr_semantics.specs.Schedule.{arrive, publish};
ghost use Rattle.chr_semantics.specs.Outcome.{budget_too_large, run_refusal, too_many_workers};
ghost use Rattle.chr_semantics.specs.Policy.{first_stage, keeps_policy, missed_places};
ghost use Rattle.chr_semantics.specs.Examples.Speculation.{moves, published_after, speculating, three_answers};

/// The places of `speculation` are the Steps 2, 5, 7, 10 and 12: they need a search, and their
/// states have two tasks or more. Step 13 needs a search too, and has one task.
pub fn places()
    ensures none_published { let e = speculating in
        missed_places e.program (start e.query) first_stage (moves 14) ≡ 5 }
    ensures one_published { let e = speculating in
        missed_places e.program (start e.query) first_stage (published_after 6 [] 8) ≡ 4 }
    ensures kept { let e = speculating in
        keeps_policy e.program (start e.query) first_stage (published_after 6 three_answers 8) ≡ true }
    ensures no_place { let e = speculating in
        keeps_policy e.program (start e.query) first_stage (published_after 5 [] 9) ≡ false }
    ensures published_twice { let e = speculating in
        keeps_policy e.program (start e.query) first_stage (published_after 6 (publish ∷ []) 8)
        ≡ false }
    ensures arrive_last { let e = speculating in
        keeps_policy e.program (start e.query) first_stage (published_after 6 (arrive 0 0 ∷ []) 0)
        ≡ false }
    ensures publish_last { let e = speculating in
        keeps_policy e.program (start e.query) first_stage (published_after 6 [] 0) ≡ false }
{}

/// The limits of a run, the budget first.
pub fn run_limits()
    ensures most { run_refusal 1000000 64 ≡ None }
    ensures budget { run_refusal 1000001 65 ≡ Some budget_too_large }
    ensures workers { run_refusal 1000000 65 ≡ Some too_many_workers }
{}
