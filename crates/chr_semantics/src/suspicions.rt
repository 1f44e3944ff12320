//! The worked examples of suspicions. Each function is empty, and its clauses are the example.
#![tactic(auto, unfolding(crate::specs::Mgu::mgu))]

ghost use Rattle.std.specs.Prelude.{◌≡◌, ◌∷◌, [], codes, false, map, true};
ghost use Rattle.chr_semantics.specs.Tree.{var};
ghost use Rattle.chr_semantics.specs.Program.{compares, greater, identical, is_integer, less, not_unifiable};
ghost use Rattle.chr_semantics.specs.Suspicion.{drops_duplicates, is_barren, is_hopeless, is_made, is_made_again, is_unevaluated, is_unused, lone_variables, looks_before, takes_from};
ghost use Rattle.chr_semantics.specs.Examples.Terms.{chr, head, number, term};
ghost use Rattle.chr_semantics.specs.Examples.Suspicions.{again, duplicates, general, lone, passive_rule, special};

/// A symbol that nothing makes, and one that stands nowhere.
pub fn unmade()
    ensures made { is_made (general ∷ []) [] 8 ≡ true }
    ensures unmade { is_made (general ∷ []) [] 7 ≡ false }
    ensures by_query { is_made (general ∷ []) (chr 7 (number 1 ∷ []) ∷ []) 7 ≡ true }
    ensures used { is_unused (general ∷ []) [] 7 ≡ false }
    ensures unused { is_unused (general ∷ []) [] 9 ≡ true }
{}

/// Tests that hold under no match, and one that may hold.
pub fn hopeless()
    ensures compared { is_hopeless (compares greater (number 1) (number 2)) ≡ true }
    ensures holds { is_hopeless (compares less (number 1) (number 2)) ≡ false }
    ensures open { is_hopeless (compares less (var 0) (number 2)) ≡ false }
    ensures no_number { is_hopeless (compares less (term 8 []) (number 2)) ≡ true }
    ensures unlike { is_hopeless (identical (number 1) (number 2)) ≡ true }
    ensures like { is_hopeless (identical (var 0) (number 2)) ≡ false }
    ensures itself { is_hopeless (not_unifiable (var 0) (var 0)) ≡ true }
    ensures no_integer { is_hopeless (is_integer (term 2 (number 1 ∷ number 2 ∷ []))) ≡ true }
{}

/// Rules that come too late, or never fire.
pub fn late_rules()
    ensures takes { takes_from general special ≡ true }
    ensures takes_less { takes_from special general ≡ false }
    ensures drops { drops_duplicates duplicates ≡ true }
    ensures drops_none { drops_duplicates general ≡ false }
    ensures before { looks_before general duplicates ≡ true }
    ensures not_before { looks_before duplicates general ≡ false }
    ensures barren { is_barren passive_rule ≡ true }
    ensures fertile { is_barren general ≡ false }
{}

/// Bodies that make what was removed, or what nothing evaluates; and a variable that stands once.
pub fn odd_bodies()
    ensures again { is_made_again again.body (head 7 (var 0 ∷ [])).atom ≡ true }
    ensures other { is_made_again general.body (head 7 (var 0 ∷ [])).atom ≡ false }
    ensures unevaluated { map is_unevaluated again.body ≡ false ∷ true ∷ [] }
    ensures lone { lone_variables lone ≡ codes "Y" ∷ [] }
{}
