//! The worked examples of checks. Each function is empty, and its clauses are the examples: the
//! prover computes them from the definitions. The syntaxes stand in
//! `specs/Examples/Syntaxes.antt`.
#![tactic(auto, unfolding(crate::proofs::Numerals::digits))]

ghost use Rattle.std.specs.Prelude.{◌≡◌, ◌≢◌, [], ◌∷◌, ◌++◌, pos, replicate, Ok, codes};
ghost use Rattle.chr_semantics.specs.Names.{first_names};
ghost use Rattle.chr_semantics.specs.Tokens.{greater as greater_sign};
ghost use Rattle.chr_semantics.specs.Syntax.{declares, number, plain, related, simplification, propagation};
ghost use Rattle.chr_semantics.specs.Checked.{checked, checked_query, undeclared, builtin_in_head, not_a_goal, not_a_test, guard_variable, guard_only, duplicate_name, too_many_heads, arity_too_large, backslash_in_propagation, too_many_variables};
ghost use Rattle.chr_semantics.specs.Examples.Runs.{gcd_rules, gcd_example};
ghost use Rattle.chr_semantics.specs.Examples.Syntaxes.{accepted_vars, gcd_syntax, gcd_query, kept_and_removed, with_rule, with_rules, plain_rule, guarded, labelled, symbol, name, over, p, q, r, t_of_x, x, y, many, refused};

/// The program and the query of the greatest common divisor stand for the rules and goals of its
/// run.
pub fn gcd()
    ensures program { checked gcd_syntax
        ≡ Ok (record {
          names = first_names
              ++ gcd_example.symbols;
          declared = 8;
          rules = gcd_rules;
        }) }
    ensures query { checked_query
        (record {
          names = first_names
              ++ gcd_example.symbols;
          declared = 8;
          rules = gcd_rules;
        }) gcd_query
        ≡ Ok (first_names ++ gcd_example.symbols, gcd_example.query) }
{}

/// Mistakes of rules.
pub fn rule_errors()
    ensures variable_as_head { checked (with_rule (plain_rule (plain x ∷ []) propagation (p ∷ [])))
        ≡ refused not_a_goal 2 1 }
    ensures not_declared { checked
        (with_rule (plain_rule (p ∷ []) simplification (name (codes "z") ∷ [])))
        ≡ refused undeclared 2 1 }
    ensures guard_alone { checked
        (with_rule (guarded (plain_rule (t_of_x ∷ []) simplification (name (codes "true") ∷ []))
        (related greater_sign y (number (pos 0)) ∷ []))) ≡ refused guard_variable 2 1 }
    ensures backslash { checked (with_rule (kept_and_removed p q propagation r))
        ≡ refused backslash_in_propagation 2 1 }
{}

/// Further mistakes of rules.
pub fn rule_errors_more()
    ensures true_as_head { checked
        (with_rule (plain_rule (name (codes "true") ∷ []) simplification (p ∷ [])))
        ≡ refused builtin_in_head 2 1 }
    ensures constraint_as_test { checked
        (with_rule (guarded (plain_rule (p ∷ []) simplification (name (codes "true") ∷ []))
        (q ∷ []))) ≡ refused not_a_test 2 1 }
    ensures test_as_goal { checked
        (with_rule (plain_rule (t_of_x ∷ []) simplification (over (codes "integer") x ∷ [])))
        ≡ refused guard_only 2 1 }
    ensures nine_heads { checked
        (with_rule (plain_rule (replicate 9 p) simplification (name (codes "true") ∷ [])))
        ≡ refused too_many_heads 2 1 }
    ensures same_name { checked
        (with_rules (labelled (codes "n") (plain_rule (p ∷ []) simplification (q ∷ []))))
        ≡ refused duplicate_name 3 2 }
{}

/// The limits of declarations and of rules.
pub fn rule_limits()
    ensures declared_arity { checked (declares 1 (symbol (codes "p") 17 ∷ []) ∷ [])
        ≡ refused arity_too_large 1 0 }
    ensures anonymous { checked (with_rule (plain_rule (replicate 8 p) simplification (many 65)))
        ≡ refused too_many_variables 2 1 }
    ensures enough { accepted_vars
        (checked (with_rule (plain_rule (replicate 8 p) simplification (many 64)))) ≡ 64 ∷ [] }
{}
