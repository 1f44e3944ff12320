//! The worked examples of whole numbers of 128 bits. Each function is empty, and its clauses are
//! the examples: the prover computes them from the definitions. The queries stand in
//! `specs/Examples/Numbers.antt`.
#![tactic(auto, unfolding(crate::proofs::Numerals::digits, crate::specs::Mgu::mgu))]

ghost use Rattle.std.specs.Prelude.{◌≡◌, ◌^◌, [], ◌∷◌, codes, pos, negsuc};
ghost use Rattle.chr_semantics.specs.Tree.{var};
ghost use Rattle.chr_semantics.specs.Value.{unbound, not_number, overflow, zero_divisor, value};
ghost use Rattle.chr_semantics.specs.State.{done, faulted};
ghost use Rattle.chr_semantics.specs.Examples.Terms.{number, negative, term, plus, divided, remainder};
ghost use Rattle.chr_semantics.specs.Examples.Example.{EndsAfter, trace_lines, end_word, stack_lines, binding_lines};
ghost use Rattle.chr_semantics.specs.Examples.Runs.{evaluating};
ghost use Rattle.chr_semantics.specs.Examples.Numbers.{told_equal, greatest_of_64, greatest, least};

/// Runs over numbers beyond 64 bits, and over the greatest and the least number of 128 bits.
pub fn whole_numbers()
    ensures sum_ends { EndsAfter (evaluating (plus greatest_of_64 (number 1))) 1 done }
    ensures sum_trace { trace_lines (evaluating (plus greatest_of_64 (number 1))) 1 ≡
        codes "1 solve X is 9223372036854775807+1" ∷ [] }
    ensures sum { binding_lines (evaluating (plus greatest_of_64 (number 1))) 1
        ≡ codes "X = 9223372036854775808" ∷ [] }
    ensures beyond { binding_lines (told_equal (number 9223372036854775808)) 1
        ≡ codes "X = 9223372036854775808" ∷ [] }
    ensures below { binding_lines (told_equal (negative 9223372036854775808)) 1
        ≡ codes "X = -9223372036854775808" ∷ [] }
    ensures least_number { binding_lines (told_equal least) 1 ≡
        codes "X = -170141183460469231731687303715884105728" ∷ [] }
    ensures overflow_ends { EndsAfter (evaluating (plus greatest (number 1))) 1 (faulted overflow) }
    ensures overflow_word { end_word (evaluating (plus greatest (number 1))) 1
        ≡ codes "fault overflow" }
    ensures overflow_stack { stack_lines (evaluating (plus greatest (number 1))) 1 ≡
        codes "X is 170141183460469231731687303715884105727+1" ∷ [] }
    ensures quotient_ends { EndsAfter (evaluating (divided least (negative 1))) 1 (faulted overflow) }
    ensures quotient_word { end_word (evaluating (divided least (negative 1))) 1
        ≡ codes "fault overflow" }
    ensures remainder_ends { EndsAfter (evaluating (remainder least (negative 1))) 1 done }
    ensures remainder_is { binding_lines (evaluating (remainder least (negative 1))) 1
        ≡ codes "X = 0" ∷ [] }
{}

/// Values of terms. The variable is `V`, and the symbol 7 is `a`.
pub fn values()
    ensures sum { value (plus greatest_of_64 (number 1)) ≡ Ok (pos 9223372036854775808) }
    ensures quotient { value (divided (negative 9223372036854775808) (negative 1))
        ≡ Ok (pos 9223372036854775808) }
    ensures truncated { value (divided (negative 7) (number 2)) ≡ Ok (negsuc 2) }
    ensures positive_divisor { value (remainder (negative 7) (number 2)) ≡ Ok (pos 1) }
    ensures negative_divisor { value (remainder (number 7) (negative 2)) ≡ Ok (negsuc 0) }
    ensures least_quotient { value (divided least (negative 1)) ≡ Err overflow }
    ensures least_remainder { value (remainder least (negative 1)) ≡ Ok (pos 0) }
    ensures by_zero { value (divided (number 1) (number 0)) ≡ Err zero_divisor }
    ensures variable_first { value (plus (var 0) (term 7 [])) ≡ Err unbound }
    ensures name_first { value (plus (term 7 []) (var 0)) ≡ Err not_number }
{}
