//! The worked examples of runs. Each function is empty, and its clauses are the example: the prover
//! computes them from the definitions. The programs and queries stand in
//! `specs/Examples/Runs.antt`.
#![tactic(auto, unfolding(crate::proofs::Numerals::digits, crate::specs::Mgu::mgu))]

ghost use Rattle.std.specs.Prelude.{◌≡◌, [], ◌∷◌, codes};
ghost use Rattle.chr_semantics.specs.Tree.{var};
ghost use Rattle.chr_semantics.specs.Value.{unbound, not_number, zero_divisor};
ghost use Rattle.chr_semantics.specs.State.{running, done, failed, faulted};
ghost use Rattle.chr_semantics.specs.Text.{lines_text};
ghost use Rattle.chr_semantics.specs.Examples.Terms.{number, negative, term, plus, divided, remainder};
ghost use Rattle.chr_semantics.specs.Examples.Example.{EndsAfter, whole_text, trace_lines, trace_line, end_word, outcome_lines, store_lines, binding_lines, history_lines, state_after};
ghost use Rattle.chr_semantics.specs.Examples.Runs.{nothing, only_p, gcd_example, two_rules, duplicate, passive, waking, late_match, itself_inside, two_variables, unbound_value, evaluating, join, unbound_guard, bound_guard, one_number, failing, comparing, faulting, open_list, operators, functors};

/// An empty query is done at once, and a run without a budget makes no transition.
pub fn nothing_to_do()
    ensures done_at_once { (state_after nothing 0).status ≡ done }
    ensures no_line { trace_lines nothing 100 ≡ [] }
    ensures all_empty { outcome_lines nothing 100 ≡
        codes "end done"
        ∷ codes "stack 0"
        ∷ codes "store 0"
        ∷ codes "bindings 0"
        ∷ codes "history 0"
        ∷ [] }
    ensures no_budget { trace_lines only_p 0 ≡ [] }
    ensures stack_stays { outcome_lines only_p 0 ≡
        codes "end budget"
        ∷ codes "stack 1"
        ∷ codes "p"
        ∷ codes "store 0"
        ∷ codes "bindings 0"
        ∷ codes "history 0"
        ∷ [] }
{}

/// The greatest common divisor, by a kept and a removed head and `is`.
pub fn gcd()
    ensures ends { EndsAfter gcd_example 18 done }
    ensures text { whole_text gcd_example 18 ≡ lines_text (
        codes "1 activate gcd(4)#1"
        ∷ codes "2 default gcd(4)#1:1"
        ∷ codes "3 default gcd(4)#1:2"
        ∷ codes "4 default gcd(4)#1:3"
        ∷ codes "5 drop gcd(4)#1:4"
        ∷ codes "6 activate gcd(2)#2"
        ∷ codes "7 default gcd(2)#2:1"
        ∷ codes "8 default gcd(2)#2:2"
        ∷ codes "9 propagate gcd(2)#2:3 gcd2 2,1"
        ∷ codes "10 solve _0 is 4-2"
        ∷ codes "11 activate gcd(2)#3"
        ∷ codes "12 default gcd(2)#3:1"
        ∷ codes "13 simplify gcd(2)#3:2 gcd2 2,3"
        ∷ codes "14 solve _1 is 2-2"
        ∷ codes "15 activate gcd(0)#4"
        ∷ codes "16 simplify gcd(0)#4:1 gcd1 4"
        ∷ codes "17 default gcd(2)#2:3"
        ∷ codes "18 drop gcd(2)#2:4"
        ∷ codes "end done"
        ∷ codes "stack 0"
        ∷ codes "store 1"
        ∷ codes "gcd(2)#2"
        ∷ codes "bindings 0"
        ∷ codes "history 3"
        ∷ codes "gcd2 2,1"
        ∷ codes "gcd2 2,3"
        ∷ codes "gcd1 4"
        ∷ []) }
{}

/// A constraint that propagated and then left the store takes Default and Drop.
pub fn propagate_then_simplify()
    ensures ends { EndsAfter two_rules 7 done }
    ensures trace { trace_lines two_rules 7 ≡
        codes "1 activate p#1"
        ∷ codes "2 propagate p#1:1 a 1"
        ∷ codes "3 activate q#2"
        ∷ codes "4 simplify q#2:1 b 2,1"
        ∷ codes "5 default p#1:1"
        ∷ codes "6 default p#1:2"
        ∷ codes "7 drop p#1:3"
        ∷ [] }
    ensures outcome { outcome_lines two_rules 7 ≡
        codes "end done"
        ∷ codes "stack 0"
        ∷ codes "store 0"
        ∷ codes "bindings 0"
        ∷ codes "history 2"
        ∷ codes "a 1"
        ∷ codes "b 2,1"
        ∷ [] }
{}

/// The removed head comes first among the occurrences, so the second copy goes.
pub fn duplicate_removed()
    ensures ends { EndsAfter duplicate 6 done }
    ensures trace { trace_lines duplicate 6 ≡
        codes "1 activate p(1)#1"
        ∷ codes "2 default p(1)#1:1"
        ∷ codes "3 default p(1)#1:2"
        ∷ codes "4 drop p(1)#1:3"
        ∷ codes "5 activate p(1)#2"
        ∷ codes "6 simplify p(1)#2:1 dup 1,2"
        ∷ [] }
    ensures outcome { outcome_lines duplicate 6 ≡
        codes "end done"
        ∷ codes "stack 0"
        ∷ codes "store 1"
        ∷ codes "p(1)#1"
        ∷ codes "bindings 0"
        ∷ codes "history 1"
        ∷ codes "dup 1,2"
        ∷ [] }
{}

/// A binding wakes all constraints that are not ground, the least identity first.
pub fn waking_order()
    ensures ends { EndsAfter waking 9 done }
    ensures trace { trace_lines waking 9 ≡
        codes "1 activate p(X)#1"
        ∷ codes "2 drop p(X)#1:1"
        ∷ codes "3 activate q(Y)#2"
        ∷ codes "4 drop q(Y)#2:1"
        ∷ codes "5 solve X = a"
        ∷ codes "6 reactivate p(a)#1"
        ∷ codes "7 drop p(a)#1:1"
        ∷ codes "8 reactivate q(Y)#2"
        ∷ codes "9 drop q(Y)#2:1"
        ∷ [] }
    ensures outcome { outcome_lines waking 9 ≡
        codes "end done"
        ∷ codes "stack 0"
        ∷ codes "store 2"
        ∷ codes "p(a)#1"
        ∷ codes "q(Y)#2"
        ∷ codes "bindings 1"
        ∷ codes "X = a"
        ∷ codes "history 0"
        ∷ [] }
{}

/// A head binds no variable of a constraint, and matches once the variable is bound.
pub fn match_does_not_bind()
    ensures ends { EndsAfter late_match 8 done }
    ensures trace { trace_lines late_match 8 ≡
        codes "1 activate p(X)#1"
        ∷ codes "2 default p(X)#1:1"
        ∷ codes "3 drop p(X)#1:2"
        ∷ codes "4 solve X = a"
        ∷ codes "5 reactivate p(a)#1"
        ∷ codes "6 simplify p(a)#1:1 r 1"
        ∷ codes "7 activate q(b)#2"
        ∷ codes "8 drop q(b)#2:1"
        ∷ [] }
    ensures outcome { outcome_lines late_match 8 ≡
        codes "end done"
        ∷ codes "stack 0"
        ∷ codes "store 1"
        ∷ codes "q(b)#2"
        ∷ codes "bindings 1"
        ∷ codes "X = a"
        ∷ codes "history 1"
        ∷ codes "r 1"
        ∷ [] }
{}

/// No term has itself inside.
pub fn occurs_check()
    ensures ends { EndsAfter itself_inside 1 failed }
    ensures trace { trace_lines itself_inside 1 ≡
        codes "1 solve X = f(X) fails"
        ∷ [] }
    ensures outcome { outcome_lines itself_inside 1 ≡
        codes "end failed"
        ∷ codes "stack 1"
        ∷ codes "X = f(X)"
        ∷ codes "store 0"
        ∷ codes "bindings 0"
        ∷ codes "history 0"
        ∷ [] }
{}

/// Of two variables the greater is bound.
pub fn lesser_variable_stays()
    ensures ends { EndsAfter two_variables 3 done }
    ensures trace { trace_lines two_variables 3 ≡
        codes "1 solve A = B"
        ∷ codes "2 activate p(A)#1"
        ∷ codes "3 drop p(A)#1:1"
        ∷ [] }
    ensures outcome { outcome_lines two_variables 3 ≡
        codes "end done"
        ∷ codes "stack 0"
        ∷ codes "store 1"
        ∷ codes "p(A)#1"
        ∷ codes "bindings 1"
        ∷ codes "B = A"
        ∷ codes "history 0"
        ∷ [] }
{}

/// A variable and a name have no value; a quotient is truncated, and a remainder has the divisor's
/// sign.
pub fn arithmetic()
    ensures unbound_ends { EndsAfter unbound_value 1 (faulted unbound) }
    ensures unbound_word { end_word unbound_value 1 ≡ codes "fault unbound" }
    ensures type_ends { EndsAfter (evaluating (plus (term 7 []) (number 1))) 1 (faulted not_number) }
    ensures type_word { end_word (evaluating (plus (term 7 []) (number 1))) 1 ≡ codes "fault type" }
    ensures quotient_ends { EndsAfter (evaluating (divided (negative 7) (number 2))) 1 done }
    ensures quotient_trace { trace_lines (evaluating (divided (negative 7) (number 2))) 1
        ≡ codes "1 solve X is -7//2" ∷ [] }
    ensures quotient { binding_lines (evaluating (divided (negative 7) (number 2))) 1
        ≡ codes "X = -3" ∷ [] }
    ensures remainder_ends { EndsAfter (evaluating (remainder (negative 7) (number 2))) 1 done }
    ensures remainder_trace { trace_lines (evaluating (remainder (negative 7) (number 2))) 1
        ≡ codes "1 solve X is -7 mod 2" ∷ [] }
    ensures remainder { binding_lines (evaluating (remainder (negative 7) (number 2))) 1
        ≡ codes "X = 1" ∷ [] }
{}

/// A propagation takes the least list of partners first, and each list once.
pub fn join_lowest_first()
    ensures ends { EndsAfter join 21 done }
    ensures line_14 { trace_line join 14 ≡ Some (codes "14 propagate go#5:1 r 5,1,4") }
    ensures line_17 { trace_line join 17 ≡ Some (codes "17 propagate go#5:1 r 5,2,3") }
    ensures line_20 { trace_line join 20 ≡ Some (codes "20 default go#5:1") }
    ensures line_21 { trace_line join 21 ≡ Some (codes "21 drop go#5:2") }
    ensures history { history_lines join 21 ≡ codes "r 5,1,4" ∷ codes "r 5,2,3" ∷ [] }
{}

/// A comparison of a variable is not entailed, and is no fault.
pub fn guard_unbound()
    ensures unbound_ends { EndsAfter unbound_guard 3 done }
    ensures unbound_outcome { outcome_lines unbound_guard 3 ≡
        codes "end done"
        ∷ codes "stack 0"
        ∷ codes "store 1"
        ∷ codes "p(A)#1"
        ∷ codes "bindings 0"
        ∷ codes "history 0"
        ∷ [] }
    ensures bound_ends { EndsAfter bound_guard 6 done }
    ensures line_4 { trace_line bound_guard 4 ≡ Some (codes "4 solve A = 3") }
    ensures line_5 { trace_line bound_guard 5 ≡ Some (codes "5 reactivate p(3)#1") }
    ensures line_6 { trace_line bound_guard 6 ≡ Some (codes "6 simplify p(3)#1:1 #1 1") }
    ensures bound_outcome { outcome_lines bound_guard 6 ≡
        codes "end done"
        ∷ codes "stack 0"
        ∷ codes "store 0"
        ∷ codes "bindings 1"
        ∷ codes "A = 3"
        ∷ codes "history 1"
        ∷ codes "#1 1"
        ∷ [] }
{}

/// A rule over ground constraints.
pub fn ground_rule()
    ensures ends { EndsAfter one_number 7 done }
    ensures text { whole_text one_number 7 ≡ lines_text (
        codes "1 activate p(1)#1"
        ∷ codes "2 simplify p(1)#1:1 r 1"
        ∷ codes "3 activate q(2)#2"
        ∷ codes "4 drop q(2)#2:1"
        ∷ codes "5 activate p(2)#3"
        ∷ codes "6 default p(2)#3:1"
        ∷ codes "7 drop p(2)#3:2"
        ∷ codes "end done"
        ∷ codes "stack 0"
        ∷ codes "store 2"
        ∷ codes "q(2)#2"
        ∷ codes "p(2)#3"
        ∷ codes "bindings 0"
        ∷ codes "history 1"
        ∷ codes "r 1"
        ∷ []) }
{}

/// A failure keeps the stack, with the goal that failed on top.
pub fn failure_keeps_stack()
    ensures ends { EndsAfter failing 3 failed }
    ensures trace { trace_lines failing 3 ≡
        codes "1 activate p(X)#1"
        ∷ codes "2 drop p(X)#1:1"
        ∷ codes "3 solve 1 = 2 fails"
        ∷ [] }
    ensures outcome { outcome_lines failing 3 ≡
        codes "end failed"
        ∷ codes "stack 2"
        ∷ codes "1 = 2"
        ∷ codes "q"
        ∷ codes "store 1"
        ∷ codes "p(X)#1"
        ∷ codes "bindings 0"
        ∷ codes "history 0"
        ∷ [] }
{}

/// A comparison wakes too.
pub fn comparison_wakes()
    ensures ends { EndsAfter comparing 5 done }
    ensures line_3 { trace_line comparing 3 ≡ Some (codes "3 solve 1 < 2") }
    ensures line_4 { trace_line comparing 4 ≡ Some (codes "4 reactivate p(X)#1") }
    ensures line_5 { trace_line comparing 5 ≡ Some (codes "5 drop p(X)#1:1") }
    ensures outcome { outcome_lines comparing 5 ≡
        codes "end done"
        ∷ codes "stack 0"
        ∷ codes "store 1"
        ∷ codes "p(X)#1"
        ∷ codes "bindings 0"
        ∷ codes "history 0"
        ∷ [] }
{}

/// A fault is a transition, which a budget counts.
pub fn fault_counts()
    ensures ends { EndsAfter faulting 3 (faulted zero_divisor) }
    ensures line_3 { trace_line faulting 3 ≡ Some (codes "3 solve Y is 1//0 fault zero_divisor") }
    ensures outcome { outcome_lines faulting 3 ≡
        codes "end fault zero_divisor"
        ∷ codes "stack 1"
        ∷ codes "Y is 1//0"
        ∷ codes "store 1"
        ∷ codes "p(X)#1"
        ∷ codes "bindings 0"
        ∷ codes "history 0"
        ∷ [] }
    ensures budget { outcome_lines faulting 2 ≡
        codes "end budget"
        ∷ codes "stack 1"
        ∷ codes "Y is 1//0"
        ∷ codes "store 1"
        ∷ codes "p(X)#1"
        ∷ codes "bindings 0"
        ∷ codes "history 0"
        ∷ [] }
{}

/// A list prints with its rest after a bar, and closed once that is bound.
pub fn list_pattern()
    ensures ends { EndsAfter open_list 5 done }
    ensures line_1 { trace_line open_list 1 ≡ Some (codes "1 activate p([1,2|T])#1") }
    ensures line_4 { trace_line open_list 4 ≡ Some (codes "4 reactivate p([1,2,3])#1") }
    ensures bindings { binding_lines open_list 5 ≡ codes "T = [3]" ∷ [] }
{}

/// Operators print with the parentheses that they need.
pub fn ignored_directives()
    ensures ends { EndsAfter operators 1 done }
    ensures trace { trace_lines operators 1 ≡
        codes "1 solve X = (1+2)*3-(4-5)"
        ∷ [] }
    ensures outcome { outcome_lines operators 1 ≡
        codes "end done"
        ∷ codes "stack 0"
        ∷ codes "store 0"
        ∷ codes "bindings 1"
        ∷ codes "X = (1+2)*3-(4-5)"
        ∷ codes "history 0"
        ∷ [] }
{}

/// Names over lists unify argument by argument.
pub fn functors_unify()
    ensures ends { EndsAfter functors 1 done }
    ensures trace { trace_lines functors 1 ≡
        codes "1 solve f(X,b) = f(a,Y)"
        ∷ [] }
    ensures outcome { outcome_lines functors 1 ≡
        codes "end done"
        ∷ codes "stack 0"
        ∷ codes "store 0"
        ∷ codes "bindings 2"
        ∷ codes "X = a"
        ∷ codes "Y = b"
        ∷ codes "history 0"
        ∷ [] }
{}

/// A passive head has no occurrence, and can still be a partner.
pub fn passive_duplicate()
    ensures ends { EndsAfter passive 5 done }
    ensures trace { trace_lines passive 5 ≡
        codes "1 activate p(1)#1"
        ∷ codes "2 default p(1)#1:1"
        ∷ codes "3 drop p(1)#1:2"
        ∷ codes "4 activate p(1)#2"
        ∷ codes "5 simplify p(1)#2:1 dup 1,2"
        ∷ [] }
    ensures store { store_lines passive 5 ≡ codes "p(1)#1" ∷ [] }
{}
