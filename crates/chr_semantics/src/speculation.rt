//! The worked examples of speculation. Each function is empty, and its clauses are the example: the
//! prover computes them from the definitions. The programs and queries stand in
//! `specs/Examples/Speculation.antt`.
#![tactic(auto, unfolding(crate::proofs::Numerals::digits, crate::specs::Mgu::mgu))]

ghost use Rattle.std.specs.Prelude.{◌≡◌, [], ◌∷◌, ◌++◌, codes, map, replicate};
ghost use Rattle.chr_semantics.specs.State.{done};
ghost use Rattle.chr_semantics.specs.Text.{lines_text};
ghost use Rattle.chr_semantics.specs.Touch.{symbol, rule, footprint};
ghost use Rattle.chr_semantics.specs.Schedule.{publish, arrive, unknown_round, unknown_task};
ghost use Rattle.chr_semantics.specs.Desk.{after_drain, answers, is_closed, next_serial, offer_refusal, too_many_tasks, totals};
ghost use Rattle.chr_semantics.specs.Examples.Desks.{one_given_up, one_posted, open_board, two_offered};
ghost use Rattle.chr_semantics.specs.Examples.Example.{state_after, EndsAfter, whole_text, trace_line, history_lines};
ghost use Rattle.chr_semantics.specs.Examples.Runs.{two_rules, duplicate};
ghost use Rattle.chr_semantics.specs.Examples.Speculation.{moves, used_steps, own_steps, counts_in, refusal_in, tasks_after, touched_in, two_answers, three_answers, published_after, many_occurrences, many_wait, speculating, speculating_passive, guest_waits, guest_changes, partner_bound, three_solves, wakes_itself};
ghost use Rattle.chr_semantics.specs.Tasks.{numbers_from};

/// Answers that are made ahead serve until a rule of theirs fires or a symbol is touched.
pub fn speculation()
    ensures ends { EndsAfter speculating 14 done }
    ensures text { whole_text speculating 14 ≡ lines_text (
        codes "1 activate q(1)#1"
        ∷ codes "2 default q(1)#1:1"
        ∷ codes "3 drop q(1)#1:2"
        ∷ codes "4 activate act#2"
        ∷ codes "5 propagate act#2:1 p1 2"
        ∷ codes "6 activate s(1)#3"
        ∷ codes "7 propagate s(1)#3:1 r 2,1,3"
        ∷ codes "8 activate out(1)#4"
        ∷ codes "9 drop out(1)#4:1"
        ∷ codes "10 default s(1)#3:1"
        ∷ codes "11 drop s(1)#3:2"
        ∷ codes "12 default act#2:1"
        ∷ codes "13 default act#2:2"
        ∷ codes "14 drop act#2:3"
        ∷ codes "end done"
        ∷ codes "stack 0"
        ∷ codes "store 4"
        ∷ codes "q(1)#1"
        ∷ codes "act#2"
        ∷ codes "s(1)#3"
        ∷ codes "out(1)#4"
        ∷ codes "bindings 0"
        ∷ codes "history 2"
        ∷ codes "p1 2"
        ∷ codes "r 2,1,3"
        ∷ []) }
    ensures tasks_then { tasks_after speculating 6 ≡ (3, 1) ∷ (2, 1) ∷ (2, 2) ∷ [] }
    ensures counts_are { counts_in speculating (published_after 6 three_answers 8) ≡
        record { kept = 3; late = 0; double = 0; used = 2; own = 4 } }
    ensures used { used_steps speculating (published_after 6 three_answers 8) ≡ 7 ∷ 12 ∷ [] }
    ensures own { own_steps speculating (published_after 6 three_answers 8) ≡ 2 ∷ 5 ∷ 10 ∷ 13 ∷ [] }
{}

/// An answer that comes again is double, and one to a round that eight others have followed is
/// late.
pub fn late_and_double()
    ensures double { counts_in speculating (published_after 6 (three_answers ++ arrive 0 2 ∷ []) 8) ≡
        record { kept = 3; late = 0; double = 1; used = 2; own = 4 } }
    ensures late { counts_in speculating
        (moves 6 ++ replicate 9 publish ++ arrive 0 0 ∷ arrive 1 0 ∷ moves 8) ≡
        record { kept = 1; late = 1; double = 0; used = 1; own = 5 } }
{}

/// An answer to a round or a task that is not there is refused, at its place in the schedule.
pub fn unknown_arrivals()
    ensures round { refusal_in speculating (arrive 0 0 ∷ []) ≡ Some (unknown_round 0) }
    ensures task { refusal_in speculating (published_after 6 (arrive 0 3 ∷ []) 0)
        ≡ Some (unknown_task 7) }
{}

/// The order of the arrivals changes nothing.
pub fn arrivals_reversed()
    ensures counts_are { counts_in speculating
        (published_after 6 (arrive 0 2 ∷ arrive 0 1 ∷ arrive 0 0 ∷ []) 8) ≡
        record { kept = 3; late = 0; double = 0; used = 2; own = 4 } }
{}

/// Answers that are made before a removal of theirs do not serve after it. The trace is that of
/// `propagate_then_simplify`.
pub fn early_round()
    ensures ends { EndsAfter two_rules 7 done }
    ensures tasks_then { tasks_after two_rules 3 ≡ (2, 1) ∷ (1, 1) ∷ (1, 2) ∷ [] }
    ensures counts_are { counts_in two_rules (published_after 3 three_answers 4) ≡
        record { kept = 3; late = 0; double = 0; used = 1; own = 1 } }
    ensures used { used_steps two_rules (published_after 3 three_answers 4) ≡ 4 ∷ [] }
    ensures own { own_steps two_rules (published_after 3 three_answers 4) ≡ 2 ∷ [] }
{}

/// Answers for a constraint that is not yet active serve once it is.
pub fn guest_answers()
    ensures tasks_then { tasks_after speculating 1 ≡ (1, 1) ∷ (2, 1) ∷ (2, 2) ∷ [] }
    ensures counts_are { counts_in speculating (published_after 1 three_answers 13) ≡
        record { kept = 3; late = 0; double = 0; used = 2; own = 4 } }
    ensures used { used_steps speculating (published_after 1 three_answers 13) ≡ 2 ∷ 5 ∷ [] }
    ensures own { own_steps speculating (published_after 1 three_answers 13) ≡ 7 ∷ 10 ∷ 12 ∷ 13 ∷ [] }
{}

/// Another constraint comes to the identity that the guest was to have.
pub fn guest_is_not_next()
    ensures ends { EndsAfter guest_waits 16 done }
    ensures tasks_then { tasks_after guest_waits 1 ≡ (1, 1) ∷ (2, 1) ∷ [] }
    ensures line_3 { trace_line guest_waits 3 ≡ Some (codes "3 activate q#2") }
    ensures line_4 { trace_line guest_waits 4 ≡ Some (codes "4 propagate q#2:1 c 2") }
    ensures line_11 { trace_line guest_waits 11 ≡ Some (codes "11 activate r#4") }
    ensures line_16 { trace_line guest_waits 16 ≡ Some (codes "16 drop r#4:2") }
    ensures counts_are { counts_in guest_waits (published_after 1 two_answers 15) ≡
        record { kept = 2; late = 0; double = 0; used = 1; own = 5 } }
    ensures used { used_steps guest_waits (published_after 1 two_answers 15) ≡ 2 ∷ [] }
    ensures own { own_steps guest_waits (published_after 1 two_answers 15) ≡ 4 ∷ 7 ∷ 9 ∷ 12 ∷ 15 ∷ [] }
{}

/// The guest's goal has changed before it became active.
pub fn guest_goal_changed()
    ensures ends { EndsAfter guest_changes 14 done }
    ensures line_9 { trace_line guest_changes 9 ≡ Some (codes "9 activate r(1)#2") }
    ensures line_10 { trace_line guest_changes 10 ≡ Some (codes "10 propagate r(1)#2:1 b 2") }
    ensures line_14 { trace_line guest_changes 14 ≡ Some (codes "14 drop r(1)#2:2") }
    ensures counts_are { counts_in guest_changes (published_after 1 two_answers 13) ≡
        record { kept = 2; late = 0; double = 0; used = 1; own = 4 } }
    ensures used { used_steps guest_changes (published_after 1 two_answers 13) ≡ 2 ∷ [] }
    ensures own { own_steps guest_changes (published_after 1 two_answers 13) ≡ 5 ∷ 7 ∷ 10 ∷ 13 ∷ [] }
{}

/// A binding touches the symbols of the constraints that are not ground, of a passive head's too.
pub fn binding_touches()
    ensures ends { EndsAfter partner_bound 17 done }
    ensures tasks_then { tasks_after partner_bound 3 ≡ (2, 1) ∷ (2, 2) ∷ [] }
    ensures line_4 { trace_line partner_bound 4 ≡ Some (codes "4 propagate go(Y)#2:1 a 2") }
    ensures line_5 { trace_line partner_bound 5 ≡ Some (codes "5 solve Y = 1") }
    ensures line_6 { trace_line partner_bound 6 ≡ Some (codes "6 reactivate p(1)#1") }
    ensures line_7 { trace_line partner_bound 7 ≡ Some (codes "7 drop p(1)#1:1") }
    ensures line_9 { trace_line partner_bound 9 ≡ Some (codes "9 default go(1)#2:1") }
    ensures line_10 { trace_line partner_bound 10 ≡ Some (codes "10 propagate go(1)#2:2 r 2,1") }
    ensures line_17 { trace_line partner_bound 17 ≡ Some (codes "17 drop go(1)#2:3") }
    ensures counts_are { counts_in partner_bound (published_after 3 two_answers 14) ≡
        record { kept = 2; late = 0; double = 0; used = 1; own = 5 } }
    ensures used { used_steps partner_bound (published_after 3 two_answers 14) ≡ 4 ∷ [] }
    ensures own { own_steps partner_bound (published_after 3 two_answers 14) ≡ 9 ∷ 10 ∷ 13 ∷ 15 ∷ 16
        ∷ [] }
    ensures history { history_lines partner_bound 17 ≡ codes "a 2" ∷ codes "r 2,1" ∷ [] }
{}

/// A passive head gives no task.
pub fn speculation_passive()
    ensures ends { EndsAfter speculating_passive 13 done }
    ensures line_12 { trace_line speculating_passive 12 ≡ Some (codes "12 default act#2:1") }
    ensures line_13 { trace_line speculating_passive 13 ≡ Some (codes "13 drop act#2:2") }
    ensures counts_are { counts_in speculating_passive (published_after 6 two_answers 7) ≡
        record { kept = 2; late = 0; double = 0; used = 2; own = 3 } }
    ensures refused { refusal_in speculating_passive (published_after 6 three_answers 7)
        ≡ Some (unknown_task 9) }
{}

/// What transitions touch, and the footprint of an occurrence with a passive partner. The symbols 7
/// and 8 are the first two that an example declares.
pub fn touch_counts()
    ensures entered_and_removed { touched_in duplicate (symbol 7) ≡ 3 }
    ensures fired { touched_in duplicate (rule 0) ≡ 1 }
    ensures ground_stays { touched_in three_solves (symbol 7) ≡ 1 }
    ensures bound_once { touched_in three_solves (symbol 8) ≡ 2 }
    ensures footprint_is { footprint partner_bound.program (state_after partner_bound 3) 2 2 ≡
        rule 1 ∷ symbol 7 ∷ symbol 8 ∷ [] }
{}

/// Eight waiting elements give tasks, the guest too, whatever is between; a round has at most 64
/// tasks, and each once.
pub fn limits_of_tasks()
    ensures eight { tasks_after many_wait 32 ≡ (1, 1) ∷ (2, 1) ∷ (3, 1) ∷ (4, 1) ∷ (5, 1) ∷ (6, 1)
        ∷ (7, 1) ∷ (8, 1) ∷ (9, 1) ∷ (11, 1) ∷ [] }
    ensures sixty_four { tasks_after many_occurrences 1 ≡ map (λ j. (1, j)) (numbers_from 1 64) }
    ensures once { tasks_after wakes_itself 4 ≡ (1, 1) ∷ (1, 2) ∷ [] }
{}

/// Two tasks are offered; one is answered and drained, one given up, and the desk is closed.
pub fn board_calls()
    ensures too_many { offer_refusal open_board 262145 ≡ Some too_many_tasks }
    ensures none_refused { offer_refusal open_board 2 ≡ None }
    ensures first { next_serial two_offered ≡ Some 0 }
    ensures answer { answers one_posted ≡ 77 ∷ [] }
    ensures second { next_serial (after_drain one_posted) ≡ Some 1 }
    ensures none { next_serial one_given_up ≡ None }
    ensures totals { totals one_given_up ≡ record {
      put = 2;
      taken = 2;
      posted = 1;
      given_up = 1;
      drained = 1;
      waiting = 0;
      left = 0;
    } }
    ensures closed { offer_refusal one_given_up 1 ≡ Some is_closed }
{}
