//! Worked examples of schedules as text, and of what becomes of an answer. Each function is empty,
//! and its clauses are the example.
#![tactic(auto, unfolding(crate::proofs::Numerals::digits, crate::specs::Mgu::mgu))]

ghost use Rattle.std.specs.Prelude.{◌≡◌, ◌∷◌, ◌++◌, [], None, Some, Ok, codes, replicate, take};
ghost use Rattle.chr_semantics.specs.Schedule.{arrive, double, kept, late, performed, publish, stranger, took, took_at};
ghost use Rattle.chr_semantics.specs.ScheduleText.{bad_line, bad_number, read_schedule, schedule_text, too_many_events};
ghost use Rattle.chr_semantics.specs.State.{start};
ghost use Rattle.chr_semantics.specs.Examples.Schedules.{faults_by_length, progress_in, refused, three_lines};
ghost use Rattle.chr_semantics.specs.Examples.Speculation.{moves, published_after, speculating};

/// The first bytes of three lines: a line without its line feed is a bad one.
pub fn cut_lines()
    ensures whole { read_schedule three_lines ≡ Ok (published_after 6 (arrive 0 0 ∷ []) 0) }
    ensures empty { read_schedule [] ≡ Ok [] }
    ensures one_line { read_schedule (take 7 three_lines) ≡ Ok (moves 6) }
    ensures two_lines { read_schedule (take 15 three_lines) ≡ Ok (moves 6 ++ publish ∷ []) }
    ensures cut { faults_by_length ≡ None ∷ (replicate 6 (Some 1) ++ None ∷ (replicate 7 (Some 2)
        ++ None ∷ (replicate 10 (Some 3) ++ None ∷ []))) }
    ensures is_bad { read_schedule (take 16 three_lines) ≡ refused bad_line 3 }
{}

/// Numbers that are not well written or too large, and lines that are none.
pub fn wrong_lines()
    ensures leading_zero { read_schedule (codes "arrive 0 00\n") ≡ refused bad_number 1 }
    ensures too_large { read_schedule (codes "arrive 4294967296 0\n") ≡ refused bad_number 1 }
    ensures zero_before { read_schedule (codes "step 01\n") ≡ refused bad_number 1 }
    ensures no_step { read_schedule (codes "step 0\n") ≡ refused bad_number 1 }
    ensures two_spaces { read_schedule (codes "arrive  0 0\n") ≡ refused bad_line 1 }
    ensures minus { read_schedule (codes "step -1\n") ≡ refused bad_line 1 }
    ensures other_word { read_schedule (codes "stop 1\n") ≡ refused bad_line 1 }
{}

/// A schedule has at most 2,000,000 events.
pub fn too_many()
    ensures one_line { read_schedule (codes "step 2000001\n") ≡ refused too_many_events 1 }
    ensures two_lines { read_schedule (codes "step 2000000\npublish\n") ≡ refused too_many_events 2 }
{}

/// What is read is printed, with each run of Steps in one line.
pub fn printed()
    ensures same { schedule_text (published_after 6 (arrive 0 0 ∷ []) 0) ≡ three_lines }
    ensures two_runs { read_schedule (codes "step 2\nstep 3\n") ≡ Ok (moves 5) }
    ensures one_run { schedule_text (moves 5) ≡ codes "step 5\n" }
    ensures nothing { schedule_text [] ≡ [] }
{}

/// The answer to a task is kept, and comes again; a place that no round has is a stranger's; and
/// after nine rounds the first is late.
pub fn core_calls()
    ensures first { took (progress_in speculating (published_after 6 [] 0)) 0 0 ≡ kept 0 }
    ensures again { took (progress_in speculating (published_after 6 (arrive 0 0 ∷ []) 0)) 0 0
        ≡ double 0 }
    ensures its_place { took_at (progress_in speculating (published_after 6 [] 0)) (5 ∷ []) 5 0
        ≡ kept 0 }
    ensures no_place { took_at (progress_in speculating (published_after 6 [] 0)) (5 ∷ []) 4 0
        ≡ stranger }
    ensures after_nine { took (progress_in speculating (moves 6 ++ replicate 9 publish)) 0 0 ≡ late 0 }
{}

/// Steps after the end are passed over.
pub fn idle_steps()
    ensures passed { let e = speculating in
        performed e.program (start e.query) (moves 16 ++ publish ∷ moves 2) ≡ moves 14 ++ publish ∷ [] }
{}
