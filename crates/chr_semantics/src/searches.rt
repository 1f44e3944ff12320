//! The worked examples of searches. Each function is empty, and its clauses are the example.
#![tactic(auto, unfolding(crate::specs::Mgu::mgu))]

ghost use Rattle.std.specs.Prelude.{◌≡◌, ◌∷◌, [], None, Some, pos};
ghost use Rattle.chr_semantics.specs.Keys.{number};
ghost use Rattle.chr_semantics.specs.Snapshot.{found_in, tries_in};
ghost use Rattle.chr_semantics.specs.Examples.Runs.{join};
ghost use Rattle.chr_semantics.specs.Examples.Searches.{binding, going, handed, handed_by, indexed_program, shown_by, stored_by, tries_after};
ghost use Rattle.chr_semantics.specs.Examples.Speculation.{speculating};

/// The rows of p/2 by the key of their first argument: of the store as stored, of a snapshot as
/// bound, and of a task's own snapshot those that do not clash.
pub fn first_argument_index()
    ensures stored_1 { stored_by going (Some (number (pos 1))) ≡ 1 ∷ [] }
    ensures stored_2 { stored_by going (Some (number (pos 2))) ≡ 2 ∷ [] }
    ensures stored_none { stored_by going None ≡ 3 ∷ [] }
    ensures shown_1 { shown_by going (Some (number (pos 1))) ≡ 1 ∷ [] }
    ensures shown_2 { shown_by going (Some (number (pos 2))) ≡ 2 ∷ [] }
    ensures shown_none { shown_by going None ≡ 3 ∷ [] }
    ensures handed_1 { handed_by going (4, 1) (Some (number (pos 1))) ≡ 1 ∷ [] }
    ensures handed_2 { handed_by going (4, 1) (Some (number (pos 2))) ≡ [] }
    ensures handed_none { handed_by going (4, 1) None ≡ [] }
    ensures found { found_in indexed_program (handed going 10 (4, 1)) (4, 1) ≡ Some (4 ∷ 1 ∷ []) }
    ensures tries { tries_in indexed_program (handed going 10 (4, 1)) (4, 1) ≡ (1, 1) }
    ensures bound_stored_1 { stored_by binding (Some (number (pos 1))) ≡ 1 ∷ [] }
    ensures bound_stored_none { stored_by binding None ≡ 3 ∷ [] }
    ensures bound_shown_1 { shown_by binding (Some (number (pos 1))) ≡ 1 ∷ 3 ∷ [] }
    ensures bound_shown_2 { shown_by binding (Some (number (pos 2))) ≡ 2 ∷ [] }
    ensures bound_shown_none { shown_by binding None ≡ [] }
{}

/// The bounds of how many complete lists a search tests.
pub fn tries()
    ensures step_14 { tries_after join 13 5 1 ≡ (2, 4) }
    ensures step_20 { tries_after join 19 5 1 ≡ (4, 4) }
    ensures found { let s = speculating in
        found_in s.program (handed s 6 (3, 1)) (3, 1) ≡ Some (2 ∷ 1 ∷ 3 ∷ []) }
    ensures one { let s = speculating in tries_in s.program (handed s 6 (3, 1)) (3, 1) ≡ (1, 1) }
{}
