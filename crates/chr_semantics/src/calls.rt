//! Worked examples of the calls on the store and the history. Each function is empty, and its
//! clauses are the example.
#![tactic(auto, unfolding(crate::specs::Mgu::mgu))]

ghost use Rattle.std.specs.Prelude.{◌≡◌, ◌∷◌, [], None, is_some, true, false};
ghost use Rattle.chr_semantics.specs.Changes.{woken};
ghost use Rattle.chr_semantics.specs.Search.{atom_of, ids_of};
ghost use Rattle.chr_semantics.specs.Touch.{rule, symbol};
ghost use Rattle.chr_semantics.specs.Examples.Calls.{both_removed, entered_twice, one_more, one_removed, stamp_in, two_added};
ghost use Rattle.chr_semantics.specs.Examples.Speculation.{touched_in};

/// Two constraints are added; the one that is not ground wakes. One is removed, once, and another
/// is added. Each call that changes something touches the symbol.
pub fn store_calls()
    ensures added { ids_of two_added.rows ≡ 1 ∷ 2 ∷ [] }
    ensures wakes { woken two_added [] ≡ 2 ∷ [] }
    ensures gone { is_some (atom_of one_removed.rows 1) ≡ false }
    ensures removed_once { one_removed.changes ≡ 3 }
    ensures next { one_removed.next_id ≡ 3 }
    ensures left { ids_of one_more.rows ≡ 2 ∷ 3 ∷ [] }
    ensures stamp { one_more.stamps 7 ≡ 4 }
    ensures other_stamp { one_more.stamps 8 ≡ 0 }
{}

/// A firing is entered once.
pub fn history_calls()
    ensures list { entered_twice.list ≡ (0, 2 ∷ 1 ∷ []) ∷ [] }
    ensures stamp { entered_twice.stamps 0 ≡ 1 }
{}

/// Three transitions touch p, and four calls do: a firing that removes two constraints makes two.
pub fn stamps_count_calls()
    ensures touched { touched_in both_removed (symbol 7) ≡ 3 }
    ensures stamp { stamp_in both_removed (symbol 7) ≡ 4 }
    ensures rule_touched { touched_in both_removed (rule 0) ≡ 1 }
    ensures rule_stamp { stamp_in both_removed (rule 0) ≡ 1 }
{}
