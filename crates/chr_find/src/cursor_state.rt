//! Where the partners so far stand to the list after which a search goes on.
ghost use Rattle.std.specs.Prelude.{◌≡◌, ◌+◌, ℕ, List, [], drop};
ghost use Rattle.chr_find.specs.Threshold.{admits, threshold_bound, next_threshold};
ghost use Rattle.chr_find.specs.CursorStateView.{threshold_of};

use chr_store::HeadIds;

/// Where the partners so far stand to a list.
#[derive(Clone, Copy, Drop)]
pub(crate) enum CursorState {
    /// Nothing more is asked.
    Free,
    /// They are equal to its first identities.
    On,
    /// They are before it: a new row is still wanted.
    Before,
}

impl CursorState {
    /// After one more partner at a level. A new one has an identity that is not below `from`.
    pub(crate) fn next(self, after: &HeadIds, level: usize, from: u64, id: u64) -> CursorState
        ensures { threshold_of result (drop (level + 1) after.now)
            ≡ next_threshold from (threshold_of self (drop level after.now)) id }
    {
        if id >= from {
            return CursorState::Free;
        }
        match self {
            CursorState::Free => CursorState::Free,
            CursorState::Before => CursorState::Before,
            CursorState::On => {
                let bound = match after.get(level) {
                    None => return CursorState::Free,
                    Some(bound) => bound.0,
                };
                if bound < id {
                    CursorState::Free
                } else if bound == id {
                    CursorState::On
                } else {
                    CursorState::Before
                }
            }
        }
    }

    /// A partner at the level with a lesser identity leads to lists before that one, which a new row alone makes wanted.
    pub(crate) fn bound(self, after: &HeadIds, level: usize, from: u64) -> u64
        ensures { result ≡ threshold_bound from (threshold_of self (drop level after.now)) }
    {
        match self {
            CursorState::Free => 0,
            CursorState::Before => from,
            CursorState::On => match after.get(level) {
                None => 0,
                Some(bound) => bound.0.min(from),
            },
        }
    }

    /// Whether a list that ends here is one that the search asks for.
    pub(crate) fn is_free(self) -> bool
        ensures { (lowest : ℕ) (rest : List ℕ) → result ≡ admits lowest (threshold_of self rest) [] }
    {
        match self {
            CursorState::Free => true,
            CursorState::On => false,
            CursorState::Before => false,
        }
    }
}
