//! What a search looks at.
ghost use Rattle.std.specs.Prelude.{◌≡◌};

/// What a search looked at; the greatest number stands for all greater ones.
#[derive(Clone, Copy, PartialEq, Eq, Debug, Drop)]
pub struct Tried {
    /// How many complete lists were tried.
    pub lists: u64,
    /// How many lists fitted so far, so that a partner for their next head was looked for.
    pub partial: u64,
}

impl Tried {
    /// Nothing.
    pub fn nothing() -> Tried
        ensures lists { result.lists ≡ 0 }
        ensures partial { result.partial ≡ 0 }
    {
        Tried {
            lists: 0,
            partial: 0,
        }
    }
}
