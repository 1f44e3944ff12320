//! Values that print as a number.
ghost use Rattle.std.specs.Prelude.{◌≡◌, ℕ};

/// A value that stands for a whole number, as the identity of a constraint.
pub trait Numbered {
    ghost number: { Self → ℕ };

    /// The number that it stands for.
    fn number(&self) -> u64
        ensures { result ≡ number self.now };
}

impl Numbered for u64 {
    ghost number = { λ n. n };

    fn number(&self) -> u64 {
        *self
    }
}
