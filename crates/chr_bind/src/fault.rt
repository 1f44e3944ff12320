//! Why a term has no value.
ghost use Rattle.std.specs.Prelude.{◌≡◌};
ghost use Rattle.chr_semantics.specs.Text.{fault_text};

use thiserror::Error;

/// Why a term has no value.
#[derive(Clone, Copy, PartialEq, Eq, Debug, Drop, Error)]
#[error("{}", self.word())]
pub enum Fault {
    /// It has a variable.
    Unbound,
    /// It has a symbol that is no operator.
    NotNumber,
    /// A result is outside 128 bits.
    Overflow,
    /// It divides by zero.
    ZeroDivisor,
}

impl Fault {
    ghost use Rattle.chr_bind.specs.Values.{fault_view};

    /// The word that stands for the fault in a trace.
    pub fn word(self) -> &'static str
        ensures { result.now ≡ fault_text (fault_view self) }
    {
        match self {
            Fault::Unbound => "unbound",
            Fault::NotNumber => "type",
            Fault::Overflow => "overflow",
            Fault::ZeroDivisor => "zero_divisor",
        }
    }
}
