//! Comparisons of numbers.
ghost use Rattle.std.specs.Prelude.{◌≡◌};
ghost use Rattle.chr_semantics.specs.Guard.{comparison_holds};

/// How two numbers are compared.
#[derive(Clone, Copy, PartialEq, Eq, Debug, Drop)]
pub enum Comparison {
    /// `<`
    Less,
    /// `>`
    Greater,
    /// `=<`
    AtMost,
    /// `>=`
    AtLeast,
    /// `=:=`
    Equals,
    /// `=\=`
    Differs,
}

impl Comparison {
    ghost use Rattle.chr_bind.specs.Comparison.{comparison_view};

    /// Whether the comparison holds of two numbers.
    pub fn holds(self, left: i128, right: i128) -> bool
        ensures { result ≡ comparison_holds (comparison_view self) left right }
    {
        match self {
            Comparison::Less => left < right,
            Comparison::Greater => right < left,
            Comparison::AtMost => !(right < left),
            Comparison::AtLeast => !(left < right),
            Comparison::Equals => left == right,
            Comparison::Differs => left != right,
        }
    }
}
