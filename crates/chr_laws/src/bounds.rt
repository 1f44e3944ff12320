//! The laws. Each function is empty, and its clause is the law.
ghost use Rattle.chr_semantics.specs.Bounds.{BoundsLaw};

/// The start of a query is bounded, and each step keeps a state bounded.
pub fn bounds_law()
    ensures { BoundsLaw }
{}
