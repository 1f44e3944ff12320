//! What holds of every text. The function is empty, and its clause is the law.

ghost use Rattle.chr_semantics.specs.Accepted.{OneReadingLaw};

/// A text has at most one reading, as a program and as a query; so two texts are accepted as at
/// most one program and query, with their names.
pub fn one_reading_law()
    ensures { OneReadingLaw }
{}
