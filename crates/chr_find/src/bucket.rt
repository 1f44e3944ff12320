//! The buckets of an index.
use crate::root::Root;
use chr_term::Sym;

/// Rows of a table that are found together.
#[derive(Clone, Copy, PartialEq, Eq, PartialOrd, Ord, Drop)]
pub(crate) enum Bucket {
    /// All rows.
    All,
    /// Those with a variable.
    Open,
    /// Those of a symbol.
    Symbol(Sym),
    /// Those of a symbol with a root at a position, counted from 0.
    At(Sym, u8, Root),
}
