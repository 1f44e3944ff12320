//! Firings of rules.
use crate::head_ids::HeadIds;

/// A firing: the number of a rule, from 0, and the identities of the constraints at its heads, in head order.
#[derive(Clone, Copy, PartialEq, Eq, PartialOrd, Ord, Hash, Drop)]
pub struct Fired {
    pub rule: usize,
    pub ids: HeadIds,
}
