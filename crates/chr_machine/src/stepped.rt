//! What a step did.

/// What a step did: a transition, or nothing, since the run has ended or the limit of transitions stands.
#[derive(Clone, Copy, PartialEq, Eq, Debug, Drop)]
pub enum Stepped {
    Moved,
    Ended,
    Spent,
}
