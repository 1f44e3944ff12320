//! How far the tasks have come, in numbers.

/// How many tasks were offered, handed out, posted with an answer, given up and drained; how many wait to be handed out, and how many
/// answers are left to be drained.
#[derive(Clone, Copy, PartialEq, Eq, Debug, Drop)]
pub struct Totals {
    pub put: u64,
    pub taken: u64,
    pub posted: u64,
    pub given_up: u64,
    pub drained: u64,
    pub waiting: u64,
    pub left: u64,
}
