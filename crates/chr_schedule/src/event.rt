//! The events of a schedule.

/// An event of a schedule.
#[derive(Clone, Copy, PartialEq, Eq, Debug, Drop)]
pub enum Event {
    /// A Publish.
    Publish,
    /// The arrival of the answer to a task: its round and its index.
    Arrive(u32, u32),
    /// A Step.
    Step,
}
