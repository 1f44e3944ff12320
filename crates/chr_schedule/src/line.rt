//! A line of a schedule.

/// What a line stands for.
#[derive(Clone, Copy, Drop)]
pub enum Line {
    /// A Publish.
    Publish,
    /// The arrival of the answer to a task: its round and its index.
    Arrive(u32, u32),
    /// So many Steps.
    Steps(u64),
}
