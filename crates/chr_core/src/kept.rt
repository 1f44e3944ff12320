//! The answers that were kept.
use chr_find::Task;
use chr_store::HeadIds;

/// An answer that was kept: the round and the index of its task, the task, and the identities that were found.
#[derive(Clone, Copy, Drop)]
pub(crate) struct Kept {
    pub(crate) round: u32,
    pub(crate) index: u32,
    pub(crate) task: Task,
    pub(crate) ids: Option<HeadIds>,
}
