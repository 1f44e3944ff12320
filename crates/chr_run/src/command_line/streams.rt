//! What the program `chr` reads and writes.

/// Its two outputs, its input, and its files.
#[derive(Drop)]
pub(super) struct Streams<'s, W, E, I, O> {
    pub(super) output: &'s mut W,
    pub(super) error: &'s mut E,
    pub(super) input: &'s mut I,
    pub(super) files: &'s O,
}
