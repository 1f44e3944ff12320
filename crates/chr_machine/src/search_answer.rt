//! What is known of a search that was made elsewhere.
use chr_store::HeadIds;

/// What is known of the search that a step asks for.
#[derive(Clone, Copy, Drop)]
pub enum SearchAnswer {
    /// Nothing is, so that the step makes the search.
    Missing,
    /// What it finds: the identities of the firing, if there is one.
    Found(Option<HeadIds>),
}
