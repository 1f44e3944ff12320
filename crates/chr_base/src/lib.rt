//! What each transition changes below the stack: the constraints of a run with their bindings, what has fired, the table that is searched, and
//! the places at which searches go on. Many firings of one constraint cost one walk over the lists of partners.
#![tactic(auto)]

mod base;
mod binding;
mod body;
mod bookmark;
mod firing;
mod heads;
mod searching;
mod sharing;
mod terms;

pub use base::Base;
pub use chr_term::Memory;
