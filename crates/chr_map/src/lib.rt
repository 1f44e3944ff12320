//! Ordered maps that are shared for a pointer: a change copies what two maps have in common, and that alone.
#![tactic(auto)]

mod edit;
mod editing;
mod map;
mod node;
mod places;
mod pointer;
mod putting;
mod search;
mod share;
mod span;
mod taking;

pub use edit::Edit;
pub use map::Map;
pub use pointer::Pointer;
pub use share::Share;
pub use span::{Middle, Span};
pub use std::alloc::AllocError as Memory;
