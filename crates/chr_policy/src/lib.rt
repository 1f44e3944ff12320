//! A run with workers, a transition at a time: where it shows its state to them, and when it takes their answers.
#![tactic(auto)]

mod coordinator;
mod sharing;

pub use chr_term::Memory;
pub use coordinator::{Coordinator, Made};
