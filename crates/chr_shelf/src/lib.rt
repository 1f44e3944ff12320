//! Snapshots of a run that all threads read, and answers that are true of them.
#![tactic(auto)]

mod answer;
mod run;
mod shelf;
mod solving;

pub use answer::Answer;
pub use chr_term::Memory;
pub use run::RunName;
pub use shelf::{Shelf, Ticket};
pub use solving::{Unsolved, solve};
