//! The board on which a run leaves tasks for workers and from which it takes their answers.
#![tactic(auto)]

mod board;
mod desk;
mod error;
mod offered_task;
mod searches;
mod slip;
mod totals;
mod worker;

pub use board::Board;
pub use chr_term::Memory;
pub use desk::{Desk, Picked};
pub use error::BoardError;
pub use searches::RoundTask;
pub use slip::Slip;
pub use totals::Totals;
pub use worker::{Gate, Point, Tally, work};
