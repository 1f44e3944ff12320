//! Runs of programs, and replays of schedules: their text goes out to a writer.
#![tactic(auto)]

mod command_line;
mod error;
mod job;
mod limits;
mod numbers;
mod outlet;
mod output;
mod refusal;
mod replays;
mod result;
mod running;
mod runs;

pub use chr_board::{Gate, Point, Tally, Totals};
pub use command_line::command;
pub use error::{RunError, TextError};
pub use replays::replay_text;
pub use result::Run;
pub use running::run;
pub use runs::{run_into, run_text};
