//! A run with answers that were made elsewhere: rounds, arrivals, steps, and their counts. Whatever arrives, the state is that of the steps
//! alone.
#![tactic(auto)]

mod answers;
mod arriving;
mod by_place;
mod error;
mod kept;
mod positions;
mod publishing;
mod replaying;
mod round;
// `Core` stands there: the toolchain allows no module with the name `core`.
mod run_core;
mod serving;
mod spots;
mod stamps;
mod stepping;
mod touching;

pub use arriving::Took;
pub use chr_machine::{Machine, Need, Outcome, Stepped};
pub use chr_schedule::{Event, ScheduleError, ScheduleErrorKind, print_schedule, read_schedule};
pub use chr_term::Memory;
pub use error::{CoreError, ReplayError};
pub use replaying::replay;
pub use run_core::{Core, Counts};
