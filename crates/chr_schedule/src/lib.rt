//! Schedules of answers, as text.
//!
//! A schedule is a list of [`Event`]s. As text it has three kinds of lines, each with its line feed, and one space between
//! two words:
//!
//! ```text
//! publish
//! arrive ROUND INDEX
//! step COUNT
//! ```
//!
//! The last kind stands for a number of Steps in a row, at least one. A number has ASCII digits alone, no zero leads one of
//! several digits, and it is at most `MAX_SCHEDULE_NUMBER`. A text has at most `MAX_SCHEDULE_EVENTS` events.
//!
//! [`read_schedule`] takes a text to its events, and [`print_schedule`] prints events, where each longest run of Steps is
//! one line. What it prints of a schedule that is not too long reads back as the same events.
#![tactic(auto)]

mod error;
mod event;
mod line;
mod lines;
mod numbers;
mod printing;
mod reading;
mod splitting;

pub use chr_term::Memory;
pub use error::{ScheduleError, ScheduleErrorKind};
pub use event::Event;
pub use printing::print_schedule;
pub use reading::read_schedule;
