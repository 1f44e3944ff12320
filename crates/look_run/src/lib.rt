//! What the program `look` answers: how a run ended, what fired, and how its constraints came and went.
#![tactic(auto)]

mod again;
mod answering;
mod checked;
mod column;
mod command_line;
mod doubts;
mod excerpt;
mod firings;
mod guarding;
mod heads;
mod json;
mod judged;
mod life;
mod lists;
mod mistakes;
mod page;
mod profile;
mod program_data;
mod reading;
mod refusal;
mod showing;
mod standing;
mod teller;
mod transitions;
mod unsought;
mod why;

pub use command_line::command;
