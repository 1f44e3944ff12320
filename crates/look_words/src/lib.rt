//! What the words after the program's name ask for.
#![tactic(auto)]

mod commands;
mod words;

pub use words::{Question, Request, Run, asked};
