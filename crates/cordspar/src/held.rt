//! What a handle holds.
use crate::run::Run;
use embedding::Session;

/// A program that was read, or a run that was made.
#[derive(Drop)]
pub enum Held {
    Program(Session),
    Run(Run),
}
