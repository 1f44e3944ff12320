//! Threads of workers beside a run.
#![tactic(auto)]

mod workers;

pub use workers::beside;
