//! The definitions of the language, its transitions and speculation, their laws, and the worked
//! examples.
#![tactic(auto)]

pub mod calls;
pub mod checks;
pub mod effects;
pub mod laws;
pub mod limits;
pub mod policy;
pub mod profiles;
pub mod runs;
pub mod schedules;
pub mod searches;
pub mod speculation;
pub mod suspicions;
pub mod verdicts;
pub mod whole_numbers;
