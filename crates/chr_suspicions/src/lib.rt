//! What looks wrong in a program that is accepted: rules that never fire or come too late, tests that never hold, symbols that nothing
//! makes, and goals and variables that may stand there by mistake.
#![tactic(auto)]

mod arithmetic;
mod bodies;
mod guards;
mod heads;
mod names;
mod symbols;
mod variables;

pub use bodies::{is_made_again, is_unevaluated};
pub use chr_term::Memory;
pub use guards::is_hopeless;
pub use heads::{is_barren, looks_before, takes_from};
pub use symbols::{made_symbols, unused_symbols};
pub use variables::lone_variables;
