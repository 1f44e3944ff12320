//! Rules in a program of one's own: a program is read once, and answers query after query, on one thread and with no lock.
//!
//! [`Session::new`] reads the program. [`Session::ask`] reads a query, runs it within a budget, and answers how the run stands, in its parts:
//! goal stack, store, bindings, history and trace. The names of a query, its symbols that the program does not have, go with the next
//! question, so a session that answers a million queries does not grow.
#![tactic(auto)]

mod refusal;
mod session;

pub use chr_machine::Outcome;
pub use refusal::Refusal;
pub use session::Session;
