//! The machine: the transitions of the refined operational semantics on one thread, and their trace.
//!
//! A program of one's own has rules by the crate `embedding`, which reads a program once and starts a machine for each query:
//!
//! ```text
//! let mut session = Session::new(alloc, PROGRAM)?;
//! let outcome = session.ask(b"gcd(4), gcd(6).", 100_000)?;
//! for (id, row) in outcome.store.rows() {
//!     let args = outcome.bindings.resolve_args(&row.args)?;
//!     show(id, row.sym, args.as_slice());
//! }
//! ```
#![tactic(auto)]

mod course;
mod execution;
mod machine;
mod need;
mod others;
mod outcome;
mod run;
mod search_answer;
mod sharing;
mod solving;
mod stack;
mod stepped;
mod tasks;
mod trying;
mod turning;
mod waking;

pub use chr_bind::Fault;
pub use chr_find::{Found, Snapshot, Task, Tried};
pub use chr_store::{Fired, History, Id, Row, Store};
pub use chr_trace::{Elem, Lines, Status};
pub use machine::Machine;
pub use need::Need;
pub use outcome::Outcome;
pub use stepped::Stepped;
