//! Bindings as one solved substitution, unification, one-way matching, guards, and values.
#![tactic(auto)]

mod arithmetic;
mod below;
mod bindings;
mod chains;
mod comparison;
mod fault;
mod fitting;
mod guard;
mod matching;
mod renaming;
mod resolving;
mod short;
mod unification;

pub use arithmetic::value;
pub use below::{are_below, is_below};
pub use bindings::{Bindings, Unified};
pub use chr_term::Memory;
pub use comparison::Comparison;
pub use fault::Fault;
pub use fitting::{fit, fit_or_spoil};
pub use guard::{Lack, Test, applied, guard_holds, holds, lack_of};
pub use matching::{Marks, Match};
