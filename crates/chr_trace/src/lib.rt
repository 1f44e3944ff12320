//! The elements of the goal stack and the status of a run, the lines of its trace, and the text of its end.
#![tactic(auto, using(chr_term::proofs::Extensions::extended_on, chr_term::proofs::Extensions::taken_back))]

mod about;
mod ending;
mod line_iter;
mod lines;
mod parts;
mod resolved;
mod scribe;
mod state;

pub use about::About;
pub use chr_bind::Fault;
pub use chr_term::Memory;
pub use ending::Ending;
pub use line_iter::LineIter;
pub use lines::Lines;
pub use scribe::Scribe;
pub use state::{Elem, Status};
