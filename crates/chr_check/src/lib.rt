//! What is wrong with the text of a program, and of a query over it: all mistakes, each with the token that it stands at.
//!
//! [`mistakes`] tells those of a program, [`query_mistakes`] those of a query. A reading goes on behind the next END after a mistake, and a
//! check with the next rule, so that one look shows them all. What is accepted has none; what is refused has at least one. [`expected`] tells
//! what may stand at a place of a text, [`suspicions`] what looks wrong in a program that is accepted, and [`heads`] where its heads stand.
#![tactic(auto)]

mod candidate;
mod expecting;
mod hints;
mod items;
mod mistake;
mod nearest;
mod pieces;
mod programs;
mod queries;
mod reading;
mod refusal;
mod rules;
mod spans;
mod spots;
mod suspecting;
mod suspicion;
mod symbols;

pub use candidate::Candidate;
pub use chr_term::Memory;
pub use expecting::{Language, expected};
pub use hints::Hint;
pub use mistake::{Declared, Detail, Kind, Mistake};
pub use programs::mistakes;
pub use queries::query_mistakes;
pub use rules::MOST;
pub use spans::{RuleSpans, Span, rule_spans};
pub use suspecting::suspicions;
pub use suspicion::{Doubt, Suspicion};
