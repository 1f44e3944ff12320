//! Checked programs and queries: what a syntax stands for, or the first mistake in it with its line and rule.
#![tactic(auto)]

mod building;
mod builtins;
mod checks;
mod error;
mod goal;
mod goals;
mod index;
mod parts;
mod program;
mod queries;
mod rule;
mod rules;
mod trees;
mod variables;

pub use error::{RuleError, RuleErrorKind};
pub use goal::{Goal, Op, Query, copy_goals, print_goal};
pub use index::Occurrence;
pub use program::Program;
pub use rule::Rule;
