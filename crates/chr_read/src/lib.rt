//! Programs and queries, read as people write them.
//!
//! [`read_program`] and [`read_query`] take the bytes of a text to its syntax, the tree of the grammar with the line where each part begins,
//! or answer what is wrong with it first, and where. A text has one syntax at most.
#![tactic(auto)]

mod directives;
mod error;
mod exprs;
mod halt;
mod items;
pub mod laws;
mod reading;
mod rules;
mod syntax;
mod words;

pub use chr_tokens::{Additive, Memory, Multiplicative, Relation};
pub use error::{ReadError, ReadErrorKind};
pub use reading::{read_program, read_query};
pub use syntax::{
    Arrow, Declaration, Expr, Head, Item, Operator, Part, ProgramSyntax, QuerySyntax, RuleSyntax,
};
