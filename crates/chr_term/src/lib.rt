//! Terms, the names of their symbols, and their printing.
#![tactic(auto)]

mod args;
mod names;
mod numbered;
mod printer;
mod printing;
mod replacing;
mod term;
mod var_names;
mod writing;

pub use args::{Args, copy, copy_all};
pub use names::{FoldState, Names};
pub use numbered::Numbered;
pub use printing::{print, print_atom, print_number, print_numbers};
pub use replacing::{args_or_same, push_replaced, term_or_same, terms_or_same};
pub use std::alloc::AllocError as Memory;
pub use term::{Sym, Term, are_ground, is_ground, same, same_all};
pub use var_names::VarNames;
pub use writing::{all_or_nothing, write_byte, write_bytes, write_number, write_text};
