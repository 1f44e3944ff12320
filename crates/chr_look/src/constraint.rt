//! Constraints of a list.
use chr_store::Id;
use chr_term::{Args, Sym};
use std::alloc::{Allocator, Global};

/// A constraint that lives, with the bindings put in.
#[derive(Drop)]
pub struct Constraint<A: Allocator = Global> {
    pub id: Id,
    pub sym: Sym,
    pub args: Args<A>,
}
