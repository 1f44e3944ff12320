//! Constraints as they are stored.
use chr_map::Share;
use chr_term::{Args, Memory, Sym};
use std::alloc::{Allocator, Global};

/// A constraint as it was stored: its symbol and its arguments, which later bindings leave as they are.
#[derive(Drop)]
pub struct Row<A: Allocator = Global> {
    pub sym: Sym,
    pub args: Args<A>,
}

impl<A: Allocator> Share for Row<A> {
    fn share(&self) -> Result<Row<A>, Memory> {
        Ok(Row {
            sym: self.sym,
            args: self.args.again()?,
        })
    }
}
