//! By which lookups rows are found.
ghost use Rattle.std.specs.Prelude.{◌≡◌, true};
ghost use Rattle.std.specs.List.{list_any};
ghost use Rattle.chr_find.specs.PlanView.{lookups_of, is_lookup};

use crate::Memory;
use chr_term::Sym;
use std::alloc::{Allocator, Global};

/// A way by which the rows of a symbol are found: each has its buckets in the index.
#[derive(Clone, Copy, PartialEq, Eq, Drop)]
pub enum Lookup {
    /// By what they have at the root of an argument, whose position is counted from 0.
    Position(u8),
    /// By the symbol alone.
    Symbol,
}

/// The lookups of each symbol, the one by the symbol alone last.
#[derive(Drop)]
pub struct Plan<A: Allocator = Global> {
    /// By the number of the symbol.
    pub lookups: Vec<Vec<Lookup, A>, A>,
    /// For the symbols behind these.
    pub others: Vec<Lookup, A>,
}

impl<A: Allocator + Copy> Plan<A> {
    /// Rows are found by their first argument, and by their symbol alone.
    pub fn first(alloc: A) -> Result<Plan<A>, Memory> {
        let mut others = Vec::new(alloc);
        others.push(Lookup::Position(0))?;
        others.push(Lookup::Symbol)?;
        Ok(Plan {
            lookups: Vec::new(alloc),
            others,
        })
    }
}

/// Whether one of the lookups is by the symbol alone.
fn are_by_symbol(lookups: &[Lookup]) -> bool
    ensures { result ≡ list_any (is_lookup Lookup.Symbol) lookups.now }
{
    for lookup in lookups {
        if matches!(lookup, Lookup::Symbol) {
            return true;
        }
    }
    false
}

impl<A: Allocator> Plan<A> {
    /// The lookups of a symbol.
    pub fn lookups(&self, sym: Sym) -> &[Lookup]
        ensures { result.now ≡ lookups_of self.now sym.0 }
    {
        match self.lookups.get(sym.0 as usize) {
            None => self.others.as_slice(),
            Some(lookups) => lookups.as_slice(),
        }
    }

    /// Whether rows of a symbol are found by it alone.
    pub(crate) fn has_by_symbol(&self, sym: Sym) -> bool
        ensures { result ≡ list_any (is_lookup Lookup.Symbol) (lookups_of self.now sym.0) }
    {
        are_by_symbol(self.lookups(sym))
    }
}
