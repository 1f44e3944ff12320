//! The name of a run.
ghost use Rattle.std.specs.Prelude.{[]};
ghost use Rattle.boxcar.specs.Table.{Shelves};
ghost use Rattle.chr_semantics.specs.Program.{Program};

use std::marker::Brand;

/// The name of a run: its shelf and the rules of its program. Tickets and answers have it in their type, so that what comes from another
/// thread is known to be of this run. No value of a running program shows it.
pub trait RunName {
    ghost shelf: { Shelves };

    ghost rules: { Program };
}

/// The name that one run has in proofs, and no other one.
impl RunName for Brand {
    ghost shelf = { record { tag = []; buckets = [] } };

    ghost rules = { [] };
}
