use chr_term::{Sym, Term};
use refusing_alloc::{Refusing, refused_in_turn};
use std::alloc::{Allocator, Global};
use std::process::Abort;

mod bindings;
mod checks;
mod refusing;
mod terms;

use checks::{equal, got, holds};

/// More growths than a call of these tests asks for.
const AMPLE: u64 = 1_000_000;

/// More than a call that is refused in turn asks for.
const MOST: u64 = 60;

/// Whether a growth was refused since `left` of them were allowed. From now on memory is ample.
fn was_refused(meter: &Refusing<Global>, left: u64) -> bool {
    let is_refused = meter.asked() > left;
    meter.allow(AMPLE);
    is_refused
}

/// A symbol over terms.
fn node<A: Allocator + Copy, const N: usize>(
    rt: &impl Abort,
    alloc: A,
    sym: Sym,
    args: [Term<A>; N],
) -> Term<A> {
    let args = got(rt, Vec::from_array(alloc, args));
    got(rt, Term::node(alloc, sym, args))
}
