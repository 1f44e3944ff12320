//! Tests that never hold.
ghost use Rattle.std.specs.Prelude.{◌≡◌, IfOk};
ghost use Rattle.chr_semantics.specs.Suspicion.{is_for_good, is_hopeless};
ghost use Rattle.chr_bind.specs.Guards.{lack_view, test_view};

use crate::Memory;
use chr_bind::{Lack, Match, Test, holds, lack_of};
use std::alloc::Allocator;

/// Whether no binding changes that a test lacks so.
fn is_for_good(lack: Lack) -> bool
    ensures { result ≡ is_for_good (lack_view lack) }
{
    match lack {
        Lack::Untrue => true,
        Lack::Undecided => false,
        Lack::Never => true,
    }
}

/// Whether the test never holds, whatever its variables stand for. The only error is want of memory.
pub fn is_hopeless<A: Allocator + Copy>(alloc: A, test: &Test<A>) -> Result<bool, Memory>
    ensures { IfOk result (λ hopeless. hopeless ≡ is_hopeless (test_view test.now)) }
{
    let matching = Match::new();
    if holds(alloc, test, &matching)? {
        return Ok(false);
    }
    Ok(is_for_good(lack_of(alloc, test, &matching)?))
}
