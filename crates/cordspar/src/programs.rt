//! The calls on programs.
ghost use Rattle.std.specs.Prelude.{◌≡◌, IfErr, IfOk};
ghost use Rattle.std.specs.Borrow.{sem};
ghost use Rattle.std.specs.Box.Ownership.{box_owns};
ghost use Rattle.std.specs.contracts.impls.GlobalAllocator.TheImpl.{ghosts};
ghost use Rattle.cordspar.specs.Calls.{IsProgramCall, IsProgramHeld, IsProgramProblem};
ghost use Rattle.cordspar.specs.contracts.handle.Handle.{the_row};
ghost use Rattle.cordspar.specs.declared.handle.Handle.{Handle as Handled};

use crate::handle::{Handle, handled, release};
use crate::held::Held;
use crate::loose::Loose;
use crate::problem::{MEMORY, Problem, problem_of};
use embedding::Session;
use std::alloc::Global;

/// The version of this library: 0.1.0.
const VERSION: u32 = 256;

/// What a call answers that made what it was asked for.
const DONE: u32 = 0;

/// What a call answers that made nothing.
pub(crate) const REFUSED: u32 = 2;

/// The version of this library, major * 65536 + minor * 256 + patch.
#[unsafe(no_mangle)]
pub extern "C" fn cordspar_version() -> u32
    ensures { result ≡ 256 }
{
    VERSION
}

/// A handle on the program of a text.
fn begun(alloc: Global, text: &[u8]) -> Result<Box<Handle>, Problem>
    ensures held { IfOk result (λ handle. IsProgramHeld text.now handle.value.value) }
    ensures refused { IfErr result (IsProgramProblem text.now) }
{
    let session = match Session::new(alloc, text) {
        Ok(session) => session,
        Err(refusal) => return Err(problem_of(refusal)),
    };
    match handled(alloc, Held::Program(session)) {
        Ok(handle) => Ok(handle),
        Err(_) => Err(MEMORY),
    }
}

/// Reads a program, and sets `out` to a handle on it; or sets `error`.
#[unsafe(no_mangle)]
pub extern "C" fn cordspar_program_new(
    alloc: Global,
    text: &[u8],
    out: &mut *mut Handle,
    error: &mut Problem,
) -> u32
    ensures { IsProgramCall text.now out.old out.new error.old error.new result }
{
    match begun(alloc, text) {
        Ok(handle) => {
            *out = Box::into_raw(handle);
            DONE
        }
        Err(problem) => {
            *error = problem;
            REFUSED
        }
    }
}

/// Lets go of a program.
#[unsafe(no_mangle)]
pub unsafe extern "C" fn cordspar_program_free(alloc: Global, program: *mut Handle)
    ghost value: { Handled }
    requires* { sem 𝓛 (box_owns (ghosts.dealloc_token alloc) the_row program value) }
{
    release(Loose { at: program, alloc });
}
