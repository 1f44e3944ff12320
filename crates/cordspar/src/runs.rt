//! The calls on runs.
ghost use Rattle.std.specs.Prelude.{◌≡◌, IfErr, IfOk, length};
ghost use Rattle.std.specs.Borrow.{sem};
ghost use Rattle.std.specs.Box.Ownership.{box_owns};
ghost use Rattle.std.specs.contracts.impls.GlobalAllocator.TheImpl.{ghosts};
ghost use Rattle.chr_trace.specs.State.{status_view};
ghost use Rattle.cordspar.specs.Calls.{IsMade, IsRunCall, IsRunProblem, IsSameHeld, count_in, fault_code, fault_in, item_in, status_code, steps_in, text_in};
ghost use Rattle.cordspar.specs.Lines.{written_over};
ghost use Rattle.cordspar.specs.contracts.handle.Handle.{the_row};
ghost use Rattle.cordspar.specs.declared.handle.Handle.{Handle as Handled};

use crate::handle::{Handle, handled, release};
use crate::held::Held;
use crate::loose::Loose;
use crate::problem::{MEMORY, NO_PROGRAM, Problem, problem_of};
use crate::programs::REFUSED;
use crate::put::put;
use crate::run::run_of;
use chr_machine::{Fault, Status};
use std::alloc::Global;

/// How a run stands, as the exit status of `chr`.
fn status_code(status: Status) -> u32
    ensures { result ≡ status_code (status_view status) }
{
    match status {
        Status::Done => 0,
        Status::Failed => 3,
        Status::Faulted(_) => 4,
        Status::Running => 5,
    }
}

/// The number of a run's fault, 0 where there is none.
fn fault_code(status: Status) -> u32
    ensures { result ≡ fault_code (status_view status) }
{
    match status {
        Status::Faulted(Fault::Unbound) => 1,
        Status::Faulted(Fault::NotNumber) => 2,
        Status::Faulted(Fault::Overflow) => 3,
        Status::Faulted(Fault::ZeroDivisor) => 4,
        _ => 0,
    }
}

/// A handle on the run of a query, and how the run stands.
fn made(
    alloc: Global,
    held: &mut Held,
    query: &[u8],
    budget: u64,
    is_traced: bool,
) -> Result<(u32, Box<Handle>), Problem>
    ensures made { IfOk result (λ both. IsMade held.old held.new query.now budget is_traced both.0 both.1.value.value) }
    ensures refused { IfErr result (IsRunProblem held.old query.now budget) }
    ensures same { IsSameHeld held.old held.new }
{
    let session = match held {
        Held::Program(session) => session,
        Held::Run(_) => return Err(NO_PROGRAM),
    };
    let outcome = match session.ask(query, budget) {
        Ok(outcome) => outcome,
        Err(refusal) => return Err(problem_of(refusal)),
    };
    let run = match run_of(alloc, session.program(), outcome, is_traced) {
        Ok(run) => run,
        Err(_) => return Err(MEMORY),
    };
    let code = status_code(run.status);
    match handled(alloc, Held::Run(run)) {
        Ok(handle) => Ok((code, handle)),
        Err(_) => Err(MEMORY),
    }
}

/// Runs a query, and sets `out` to a handle on the run; or sets `error`. The program is as before.
#[unsafe(no_mangle)]
pub extern "C" fn cordspar_run_new(
    alloc: Global,
    program: &mut Handle,
    query: &[u8],
    budget: u64,
    trace: u32,
    out: &mut *mut Handle,
    error: &mut Problem,
) -> u32
    ensures call { IsRunCall program.old.value program.new.value query.now budget trace out.old out.new error.old error.new result }
    ensures same { IsSameHeld program.old.value program.new.value }
{
    match made(alloc, program.held(), query, budget, trace != 0) {
        Ok((code, handle)) => {
            *out = Box::into_raw(handle);
            code
        }
        Err(problem) => {
            *error = problem;
            REFUSED
        }
    }
}

/// Lets go of a run.
#[unsafe(no_mangle)]
pub unsafe extern "C" fn cordspar_run_free(alloc: Global, run: *mut Handle)
    ghost value: { Handled }
    requires* { sem 𝓛 (box_owns (ghosts.dealloc_token alloc) the_row run value) }
{
    release(Loose { at: run, alloc });
}

/// How many transitions a run made.
#[unsafe(no_mangle)]
pub extern "C" fn cordspar_run_steps(run: &mut Handle) -> u64
    ensures value { result ≡ steps_in run.old.value }
    ensures same { run.new.value ≡ run.old.value }
{
    match run.held() {
        Held::Run(run) => run.steps,
        Held::Program(_) => 0,
    }
}

/// The number of a run's fault, 0 where there is none.
#[unsafe(no_mangle)]
pub extern "C" fn cordspar_run_fault(run: &mut Handle) -> u32
    ensures value { result ≡ fault_in run.old.value }
    ensures same { run.new.value ≡ run.old.value }
{
    match run.held() {
        Held::Run(run) => fault_code(run.status),
        Held::Program(_) => 0,
    }
}

/// How many lines a part of a run has.
#[unsafe(no_mangle)]
pub extern "C" fn cordspar_run_count(run: &mut Handle, part: u32) -> usize
    ensures value { result ≡ count_in run.old.value part }
    ensures same { run.new.value ≡ run.old.value }
{
    match run.held() {
        Held::Run(run) => run.count(part),
        Held::Program(_) => 0,
    }
}

/// The text of a run.
#[unsafe(no_mangle)]
pub extern "C" fn cordspar_run_text(run: &mut Handle, buffer: &mut [u8]) -> usize
    ensures length { result ≡ length (text_in run.old.value) }
    ensures bytes { buffer.new ≡ written_over (text_in run.old.value) buffer.old }
    ensures same { run.new.value ≡ run.old.value }
{
    match run.held() {
        Held::Run(run) => put(run.text(), buffer),
        Held::Program(_) => 0,
    }
}

/// A line of a part of a run, without its line feed.
#[unsafe(no_mangle)]
pub extern "C" fn cordspar_run_item(
    run: &mut Handle,
    part: u32,
    k: usize,
    buffer: &mut [u8],
) -> usize
    ensures length { result ≡ length (item_in run.old.value part k) }
    ensures bytes { buffer.new ≡ written_over (item_in run.old.value part k) buffer.old }
    ensures same { run.new.value ≡ run.old.value }
{
    match run.held() {
        Held::Run(run) => match run.item(part, k) {
            Some(line) => put(line, buffer),
            None => 0,
        },
        Held::Program(_) => 0,
    }
}
