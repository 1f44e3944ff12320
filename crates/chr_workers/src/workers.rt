//! The threads.
ghost use Rattle.std.specs.Prelude.{◌≡◌};
ghost use Rattle.std.specs.Thread.{IsSend, IsSync};
ghost use denote.Param.Send.{Frees};
ghost use Rattle.chr_rules.specs.ProgramView.{rules_of};

use chr_board::{Board, Gate, Tally, work};
use chr_rules::Program;
use chr_shelf::{RunName, Shelf};
use std::alloc::Allocator;
use std::sync::Wait;
use std::thread;
use std::thread::{Threads, join_mut};

/// Of no worker.
const NO_TALLY: Tally = Tally {
    taken: 0,
    posted: 0,
    given_up: 0,
};

/// The bytes of stack of a worker: a search goes down terms, and a term may be nested as deep as its text is long.
const STACK: usize = 0x4000_0000;

/// Of the workers of both, as far as the numbers reach.
fn sum(one: Tally, other: Tally) -> Tally {
    Tally {
        taken: one.taken.saturating_add(other.taken),
        posted: one.posted.saturating_add(other.posted),
        given_up: one.given_up.saturating_add(other.given_up),
    }
}

/// Has workers answer tasks, until the board is closed. A worker that cannot start is left out.
fn work_all<
    'x,
    J: RunName + Send + Sync,
    A: Allocator + Copy + Send + Sync,
    G: Gate,
    R: Threads + Wait + Sync,
>(
    rt: &'x R,
    alloc: A,
    program: &'x Program<A>,
    shelf: &'x Shelf<A>,
    board: &'x Board<J, A>,
    gate: &'x G,
    workers: u32,
) -> Tally
    requires name { shelf.now ≡ J.shelf }
    requires rules { rules_of program.now ≡ J.rules }
{
    thread::scope(
        thread::scope_env(),
        rt,
        move |scope| -> Tally
            requires { IsSend J.row × IsSync J.row × IsSend A.row × IsSync A.row × IsSync G.row × IsSync R.row
                × Frees A.Allocator A.dealloc_token × (shelf.now ≡ J.shelf) × (rules_of program.now ≡ J.rules) }
        {
            let mut started = match Vec::with_capacity(alloc, workers as usize) {
                Ok(started) => started,
                Err(_) => return NO_TALLY,
            };
            for _ in 0..workers {
                let large = thread::Builder::new().stack_size(STACK);
                let worker = large.spawn_scoped(
                    scope,
                    move || -> Tally
                        requires { (shelf.now ≡ J.shelf) × (rules_of program.now ≡ J.rules) }
                    { work(rt, program, shelf, board, gate) },
                );
                if let Ok(handle) = worker {
                    started.push_reserved(handle);
                }
            }
            let mut tally = NO_TALLY;
            for handle in started {
                tally = sum(tally, handle.join(rt));
            }
            tally
        },
    )
}

/// Calls a run, in this thread, beside workers, and answers what it answers and what the workers did. The run has to close the
/// board. Where no thread can be started, there is no worker.
pub fn beside<
    J: RunName + Send + Sync,
    A: Allocator + Copy + Send + Sync,
    G: Gate,
    R: Threads + Wait + Sync,
    F: FnMut() -> T,
    T,
>(
    rt: &R,
    alloc: A,
    program: &Program<A>,
    shelf: &Shelf<A>,
    board: &Board<J, A>,
    gate: &G,
    workers: u32,
    run: &mut F,
) -> (T, Tally)
    requires name { shelf.now ≡ J.shelf }
    requires rules { rules_of program.now ≡ J.rules }
    requires run { F.pre run.old }
    ensures { F.step run.old result.0 run.new }
{
    if workers == 0 {
        return (run(), NO_TALLY);
    }
    let (tally, made) = join_mut(
        rt,
        &mut move || -> Tally
            requires { (shelf.now ≡ J.shelf) × (rules_of program.now ≡ J.rules) }
        { work_all(rt, alloc, program, shelf, board, gate, workers) },
        run,
    );
    (made, tally)
}
