//! What a worker does.
ghost use Rattle.std.specs.Prelude.{◌≡◌, ◌+◌, IfSome};
ghost use Rattle.chr_rules.specs.ProgramView.{rules_of};
ghost use Rattle.chr_shelf.specs.Seat.{place_of};

use crate::board::Board;
use crate::desk::Picked;
use crate::slip::Slip;
use chr_find::Task;
use chr_rules::Program;
use chr_shelf::{RunName, Shelf, solve};
use std::alloc::Allocator;
use std::sync::Wait;

/// Where a gate is called.
#[derive(Clone, Copy, PartialEq, Eq, Debug, Drop)]
pub enum Point {
    /// Before the search for the task of that serial.
    Begins(u64),
    /// Before the answer to it is posted.
    Posts(u64),
    /// Before the transition of that number, from 1, which needs a search: before an answer is used or the own search begins.
    Own(u64),
}

/// What is called at these points, by any thread.
pub trait Gate: Sync {
    fn at(&self, point: Point);
}

/// How many tasks a worker took, and what came of them.
#[derive(Clone, Copy, PartialEq, Eq, Debug, Drop)]
pub struct Tally {
    pub taken: u32,
    pub posted: u32,
    pub given_up: u32,
}

/// Searches for the task of a slip and posts the answer; or gives it up. Whether it was posted.
fn answer<J: RunName, A: Allocator + Copy, G: Gate>(
    rt: &impl Wait,
    program: &Program<A>,
    shelf: &Shelf<A>,
    board: &Board<J, A>,
    gate: &G,
    slip: Slip,
    task: Option<Task>,
) -> bool
    requires name { shelf.now ≡ J.shelf }
    requires rules { rules_of program.now ≡ J.rules }
{
    let Some(ticket) = shelf.ticket::<J>(slip.place()) else {
        board.abandon(rt, slip, task);
        return false;
    };
    gate.at(Point::Begins(slip.serial()));
    match solve(program, shelf, ticket, slip.index()) {
        Ok(answer) => {
            gate.at(Point::Posts(slip.serial()));
            board.post(rt, slip, answer);
            true
        }
        Err(_) => {
            board.abandon(rt, slip, task);
            false
        }
    }
}

/// Answers tasks until the board is closed, or 4,294,967,295 of them were taken. A task is given up that is not worth a search: its round is
/// not the one that was offered last, its kept answer was good at the offer, another search for it has begun whose answer was not drained yet,
/// or the coordinator makes it. So is one whose snapshot is not found, or whose search lacks memory.
pub fn work<J: RunName, A: Allocator + Copy, G: Gate, R: Wait>(
    rt: &R,
    program: &Program<A>,
    shelf: &Shelf<A>,
    board: &Board<J, A>,
    gate: &G,
) -> Tally
    requires name { shelf.now ≡ J.shelf }
    requires rules { rules_of program.now ≡ J.rules }
    ensures { result.taken ≡ result.posted + result.given_up }
{
    let mut posted = 0u32;
    let mut given_up = 0u32;
    for _ in rt.forever() {
        let most = u32::MAX - given_up - posted;
        if most == 0 {
            break;
        }
        let (Picked { slip, passed }, task) = board.take_fresh(rt, most);
        given_up += passed;
        match slip {
            None => {
                if passed == 0 {
                    break;
                }
            }
            Some(slip) => {
                if answer(rt, program, shelf, board, gate, slip, task) {
                    posted += 1;
                } else {
                    given_up += 1;
                }
            }
        }
    }
    Tally {
        taken: posted + given_up,
        posted,
        given_up,
    }
}
