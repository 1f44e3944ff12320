//! Tasks that are offered again.
ghost use Rattle.std.specs.Prelude.{◌≡◌};
ghost use Rattle.chr_rules.specs.ProgramView.{rules_of};

use super::*;
use std::marker::Brand;

/// The search before which the board is drained.
const DRAINED_AT: u64 = 2;

/// The post before which the board is closed.
const CLOSED_AT: u64 = 3;

/// Drains and closes a board while a worker is at its tasks.
#[derive(Drop)]
struct Draining<'b, J: RunName, A: Allocator, R> {
    rt: &'b R,
    alloc: A,
    board: &'b Board<J, A>,
}

impl<J: RunName + Send + Sync, A: Allocator + Copy + Send + Sync, R: Abort + Wait + Sync> Gate
    for Draining<'_, J, A, R> {
    fn at(&self, point: Point) {
        match point {
            Point::Begins(DRAINED_AT) => {
                let mut inbox = Vec::new(self.alloc);
                holds(self.rt, self.board.drain(self.rt, &mut inbox) == Ok(1));
            }
            Point::Posts(CLOSED_AT) => self.board.close(self.rt),
            Point::Begins(_) | Point::Posts(_) | Point::Own(_) => {}
        }
    }
}

/// The first task is offered three times. The worker gives it up where its answer waits to be drained, and searches for it again afterwards.
fn play_named<J: RunName + Send + Sync, A: Allocator + Copy + Send + Sync, R: Abort + Wait + Sync>(
    rt: &R,
    alloc: A,
    program: &Program<A>,
    shelf: &Shelf<A>,
    snapshot: Snapshot<A>,
)
    requires name { shelf.now ≡ J.shelf }
    requires rules { rules_of program.now ≡ J.rules }
{
    let [first, second] = [
        Task {
            goal: Id(3),
            occurrence: 1,
        },
        Task {
            goal: Id(2),
            occurrence: 1,
        },
    ];
    let place = got(rt, shelf.put::<J>(rt, snapshot).map_err(|(_, error)| error)).place();
    let board = Board::<J, A>::new(alloc);
    for round in [[first].as_slice(), &[first, second], &[first]] {
        let round = round_of(rt, alloc, round);
        holds(rt, board.offer_round(rt, place, round).is_ok());
    }
    let gate = Draining {
        rt,
        alloc,
        board: &board,
    };
    let tally = work(rt, program, shelf, &board, &gate);
    equal(rt, (tally.posted, tally.given_up), (3, 1));
    let mut inbox = Vec::new(alloc);
    holds(rt, board.drain(rt, &mut inbox) == Ok(2));
    assert_answers(rt, inbox.as_slice(), place, &[1, 0]);
}

/// As `play_named`, under a name of its own.
fn play<A: Allocator + Copy + Send + Sync, R: Abort + Wait + Sync>(
    rt: &R,
    alloc: A,
    program: &Program<A>,
    shelf: &Shelf<A>,
    snapshot: Snapshot<A>,
) {
    play_named::<Brand, A, R>(rt, alloc, program, shelf, snapshot);
}

/// No task is searched for anew while its answer waits.
#[test]
fn searched_once(rt: HostRuntime) {
    let alloc = rt.alloc();
    let shelf = got(&rt, Shelf::new(alloc));
    let (program, query) = both(&rt, alloc, (SPECULATION.program, SPECULATION.query));
    let snapshot = snapshot_of(&rt, alloc, &program, query);
    play(&rt, alloc, &program, &shelf, snapshot);
}
