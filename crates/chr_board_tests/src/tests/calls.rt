//! The calls of a shelf and of a board, one by one, and with each growth refused in turn: after a refusal all is as before, and the same call
//! with memory answers as ever.
ghost use Rattle.std.specs.Prelude.{◌≡◌};
ghost use Rattle.chr_rules.specs.ProgramView.{rules_of};
ghost use Rattle.chr_rules.specs.RuleView.{query_view};
ghost use Rattle.chr_semantics.specs.Bounds.{IsQueryBounded};
ghost use Rattle.chr_shelf.specs.Seat.{index_of, place_of, ticket_of};
ghost use Rattle.chr_board.specs.OfferedView.{slip_view};

use super::*;
use refusing_alloc::{Refusing, Turn, refused_in_turn};
use std::marker::Brand;

/// More than can be refused in turn.
const MOST: u64 = 200;

/// An allocator, and the turn in which its growths are refused.
#[derive(Drop)]
struct Scene<'m, A> {
    alloc: A,
    turn: Turn<'m, Global>,
}

fn assert_tasks(rt: &impl Abort, tasks: &[Task]) {
    equal(rt, tasks.len(), 3);
    for (found, (goal, occurrence)) in tasks.iter().zip([(3, 1), (2, 1), (2, 2)]) {
        equal(rt, (found.goal, found.occurrence), (Id(goal), occurrence));
    }
}

/// Puts the snapshot on the shelf. After a refusal it comes back.
fn put<J: RunName, A: Allocator + Copy>(
    rt: &(impl Abort + Wait),
    scene: &Scene<'_, A>,
    shelf: &Shelf<A>,
    snapshot: Snapshot<A>,
) -> Ticket<J, A>
    requires name { shelf.now ≡ J.shelf }
{
    scene.turn.begin();
    let made = shelf.put::<J>(rt, snapshot);
    holds(rt, scene.turn.end(made.is_err()));
    let again = match made {
        Ok(ticket) => return ticket,
        Err((snapshot, _)) => snapshot,
    };
    assert_tasks(rt, again.tasks());
    got(rt, shelf.put::<J>(rt, again).map_err(|(_, error)| error))
}

/// A ticket, and one that is asked for by its place, show the tasks.
fn assert_seen<J: RunName, A: Allocator + Copy>(
    rt: &impl Abort,
    shelf: &Shelf<A>,
    ticket: &Ticket<J, A>,
)
    requires name { shelf.now ≡ J.shelf }
{
    assert_tasks(rt, shelf.see(ticket).tasks());
    let other = shelf.ticket::<J>(ticket.place()).expect(rt, "a ticket");
    equal(rt, other.place(), ticket.place());
    shelf.agree(ticket, &other);
    assert_tasks(rt, shelf.see(&other).tasks());
}

/// Solves the task of a slip. After a refusal the ticket comes back.
fn answer_to<J: RunName, A: Allocator + Copy>(
    rt: &impl Abort,
    scene: &Scene<'_, A>,
    program: &Program<A>,
    shelf: &Shelf<A>,
    slip: &Slip,
) -> Answer<J, A>
    requires name { shelf.now ≡ J.shelf }
    requires rules { rules_of program.now ≡ J.rules }
    ensures place { place_of (ticket_of result) ≡ (slip_view slip.now).place }
    ensures index { index_of result ≡ (slip_view slip.now).index }
{
    let ticket = shelf.ticket::<J>(slip.place()).expect(rt, "a ticket");
    scene.turn.begin();
    let solved = solve(program, shelf, ticket, slip.index());
    holds(rt, scene.turn.end(solved.is_err()));
    let again = match solved {
        Ok(answer) => return answer,
        Err((ticket, unsolved)) => {
            equal(rt, unsolved, Unsolved::Memory);
            ticket
        }
    };
    match solve(program, shelf, again, slip.index()) {
        Ok(answer) => answer,
        Err(_) => panic!(rt; "refused with memory"),
    }
}

/// The first task finds 2, 1, 3; there is no fourth one, and the ticket comes back.
fn assert_solved<J: RunName, A: Allocator + Copy>(
    rt: &impl Abort,
    program: &Program<A>,
    shelf: &Shelf<A>,
    ticket: &Ticket<J, A>,
)
    requires name { shelf.now ≡ J.shelf }
    requires rules { rules_of program.now ≡ J.rules }
{
    match solve(program, shelf, ticket.again(), 3) {
        Ok(_) => panic!(rt; "no such task"),
        Err((back, unsolved)) => {
            equal(rt, back.place(), ticket.place());
            equal(rt, unsolved, Unsolved::NoTask);
        }
    }
    match solve(program, shelf, ticket.again(), 0) {
        Err(_) => panic!(rt; "not solved"),
        Ok(answer) => {
            let task = answer.task();
            equal(rt, (task.goal, task.occurrence), (Id(3), 1));
            holds(
                rt,
                answer.found().ids.is_some_and(|ids| {
                    ids.as_slice() == [Id(2), Id(1), Id(3)].as_slice()
                }),
            );
        }
    }
}

/// Offers two tasks.
fn offer<J: RunName, A: Allocator + Copy>(
    rt: &(impl Abort + Wait),
    scene: &Scene<'_, A>,
    board: &Board<J, A>,
    place: usize,
) {
    let before = board.totals(rt);
    scene.turn.begin();
    let mut offered = board.offer(rt, place, 2);
    holds(rt, scene.turn.end(offered.is_err()));
    if offered.is_err() {
        holds(rt, offered == Err(BoardError::Memory));
        holds(rt, board.totals(rt) == before);
        offered = board.offer(rt, place, 2);
    }
    holds(rt, offered == Ok(0));
}

/// Drains the answer to the first task into a list with no room.
fn drain<J: RunName, A: Allocator + Copy>(
    rt: &(impl Abort + Wait),
    scene: &Scene<'_, A>,
    board: &Board<J, A>,
    place: usize,
) {
    let before = board.totals(rt);
    let mut inbox = Vec::new(scene.alloc);
    scene.turn.begin();
    let mut drained = board.drain(rt, &mut inbox);
    holds(rt, scene.turn.end(drained.is_err()));
    if drained.is_err() {
        holds(rt, inbox.is_empty());
        holds(rt, board.totals(rt) == before);
        drained = board.drain(rt, &mut inbox);
    }
    holds(rt, drained == Ok(1));
    assert_answers(rt, inbox.as_slice(), place, &[0]);
}

/// Takes the task with that index.
fn take<J: RunName, A: Allocator + Copy>(
    rt: &(impl Abort + Wait),
    board: &Board<J, A>,
    place: usize,
    index: u32,
) -> Slip {
    let slip = board.take_task(rt).expect(rt, "a task");
    equal(rt, slip.serial(), u64::from(index));
    equal(rt, (slip.place(), slip.index()), (place, index));
    slip
}

/// A closed board gives no task and takes none in. One task was answered, and one given up.
fn assert_closed<J: RunName, A: Allocator + Copy>(
    rt: &(impl Abort + Wait),
    board: &Board<J, A>,
    place: usize,
) {
    if let Some(slip) = board.take_task(rt) {
        board.give_up(rt, slip);
        panic!(rt; "a task");
    }
    let totals = Totals {
        put: 2,
        taken: 2,
        posted: 1,
        given_up: 1,
        drained: 1,
        waiting: 0,
        left: 0,
    };
    holds(rt, board.totals(rt) == totals);
    holds(rt, board.offer(rt, place, 1) == Err(BoardError::Closed));
}

/// The calls, from a snapshot on.
fn play_named<J: RunName, A: Allocator + Copy>(
    rt: &(impl Abort + Wait),
    scene: &Scene<'_, A>,
    program: &Program<A>,
    shelf: &Shelf<A>,
    snapshot: Snapshot<A>,
)
    requires name { shelf.now ≡ J.shelf }
    requires rules { rules_of program.now ≡ J.rules }
{
    let ticket = put::<J, A>(rt, scene, shelf, snapshot);
    assert_seen(rt, shelf, &ticket);
    assert_solved(rt, program, shelf, &ticket);
    let (board, place) = (Board::<J, A>::new(scene.alloc), ticket.place());
    holds(
        rt,
        board.offer(rt, place, 262_145) == Err(BoardError::TooManyTasks),
    );
    offer(rt, scene, &board, place);
    let slip = take(rt, &board, place, 0);
    let answer = answer_to(rt, scene, program, shelf, &slip);
    board.post(rt, slip, answer);
    drain(rt, scene, &board, place);
    board.give_up(rt, take(rt, &board, place, 1));
    board.close(rt);
    assert_closed(rt, &board, place);
}

/// As `play_named`, under a name of its own.
fn play<A: Allocator + Copy>(
    rt: &(impl Abort + Wait),
    scene: &Scene<'_, A>,
    program: &Program<A>,
    shelf: &Shelf<A>,
    snapshot: Snapshot<A>,
) {
    play_named::<Brand, A>(rt, scene, program, shelf, snapshot)
}

/// Makes the shelf, and again where it is refused.
fn shelf_of<A: Allocator + Copy>(rt: &impl Abort, scene: &Scene<'_, A>) -> Shelf<A> {
    scene.turn.begin();
    let shelf = Shelf::new(scene.alloc);
    holds(rt, scene.turn.end(shelf.is_err()));
    match shelf {
        Ok(shelf) => shelf,
        Err(_) => got(rt, Shelf::new(scene.alloc)),
    }
}

/// Whether no call is refused with `left` growths.
///
/// For any allocator: proofs for the meter as the allocator would take much longer.
fn are_through<A: Allocator + Copy>(
    rt: &(impl Abort + Wait),
    alloc: A,
    meter: &Refusing<Global>,
    left: u64,
) -> bool {
    let scene = Scene {
        alloc,
        turn: Turn::new(meter, left),
    };
    let (program, query) = both(rt, alloc, (SPECULATION.program, SPECULATION.query));
    let snapshot = snapshot_of(rt, alloc, &program, query);
    let shelf = shelf_of(rt, &scene);
    play(rt, &scene, &program, &shelf, snapshot);
    scene.turn.met_none()
}

/// As `are_through`, where the meter refuses.
fn are_through_metered(rt: &(impl Abort + Wait), meter: &Refusing<Global>, left: u64) -> bool {
    are_through(rt, meter, meter, left)
}

#[test]
fn shelf_calls_and_board_calls(rt: HostRuntime) {
    let meter = Refusing::new(rt.alloc(), 0);
    holds(&rt, are_through_metered(&rt, &meter, u64::MAX));
}

#[test]
fn want_of_memory(rt: HostRuntime) {
    let meter = Refusing::new(rt.alloc(), 0);
    let refused = refused_in_turn(MOST, |left| are_through_metered(&rt, &meter, left));
    assert!(&rt; refused > 0 && refused < MOST, "{refused}");
}
