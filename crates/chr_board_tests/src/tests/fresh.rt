//! Which tasks are handed out to be searched for.
use super::*;
use std::marker::Brand;

/// More than these tests offer.
const MOST: u32 = 100;

const FIRST: Task = Task {
    goal: Id(3),
    occurrence: 1,
};

const SECOND: Task = Task {
    goal: Id(2),
    occurrence: 1,
};

const THIRD: Task = Task {
    goal: Id(2),
    occurrence: 2,
};

/// The task of that serial is handed out next, after so many were passed over. It is given up, and counts as searched for until it is drained.
fn assert_next<J: RunName, A: Allocator + Copy>(
    rt: &(impl Abort + Wait),
    board: &Board<J, A>,
    serial: Option<u64>,
    passed: u32,
) {
    let (picked, _task) = board.take_fresh(rt, MOST);
    let Picked {
        slip,
        passed: found,
    } = picked;
    equal(rt, found, passed);
    match slip {
        None => holds(rt, serial.is_none()),
        Some(slip) => {
            let found = slip.serial();
            board.give_up(rt, slip);
            equal(rt, Some(found), serial);
        }
    }
}

/// No task is handed out that the coordinator searches for, that is good as it was kept, or whose search has begun.
#[test]
fn fresh_tasks(rt: HostRuntime) {
    let alloc = rt.alloc();
    let board = Board::<Brand, Global>::new(alloc);
    board.set_own(&rt, Some(FIRST));
    let mut round = round_of(&rt, alloc, &[FIRST, SECOND, THIRD]);
    if let Some(second) = round.get_mut(1) {
        second.is_good = true;
    }
    holds(&rt, board.offer_round(&rt, 0, round) == Ok(0));
    assert_next(&rt, &board, Some(2), 2);
    board.set_own(&rt, None);
    let round = round_of(&rt, alloc, &[FIRST, THIRD, SECOND]);
    holds(&rt, board.offer_round(&rt, 1, round) == Ok(3));
    assert_next(&rt, &board, Some(3), 0);
    assert_next(&rt, &board, Some(5), 1);
}

/// A task whose search came to nothing is handed out again. No task is that is not of the round that was offered last.
#[test]
fn stale_tasks(rt: HostRuntime) {
    let alloc = rt.alloc();
    let board = Board::<Brand, Global>::new(alloc);
    let round = round_of(&rt, alloc, &[FIRST, SECOND]);
    holds(&rt, board.offer_round(&rt, 0, round) == Ok(0));
    let (picked, task) = board.take_fresh(&rt, MOST);
    let Picked { slip, passed: _ } = picked;
    holds(&rt, task == Some(FIRST));
    if let Some(slip) = slip {
        board.abandon(&rt, slip, task);
    }
    let round = round_of(&rt, alloc, &[FIRST]);
    holds(&rt, board.offer_round(&rt, 1, round) == Ok(2));
    assert_next(&rt, &board, Some(2), 1);
    board.close(&rt);
    assert_next(&rt, &board, None, 0);
}
