//! What errors are displayed as, which comes from a derive without a contract.
use super::*;
use chr_bind::Fault;
use chr_board::BoardError;
use chr_core::{CoreError, ScheduleError, ScheduleErrorKind};
use chr_read::{ReadError, ReadErrorKind};
use chr_rules::{RuleError, RuleErrorKind};
use chr_shelf::Unsolved;
use std::fmt::Display;

/// The value is displayed so.
fn assert_displayed<D: Display + Drop>(rt: &impl Abort, alloc: Global, value: D, text: &str) {
    let shown = got(rt, value.to_string(alloc));
    equal(rt, shown.as_str(), text);
}

/// An error by its word alone.
#[test]
fn by_word(rt: HostRuntime) {
    let alloc = rt.alloc();
    assert_displayed(&rt, alloc, Fault::ZeroDivisor, "zero_divisor");
    assert_displayed(&rt, alloc, BoardError::TooManyTasks, "TooManyTasks");
    assert_displayed(&rt, alloc, CoreError::ShelfFull, "ShelfFull");
    assert_displayed(&rt, alloc, RunError::BudgetTooLarge, "BudgetTooLarge");
    assert_displayed(&rt, alloc, ReadErrorKind::TooDeep, "TooDeep");
    assert_displayed(&rt, alloc, RuleErrorKind::NotAGoal, "NotAGoal");
    assert_displayed(&rt, alloc, ScheduleErrorKind::BadLine, "BadLine");
    assert_displayed(&rt, alloc, Unsolved::NoTask, "no such task");
}

/// An error with its place, and what `chr` says of it.
#[test]
fn with_places(rt: HostRuntime) {
    let alloc = rt.alloc();
    let unread = ReadError {
        kind: ReadErrorKind::Expected,
        line: 2,
        column: 7,
    };
    let wrong = RuleError {
        kind: RuleErrorKind::Undeclared,
        line: 3,
        rule: 1,
    };
    let line = ScheduleError {
        kind: ScheduleErrorKind::BadNumber,
        line: 4,
    };
    let event = ReplayError::UnknownTask(5);
    assert_displayed(
        &rt,
        alloc,
        TextError::Program(unread),
        "program 2:7: Expected",
    );
    assert_displayed(&rt, alloc, TextError::Query(unread), "query 2:7: Expected");
    assert_displayed(
        &rt,
        alloc,
        TextError::Rules(wrong),
        "program line 3 rule 1: Undeclared",
    );
    assert_displayed(
        &rt,
        alloc,
        TextError::Goals(wrong),
        "query line 3: Undeclared",
    );
    assert_displayed(
        &rt,
        alloc,
        TextError::Schedule(line),
        "schedule line 4: BadNumber",
    );
    assert_displayed(
        &rt,
        alloc,
        TextError::Replay(event),
        "schedule event 5: UnknownTask",
    );
    assert_displayed(&rt, alloc, TextError::Replay(ReplayError::Memory), "Memory");
    assert_displayed(
        &rt,
        alloc,
        TextError::Run(RunError::TooManyWorkers),
        "TooManyWorkers",
    );
    assert_displayed(&rt, alloc, TextError::Write, "cannot write");
}
