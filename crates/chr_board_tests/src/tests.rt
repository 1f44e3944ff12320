//! What the tests share: a snapshot of `speculation` after six steps, whose tasks are (3,1), (2,1) and (2,2), on a shelf.
ghost use Rattle.std.specs.Prelude.{◌≡◌};
ghost use Rattle.chr_rules.specs.RuleView.{query_view};
ghost use Rattle.chr_semantics.specs.Bounds.{IsQueryBounded};

use chr_board::*;
use chr_find::{Snapshot, Task};
use chr_machine::Machine;
use chr_rules::{Program, Query};
use chr_shelf::{Answer, RunName, Shelf, Ticket, Unsolved, solve};
use chr_store::Id;
use chr_texts::{SPECULATION, both_of};
use std::alloc::{Allocator, Global};
use std::process::Abort;
use std::sync::Wait;

mod calls;
mod checks;
mod fresh;
mod repeats;

use checks::{equal, got, holds};

/// A program of a text, and a query over it.
fn both<A: Allocator + Copy>(
    rt: &impl Abort,
    alloc: A,
    texts: (&str, &str),
) -> (Program<A>, Query<A>)
    ensures { IsQueryBounded (query_view result.1) }
{
    match both_of(alloc, texts.0, texts.1) {
        Ok(both) => both,
        Err(mistake) => panic!(rt; "refused: {mistake:?}"),
    }
}

/// A snapshot of the state after six steps.
fn snapshot_of<A: Allocator + Copy>(
    rt: &impl Abort,
    alloc: A,
    program: &Program<A>,
    query: Query<A>,
) -> Snapshot<A>
    requires { IsQueryBounded (query_view query) }
{
    let mut machine = got(rt, Machine::start(alloc, program, query));
    got(rt, machine.run_alone(6));
    got(rt, machine.snapshot())
}

/// A round of these tasks, of which none is good as it was kept.
fn round_of<A: Allocator + Copy>(rt: &impl Abort, alloc: A, tasks: &[Task]) -> Vec<RoundTask, A> {
    let mut round = Vec::new(alloc);
    for task in tasks {
        let fresh = RoundTask {
            task: *task,
            is_good: false,
        };
        holds(rt, round.push(fresh).is_ok());
    }
    round
}

/// These are the answers to the tasks of that place with these indices.
fn assert_answers<J: RunName, A: Allocator>(
    rt: &impl Abort,
    answers: &[Answer<J, A>],
    place: usize,
    indices: &[u32],
) {
    equal(rt, answers.len(), indices.len());
    for (answer, index) in answers.iter().zip(indices) {
        equal(rt, (answer.place(), answer.index()), (place, *index));
    }
}
