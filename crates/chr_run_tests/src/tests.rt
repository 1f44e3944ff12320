//! What the tests share.
ghost use Rattle.chr_rules.specs.RuleView.{query_view};
ghost use Rattle.chr_semantics.specs.Bounds.{IsQueryBounded};

use chr_core::{Counts, Event, Outcome, ReplayError, replay};
use chr_machine::Status;
use chr_rules::{Program, Query};
use chr_run::*;
use chr_texts::{GCD, GROUND_RULE, SPECULATION, Worked, both_of};
use refusing_alloc::{Refusing, Turn, refused_in_turn};
use std::alloc::{Allocator, Global};
use std::io::{Error, ErrorKind, Write};
use std::process::Abort;
use std::sync::Wait;
use std::thread::Threads;

mod checks;
mod displays;
mod gates;
mod inputs;
mod marks;
mod refusals;
mod runs;
mod texts;

use checks::{equal, got, holds};

/// More transitions than an example makes.
const AMPLE: u64 = 100;

/// Keeps what is written. It takes at most `step` bytes at a call, and fails once `calls` of them were made.
#[derive(Drop)]
struct Sink {
    text: Vec<u8>,
    step: usize,
    calls: u64,
}

impl Sink {
    fn new(alloc: Global, step: usize, calls: u64) -> Sink {
        Sink {
            text: Vec::new(alloc),
            step,
            calls,
        }
    }
}

impl Write for Sink {
    fn write(&mut self, buf: &[u8]) -> std::io::Result<usize> {
        if self.calls == 0 {
            return Err(Error::from(ErrorKind::Other));
        }
        self.calls -= 1;
        let count = buf.len().min(self.step);
        self.text.extend_from_slice(&buf[..count])?;
        Ok(count)
    }

    fn flush(&mut self) -> std::io::Result<()> {
        Ok(())
    }
}

/// A gate that holds nobody.
#[derive(Drop)]
struct Open;

impl Gate for Open {
    fn at(&self, _point: Point) {}
}

/// A program of a text, and a query over it.
fn both<A: Allocator + Copy>(
    rt: &impl Abort,
    alloc: A,
    texts: (&str, &str),
) -> (Program<A>, Query<A>)
    ensures { IsQueryBounded (query_view result.1) }
{
    match both_of(alloc, texts.0, texts.1) {
        Ok(both) => both,
        Err(mistake) => panic!(rt; "refused: {mistake:?}"),
    }
}

/// `run`, with no clause, so that a proof of a test does not follow the run.
fn made<A: Allocator + Copy + Send + Sync, G: Gate, R: Threads + Wait + Sync>(
    rt: &R,
    alloc: A,
    program: &Program<A>,
    query: Query<A>,
    n: u64,
    workers: u32,
    gate: &G,
) -> Result<Run<A>, RunError>
    requires { IsQueryBounded (query_view query) }
{
    run(rt, alloc, program, query, n, workers, gate)
}

/// `replay`, with no clause.
fn replayed<A: Allocator + Copy>(
    rt: &impl Wait,
    alloc: A,
    program: &Program<A>,
    query: Query<A>,
    events: &[Event],
) -> Result<(Outcome<A>, Counts), ReplayError>
    requires { IsQueryBounded (query_view query) }
{
    replay(rt, alloc, program, query, events)
}

/// The text of an outcome under its program is that of the example.
fn assert_text<A: Allocator + Copy>(
    rt: &impl Abort,
    alloc: A,
    example: Worked,
    program: &Program<A>,
    outcome: &Outcome<A>,
) {
    let mut text = Vec::new(alloc);
    got(rt, outcome.text(program, &mut text));
    equal(rt, text.as_slice(), example.text.as_bytes());
}

/// A run of an example to its end, over its program and its query, whose text is that of the example.
fn run_with<A: Allocator + Copy + Send + Sync, G: Gate, R: Threads + Wait + Abort + Sync>(
    rt: &R,
    alloc: A,
    example: Worked,
    program: &Program<A>,
    query: Query<A>,
    workers: u32,
    gate: &G,
) -> Run<A>
    requires { IsQueryBounded (query_view query) }
{
    let run = got(rt, made(rt, alloc, program, query, AMPLE, workers, gate));
    assert_text(rt, alloc, example, program, &run.outcome);
    run
}

/// As `run_with`, with the texts of the example.
fn run_of<A: Allocator + Copy + Send + Sync, G: Gate, R: Threads + Wait + Abort + Sync>(
    rt: &R,
    alloc: A,
    example: Worked,
    workers: u32,
    gate: &G,
) -> Run<A> {
    let (program, query) = both(rt, alloc, (example.program, example.query));
    run_with(rt, alloc, example, &program, query, workers, gate)
}

/// The counts of a schedule of an example.
fn counts_of<A: Allocator + Copy>(
    rt: &(impl Abort + Wait),
    alloc: A,
    example: Worked,
    events: &[Event],
) -> Counts {
    let (program, query) = both(rt, alloc, (example.program, example.query));
    let (_, counts) = got(rt, replayed(rt, alloc, &program, query, events));
    counts
}

/// The schedule of a run leads to the text of its example, and to its counts, over the program and the query.
fn assert_replayed_with<A: Allocator + Copy>(
    rt: &(impl Abort + Wait),
    alloc: A,
    example: Worked,
    program: &Program<A>,
    query: Query<A>,
    run: &Run<A>,
)
    requires { IsQueryBounded (query_view query) }
{
    let events = run.schedule.as_slice();
    let (outcome, counts) = got(rt, replayed(rt, alloc, program, query, events));
    equal(rt, counts, run.counts);
    assert_text(rt, alloc, example, program, &outcome);
}

/// As `assert_replayed_with`, with the texts of the example.
fn assert_replayed<A: Allocator + Copy>(
    rt: &(impl Abort + Wait),
    alloc: A,
    example: Worked,
    run: &Run<A>,
) {
    let (program, query) = both(rt, alloc, (example.program, example.query));
    assert_replayed_with(rt, alloc, example, &program, query, run);
}
