//! Runs with workers that nobody holds.
use super::*;
use chr_schedule::print_schedule;

/// How many answers arrive in a schedule.
fn arrivals(events: &[Event]) -> usize {
    events
        .iter()
        .filter(|event| matches!(**event, Event::Arrive(_, _)))
        .count()
}

/// What the workers did is what came of the tasks, and what was drained arrived.
fn assert_sums<A: Allocator>(rt: &impl Abort, run: &Run<A>) {
    let (totals, tally, counts) = (run.totals, run.tally, run.counts);
    equal(
        rt,
        totals.taken,
        totals.posted.saturating_add(totals.given_up),
    );
    equal(rt, totals.taken, u64::from(tally.taken));
    equal(rt, totals.posted, u64::from(tally.posted));
    equal(rt, totals.given_up, u64::from(tally.given_up));
    let arrived = counts
        .kept
        .saturating_add(counts.late)
        .saturating_add(counts.double);
    equal(rt, totals.drained, arrived);
    equal(rt, totals.drained, arrivals(run.schedule.as_slice()) as u64);
}

/// The numbers of a run of an example with these workers add up.
fn assert_totals<A: Allocator + Copy + Send + Sync, R: Threads + Wait + Abort + Sync>(
    rt: &R,
    alloc: A,
    example: Worked,
    workers: u32,
) {
    let run = run_of(rt, alloc, example, workers, &Open);
    assert_sums(rt, &run);
}

#[test]
fn totals_add_up(rt: HostRuntime) {
    for example in [GCD, SPECULATION] {
        for workers in [1, 2, 8] {
            assert_totals(&rt, rt.alloc(), example, workers);
        }
    }
}

/// The printed schedule of a run, handed to `replay_text`, gives the bytes and the counts of the run.
fn assert_printed<A: Allocator + Copy>(
    rt: &(impl Abort + Wait),
    alloc: A,
    example: Worked,
    run: &Run<A>,
    sink: &mut Sink,
) {
    let mut schedule = Vec::new(alloc);
    got(rt, print_schedule(run.schedule.as_slice(), &mut schedule));
    let (program, query) = (example.program.as_bytes(), example.query.as_bytes());
    let events = schedule.as_slice();
    let (status, counts) = got(rt, replay_text(rt, alloc, program, query, events, sink));
    equal(rt, status, Status::Done);
    equal(rt, counts, run.counts);
    equal(rt, sink.text.as_slice(), example.text.as_bytes());
}

/// A run of an example with these workers gives its text, by its schedule too, and each place for a round was used.
fn assert_bytes<R: Threads + Wait + Abort + Sync>(
    rt: &R,
    alloc: Global,
    example: Worked,
    workers: u32,
) {
    let run = run_of(rt, alloc, example, workers, &Open);
    equal(rt, run.skipped, 0);
    let mut sink = Sink::new(alloc, usize::MAX, u64::MAX);
    assert_printed(rt, alloc, example, &run, &mut sink);
}

#[test]
fn same_bytes(rt: HostRuntime) {
    for example in [GCD, SPECULATION] {
        for workers in [0, 1, 8] {
            assert_bytes(&rt, rt.alloc(), example, workers);
        }
    }
}

/// A query of `gcd` whose run has more places for rounds than rounds are made.
const MANY_PLACES: &str = "gcd(1), gcd(6000).";

/// Its run to the end, beside a worker.
fn long_run<A: Allocator + Copy + Send + Sync, R: Threads + Wait + Abort + Sync>(
    rt: &R,
    alloc: A,
) -> Run<A> {
    let (program, query) = both(rt, alloc, (GCD.program, MANY_PLACES));
    got(rt, made(rt, alloc, &program, query, 1_000_000, 1, &Open))
}

/// How many rounds were published.
fn rounds(events: &[Event]) -> usize {
    events
        .iter()
        .filter(|event| matches!(**event, Event::Publish))
        .count()
}

/// After 4,096 rounds a run goes on with none more, and counts what it passes over.
#[test]
fn rounds_run_out(rt: HostRuntime) {
    let run = long_run(&rt, rt.alloc());
    equal(&rt, run.outcome.status, Status::Done);
    equal(&rt, rounds(run.schedule.as_slice()), 4_096);
    holds(&rt, run.skipped > 0);
    holds(&rt, run.skipped <= run.outcome.steps);
    assert_sums(&rt, &run);
}
