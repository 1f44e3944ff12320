//! Texts of runs with workers, as they go out to a writer.
use super::*;
use std::sync::atomic::{AtomicU64, Ordering};

/// More writes than a run of these tests makes.
const MOST: u64 = 10_000;

/// Counts the lines that are written.
#[derive(Drop)]
struct Counting<'c> {
    lines: &'c AtomicU64,
}

impl Write for Counting<'_> {
    fn write(&mut self, buf: &[u8]) -> std::io::Result<usize> {
        let lines = buf.iter().filter(|byte| **byte == b'\n').count();
        self.lines.fetch_add(lines as u64, Ordering::SeqCst);
        Ok(buf.len())
    }

    fn flush(&mut self) -> std::io::Result<()> {
        Ok(())
    }
}

/// The own points of `speculation`, and how many lines are written at each.
const OWNS: [(u64, u64); 6] = [(2, 1), (5, 4), (7, 6), (10, 9), (12, 11), (13, 12)];

/// Compares the lines that are written at each own point with those that should be.
#[derive(Drop)]
struct Comparing<'c> {
    lines: &'c AtomicU64,
    owns: AtomicU64,
    alike: AtomicU64,
}

impl Gate for Comparing<'_> {
    fn at(&self, point: Point) {
        if let Point::Own(number) = point {
            let place = self.owns.fetch_add(1, Ordering::SeqCst);
            let found = (number, self.lines.load(Ordering::SeqCst));
            if OWNS.get(place as usize) == Some(&found) {
                self.alike.fetch_add(1, Ordering::SeqCst);
            }
        }
    }
}

/// `run_into` of an example to its end, with no clause.
fn sent_into<
    A: Allocator + Copy + Send + Sync,
    G: Gate,
    R: Threads + Wait + Abort + Sync,
    W: Write,
>(rt: &R, alloc: A, example: Worked, gate: &G, writer: &mut W) -> Result<Run<A>, TextError> {
    let (program, query) = both(rt, alloc, (example.program, example.query));
    run_into(rt, alloc, &program, query, AMPLE, 0, gate, writer)
}

/// Each line goes out before the next transition.
#[test]
fn lines_go_out_as_made(rt: HostRuntime) {
    let lines = AtomicU64::new(0);
    let gate = Comparing {
        lines: &lines,
        owns: AtomicU64::new(0),
        alike: AtomicU64::new(0),
    };
    let mut writer = Counting { lines: &lines };
    let sent = sent_into(&rt, rt.alloc(), SPECULATION, &gate, &mut writer);
    holds(&rt, sent.is_ok());
    equal(&rt, gate.owns.load(Ordering::SeqCst), OWNS.len() as u64);
    equal(&rt, gate.alike.load(Ordering::SeqCst), OWNS.len() as u64);
}

/// `run_text` of an example to its end: how it ended, or why it was refused.
fn sent<R: Threads + Wait + Sync>(
    rt: &R,
    alloc: Global,
    example: Worked,
    workers: u32,
    sink: &mut Sink,
) -> Result<Status, TextError> {
    let (program, query) = (example.program.as_bytes(), example.query.as_bytes());
    let run = run_text(rt, alloc, program, query, AMPLE, workers, sink)?;
    Ok(run.outcome.status)
}

/// Whether the whole text goes out where the writer takes only these writes, each of at most this number of bytes. Where it does not, a first part of it is out.
fn goes_out<R: Threads + Wait + Abort + Sync>(
    rt: &R,
    alloc: Global,
    example: Worked,
    workers: u32,
    (step, calls): (usize, u64),
) -> bool {
    let mut sink = Sink::new(alloc, step, calls);
    let sent = sent(rt, alloc, example, workers, &mut sink);
    let (text, whole) = (sink.text.as_slice(), example.text.as_bytes());
    match sent {
        Ok(status) => {
            equal(rt, status, Status::Done);
            equal(rt, text, whole);
            true
        }
        Err(error) => {
            equal(rt, error, TextError::Write);
            holds(rt, whole.starts_with(text));
            false
        }
    }
}

/// How many writes the text takes, where each takes at most this number of bytes: each of them is refused in turn.
fn writes_of<R: Threads + Wait + Abort + Sync>(
    rt: &R,
    alloc: Global,
    example: Worked,
    workers: u32,
    step: usize,
) -> u64 {
    for calls in 0..MOST {
        if goes_out(rt, alloc, example, workers, (step, calls)) {
            return calls;
        }
    }
    MOST
}

/// A writer that takes all it is given, until a write fails; and one that takes a byte at a call, which gets the whole text too.
#[test]
fn failing_writes(rt: HostRuntime) {
    for example in [GCD, GROUND_RULE] {
        for workers in [0, 2] {
            let writes = writes_of(&rt, rt.alloc(), example, workers, usize::MAX);
            holds(&rt, writes > 0);
            holds(&rt, writes < MOST);
            let writes = writes_of(&rt, rt.alloc(), example, workers, 1);
            equal(&rt, writes, example.text.len() as u64);
        }
    }
    let takes_nothing = goes_out(&rt, rt.alloc(), GROUND_RULE, 0, (0, MOST));
    holds(&rt, !takes_nothing);
}
