//! Runs with each growth refused in turn.
ghost use Rattle.chr_rules.specs.RuleView.{query_view};
ghost use Rattle.chr_semantics.specs.Bounds.{IsQueryBounded};

use super::marks::Mark;
use super::*;
use chr_read::ReadErrorKind;
use chr_rules::RuleErrorKind;
use chr_schedule::ScheduleErrorKind;

/// More growths than a run of these tests asks for.
const MOST: u64 = 10_000;

/// The turns that a search is held at most: the run may end without it, where memory is refused.
const TURNS: u32 = 20_000;

/// An example, its last transition that needs a search, and how many places for a round it has where no answer comes: of `gcd` the searches
/// in steps 2, 3, 4, 7, 8, 12, 13 and 16, of `speculation` those in 2, 5, 7, 10 and 12.
#[derive(Clone, Copy, Drop)]
struct Searching {
    example: Worked,
    last: u64,
    places: u64,
}

const EXAMPLES: [Searching; 2] = [
    Searching {
        example: GCD,
        last: 17,
        places: 8,
    },
    Searching {
        example: SPECULATION,
        last: 13,
        places: 5,
    },
];

/// Holds each search of a worker until the run's last own search, so that no answer comes before it, unless a hold ends by its turns.
#[derive(Drop)]
struct Late {
    last: u64,
    reached: Mark,
    overdue: Mark,
}

impl Late {
    fn new(last: u64) -> Late {
        Late {
            last,
            reached: Mark::new(),
            overdue: Mark::new(),
        }
    }

    /// Whether the run came so far with no answer.
    fn was_kept(&self) -> bool {
        self.reached.count() > 0 && self.overdue.count() == 0
    }
}

impl Gate for Late {
    fn at(&self, point: Point) {
        match point {
            Point::Own(number) => {
                if number == self.last {
                    self.reached.reach();
                }
            }
            Point::Begins(_) => {
                if !self.reached.hold_for(1, TURNS) {
                    self.overdue.reach();
                }
            }
            Point::Posts(_) => {}
        }
    }
}

/// How many rounds were published, and how many answers arrived.
fn rounds_and_arrivals(events: &[Event]) -> (u64, u64) {
    let mut rounds = 0u64;
    let mut arrivals = 0u64;
    for event in events {
        match event {
            Event::Publish => rounds = rounds.saturating_add(1),
            Event::Arrive(_, _) => arrivals = arrivals.saturating_add(1),
            Event::Step => {}
        }
    }
    (rounds, arrivals)
}

/// What came of a run in which publishes, offers and drains may have been refused: what was drained arrived, and each place without a round
/// was skipped, as far as the places are known.
fn assert_kept<A: Allocator>(rt: &impl Abort, run: &Run<A>, places: Option<u64>) {
    let (rounds, arrivals) = rounds_and_arrivals(run.schedule.as_slice());
    let counts = run.counts;
    let arrived = counts
        .kept
        .saturating_add(counts.late)
        .saturating_add(counts.double);
    equal(rt, arrivals, arrived);
    equal(rt, arrivals, run.totals.drained);
    holds(rt, run.totals.posted >= run.totals.drained);
    if let Some(places) = places {
        equal(rt, rounds.saturating_add(run.skipped), places);
    }
}

/// As `assert_kept`, and the run gives the text of the example, by its schedule too.
fn assert_run<A: Allocator + Copy>(
    rt: &(impl Abort + Wait),
    alloc: A,
    example: Worked,
    program: &Program<A>,
    run: &Run<A>,
    places: Option<u64>,
) {
    assert_kept(rt, run, places);
    assert_text(rt, alloc, example, program, &run.outcome);
    assert_replayed(rt, alloc, example, run);
}

/// A run over a program. Where it meets a refusal, it is refused for memory, or gives the text of the example.
fn run_over<A: Allocator + Copy + Send + Sync, R: Threads + Wait + Abort + Sync>(
    rt: &R,
    alloc: A,
    turn: &Turn<'_, Global>,
    program: &Program<A>,
    query: Query<A>,
    gate: &Late,
    searching: Searching,
    workers: u32,
)
    requires { IsQueryBounded (query_view query) }
{
    turn.begin();
    let run = made(rt, alloc, program, query, AMPLE, workers, gate);
    turn.end(run.is_err());
    match run {
        Err(error) => {
            equal(rt, error, RunError::Memory);
            holds(rt, !turn.met_none());
        }
        Ok(run) => {
            let are_known = workers > 0 && gate.was_kept();
            let places = if are_known {
                Some(searching.places)
            } else {
                None
            };
            assert_run(rt, alloc, searching.example, program, &run, places);
        }
    }
}

/// Whether the run meets no refusal with the growths of this turn.
///
/// For any allocator: proofs for the meter as the allocator would take much longer.
fn is_through<A: Allocator + Copy + Send + Sync, R: Threads + Wait + Abort + Sync>(
    rt: &R,
    alloc: A,
    turn: &Turn<'_, Global>,
    searching: Searching,
    workers: u32,
) -> bool {
    let example = searching.example;
    let (program, query) = both(rt, alloc, (example.program, example.query));
    let gate = Late::new(searching.last);
    run_over(rt, alloc, turn, &program, query, &gate, searching, workers);
    turn.met_none()
}

/// As `is_through`, where the meter refuses.
fn is_through_metered<R: Threads + Wait + Abort + Sync>(
    rt: &R,
    meter: &Refusing<Global>,
    searching: Searching,
    workers: u32,
    left: u64,
) -> bool {
    is_through(rt, meter, &Turn::new(meter, left), searching, workers)
}

/// With no worker, one and two.
#[test]
fn want_of_memory(rt: HostRuntime) {
    let meter = Refusing::new(rt.alloc(), 0);
    for searching in EXAMPLES {
        for workers in 0..3 {
            let refused = refused_in_turn(MOST, |left| {
                is_through_metered(&rt, &meter, searching, workers, left)
            });
            assert!(rt; refused > 10 && refused < MOST, "{refused}");
        }
    }
}

/// A call that writes a text.
#[derive(Clone, Copy, Drop)]
enum Call {
    RunInto,
    RunText,
    ReplayText,
}

/// How the text of `speculation` ended by `run_into`, or why it was refused.
fn written_into<A: Allocator + Copy + Send + Sync, R: Threads + Wait + Abort + Sync>(
    rt: &R,
    alloc: A,
    turn: &Turn<'_, Global>,
    sink: &mut Sink,
) -> Result<Status, TextError> {
    let (program, query) = both(rt, alloc, (SPECULATION.program, SPECULATION.query));
    turn.begin();
    let run = run_into(rt, alloc, &program, query, AMPLE, 0, &Open, sink);
    run.map(|run| run.outcome.status)
}

/// How the text of `speculation` ended, or why it was refused, by each call.
fn written<A: Allocator + Copy + Send + Sync, R: Threads + Wait + Abort + Sync>(
    rt: &R,
    alloc: A,
    turn: &Turn<'_, Global>,
    call: Call,
    sink: &mut Sink,
) -> Result<Status, TextError> {
    let (program, query) = (SPECULATION.program.as_bytes(), SPECULATION.query.as_bytes());
    match call {
        Call::RunInto => written_into(rt, alloc, turn, sink),
        Call::RunText => {
            turn.begin();
            let run = run_text(rt, alloc, program, query, AMPLE, 0, sink);
            run.map(|run| run.outcome.status)
        }
        Call::ReplayText => {
            let schedule = b"step 6\npublish\narrive 0 0\nstep 8\n".as_slice();
            turn.begin();
            let made = replay_text(rt, alloc, program, query, schedule, sink);
            made.map(|(status, _)| status)
        }
    }
}

/// Whether it says that memory was refused.
fn is_memory(error: TextError) -> bool {
    match error {
        TextError::Program(error) => error.kind == ReadErrorKind::Memory,
        TextError::Rules(error) => error.kind == RuleErrorKind::Memory,
        TextError::Query(error) => error.kind == ReadErrorKind::Memory,
        TextError::Goals(error) => error.kind == RuleErrorKind::Memory,
        TextError::Schedule(error) => error.kind == ScheduleErrorKind::Memory,
        TextError::Replay(error) => error == ReplayError::Memory,
        TextError::Run(error) => error == RunError::Memory,
        TextError::Write => false,
    }
}

/// Whether the text goes out whole with `left` growths. Where it does not, memory was refused, and a first part of it is out.
fn goes_out<R: Threads + Wait + Abort + Sync>(
    rt: &R,
    alloc: Global,
    meter: &Refusing<Global>,
    call: Call,
    left: u64,
) -> bool {
    let turn = Turn::new(meter, left);
    let mut sink = Sink::new(alloc, usize::MAX, u64::MAX);
    let written = written(rt, meter, &turn, call, &mut sink);
    holds(rt, turn.end(written.is_err()));
    let (text, whole) = (sink.text.as_slice(), SPECULATION.text.as_bytes());
    match written {
        Ok(status) => {
            equal(rt, status, Status::Done);
            equal(rt, text, whole);
            true
        }
        Err(error) => {
            holds(rt, is_memory(error));
            holds(rt, whole.starts_with(text));
            false
        }
    }
}

/// Of a program and a query, of two texts, and of two texts and a schedule.
#[test]
fn want_of_memory_of_texts(rt: HostRuntime) {
    let meter = Refusing::new(rt.alloc(), 0);
    for call in [Call::RunInto, Call::RunText, Call::ReplayText] {
        let refused = refused_in_turn(MOST, |left| {
            goes_out(&rt, rt.alloc(), &meter, call, left)
        });
        assert!(rt; refused > 10 && refused < MOST, "{refused}");
    }
}
