//! Schedules that are read, replayed and printed.
ghost use Rattle.chr_rules.specs.RuleView.{query_view};
ghost use Rattle.chr_semantics.specs.Bounds.{IsQueryBounded};

use super::*;
use chr_schedule::{ScheduleErrorKind, print_schedule};

/// `replay`, with no clause, so that a proof of a test does not follow the run.
fn replayed<A: Allocator + Copy>(
    rt: &impl Wait,
    alloc: A,
    program: &Program<A>,
    query: Query<A>,
    events: &[Event],
) -> Result<(Outcome<A>, Counts), ReplayError>
    requires { IsQueryBounded (query_view query) }
{
    replay(rt, alloc, program, query, events)
}

const SCHEDULE: &str = "step 6\npublish\narrive 0 0\narrive 0 1\narrive 0 2\nstep 8\n";

/// Reads the schedule. After a refusal it is read with memory.
fn events_of<A: Allocator + Copy>(rt: &impl Abort, scene: &Scene<'_, A>) -> Vec<Event, A> {
    scene.turn.begin();
    let read = read_schedule(scene.alloc, SCHEDULE.as_bytes());
    holds(rt, scene.turn.end(read.is_err()));
    match read {
        Ok(events) => events,
        Err(error) => {
            equal(rt, error.kind, ScheduleErrorKind::Memory);
            equal(rt, error.line, 0);
            got(rt, read_schedule(scene.alloc, SCHEDULE.as_bytes()))
        }
    }
}

/// Prints the events behind what was written before. After a refusal that is as it was.
fn assert_printed<A: Allocator + Copy>(rt: &impl Abort, scene: &Scene<'_, A>, events: &[Event]) {
    let mut out = got(rt, Vec::from_array(scene.alloc, [b'!']));
    scene.turn.begin();
    let printed = print_schedule(events, &mut out);
    holds(rt, scene.turn.end(printed.is_err()));
    if printed.is_err() {
        equal(rt, out.as_slice(), b"!".as_slice());
        got(rt, print_schedule(events, &mut out));
    }
    equal(
        rt,
        out.as_slice().split_first(),
        Some((&b'!', SCHEDULE.as_bytes())),
    );
}

/// Replays the events. After a refusal they are replayed with memory.
fn assert_replayed<A: Allocator + Copy>(
    rt: &(impl Abort + Wait),
    scene: &Scene<'_, A>,
    program: &Program<A>,
    query: Query<A>,
    again: Query<A>,
    events: &[Event],
)
    requires query { IsQueryBounded (query_view query) }
    requires again { IsQueryBounded (query_view again) }
{
    scene.turn.begin();
    let mut made = replayed(rt, scene.alloc, program, query, events);
    holds(rt, scene.turn.end(made.is_err()));
    if made.is_err() {
        holds(rt, matches!(&made, Err(ReplayError::Memory)));
        made = replayed(rt, scene.alloc, program, again, events);
    }
    let (outcome, found) = got(rt, made);
    let mut out = Vec::new(scene.alloc);
    got(rt, outcome.text(program, &mut out));
    equal(rt, out.as_slice(), SPECULATION.text.as_bytes());
    equal(rt, found, counts((3, 0, 0), (2, 4)));
}

/// Reads, prints and replays the schedule over a program.
fn play<A: Allocator + Copy>(
    rt: &(impl Abort + Wait),
    scene: &Scene<'_, A>,
    program: &Program<A>,
    query: Query<A>,
)
    requires { IsQueryBounded (query_view query) }
{
    let again = copied(rt, &query);
    let events = events_of(rt, scene);
    equal(rt, events.len(), 18);
    assert_printed(rt, scene, events.as_slice());
    assert_replayed(rt, scene, program, query, again, events.as_slice());
}

/// Whether no growth was refused where each call has `left` of them.
///
/// For any allocator: proofs for the meter as the allocator would take much longer.
fn are_through<A: Allocator + Copy>(rt: &(impl Abort + Wait), scene: &Scene<'_, A>) -> bool {
    let (program, query) = both(rt, scene.alloc);
    play(rt, scene, &program, query);
    scene.turn.met_none()
}

/// As `are_through`, where the meter refuses.
fn are_through_metered(rt: &(impl Abort + Wait), meter: &Refusing<Global>, left: u64) -> bool {
    let scene = Scene {
        alloc: meter,
        turn: Turn::new(meter, left),
    };
    are_through(rt, &scene)
}

/// `speculation` by its schedule, with each growth of the calls refused in turn, the last time with none.
#[test]
fn speculation(rt: HostRuntime) {
    let meter = Refusing::new(rt.alloc(), 0);
    let refused = refused_in_turn(MOST, |left| are_through_metered(&rt, &meter, left));
    assert!(&rt; refused > 0 && refused < MOST, "{refused}");
}

/// The events of two lines are printed as one, and what is no schedule is refused.
#[test]
fn schedule_calls(rt: HostRuntime) {
    let events = got(
        &rt,
        read_schedule(rt.alloc(), b"step 2\nstep 3\n".as_slice()),
    );
    let mut out = Vec::new(rt.alloc());
    got(&rt, print_schedule(events.as_slice(), &mut out));
    equal(&rt, out.as_slice(), b"step 5\n".as_slice());
    for (text, kind) in [
        ("step 0\n", ScheduleErrorKind::BadNumber),
        ("stop 1\n", ScheduleErrorKind::BadLine),
    ] {
        match read_schedule(rt.alloc(), text.as_bytes()) {
            Ok(_) => panic!(&rt; "read"),
            Err(error) => equal(&rt, (error.kind, error.line), (kind, 1)),
        }
    }
}
