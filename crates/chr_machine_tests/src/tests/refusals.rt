//! Each growth of a call refused in turn: the refusal comes with a growth that was refused, the values are as before, and the same call with
//! memory answers as ever.
ghost use Rattle.chr_rules.specs.RuleView.{query_view};
ghost use Rattle.chr_semantics.specs.Bounds.{IsQueryBounded};

use super::asked::step_asked;
use super::*;
use refusing_alloc::{Refusing, refused_in_turn};

type Meter = Refusing<Global>;

/// More growths than a run of these tests asks for.
const AMPLE: u64 = 1_000_000;

/// More than a call that is refused in turn asks for.
const MOST: u64 = 500;

const EXAMPLES: [Worked; 4] = [GCD, PROPAGATE_THEN_SIMPLIFY, WAKING_ORDER, TURNED_ROUND];

/// A call of a machine.
#[derive(Clone, Copy, Drop)]
enum Call {
    /// `step`, which makes its own search.
    Step,
    /// `step_plain`, or `step_with` the answer, as `top` asks.
    Asked,
    Tasks,
    /// `run_alone`, to the end.
    Run,
}

/// How much a machine has of each of its parts.
fn sizes_of<A: Allocator + Copy>(machine: &Machine<A>) -> [u64; 7] {
    [
        machine.steps(),
        machine.lines().len() as u64,
        machine.stack().len() as u64,
        machine.store().next().0,
        machine.store().changes(),
        machine.bindings().len(),
        machine.history().list().len() as u64,
    ]
}

/// The tasks after six transitions of `speculation`.
fn are_tasks(tasks: &[Task]) -> bool {
    match tasks {
        [one, two, three] => *one == task(3, 1) && *two == task(2, 1) && *three == task(2, 2),
        _ => false,
    }
}

/// Whether the call goes through with `left` growths.
fn is_made<A: Allocator + Copy>(
    rt: &impl Abort,
    lists: &Lists<A>,
    meter: &Meter,
    machine: &mut Machine<A>,
    (call, left): (Call, u64),
) -> bool {
    meter.allow(left);
    match call {
        Call::Step => step(machine).is_ok(),
        Call::Asked => step_asked(lists, machine, Some((meter, left))).is_ok(),
        Call::Run => run_alone(machine, 100).is_ok(),
        Call::Tasks => match machine.tasks() {
            Err(_) => false,
            Ok(tasks) => {
                holds(rt, are_tasks(tasks.as_slice()));
                true
            }
        },
    }
}

/// Whether the call goes through with the growths that it is given. After a refusal all is as before, or, of a run, its whole transitions are kept; and
/// then it goes through with memory.
fn is_through<A: Allocator + Copy>(
    rt: &impl Abort,
    lists: &Lists<A>,
    meter: &Meter,
    machine: &mut Machine<A>,
    (call, left): (Call, u64),
) -> bool {
    let before = sizes_of(machine);
    let made = is_made(rt, lists, meter, machine, (call, left));
    equal(rt, meter.asked() > left, !made);
    if made {
        return true;
    }
    match call {
        Call::Run => equal(rt, machine.steps(), machine.lines().len() as u64),
        _ => holds(rt, sizes_of(machine) == before),
    }
    holds(rt, is_made(rt, lists, meter, machine, (call, AMPLE)));
    false
}

/// A machine at the start of the query, and whether it was not refused. Where it is, it is made again with memory.
fn started<'p, A: Allocator + Copy>(
    rt: &impl Abort,
    alloc: A,
    meter: &Meter,
    program: &'p Program<A>,
    query: Query<A>,
    again: Query<A>,
    left: u64,
) -> (Machine<'p, A>, bool)
    requires query { IsQueryBounded (query_view query) }
    requires again { IsQueryBounded (query_view again) }
{
    meter.allow(left);
    let made = start(alloc, program, query);
    equal(rt, meter.asked() > left, made.is_err());
    meter.allow(AMPLE);
    match made {
        Ok(machine) => (machine, true),
        Err(_) => (got(rt, start(alloc, program, again)), false),
    }
}

/// Appends the text of a run to what was written before. After a refusal that is as it was, and then the text is appended with memory.
fn is_written<A: Allocator + Copy>(
    rt: &impl Abort,
    meter: &Meter,
    (outcome, program): (&Outcome<A>, &Program<A>),
    (text, left): (&str, u64),
    out: &mut Vec<u8, A>,
) -> bool {
    meter.allow(left);
    let written = outcome.text(program, out).is_ok();
    equal(rt, meter.asked() > left, !written);
    meter.allow(AMPLE);
    if !written {
        equal(rt, out.as_slice(), b"!".as_slice());
        got(rt, outcome.text(program, out));
    }
    equal(
        rt,
        out.as_slice().split_first(),
        Some((&b'!', text.as_bytes())),
    );
    written
}

/// As `is_written`, of the whole run of an example over its program.
fn is_written_over<A: Allocator + Copy>(
    rt: &impl Abort,
    alloc: A,
    meter: &Meter,
    program: &Program<A>,
    query: Query<A>,
    at: (Worked, u64),
) -> bool
    requires { IsQueryBounded (query_view query) }
{
    let (example, left) = at;
    let mut out = Vec::new(alloc);
    got(rt, out.push(b'!'));
    let outcome = outcome_of(rt, alloc, program, query);
    is_written(
        rt,
        meter,
        (&outcome, program),
        (example.text, left),
        &mut out,
    )
}

/// What the whole run comes to.
fn outcome_of<A: Allocator + Copy>(
    rt: &impl Abort,
    alloc: A,
    program: &Program<A>,
    query: Query<A>,
) -> Outcome<A>
    requires { IsQueryBounded (query_view query) }
{
    let mut machine = got(rt, start(alloc, program, query));
    got(rt, run_alone(&mut machine, 100));
    machine.finish()
}

/// What is refused in turn.
#[derive(Clone, Copy, Drop)]
enum Refused {
    Start,
    /// The call, and how many transitions come before it.
    Call(u64, Call),
    /// `Outcome::text`.
    Text,
}

/// Makes the call, where one is refused in turn, and the rest of the run, whose lines are the example's. Whether the call went through.
fn run_on<A: Allocator + Copy>(
    rt: &impl Abort,
    lists: &Lists<A>,
    meter: &Meter,
    machine: &mut Machine<A>,
    (example, refused, left): (Worked, Option<(u64, Call)>, u64),
) -> bool {
    let mut made = true;
    if let Some((done, call)) = refused {
        got(rt, run_alone(machine, done));
        made = is_through(rt, lists, meter, machine, (call, left));
    }
    meter.allow(AMPLE);
    got(rt, run_alone(machine, 100));
    holds(rt, machine.status() == Status::Done);
    equal(rt, machine.steps(), example.transitions as u64);
    assert_lines(rt, machine, example.text);
    made
}

/// The same query once more.
fn copied<A: Allocator + Copy>(rt: &impl Abort, query: &Query<A>) -> Query<A>
    requires { IsQueryBounded (query_view query.now) }
    ensures { IsQueryBounded (query_view result) }
{
    match query.copy() {
        Ok(copy) => return copy,
        Err(error) => panic!(rt; "refused: {error:?}"),
    }
}

/// Whether `start` goes through with the growths that it is given. Then the machine runs an example.
fn is_started_over<A: Allocator + Copy>(
    rt: &impl Abort,
    lists: &Lists<A>,
    meter: &Meter,
    program: &Program<A>,
    query: Query<A>,
    at: (Worked, u64),
) -> bool
    requires { IsQueryBounded (query_view query) }
{
    let (example, left) = at;
    let again = copied(rt, &query);
    let (mut machine, is_started) = started(rt, lists.alloc, meter, program, query, again, left);
    run_on(rt, lists, meter, &mut machine, (example, None, left));
    is_started
}

/// Whether the call after some transitions goes through with the growths that it is given. Then the machine runs on.
fn is_called_over<A: Allocator + Copy>(
    rt: &impl Abort,
    lists: &Lists<A>,
    meter: &Meter,
    program: &Program<A>,
    query: Query<A>,
    at: (Worked, Option<(u64, Call)>, u64),
) -> bool
    requires { IsQueryBounded (query_view query) }
{
    let mut machine = got(rt, start(lists.alloc, program, query));
    run_on(rt, lists, meter, &mut machine, at)
}

/// Whether that goes through with the growths that it is given, in a run of an example over its program.
fn is_through_over<A: Allocator + Copy>(
    rt: &impl Abort,
    lists: &Lists<A>,
    meter: &Meter,
    program: &Program<A>,
    query: Query<A>,
    at: (Worked, Refused, u64),
) -> bool
    requires { IsQueryBounded (query_view query) }
{
    let (example, refused, left) = at;
    match refused {
        Refused::Start => is_started_over(rt, lists, meter, program, query, (example, left)),
        Refused::Call(done, call) => {
            let at = (example, Some((done, call)), left);
            is_called_over(rt, lists, meter, program, query, at)
        }
        Refused::Text => {
            is_written_over(rt, lists.alloc, meter, program, query, (example, left))
        }
    }
}

/// As `is_through_over`, for a program of its own.
///
/// For any allocator, here and above: proofs for the meter as the allocator would take much longer.
fn is_through_in<A: Allocator + Copy>(
    rt: &impl Abort,
    lists: &Lists<A>,
    meter: &Meter,
    (example, refused): (Worked, Refused),
    left: u64,
) -> bool {
    meter.allow(AMPLE);
    let (program, query) = both(rt, lists.alloc, (example.program, example.query));
    is_through_over(rt, lists, meter, &program, query, (example, refused, left))
}

/// As `is_through_in`, where the meter refuses.
fn is_through_metered(rt: &impl Abort, meter: &Meter, at: (Worked, Refused), left: u64) -> bool {
    is_through_in(rt, &lists_of(meter), meter, at, left)
}

/// How often it is refused before it goes through.
fn refusals(rt: &impl Abort, alloc: Global, example: Worked, refused: Refused) -> u64 {
    let meter = Refusing::new(alloc, 0);
    let count = refused_in_turn(MOST, |left| {
        is_through_metered(rt, &meter, (example, refused), left)
    });
    holds(rt, count < MOST);
    count
}

/// It is refused at least once, and then goes through.
fn assert_refused(rt: &impl Abort, alloc: Global, example: Worked, refused: Refused) {
    let count = refusals(rt, alloc, example, refused);
    assert!(rt; count > 0, "{}", example.query);
}

/// `start`, `run_alone`, `tasks` and the text of an outcome.
#[test]
fn want_of_memory(rt: HostRuntime) {
    for example in EXAMPLES {
        for refused in [Refused::Start, Refused::Call(0, Call::Run), Refused::Text] {
            assert_refused(&rt, rt.alloc(), example, refused);
        }
    }
    assert_refused(&rt, rt.alloc(), SPECULATION, Refused::Call(6, Call::Tasks));
}

/// How often the steps of an example are refused, each in turn: one that searches by itself, and one without a search or with the answer
/// handed in. A step whose line has room may ask for no growth.
fn refusals_of_steps(rt: &impl Abort, alloc: Global, example: Worked) -> u64 {
    let mut count: u64 = 0;
    for done in 0..example.transitions as u64 {
        for call in [Call::Step, Call::Asked] {
            count = count.saturating_add(refusals(rt, alloc, example, Refused::Call(done, call)));
        }
    }
    count
}

/// The steps of each example are refused at least as often as it has transitions, and then go through.
#[test]
fn want_of_memory_of_steps(rt: HostRuntime) {
    for example in EXAMPLES {
        let count = refusals_of_steps(&rt, rt.alloc(), example);
        assert!(rt;
            count >= example.transitions as u64,
            "{count} {}",
            example.query
        );
    }
}
