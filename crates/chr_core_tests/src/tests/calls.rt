//! The calls of a core, one by one, and with each growth refused in turn.
ghost use Rattle.std.specs.Prelude.{◌≡◌};
ghost use Rattle.chr_semantics.specs.Bounds.{IsQueryBounded};
ghost use Rattle.chr_rules.specs.ProgramView.{rules_of};
ghost use Rattle.chr_rules.specs.RuleView.{query_view};

use super::*;
use chr_find::Snapshot;
use chr_shelf::{Answer, RunName, Shelf, solve};
use std::marker::Brand;

/// What a core shows: its counts, its transitions, and the number of its events.
fn shown<J: RunName, A: Allocator + Copy>(core: &Core<'_, J, A>) -> (Counts, u64, usize) {
    (core.counts(), core.machine().steps(), core.events().len())
}

/// So many transitions. After a refusal all is as before, and the transition is made with memory.
fn move_on<J: RunName, A: Allocator + Copy>(
    rt: &impl Abort,
    scene: &Scene<'_, A>,
    core: &mut Core<'_, J, A>,
    count: u64,
) {
    for _ in 0..count {
        let before = shown(core);
        scene.turn.begin();
        let mut stepped = core.step();
        holds(rt, scene.turn.end(stepped.is_err()));
        if stepped.is_err() {
            equal(rt, shown(core), before);
            stepped = core.step();
        }
        equal(rt, got(rt, stepped), Stepped::Moved);
    }
}

/// A round of three tasks. Its place on the shelf.
fn publish<J: RunName, A: Allocator + Copy>(
    rt: &(impl Abort + Wait),
    scene: &Scene<'_, A>,
    shelf: &Shelf<A>,
    core: &mut Core<'_, J, A>,
) -> usize
    requires name { shelf.now ≡ J.shelf }
{
    let before = shown(core);
    scene.turn.begin();
    let mut published = core.publish(rt, shelf);
    holds(rt, scene.turn.end(published.is_err()));
    if published.is_err() {
        holds(rt, published == Err(CoreError::Memory));
        equal(rt, shown(core), before);
        published = core.publish(rt, shelf);
    }
    let (place, tasks) = got(rt, published);
    equal(rt, tasks, 3);
    place
}

/// The answer to a task of the snapshot at a place of the shelf.
fn solved<J: RunName, A: Allocator + Copy>(
    rt: &impl Abort,
    program: &Program<A>,
    shelf: &Shelf<A>,
    place: usize,
) -> Answer<J, A>
    requires name { shelf.now ≡ J.shelf }
    requires rules { rules_of program.now ≡ J.rules }
{
    let ticket = shelf.ticket::<J>(place).expect(rt, "a ticket");
    match solve(program, shelf, ticket, 0) {
        Ok(answer) => answer,
        Err(_) => panic!(rt; "not solved"),
    }
}

/// An answer arrives and comes to this. After a refusal it comes back, and arrives with memory.
fn arrive<J: RunName, A: Allocator + Copy>(
    rt: &impl Abort,
    scene: &Scene<'_, A>,
    shelf: &Shelf<A>,
    core: &mut Core<'_, J, A>,
    answer: Answer<J, A>,
    wanted: Took,
)
    requires name { shelf.now ≡ J.shelf }
{
    let before = shown(core);
    scene.turn.begin();
    let arrived = core.arrive(shelf, answer);
    holds(rt, scene.turn.end(arrived.is_err()));
    let took = match arrived {
        Ok(took) => took,
        Err((answer, _)) => {
            equal(rt, shown(core), before);
            got(rt, core.arrive(shelf, answer).map_err(|(_, error)| error))
        }
    };
    equal(rt, took, wanted);
}

/// `core_calls`, and the rest of the run with the answer.
fn play<J: RunName, A: Allocator + Copy>(
    rt: &(impl Abort + Wait),
    scene: &Scene<'_, A>,
    program: &Program<A>,
    shelf: &Shelf<A>,
    core: &mut Core<'_, J, A>,
)
    requires name { shelf.now ≡ J.shelf }
    requires rules { rules_of program.now ≡ J.rules }
{
    move_on(rt, scene, core, 6);
    let place = publish(rt, scene, shelf, core);
    for wanted in [Took::Kept(0), Took::Double(0)] {
        let answer = solved::<J, A>(rt, program, shelf, place);
        equal(rt, core.is_good(answer.task()), wanted == Took::Double(0));
        arrive(rt, scene, shelf, core, answer, wanted);
    }
    holds(rt, core.serves());
    move_on(rt, scene, core, 8);
    holds(rt, !core.serves());
    equal(rt, got(rt, core.step()), Stepped::Ended);
    equal(rt, core.counts(), counts((1, 0, 1), (1, 5)));
}

/// The growths of the step after a round, to whose first task an answer came or not.
fn growths_of_step<J: RunName, A: Allocator + Copy>(
    rt: &(impl Abort + Wait),
    scene: &Scene<'_, A>,
    program: &Program<A>,
    shelf: &Shelf<A>,
    core: &mut Core<'_, J, A>,
    comes: bool,
) -> u64
    requires name { shelf.now ≡ J.shelf }
    requires rules { rules_of program.now ≡ J.rules }
{
    move_on(rt, scene, core, 6);
    let place = publish(rt, scene, shelf, core);
    if comes {
        let answer = solved::<J, A>(rt, program, shelf, place);
        arrive(rt, scene, shelf, core, answer, Took::Kept(0));
    }
    scene.turn.begin();
    equal(rt, got(rt, core.step()), Stepped::Moved);
    scene.turn.asked()
}

/// The answer to a snapshot that the core did not publish changes nothing.
fn assert_stranger<J: RunName, A: Allocator + Copy>(
    rt: &(impl Abort + Wait),
    scene: &Scene<'_, A>,
    program: &Program<A>,
    shelf: &Shelf<A>,
    core: &mut Core<'_, J, A>,
    snapshot: Snapshot<A>,
)
    requires name { shelf.now ≡ J.shelf }
    requires rules { rules_of program.now ≡ J.rules }
{
    move_on(rt, scene, core, 6);
    publish(rt, scene, shelf, core);
    let before = shown(core);
    let ticket = got(rt, shelf.put::<J>(rt, snapshot).map_err(|(_, error)| error));
    let answer = solved::<J, A>(rt, program, shelf, ticket.place());
    arrive(rt, scene, shelf, core, answer, Took::Stranger);
    equal(rt, shown(core), before);
}

/// Publishes as often as a core does, and once more.
fn fill<J: RunName, A: Allocator + Copy>(
    rt: &(impl Abort + Wait),
    shelf: &Shelf<A>,
    core: &mut Core<'_, J, A>,
)
    requires name { shelf.now ≡ J.shelf }
{
    for _ in 0..4_096 {
        got(rt, core.publish(rt, shelf));
    }
    let before = shown(core);
    holds(rt, core.publish(rt, shelf) == Err(CoreError::ShelfFull));
    equal(rt, shown(core), before);
}

/// What is asked of a core.
#[derive(Drop)]
enum Exercise<A: Allocator> {
    Calls,
    /// The growths of a step, to whose search an answer came or not.
    Growths(bool),
    Stranger(Snapshot<A>),
    Full,
}

/// Asks it of a core. The growths, where they are asked for.
fn answer_to<J: RunName, A: Allocator + Copy>(
    rt: &(impl Abort + Wait),
    scene: &Scene<'_, A>,
    program: &Program<A>,
    shelf: &Shelf<A>,
    core: &mut Core<'_, J, A>,
    asked: Exercise<A>,
) -> u64
    requires name { shelf.now ≡ J.shelf }
    requires rules { rules_of program.now ≡ J.rules }
{
    match asked {
        Exercise::Calls => play(rt, scene, program, shelf, core),
        Exercise::Growths(comes) => {
            return growths_of_step(rt, scene, program, shelf, core, comes);
        }
        Exercise::Stranger(snapshot) => assert_stranger(rt, scene, program, shelf, core, snapshot),
        Exercise::Full => fill(rt, shelf, core),
    }
    0
}

/// A core at its start. After a refusal it is made again.
fn started<'p, J: RunName, A: Allocator + Copy>(
    rt: &impl Abort,
    scene: &Scene<'_, A>,
    program: &'p Program<A>,
    query: Query<A>,
    spare: Query<A>,
) -> Core<'p, J, A>
    requires query { IsQueryBounded (query_view query) }
    requires spare { IsQueryBounded (query_view spare) }
    requires rules { rules_of program.now ≡ J.rules }
{
    scene.turn.begin();
    let made = Core::new(scene.alloc, program, query);
    holds(rt, scene.turn.end(made.is_err()));
    match made {
        Ok(core) => core,
        Err(_) => got(rt, Core::new(scene.alloc, program, spare)),
    }
}

/// Asks it of a new core.
fn ask_named<J: RunName, A: Allocator + Copy>(
    rt: &(impl Abort + Wait),
    scene: &Scene<'_, A>,
    program: &Program<A>,
    shelf: &Shelf<A>,
    query: Query<A>,
    spare: Query<A>,
    asked: Exercise<A>,
) -> u64
    requires query { IsQueryBounded (query_view query) }
    requires spare { IsQueryBounded (query_view spare) }
    requires name { shelf.now ≡ J.shelf }
    requires rules { rules_of program.now ≡ J.rules }
{
    let mut core = started::<J, A>(rt, scene, program, query, spare);
    answer_to(rt, scene, program, shelf, &mut core, asked)
}

/// As `ask_named`, under a name of its own.
fn ask<A: Allocator + Copy>(
    rt: &(impl Abort + Wait),
    scene: &Scene<'_, A>,
    program: &Program<A>,
    shelf: &Shelf<A>,
    query: Query<A>,
    spare: Query<A>,
    asked: Exercise<A>,
) -> u64
    requires query { IsQueryBounded (query_view query) }
    requires spare { IsQueryBounded (query_view spare) }
{
    ask_named::<Brand, A>(rt, scene, program, shelf, query, spare, asked)
}

/// A snapshot of the state after six steps.
fn snapshot_of<A: Allocator + Copy>(
    rt: &impl Abort,
    alloc: A,
    program: &Program<A>,
    query: Query<A>,
) -> Snapshot<A>
    requires { IsQueryBounded (query_view query) }
{
    let mut machine = got(rt, Machine::start(alloc, program, query));
    got(rt, machine.run_alone(6));
    got(rt, machine.snapshot())
}

/// What is asked of a core, before there is one.
#[derive(Clone, Copy, Drop)]
enum Question {
    Calls,
    Growths(bool),
    Stranger,
    Full,
}

/// As `snapshot_of`, with a snapshot of an equal run, where a stranger's is asked for.
fn asked_of<A: Allocator + Copy>(
    rt: &impl Abort,
    alloc: A,
    program: &Program<A>,
    query: Query<A>,
    question: Question,
) -> Exercise<A>
    requires { IsQueryBounded (query_view query) }
{
    match question {
        Question::Calls => Exercise::Calls,
        Question::Growths(comes) => Exercise::Growths(comes),
        Question::Full => Exercise::Full,
        Question::Stranger => Exercise::Stranger(snapshot_of(rt, alloc, program, query)),
    }
}

/// Asks it over a program and a shelf. The growths, where they are asked for.
fn ask_over<A: Allocator + Copy>(
    rt: &(impl Abort + Wait),
    scene: &Scene<'_, A>,
    program: &Program<A>,
    shelf: &Shelf<A>,
    query: Query<A>,
    question: Question,
) -> u64
    requires { IsQueryBounded (query_view query) }
{
    let asked = asked_of(rt, scene.alloc, program, copied(rt, &query), question);
    let spare = copied(rt, &query);
    ask(rt, scene, program, shelf, query, spare, asked)
}

/// Asks it of a core of its own, and says whether no growth was refused, beside the growths where they are asked for.
///
/// For any allocator: proofs for the meter as the allocator would take much longer.
fn ask_anew<A: Allocator + Copy>(
    rt: &(impl Abort + Wait),
    scene: &Scene<'_, A>,
    question: Question,
) -> (u64, bool) {
    let shelf = got(rt, Shelf::new(scene.alloc));
    let (program, query) = both(rt, scene.alloc);
    let growths = ask_over(rt, scene, &program, &shelf, query, question);
    (growths, scene.turn.met_none())
}

/// Asks it where the meter refuses: each call has as many growths as the question says.
fn ask_metered(
    rt: &(impl Abort + Wait),
    meter: &Refusing<Global>,
    question: Question,
    left: u64,
) -> (u64, bool) {
    let scene = Scene {
        alloc: meter,
        turn: Turn::new(meter, left),
    };
    ask_anew(rt, &scene, question)
}

/// With each growth refused in turn, the last time with none.
#[test]
fn core_calls(rt: HostRuntime) {
    let meter = Refusing::new(rt.alloc(), 0);
    let refused = refused_in_turn(MOST, |left| {
        ask_metered(&rt, &meter, Question::Calls, left).1
    });
    assert!(&rt; refused > 0 && refused < MOST, "{refused}");
}

#[test]
fn stranger(rt: HostRuntime) {
    let meter = Refusing::new(rt.alloc(), 0);
    ask_metered(&rt, &meter, Question::Stranger, u64::MAX);
}

#[test]
fn used_spares_the_search(rt: HostRuntime) {
    let meter = Refusing::new(rt.alloc(), 0);
    let (used, _) = ask_metered(&rt, &meter, Question::Growths(true), u64::MAX);
    let (own, _) = ask_metered(&rt, &meter, Question::Growths(false), u64::MAX);
    assert!(&rt; used < own, "{used} {own}");
}

/// `schedule_limits`, by the calls: the 4,097th round is refused.
#[test]
fn shelf_is_full(rt: HostRuntime) {
    let meter = Refusing::new(rt.alloc(), 0);
    ask_metered(&rt, &meter, Question::Full, u64::MAX);
}
