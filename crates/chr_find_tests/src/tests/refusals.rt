//! Each growth of a call refused in turn: that the refusal is a growth's, and that the same call then answers.
use super::*;
use refusing_alloc::{Refusing, refused_in_turn};

/// More growths than a call of these tests asks for.
const AMPLE: u64 = 1_000_000;

/// More than a call that is refused in turn asks for.
const MOST: u64 = 200;

/// A rule whose guard makes terms.
const PROGRAM: &str = ":- chr_constraint p/1, q/1. r @ p(X), q(Y) ==> f(X) \\= f(Y) | true.";

/// The constraints 1 to 3. The guest is as the constraint 2, under the identity 4.
const QUERY: &str = "p(1), q(1), q(2).";

/// A call that is refused in turn.
#[derive(Clone, Copy, Debug, Drop)]
enum Call {
    Take,
    ForTask,
    /// For a constraint that is stored.
    Find,
    /// For the guest.
    FindForGuest,
}

/// Whether a snapshot of all is right: the first constraint under its key, and the guest.
fn takes<A: Allocator + Copy>(alloc: A, scene: &Scene<A>) -> Result<bool, Memory> {
    let snapshot = taken(alloc, scene, (4, 1), Id(2))?;
    Ok(are(snapshot.rows_keyed(FIRST, Some(Key::Int(1))), &[1]) && snapshot.guest().is_some())
}

/// Whether a task's own snapshot is right, which has no guest.
fn takes_for_task<A: Allocator + Copy>(alloc: A, scene: &Scene<A>) -> Result<bool, Memory> {
    let snapshot = own(alloc, scene, (1, 1))?;
    Ok(are(snapshot.rows_keyed(FIRST, Some(Key::Int(1))), &[1]) && snapshot.guest().is_none())
}

/// Whether the call answers what is right.
fn answers<A: Allocator + Copy>(
    lists: &Lists<A>,
    call: Call,
    scene: &Scene<A>,
    snapshot: &Snapshot<A>,
) -> Result<bool, Memory> {
    match call {
        Call::Take => takes(lists.alloc, scene),
        Call::ForTask => takes_for_task(lists.alloc, scene),
        Call::Find => finds(lists, &scene.program, snapshot, (1, 1), &[1, 3], (1, 2)),
        Call::FindForGuest => finds(lists, &scene.program, snapshot, (4, 1), &[], (1, 1)),
    }
}

/// Whether the call goes through with `left` growths. A refused one can be called again.
///
/// For any allocator, here and below: proofs for the meter as the allocator would take much longer.
fn is_through<M: Allocator + Copy>(
    rt: &impl Abort,
    (lists, meter): (&Lists<M>, &Refusing<Global>),
    call: Call,
    (scene, snapshot): (&Scene<M>, &Snapshot<M>),
    left: u64,
) -> bool {
    meter.allow(left);
    let answer = answers(lists, call, scene, snapshot);
    equal(rt, meter.asked() > left, answer.is_err());
    meter.allow(AMPLE);
    holds(rt, answer.is_err() || answer == Ok(true));
    holds(rt, got(rt, answers(lists, call, scene, snapshot)));
    answer.is_ok()
}

/// How often the call is refused, over a scene and a snapshot of its own.
fn refused<M: Allocator + Copy>(
    rt: &impl Abort,
    lists: &Lists<M>,
    meter: &Refusing<Global>,
    call: Call,
) -> u64 {
    meter.allow(AMPLE);
    let scene = scene_of_texts(rt, lists.alloc, (PROGRAM, QUERY));
    let snapshot = got(rt, taken(lists.alloc, &scene, (4, 1), Id(2)));
    refused_in_turn(MOST, |left| {
        is_through(rt, (lists, meter), call, (&scene, &snapshot), left)
    })
}

#[test]
fn want_of_memory(rt: HostRuntime) {
    let meter = Refusing::new(rt.alloc(), 0);
    for call in [Call::Take, Call::ForTask, Call::Find, Call::FindForGuest] {
        let refused = refused(&rt, &lists_of(&meter), &meter, call);
        assert!(&rt; refused > 0 && refused < MOST, "{call:?} {refused}");
    }
}
