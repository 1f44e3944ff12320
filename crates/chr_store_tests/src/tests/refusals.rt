//! Each growth of a call refused in turn: that the refusal is a growth's, what stands after it, and that the call then goes on.
use super::*;
use refusing_alloc::{Refusing, refused_in_turn};

/// More growths than a call of these tests asks for.
const AMPLE: u64 = 1_000_000;

/// More than a call that is refused in turn asks for.
const MOST: u64 = 60;

/// Whether a growth was refused since `left` of them were allowed. From now on memory is ample.
fn was_refused(meter: &Refusing<Global>, left: u64) -> bool {
    let is_refused = meter.asked() > left;
    meter.allow(AMPLE);
    is_refused
}

/// Whether `add` of q(2) to p(X) goes through with `left` growths. Where it is refused the arguments come back, and go through then.
///
/// For any allocator, here and below: proofs for the meter as the allocator would take much longer.
fn is_added<M: Allocator + Copy>(
    rt: &impl Abort,
    alloc: M,
    meter: &Refusing<Global>,
    store: &mut Store<M>,
    left: u64,
) -> bool {
    let args = one(rt, alloc, Term::Int(2));
    meter.allow(left);
    holds(rt, store.changes() < MAX_CHANGES);
    let answer = store.add(Q, args);
    let is_done = answer.is_ok();
    equal(rt, !is_done, was_refused(meter, left));
    if let Err((args, _)) = answer {
        equal(rt, store.rows_of(P), &[Id(1)]);
        equal(rt, store.rows_of(Q), &[]);
        equal(
            rt,
            (store.next(), store.changes(), store.stamp(Q)),
            (Id(2), 1, 0),
        );
        add(rt, store, Q, args);
    }
    equal(rt, store.rows_keyed(Q, Some(Key::Int(2))), &[Id(2)]);
    is_done
}

/// Whether `woken` of p(X) goes through with `left` growths.
fn is_woken<M: Allocator + Copy>(
    rt: &impl Abort,
    meter: &Refusing<Global>,
    store: &Store<M>,
    bindings: &Bindings<M>,
    left: u64,
) -> bool {
    meter.allow(left);
    let answer = store.woken(bindings);
    equal(rt, answer.is_err(), was_refused(meter, left));
    answer.is_ok_and(|ids| ids.as_slice() == [Id(1)].as_slice())
}

/// Whether `put` of a firing goes through with `left` growths. A refused one counts for nothing, and can be called again.
fn is_put<M: Allocator + Copy>(
    rt: &impl Abort,
    meter: &Refusing<Global>,
    history: &mut History<M>,
    left: u64,
) -> bool {
    meter.allow(left);
    let is_done = history.put(fired(0, &[Id(2), Id(1)])).is_ok();
    equal(rt, !is_done, was_refused(meter, left));
    equal(rt, history.stamp(0), u64::from(is_done));
    equal(rt, history.list().len(), usize::from(is_done));
    let is_new = got(rt, history.put(fired(0, &[Id(2), Id(1)])));
    equal(rt, is_new, !is_done);
    is_done
}

/// A call that is refused in turn.
#[derive(Clone, Copy, Debug, Drop)]
enum Call {
    Add,
    Woken,
    Put,
}

/// Whether the call goes through with `left` growths, with p(X) stored and nothing fired.
fn is_through<M: Allocator + Copy>(
    rt: &impl Abort,
    alloc: M,
    meter: &Refusing<Global>,
    call: Call,
    left: u64,
) -> bool {
    meter.allow(AMPLE);
    let mut store = Store::new(alloc);
    let mut bindings = Bindings::new(alloc);
    let mut history = History::new(alloc);
    got(rt, bindings.fresh(1));
    add(rt, &mut store, P, one(rt, alloc, Term::Var(0)));
    match call {
        Call::Add => is_added(rt, alloc, meter, &mut store, left),
        Call::Woken => is_woken(rt, meter, &store, &bindings, left),
        Call::Put => is_put(rt, meter, &mut history, left),
    }
}

#[test]
fn want_of_memory(rt: HostRuntime) {
    let meter = Refusing::new(rt.alloc(), 0);
    for call in [Call::Add, Call::Woken, Call::Put] {
        let refused = refused_in_turn(MOST, |left| is_through(&rt, &meter, &meter, call, left));
        assert!(&rt; refused > 0 && refused < MOST, "{call:?} {refused}");
    }
}
