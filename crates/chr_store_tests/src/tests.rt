use chr_bind::Bindings;
use chr_semantics::limits::MAX_CHANGES;
use chr_store::*;
use chr_term::{Args, Sym, Term};
use std::alloc::{Allocator, Global};
use std::process::Abort;

mod checks;
mod refusals;

use checks::{equal, got, holds};

const P: Sym = Sym(7);

const Q: Sym = Sym(8);

/// One argument.
fn one<A: Allocator + Copy>(rt: &impl Abort, alloc: A, only: Term<A>) -> Args<A> {
    let args = got(rt, Vec::from_array(alloc, [only]));
    got(rt, Args::new(alloc, args))
}

/// `add` to a store with few changes.
fn add<A: Allocator + Copy>(rt: &impl Abort, store: &mut Store<A>, sym: Sym, args: Args<A>) -> Id {
    holds(rt, store.changes() < MAX_CHANGES);
    got(rt, store.add(sym, args).map_err(|(_, error)| error))
}

/// `remove` from such a store.
fn remove<A: Allocator>(rt: &impl Abort, store: &mut Store<A>, id: Id) -> bool {
    holds(rt, store.changes() < MAX_CHANGES);
    store.remove(id)
}

/// A firing of a rule with two identities.
fn fired(rule: usize, ids: &[Id; 2]) -> Fired {
    Fired {
        rule,
        ids: HeadIds::of(ids),
    }
}

/// Adds p(1) and p(X), and removes the first.
fn follow_store_calls(rt: &impl Abort, alloc: Global, store: &mut Store, bindings: &Bindings) {
    equal(rt, add(rt, store, P, one(rt, alloc, Term::Int(1))), Id(1));
    equal(rt, add(rt, store, P, one(rt, alloc, Term::Var(0))), Id(2));
    equal(rt, got(rt, store.woken(bindings)).as_slice(), &[Id(2)]);
    holds(rt, remove(rt, store, Id(1)));
    holds(rt, !remove(rt, store, Id(1)));
    holds(rt, !store.alive(Id(1)));
    holds(rt, store.row(Id(1)).is_none());
    holds(rt, store.row(Id(2)).is_some_and(|row| row.sym == P));
    equal(rt, add(rt, store, P, one(rt, alloc, Term::Int(2))), Id(3));
    equal(rt, store.rows_of(P), &[Id(2), Id(3)]);
    equal(rt, (store.next(), store.changes()), (Id(4), 4));
}

#[test]
fn store_calls(rt: HostRuntime) {
    let mut store = Store::new(rt.alloc());
    let mut bindings = Bindings::new(rt.alloc());
    got(&rt, bindings.room(1));
    got(&rt, bindings.fresh(1));
    follow_store_calls(&rt, rt.alloc(), &mut store, &bindings);
}

/// Adds p(1,7), p(2,8), p(A,9) and go.
fn fill_index(rt: &impl Abort, alloc: Global, store: &mut Store) {
    for (first, second) in [(Some(1), 7), (Some(2), 8), (None, 9)] {
        let first = match first {
            None => Term::Var(0),
            Some(number) => Term::Int(number),
        };
        let args = got(rt, Vec::from_array(alloc, [first, Term::Int(second)]));
        add(rt, store, P, got(rt, Args::new(alloc, args)));
    }
    add(rt, store, Q, got(rt, Args::new(alloc, Vec::new(alloc))));
}

/// Whatever A is bound to: the keys are those of the arguments as they were stored.
#[test]
fn first_argument_index(rt: HostRuntime) {
    let mut store = Store::new(rt.alloc());
    fill_index(&rt, rt.alloc(), &mut store);
    for (key, id) in [(Some(Key::Int(1)), 1), (Some(Key::Int(2)), 2), (None, 3)] {
        equal(&rt, store.rows_keyed(P, key), &[Id(id)]);
    }
    equal(&rt, store.rows_keyed(Q, None), &[Id(4)]);
}

/// Of p(1) and p(1) the rule removes the second one.
fn touch_by_firing(rt: &impl Abort, alloc: Global, store: &mut Store, history: &mut History) {
    add(rt, store, P, one(rt, alloc, Term::Int(1)));
    add(rt, store, P, one(rt, alloc, Term::Int(1)));
    holds(rt, got(rt, history.put(fired(0, &[Id(1), Id(2)]))));
    holds(rt, remove(rt, store, Id(2)));
    equal(rt, (store.stamp(P), history.stamp(0)), (3, 1));
}

/// Of p(1) and q(X) the second one changes where X is bound, and no other goal changes one.
fn touch_by_binding(rt: &impl Abort, alloc: Global, store: &mut Store) {
    add(rt, store, P, one(rt, alloc, Term::Int(1)));
    add(rt, store, Q, one(rt, alloc, Term::Var(0)));
    for ids in [[].as_slice(), [Id(2)].as_slice()] {
        holds(rt, store.changes() < MAX_CHANGES);
        store.rebound(ids);
    }
    equal(rt, (store.stamp(P), store.stamp(Q)), (1, 2));
}

#[test]
fn touch_counts(rt: HostRuntime) {
    let (mut store, mut history) = (Store::new(rt.alloc()), History::new(rt.alloc()));
    touch_by_firing(&rt, rt.alloc(), &mut store, &mut history);
    let mut store = Store::new(rt.alloc());
    touch_by_binding(&rt, rt.alloc(), &mut store);
}

#[test]
fn history_calls(rt: HostRuntime) {
    let mut history = History::new(rt.alloc());
    for is_new in [true, false] {
        let entry = fired(0, &[Id(2), Id(1)]);
        equal(&rt, history.has(&entry), !is_new);
        equal(&rt, got(&rt, history.put(entry)), is_new);
    }
    equal(&rt, (history.list().len(), history.stamp(0)), (1, 1));
}

const COUNT: u64 = 20_000;

/// Adds p(0), p(1), .., and removes them all: first the one of the identity 1, and then each by so much after the one before, around.
fn fill_and_empty(rt: &impl Abort, alloc: Global, store: &mut Store, by: u64) {
    for number in 0..COUNT {
        add(rt, store, P, one(rt, alloc, Term::Int(i128::from(number))));
    }
    let mut place = 0u64;
    for _ in 0..COUNT {
        holds(rt, remove(rt, store, Id(place.saturating_add(1))));
        place = place.saturating_add(by) % COUNT;
    }
    holds(rt, store.rows_of(P).is_empty());
}

/// The oldest first, the newest first and in a mixed order: each in time.
#[test]
fn many_removed(rt: HostRuntime) {
    for by in [1, COUNT - 1, 7_919] {
        let mut store = Store::new(rt.alloc());
        fill_and_empty(&rt, rt.alloc(), &mut store, by);
    }
}
