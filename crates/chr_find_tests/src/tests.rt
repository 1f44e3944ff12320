use chr_bind::{Bindings, is_below};
use chr_find::*;
use chr_rules::{Goal, Program, Query};
use chr_semantics::limits::{MAX_CHANGES, MAX_HEADS};
use chr_store::{Fired, HeadIds, History, Id, Key, Store};
use chr_term::{Sym, Term};
use chr_texts::both_of;
use smallvec::SmallVec;
use std::alloc::{Allocator, Global};
use std::marker::PhantomData;
use std::process::Abort;

mod checks;
mod plain;
mod random;
mod refusals;

use checks::{equal, got, holds};

/// The first symbol that a program declares, after the seven that each program has.
const FIRST: Sym = Sym(7);

/// A program, and what a run of it has: the constraints of a query, the bindings of its variables, and firings.
#[derive(Drop)]
struct Scene<A: Allocator> {
    program: Program<A>,
    store: Store<A>,
    bindings: Bindings<A>,
    history: History<A>,
}

/// Adds the constraints of a query, which get the identities from 1 on.
fn add_all<A: Allocator + Copy>(rt: &impl Abort, store: &mut Store<A>, query: Query<A>) {
    for goal in query.goals {
        if let Goal::Chr(sym, args) = goal {
            holds(rt, store.changes() < MAX_CHANGES);
            got(rt, store.add(sym, args).map_err(|(_, error)| error));
        }
    }
}

/// So many variables, none of them bound.
fn unbound<A: Allocator + Copy>(rt: &impl Abort, alloc: A, count: usize) -> Bindings<A> {
    let mut bindings = Bindings::new(alloc);
    got(rt, bindings.fresh(count));
    bindings
}

/// A store of the constraints of a query.
fn stored<A: Allocator + Copy>(rt: &impl Abort, alloc: A, query: Query<A>) -> Store<A> {
    let mut store = Store::new(alloc);
    add_all(rt, &mut store, query);
    store
}

/// The scene of a program and the constraints of a query, of which nothing is bound and nothing has fired.
fn scene_of<A: Allocator + Copy>(
    rt: &impl Abort,
    alloc: A,
    program: Program<A>,
    query: Query<A>,
) -> Scene<A> {
    let bindings = unbound(rt, alloc, query.var_names.len());
    let store = stored(rt, alloc, query);
    Scene {
        program,
        store,
        bindings,
        history: History::new(alloc),
    }
}

/// As `scene_of`, of texts.
fn scene_of_texts<A: Allocator + Copy>(rt: &impl Abort, alloc: A, texts: (&str, &str)) -> Scene<A> {
    let (program, query) = got(rt, both_of(alloc, texts.0, texts.1));
    scene_of(rt, alloc, program, query)
}

/// A rule fires with these.
fn fire(rt: &impl Abort, history: &mut History, rule: usize, numbers: &[u64]) {
    let mut ids = HeadIds::new();
    for number in numbers {
        if ids.len() < MAX_HEADS {
            ids.push(Id(*number));
        }
    }
    got(rt, history.put(Fired { rule, ids }));
}

/// The search for a constraint at an occurrence of its symbol.
fn task((goal, occurrence): (u64, u32)) -> Task {
    Task {
        goal: Id(goal),
        occurrence,
    }
}

/// A snapshot of all that is stored, for one task, with a guest that is as a stored constraint, if one is.
fn taken<A: Allocator + Copy>(
    alloc: A,
    scene: &Scene<A>,
    at: (u64, u32),
    guest: Id,
) -> Result<Snapshot<A>, Memory> {
    let (store, bindings, history) = (&scene.store, &scene.bindings, &scene.history);
    let guest = match store.row(guest) {
        None => None,
        Some(row) => Some((row.sym, row.args.as_slice())),
    };
    let tasks = Vec::from_array(alloc, [task(at)])?;
    Snapshot::take(alloc, store, bindings, history, tasks, guest)
}

/// A snapshot for one task alone.
fn own<A: Allocator + Copy>(
    alloc: A,
    scene: &Scene<A>,
    at: (u64, u32),
) -> Result<Snapshot<A>, Memory> {
    let (store, bindings, history) = (&scene.store, &scene.bindings, &scene.history);
    Snapshot::for_task(alloc, &scene.program, store, bindings, history, task(at))
}

/// An allocator, and the type of the lists that searches answer. A function for any allocator names that type where it takes such lists.
#[derive(Drop)]
struct Lists<A, S = SmallVec<Id, 8, A>> {
    alloc: A,
    list: PhantomData<S>,
}

fn lists_of<A: Allocator>(alloc: A) -> Lists<A> {
    Lists {
        alloc,
        list: PhantomData,
    }
}

/// Whether the identities have these numbers.
fn are(ids: &[Id], wanted: &[u64]) -> bool {
    if ids.len() != wanted.len() {
        return false;
    }
    for (id, number) in ids.iter().zip(wanted) {
        if id.0 != *number {
            return false;
        }
    }
    true
}

/// Whether a task finds these identities in a snapshot, or nothing where there are none, with tries between two numbers.
fn finds<A: Allocator + Copy>(
    _lists: &Lists<A>,
    program: &Program<A>,
    snapshot: &Snapshot<A>,
    at: (u64, u32),
    wanted: &[u64],
    (least, most): (u64, u64),
) -> Result<bool, Memory> {
    let found = find(program, snapshot, task(at))?;
    let is_found = match &found.ids {
        None => wanted.is_empty(),
        Some(ids) => are(ids.as_slice(), wanted),
    };
    Ok(is_found && least <= found.tries && found.tries <= most)
}

/// As `finds`, in a snapshot of all that is stored.
fn finds_taken<A: Allocator + Copy>(
    rt: &impl Abort,
    lists: &Lists<A>,
    scene: &Scene<A>,
    at: (u64, u32),
    wanted: &[u64],
    tries: (u64, u64),
) -> bool {
    let snapshot = got(rt, taken(lists.alloc, scene, at, Id(0)));
    got(
        rt,
        finds(lists, &scene.program, &snapshot, at, wanted, tries),
    )
}

/// As `finds_taken`, in the task's own snapshot.
fn finds_own<A: Allocator + Copy>(
    rt: &impl Abort,
    lists: &Lists<A>,
    scene: &Scene<A>,
    at: (u64, u32),
    wanted: &[u64],
    tries: (u64, u64),
) -> bool {
    let snapshot = got(rt, own(lists.alloc, scene, at));
    got(
        rt,
        finds(lists, &scene.program, &snapshot, at, wanted, tries),
    )
}

/// The identities of the first symbol under the keys 1 and 2, and those without a key.
fn assert_keyed(rt: &impl Abort, snapshot: &Snapshot, one: &[u64], two: &[u64], none: &[u64]) {
    holds(rt, are(snapshot.rows_keyed(FIRST, Some(Key::Int(1))), one));
    holds(rt, are(snapshot.rows_keyed(FIRST, Some(Key::Int(2))), two));
    holds(rt, are(snapshot.rows_keyed(FIRST, None), none));
}

/// Binds the first variable to 1.
fn bind_first(rt: &impl Abort, bindings: &mut Bindings) {
    let (left, right) = (Term::Var(0), Term::Int(1));
    holds(rt, is_below(bindings.len(), &left));
    holds(rt, is_below(bindings.len(), &right));
    got(rt, bindings.unify(&left, &right));
}

/// A snapshot of all has the variable's constraint under no key.
fn assert_unbound(rt: &impl Abort, alloc: Global, scene: &Scene<Global>) {
    let snapshot = got(rt, taken(alloc, scene, (4, 1), Id(0)));
    assert_keyed(rt, &snapshot, &[1], &[2], &[3]);
}

/// Once it is bound, under its key.
fn assert_bound(rt: &impl Abort, alloc: Global, scene: &Scene<Global>) {
    let snapshot = got(rt, taken(alloc, scene, (4, 1), Id(0)));
    assert_keyed(rt, &snapshot, &[1, 3], &[2], &[]);
}

/// A snapshot for a task has the constraints under the key that the task's rule names, and no others.
fn assert_named(rt: &impl Abort, alloc: Global, scene: &Scene<Global>) {
    let snapshot = got(rt, own(alloc, scene, (4, 1)));
    assert_keyed(rt, &snapshot, &[1], &[], &[]);
}

/// The keys before the variable is bound, and after it.
fn follow_index(rt: &impl Abort, alloc: Global, scene: &mut Scene<Global>) {
    assert_unbound(rt, alloc, scene);
    assert_named(rt, alloc, scene);
    holds(
        rt,
        finds_own(rt, &lists_of(alloc), scene, (4, 1), &[4, 1], (1, 1)),
    );
    bind_first(rt, &mut scene.bindings);
    assert_bound(rt, alloc, scene);
}

#[test]
fn first_argument_index(rt: HostRuntime) {
    let rules = ":- chr_constraint p/2, go/0, o/1. r @ go, p(1,X) ==> o(X).";
    let texts = (rules, "p(1,7), p(2,8), p(A,9), go.");
    let mut scene = scene_of_texts(&rt, rt.alloc(), texts);
    follow_index(&rt, rt.alloc(), &mut scene);
}

/// A snapshot that is kept shows what it was taken of, once the rule has fired, the variable is bound, and all constraints are removed.
fn follow_kept(rt: &impl Abort, alloc: Global, scene: &mut Scene<Global>) {
    let lists = lists_of(alloc);
    let kept = got(rt, taken(alloc, scene, (4, 1), Id(2)));
    fire(rt, &mut scene.history, 0, &[4, 1]);
    bind_first(rt, &mut scene.bindings);
    for id in 1..5u64 {
        holds(rt, scene.store.changes() < MAX_CHANGES);
        scene.store.remove(Id(id));
    }
    assert_keyed(rt, &kept, &[1], &[2], &[3]);
    holds(rt, kept.guest().is_some());
    holds(
        rt,
        got(
            rt,
            finds(&lists, &scene.program, &kept, (4, 1), &[4, 1], (1, 1)),
        ),
    );
    holds(rt, finds_taken(rt, &lists, scene, (4, 1), &[], (0, 0)));
}

#[test]
fn snapshot_is_kept(rt: HostRuntime) {
    let rules = ":- chr_constraint p/2, go/0, o/1. r @ go, p(1,X) ==> o(X).";
    let texts = (rules, "p(1,[7,8]), p(2,f(A)), p(A,9), go.");
    let mut scene = scene_of_texts(&rt, rt.alloc(), texts);
    follow_kept(&rt, rt.alloc(), &mut scene);
}

const JOIN: &str =
    ":- chr_constraint go/0, p/1, q/1, o/2. r @ go, p(X), q(Y) ==> X =\\= Y | o(X,Y).";

const SPECULATION: &str =
    ":- chr_constraint act/0, q/1, s/1, out/1. p1 @ act ==> s(1). r @ act, q(X), s(X) ==> out(X).";

/// The search of step 14, and once both lists have fired that of step 20.
fn follow_join(rt: &impl Abort, alloc: Global, scene: &mut Scene<Global>) {
    let lists = lists_of(alloc);
    holds(
        rt,
        finds_taken(rt, &lists, scene, (5, 1), &[5, 1, 4], (2, 4)),
    );
    fire(rt, &mut scene.history, 0, &[5, 1, 4]);
    fire(rt, &mut scene.history, 0, &[5, 2, 3]);
    holds(rt, finds_taken(rt, &lists, scene, (5, 1), &[], (4, 4)));
}

#[test]
fn tries_of_join(rt: HostRuntime) {
    let texts = (JOIN, "p(1), p(2), q(1), q(2), go.");
    let mut scene = scene_of_texts(&rt, rt.alloc(), texts);
    follow_join(&rt, rt.alloc(), &mut scene);
}

/// The search of the second rule, once the first has fired.
fn follow_speculation(rt: &impl Abort, alloc: Global, scene: &mut Scene<Global>) {
    fire(rt, &mut scene.history, 0, &[2]);
    holds(
        rt,
        finds_own(rt, &lists_of(alloc), scene, (3, 1), &[2, 1, 3], (1, 1)),
    );
}

#[test]
fn tries_of_speculation(rt: HostRuntime) {
    let texts = (SPECULATION, "q(1), act, s(1).");
    let mut scene = scene_of_texts(&rt, rt.alloc(), texts);
    follow_speculation(&rt, rt.alloc(), &mut scene);
}

/// The guest, which is as s(1), stands under the next identity for its own task, and for no other.
fn assert_guest(rt: &impl Abort, lists: &Lists<Global>, program: &Program, snapshot: &Snapshot) {
    holds(rt, snapshot.tasks() == [task((4, 1))].as_slice());
    holds(rt, snapshot.guest().is_some());
    holds(
        rt,
        got(
            rt,
            finds(lists, program, snapshot, (4, 1), &[2, 1, 4], (1, 1)),
        ),
    );
    holds(
        rt,
        got(
            rt,
            finds(lists, program, snapshot, (3, 1), &[2, 1, 3], (1, 1)),
        ),
    );
}

/// As `assert_guest`, in a snapshot of the scene.
fn follow_guest(rt: &impl Abort, alloc: Global, scene: &Scene<Global>) {
    let snapshot = got(rt, taken(alloc, scene, (4, 1), Id(3)));
    assert_guest(rt, &lists_of(alloc), &scene.program, &snapshot);
}

#[test]
fn guest_answers(rt: HostRuntime) {
    let texts = (SPECULATION, "q(1), act, s(1).");
    let scene = scene_of_texts(&rt, rt.alloc(), texts);
    follow_guest(&rt, rt.alloc(), &scene);
}
