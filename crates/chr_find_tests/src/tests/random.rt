//! Searches against a plain search, on random small stores.
use super::plain::{Rows, Sought, plain_first};
use super::*;
use chr_rules::Occurrence;
use chr_store::Row;

/// Numbers that look random, the same in each run.
#[derive(Drop)]
struct Dice {
    state: u64,
}

impl Dice {
    /// One of the numbers below the bound, which is greater than 0.
    fn below(&mut self, bound: u64) -> u64 {
        self.state = self
            .state
            .wrapping_mul(6_364_136_223_846_793_005)
            .wrapping_add(1_442_695_040_888_963_407);
        (self.state / 8_589_934_592) % bound.max(1)
    }
}

const PROGRAMS: [&str; 6] = [
    ":- chr_constraint p/2, q/1, r/2. p(X,Y), q(Y) ==> true.",
    ":- chr_constraint p/2, q/1, r/2. p(X,Y), p(Y,Z) <=> X =< Z | true.",
    ":- chr_constraint p/2, q/1, r/2. q(X) \\ q(X) <=> true. r(f(X),Y), q(X), p(Y,_) ==> true.",
    ":- chr_constraint p/2, q/1, r/2. p(0,X), r(X,Y), q(Y) ==> X \\= Y | true.",
    ":- chr_constraint p/2, q/1, r/2. p(X,X), r(A,X), p(A,B) <=> true. r(X,_), q(1) # passive ==> true.",
    ":- chr_constraint p/2, q/1, r/2. q(X), q(Y), q(Z) ==> integer(X), Y < Z | true.",
];

const CONSTRAINTS: [&str; 16] = [
    "p(0,0)",
    "p(0,1)",
    "p(1,0)",
    "p(1,2)",
    "p(2,1)",
    "p(U,1)",
    "p(U,V)",
    "q(0)",
    "q(1)",
    "q(2)",
    "q(U)",
    "q(V)",
    "r(f(0),0)",
    "r(f(U),1)",
    "r(1,2)",
    "r(U,V)",
];

/// A query has fewer constraints.
const MOST: u64 = 8;

/// A query of some of the constraints.
fn query_text(rt: &impl Abort, alloc: Global, dice: &mut Dice) -> String {
    let mut text = String::new(alloc);
    for _ in 0..dice.below(MOST) {
        let place = dice.below(16) as usize;
        if let Some(constraint) = CONSTRAINTS.get(place) {
            got(rt, text.push_str(constraint));
            got(rt, text.push_str(", "));
        }
    }
    got(rt, text.push_str("true."));
    text
}

/// Adds the constraint of an identity, if it lives, under another identity.
fn push_row(rt: &impl Abort, scene: &Scene<Global>, id: Id, under: Id, rows: &mut Rows) {
    if let Some(row) = scene.store.row(id) {
        let args = got(rt, scene.bindings.resolve_args(&row.args));
        let sym = row.sym;
        got(rt, rows.push((under, Row { sym, args })));
    }
}

/// The constraints that live, under the bindings.
fn rows_of(rt: &impl Abort, alloc: Global, scene: &Scene<Global>) -> Rows {
    let mut rows = Vec::new(alloc);
    for number in 1..scene.store.next().0 {
        push_row(rt, scene, Id(number), Id(number), &mut rows);
    }
    rows
}

/// A random rule has fired with random constraints that were added.
fn fire_some(rt: &impl Abort, dice: &mut Dice, scene: &mut Scene<Global>) {
    let rule = dice.below(2) as usize;
    if rule >= scene.program.rules() {
        return;
    }
    let next = scene.store.next().0;
    let mut ids = HeadIds::new();
    for _ in 0..scene.program.rule(rule).heads.len() {
        if ids.len() < MAX_HEADS {
            ids.push(Id(dice.below(next)));
        }
    }
    got(rt, scene.history.put(Fired { rule, ids }));
}

/// Binds a random one of the variables to a number or to another of them.
fn bind_some(rt: &impl Abort, dice: &mut Dice, bindings: &mut Bindings) {
    let count = bindings.len();
    let left = Term::Var(dice.below(count));
    let right = match dice.below(4) {
        3 => Term::Var(dice.below(count)),
        number => Term::Int(i128::from(number)),
    };
    if is_below(count, &left) && is_below(count, &right) {
        got(rt, bindings.unify(&left, &right));
    }
}

/// Removes a random constraint, if it lives.
fn remove_some(dice: &mut Dice, store: &mut Store<Global>) {
    if store.changes() < MAX_CHANGES {
        store.remove(Id(dice.below(MOST)));
    }
}

/// What the plain search finds for a constraint at an occurrence.
fn plain_at(
    rt: &impl Abort,
    alloc: Global,
    scene: &Scene<Global>,
    rows: &[(Id, Row)],
    own: Id,
    occurrence: Occurrence,
) -> Option<Vec<Id>> {
    holds(rt, occurrence.rule < scene.program.rules());
    let sought = Sought {
        rule: scene.program.rule(occurrence.rule),
        number: occurrence.rule,
        place: occurrence.place,
        own,
    };
    plain_first(rt, alloc, rows, scene.history.list(), sought)
}

/// Whether a search in a snapshot finds just this.
fn finds_just(
    rt: &impl Abort,
    program: &Program,
    snapshot: &Snapshot,
    at: (u64, u32),
    wanted: &Option<Vec<Id>>,
) -> bool {
    let found = got(rt, find(program, snapshot, task(at)));
    match (&found.ids, wanted) {
        (None, None) => true,
        (Some(ids), Some(wanted)) => ids.as_slice() == wanted.as_slice(),
        _ => false,
    }
}

/// As `finds_just`, in a snapshot of all, with a guest.
fn finds_just_taken(
    rt: &impl Abort,
    alloc: Global,
    scene: &Scene<Global>,
    at: (u64, u32),
    guest: Id,
    wanted: &Option<Vec<Id>>,
) -> bool {
    let snapshot = got(rt, taken(alloc, scene, at, guest));
    finds_just(rt, &scene.program, &snapshot, at, wanted)
}

/// As `finds_just_taken`, in the task's own snapshot.
fn finds_just_own(
    rt: &impl Abort,
    alloc: Global,
    scene: &Scene<Global>,
    at: (u64, u32),
    wanted: &Option<Vec<Id>>,
) -> bool {
    let snapshot = got(rt, own(alloc, scene, at));
    finds_just(rt, &scene.program, &snapshot, at, wanted)
}

/// The searches for a constraint, or for the guest, at an occurrence find what the plain one finds.
fn assert_found(
    rt: &impl Abort,
    alloc: Global,
    scene: &Scene<Global>,
    guest: Id,
    rows: &[(Id, Row)],
    (own, number): (Id, u32),
    occurrence: Occurrence,
) {
    let wanted = plain_at(rt, alloc, scene, rows, own, occurrence);
    let at = (own.0, number);
    holds(rt, finds_just_taken(rt, alloc, scene, at, guest, &wanted));
    if own != scene.store.next() {
        holds(rt, finds_just_own(rt, alloc, scene, at, &wanted));
    }
}

/// At each occurrence of its symbol.
fn assert_same_at(
    rt: &impl Abort,
    alloc: Global,
    scene: &Scene<Global>,
    guest: Id,
    rows: &[(Id, Row)],
    (own, sym): (Id, Sym),
) {
    for number in 1..8u32 {
        match scene.program.occurrence(sym, number) {
            None => return,
            Some(occurrence) => {
                let at = (own, number);
                assert_found(rt, alloc, scene, guest, rows, at, occurrence);
            }
        }
    }
}

/// For the guest, which has the next identity, if there is one.
fn assert_same_guest(
    rt: &impl Abort,
    alloc: Global,
    scene: &Scene<Global>,
    guest: Id,
    rows: &[(Id, Row)],
) {
    if let Some((id, row)) = rows.last() {
        if *id == scene.store.next() {
            assert_same_at(rt, alloc, scene, guest, rows, (*id, row.sym));
        }
    }
}

/// For each constraint, and for a guest that is as a random one, which no other search sees.
fn assert_same(rt: &impl Abort, alloc: Global, dice: &mut Dice, scene: &Scene<Global>) {
    let guest = Id(dice.below(MOST));
    let mut rows = rows_of(rt, alloc, scene);
    for (id, row) in rows.as_slice() {
        assert_same_at(rt, alloc, scene, guest, rows.as_slice(), (*id, row.sym));
    }
    push_row(rt, scene, guest, scene.store.next(), &mut rows);
    assert_same_guest(rt, alloc, scene, guest, rows.as_slice());
}

/// As the store is, with a binding, and after a removal.
fn assert_scene(rt: &impl Abort, alloc: Global, dice: &mut Dice, scene: &mut Scene<Global>) {
    for _ in 0..dice.below(4) {
        fire_some(rt, dice, scene);
    }
    assert_same(rt, alloc, dice, scene);
    bind_some(rt, dice, &mut scene.bindings);
    assert_same(rt, alloc, dice, scene);
    remove_some(dice, &mut scene.store);
    assert_same(rt, alloc, dice, scene);
}

/// The searches of a random store.
fn assert_case(rt: &impl Abort, alloc: Global, dice: &mut Dice, program: &str) {
    let text = query_text(rt, alloc, dice);
    let mut scene = scene_of_texts(rt, alloc, (program, text.as_str()));
    assert_scene(rt, alloc, dice, &mut scene);
}

/// Random stores, as a plain search sees them.
#[test]
fn as_a_plain_search(rt: HostRuntime) {
    let alloc = rt.alloc();
    let mut dice = Dice { state: 1 };
    for _ in 0..40u64 {
        for program in PROGRAMS {
            assert_case(&rt, alloc, &mut dice, program);
        }
    }
}
