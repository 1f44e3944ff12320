//! What a program of one's own does with a session: it asks, and reads each outcome by its types.
use chr_machine::Status;
use chr_read::ReadErrorKind;
use chr_rules::RuleErrorKind;
use chr_term::Sym;
use embedding::{Outcome, Refusal, Session};
use refusing_alloc::{Refusing, refused_in_turn};
use std::alloc::{Allocator, Global};
use std::process::Abort;

mod checks;

use checks::{equal, got, holds};

/// More growths than a call of these tests asks for.
const AMPLE: u64 = 1_000_000;

/// More than a call that is refused in turn asks for.
const MOST: u64 = 1000;

/// More transitions than a run of these tests makes.
const BUDGET: u64 = 1000;

/// The greatest common divisor of some numbers.
const GCD: &str = ":- chr_constraint gcd/1.
zero     @ gcd(0) <=> true.
subtract @ gcd(N) \\ gcd(M) <=> M >= N | L is M-N, gcd(L).";

/// The symbol that `GCD` declares, the first after the seven that each program has.
const DECLARED: Sym = Sym(7);

/// The number in the first constraint that is left, where it is `gcd` over one. A constraint stays as it was told, so its variables are
/// looked up in the bindings.
fn divisor<A: Allocator>(outcome: &Outcome<A>) -> Option<i128> {
    let (_, row) = outcome.store.rows().next()?;
    match row.args.as_slice() {
        [number] if row.sym == DECLARED => outcome.bindings.value(number).ok(),
        _ => None,
    }
}

/// What the session answers to a query: the status, and the divisor that is left.
fn answer<A: Allocator + Copy>(
    session: &mut Session<A>,
    query: &str,
    n: u64,
) -> Result<(Status, Option<i128>), Refusal> {
    let outcome = session.ask(query.as_bytes(), n)?;
    Ok((outcome.status, divisor(&outcome)))
}

/// How many names the program has, with those of the last query.
fn names<A: Allocator + Copy>(session: &Session<A>) -> usize {
    session.program().names().len()
}

/// One session answers query after query. The names of a query go with the next one.
fn ask_in_turn(rt: &impl Abort, session: &mut Session<Global>) {
    let own = names(session);
    for (query, wanted) in [("gcd(4), gcd(6).", 2), ("gcd(9), gcd(6), gcd(12).", 3)] {
        equal(
            rt,
            got(rt, answer(session, query, BUDGET)),
            (Status::Done, Some(wanted)),
        );
        holds(rt, names(session) == own);
    }
    equal(
        rt,
        got(rt, answer(session, "X = new, Y = other(X).", BUDGET)),
        (Status::Done, None),
    );
    holds(rt, names(session).checked_sub(own) == Some(2));
    equal(
        rt,
        got(rt, answer(session, "gcd(5).", 1)),
        (Status::Running, Some(5)),
    );
    holds(rt, names(session) == own);
}

/// A refused question leaves the session as it was.
fn refuse_in_turn(rt: &impl Abort, session: &mut Session<Global>) {
    let unread = answer(session, "gcd(4", BUDGET);
    holds(
        rt,
        matches!(unread, Err(Refusal::Query(error)) if error.kind == ReadErrorKind::Expected),
    );
    let unknown = answer(session, "lcm(4).", BUDGET);
    holds(
        rt,
        matches!(unknown, Err(Refusal::Goals(error)) if error.kind == RuleErrorKind::Undeclared),
    );
    let long = answer(session, "gcd(4).", 1_000_001);
    holds(rt, matches!(long, Err(Refusal::BudgetTooLarge)));
    equal(
        rt,
        got(rt, answer(session, "gcd(4), gcd(6).", BUDGET)),
        (Status::Done, Some(2)),
    );
}

#[test]
fn sessions(rt: HostRuntime) {
    let mut session = got(&rt, Session::new(rt.alloc(), GCD.as_bytes()));
    ask_in_turn(&rt, &mut session);
    refuse_in_turn(&rt, &mut session);
}

/// Whether a session is begun, asked and answers with `left` growths.
///
/// For any allocator: proofs for the meter as the allocator would take much longer.
fn is_answered<M: Allocator + Copy>(
    rt: &impl Abort,
    alloc: M,
    meter: &Refusing<Global>,
    left: u64,
) -> bool {
    meter.allow(AMPLE);
    let mut session = got(rt, Session::new(alloc, GCD.as_bytes()));
    meter.allow(left);
    let answered = answer(&mut session, "gcd(4), gcd(6).", BUDGET);
    let is_refused = meter.asked() > left;
    meter.allow(AMPLE);
    equal(rt, answered.is_err(), is_refused);
    equal(
        rt,
        got(rt, answer(&mut session, "gcd(4), gcd(6).", BUDGET)),
        (Status::Done, Some(2)),
    );
    !is_refused
}

/// Whether a session is begun with `left` growths.
fn is_begun<M: Allocator + Copy>(
    rt: &impl Abort,
    alloc: M,
    meter: &Refusing<Global>,
    left: u64,
) -> bool {
    meter.allow(left);
    let begun = Session::new(alloc, GCD.as_bytes());
    let is_refused = meter.asked() > left;
    meter.allow(AMPLE);
    equal(rt, begun.is_err(), is_refused);
    !is_refused
}

#[test]
fn want_of_memory(rt: HostRuntime) {
    let memory = Refusing::new(rt.alloc(), 0);
    holds(
        &rt,
        refused_in_turn(MOST, |left| is_begun(&rt, &memory, &memory, left)) > 0,
    );
    holds(
        &rt,
        refused_in_turn(MOST, |left| is_answered(&rt, &memory, &memory, left)) > 0,
    );
}
