//! Runs by the calls of a machine.
use super::*;

/// Calls a machine at its start, and until it has ended.
pub(super) fn play<A: Allocator + Copy>(rt: &impl Abort, machine: &mut Machine<A>) {
    holds(rt, machine.top() == Need::Plain);
    equal(rt, got(rt, step(machine)), Stepped::Moved);
    holds(rt, machine.top() == Need::Search(task(1, 1)));
    equal(rt, got(rt, run_alone(machine, 100)), Stepped::Ended);
    holds(rt, machine.status() == Status::Done);
    equal(rt, machine.steps(), 7);
    equal(rt, got(rt, step(machine)), Stepped::Ended);
    assert_lines(rt, machine, GROUND_RULE.text);
}

#[test]
fn machine_calls(rt: HostRuntime) {
    let texts = (GROUND_RULE.program, GROUND_RULE.query);
    follow_anew(&rt, &lists_of(rt.alloc()), texts, Script::Calls);
}

const NO_RULES: &str = ":- chr_constraint p/1, q/1, p/0.";

/// So many times `p`, in as short a text as can be.
fn many(rt: &impl Abort, alloc: Global, count: usize) -> String {
    let mut text = got(rt, String::from_str(alloc, "p"));
    for _ in 1..count {
        got(rt, text.push_str(",p"));
    }
    got(rt, text.push_str("."));
    text
}

/// No further transition is made, and the machine stands where a million left it.
pub(super) fn assert_spent<A: Allocator + Copy>(rt: &impl Abort, machine: &mut Machine<A>) {
    equal(rt, got(rt, run_alone(machine, 1_048_576)), Stepped::Spent);
    equal(rt, got(rt, step(machine)), Stepped::Spent);
    equal(rt, got(rt, run_alone(machine, 0)), Stepped::Moved);
    holds(rt, machine.status() == Status::Running);
    equal(rt, machine.steps(), 1_000_000);
    equal(rt, machine.stack().len(), 24_288);
    equal(rt, machine.lines().len(), 1_000_000);
    equal(rt, machine.store().next().0, 500_001);
}

/// The longest text of a query has more than a million transitions.
#[test]
fn a_million_transitions(rt: HostRuntime) {
    let text = many(&rt, rt.alloc(), 524_288);
    follow_anew(
        &rt,
        &lists_of(rt.alloc()),
        (NO_RULES, text.as_str()),
        Script::Spent,
    );
}

/// The first symbol that a program declares, after the seven that each program has.
const FIRST: u32 = 7;

/// How often the first symbols of the program were touched after these transitions, and how often its first rule was.
pub(super) fn assert_touches<A: Allocator + Copy>(
    rt: &impl Abort,
    machine: &mut Machine<A>,
    transitions: u64,
    (symbols, rule): (&[u64], u64),
) {
    got(rt, run_alone(machine, transitions));
    let mut number = FIRST;
    for touches in symbols {
        equal(rt, machine.store().stamp(Sym(number)), *touches);
        number = number.saturating_add(1);
    }
    equal(rt, machine.history().stamp(0), rule);
}

const DUPLICATE: (&str, &str) = (
    ":- chr_constraint p/1. dup @ p(X) \\ p(X) <=> true.",
    "p(1), p(1).",
);

const COMPARED: (&str, &str) = (NO_RULES, "p(1), q(X), 1 < 2, X = X, X = a.");

const BINDING_TOUCHES: (&str, &str) = (
    ":- chr_constraint p/1, go/1, o/0.
a @ go(Y) ==> Y = 1.
r @ go(Z), p(1) # passive ==> o.
",
    "p(Y), go(Y).",
);

/// What the transitions of a run touch, as the stamps of its store and its history show it: two Activates and a removal touch p; neither a
/// comparison nor an equation that binds nothing touches q; and of `binding_touches` the Solve in step 5 touches p and go.
#[test]
fn touch_counts(rt: HostRuntime) {
    let lists = lists_of(rt.alloc());
    for (texts, script) in [
        (DUPLICATE, Script::Touches(100, &[3], 1)),
        (COMPARED, Script::Touches(100, &[1, 2], 0)),
        (BINDING_TOUCHES, Script::Touches(4, &[1, 1, 0], 1)),
        (BINDING_TOUCHES, Script::Touches(5, &[2, 2, 0], 1)),
        (BINDING_TOUCHES, Script::Touches(100, &[2, 2, 1], 1)),
    ] {
        follow_anew(&rt, &lists, texts, script);
    }
}
