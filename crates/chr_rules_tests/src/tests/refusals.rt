//! Each growth of a call refused in turn.
use super::*;

/// More growths than a call of these tests asks for.
const AMPLE: u64 = 1_000_000;

/// More than a call that is refused in turn asks for.
const MOST: u64 = 1000;

/// What is answered where a growth was refused.
const REFUSED: RuleError = RuleError {
    kind: RuleErrorKind::Memory,
    line: 0,
    rule: 0,
};

/// Whether a growth was refused since `left` of them were allowed. From now on memory is ample.
fn was_refused(meter: &Refusing<Global>, left: u64) -> bool {
    let is_refused = meter.asked() > left;
    meter.allow(AMPLE);
    is_refused
}

/// Whether `build` goes through with `left` growths.
///
/// For any allocator, here and below: proofs for the meter as the allocator would take much longer.
fn is_built<M: Allocator + Copy>(
    rt: &impl Abort,
    alloc: M,
    meter: &Refusing<Global>,
    left: u64,
) -> bool {
    meter.allow(AMPLE);
    let syntax = got(rt, read_program(alloc, PROGRAM.as_bytes()));
    meter.allow(left);
    let answer = Program::build(alloc, syntax);
    equal(rt, answer.is_err(), was_refused(meter, left));
    match &answer {
        Ok(program) => assert_program(rt, program),
        Err(error) => equal(rt, *error, REFUSED),
    }
    answer.is_ok()
}

/// Whether `goals_of_query` goes through with `left` growths. A refused one leaves the rules as they were.
fn is_asked<M: Allocator + Copy>(
    rt: &impl Abort,
    alloc: M,
    meter: &Refusing<Global>,
    program: &mut Program<M>,
    left: u64,
) -> bool {
    let syntax = got(rt, read_query(alloc, QUERY.as_bytes()));
    meter.allow(left);
    let answer = program.goals_of_query(syntax);
    equal(rt, answer.is_err(), was_refused(meter, left));
    assert_program(rt, program);
    match &answer {
        Ok(query) => assert_query(rt, query, 4, 2),
        Err(error) => equal(rt, *error, REFUSED),
    }
    answer.is_ok()
}

/// The names of the query are forgotten, and nothing else. The program has `own` names.
fn are_forgotten<M: Allocator>(rt: &impl Abort, program: &mut Program<M>, own: usize) {
    equal(rt, program.names().find("new", 0).is_some(), true);
    program.forget_names(own);
    equal(rt, program.names().find("new", 0), None);
    equal(rt, program.names().len(), own);
    assert_program(rt, program);
}

/// As `is_asked`, over a program of its own. It can be called again.
fn is_asked_anew<M: Allocator + Copy>(
    rt: &impl Abort,
    alloc: M,
    meter: &Refusing<Global>,
    left: u64,
) -> bool {
    meter.allow(AMPLE);
    let mut program = got(rt, program_of(alloc, PROGRAM));
    let own = program.names().len();
    let is_done = is_asked(rt, alloc, meter, &mut program, left);
    holds(rt, is_asked(rt, alloc, meter, &mut program, AMPLE));
    are_forgotten(rt, &mut program, own);
    is_done
}

/// Whether `Query::copy` goes through with `left` growths.
fn is_copied<M: Allocator + Copy>(
    rt: &impl Abort,
    meter: &Refusing<Global>,
    query: &Query<M>,
    left: u64,
) -> bool {
    meter.allow(left);
    let answer = query.copy();
    equal(rt, answer.is_err(), was_refused(meter, left));
    if let Ok(copied) = &answer {
        assert_query(rt, copied, 4, 2);
    }
    answer.is_ok()
}

/// How often it is refused for one query.
fn copies_refused<M: Allocator + Copy>(rt: &impl Abort, alloc: M, meter: &Refusing<Global>) -> u64 {
    meter.allow(AMPLE);
    let (_, query) = got(rt, both_of(alloc, PROGRAM, QUERY));
    refused_in_turn(MOST, |left| is_copied(rt, meter, &query, left))
}

/// The call was refused, and went through in the end.
fn assert_count(rt: &impl Abort, refused: u64) {
    assert!(rt; refused > 0 && refused < MOST, "{refused}");
}

#[test]
fn want_of_memory(rt: HostRuntime) {
    let meter = Refusing::new(rt.alloc(), 0);
    let refused = refused_in_turn(MOST, |left| is_built(&rt, &meter, &meter, left));
    assert_count(&rt, refused);
    let refused = refused_in_turn(MOST, |left| is_asked_anew(&rt, &meter, &meter, left));
    assert_count(&rt, refused);
    assert_count(&rt, copies_refused(&rt, &meter, &meter));
}
