use chr_read::{ReadError, ReadErrorKind, read_program, read_query};
use refusing_alloc::{Refusing, refused_in_turn};
use std::alloc::{Allocator, Global};
use std::process::Abort;

mod checks;

use checks::equal;

/// More than a call that is refused in turn asks for.
const MOST: u64 = 1000;

/// Two directives, a declaration and two rules, with each production of the grammar that takes memory.
const PROGRAM: &str = ":- module(m, [p/1, q/2]). :- use_module(library(chr)).
:- chr_constraint p/1, q/2.
rule @ p(X) # passive, q(X, -1) \\ q([a, b | T], [Y]) <=> X + 1 - Y > 2 * (3 mod 4), true | Z is X // Y, p([]).
p(_) ==> true.";

/// Three items.
const QUERY: &str = "X = f(a, -1, [b, Y | _], [], [c]), 1 + 2 - 3 * (4 // 5 mod Z) =< W, true.";

/// What is answered where a growth was refused.
const REFUSED: ReadError = ReadError {
    kind: ReadErrorKind::Memory,
    line: 0,
    column: 0,
};

/// Whether a text was read, with as many growths as the meter allowed. Then it has that number of parts; else a growth was refused.
fn is_read(
    rt: &impl Abort,
    meter: &Refusing<Global>,
    left: u64,
    answer: Result<usize, ReadError>,
    parts: usize,
) -> bool {
    equal(rt, meter.asked() > left, answer.is_err());
    match answer {
        Ok(read) => equal(rt, read, parts),
        Err(error) => equal(rt, error, REFUSED),
    }
    answer.is_ok()
}

/// Whether `read_program` goes through with `left` growths.
///
/// For any allocator, here and below: proofs for the meter as the allocator would take much longer.
fn is_program_read<M: Allocator + Copy>(
    rt: &impl Abort,
    alloc: M,
    meter: &Refusing<Global>,
    left: u64,
) -> bool {
    meter.allow(left);
    let answer = read_program(alloc, PROGRAM.as_bytes()).map(|program| program.parts.len());
    is_read(rt, meter, left, answer, 5)
}

/// As `is_program_read`, of `read_query`.
fn is_query_read<M: Allocator + Copy>(
    rt: &impl Abort,
    alloc: M,
    meter: &Refusing<Global>,
    left: u64,
) -> bool {
    meter.allow(left);
    let answer = read_query(alloc, QUERY.as_bytes()).map(|query| query.items.len());
    is_read(rt, meter, left, answer, 3)
}

#[test]
fn programs_refused(rt: HostRuntime) {
    let meter = Refusing::new(rt.alloc(), 0);
    let refused = refused_in_turn(MOST, |left| is_program_read(&rt, &meter, &meter, left));
    assert!(&rt; refused > 0 && refused < MOST, "{refused}");
}

#[test]
fn queries_refused(rt: HostRuntime) {
    let meter = Refusing::new(rt.alloc(), 0);
    let refused = refused_in_turn(MOST, |left| is_query_read(&rt, &meter, &meter, left));
    assert!(&rt; refused > 0 && refused < MOST, "{refused}");
}
