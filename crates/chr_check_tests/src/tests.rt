//! Each growth of a call refused in turn: that the refusal is a growth's, and that the same call then answers.
use chr_check::{Doubt, Language, expected, mistakes, query_mistakes, suspicions};
use chr_term::Memory;
use refusing_alloc::{Refusing, refused_in_turn};
use std::alloc::{Allocator, Global};
use std::process::Abort;

mod checks;

use checks::{equal, got, holds};

/// More growths than a call of these tests asks for.
const AMPLE: u64 = 1_000_000;

/// More than a call that is refused in turn asks for.
const MOST: u64 = 20_000;

/// A symbol is not declared, a test is none, and a rule has the name of another.
const MISTAKEN: &str = ":- chr_constraint edge/2, path/2.
first @ edge(X,Y) ==> pth(X,Y).
first @ path(X,Y) <=> X == Y | true.
first @ path(X,X) <=> true.";

/// Nothing is wrong with it; but a symbol stands nowhere, a variable once, and a rule is tried too late.
const SUSPECT: &str = ":- chr_constraint edge/2, path/2, road/1.
path(X,Y) <=> edge(X,X).
path(X,Y) \\ path(X,Y) <=> true.";

/// A call that is refused in turn.
#[derive(Clone, Copy, Debug, Drop)]
enum Call {
    Mistakes,
    QueryMistakes,
    Expected,
    Suspicions,
}

/// Whether the suspicions are those of the program with a query that makes no `edge`.
fn suspects<A: Allocator + Copy>(alloc: A) -> Result<bool, Memory> {
    let query = "path(1,2).";
    let found = suspicions(alloc, SUSPECT.as_bytes(), Some(query.as_bytes()))?;
    Ok(match found.as_slice() {
        [symbol, variable, rule, ..] => symbol.doubt == Doubt::UnusedSymbol
            && variable.doubt == Doubt::LoneVariable
            && rule.doubt == Doubt::TakenBefore(2),
        _ => false,
    })
}

/// Whether the call answers what is right.
fn answers<A: Allocator + Copy>(alloc: A, call: Call) -> Result<bool, Memory> {
    match call {
        Call::Mistakes => Ok(mistakes(alloc, MISTAKEN.as_bytes())?.len() == 2),
        Call::QueryMistakes => {
            let query = "path(1,2), X \\= 1, edge(1).";
            Ok(query_mistakes(alloc, SUSPECT.as_bytes(), query.as_bytes())?.len() == 2)
        }
        Call::Expected => {
            let front = "path(X,Y) <=>";
            Ok(!expected(alloc, Language::Program, front.as_bytes())?.is_empty())
        }
        Call::Suspicions => suspects(alloc),
    }
}

/// Whether the call goes through with `left` growths. A refused one can be called again.
///
/// For any allocator: proofs for the meter as the allocator would take much longer.
fn is_through<M: Allocator + Copy>(
    rt: &impl Abort,
    alloc: M,
    meter: &Refusing<Global>,
    call: Call,
    left: u64,
) -> bool {
    meter.allow(left);
    let answer = answers(alloc, call);
    equal(rt, meter.asked() > left, answer.is_err());
    meter.allow(AMPLE);
    holds(rt, answer.is_err() || answer == Ok(true));
    answer.is_ok()
}

#[test]
fn want_of_memory(rt: HostRuntime) {
    let meter = Refusing::new(rt.alloc(), 0);
    for call in [
        Call::Mistakes,
        Call::QueryMistakes,
        Call::Expected,
        Call::Suspicions,
    ] {
        let refused = refused_in_turn(MOST, |left| is_through(&rt, &meter, &meter, call, left));
        assert!(&rt; refused > 0 && refused < MOST, "{call:?} {refused}");
        holds(&rt, got(&rt, answers(&meter, call)));
    }
}
