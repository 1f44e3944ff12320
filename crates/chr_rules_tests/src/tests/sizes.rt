//! Long texts.
use super::*;
use std::sync::Wait;
use std::thread;
use std::thread::Threads;

const COUNT: usize = 70_000;

/// A query of one list of COUNT different elements, each a letter with its number.
fn list_of(rt: &impl Abort, alloc: Global, letter: &str) -> String {
    let mut text = got(rt, String::from_str(alloc, "p(["));
    for number in 1..COUNT {
        let element = got(rt, format!(in alloc; "{letter}{number},"));
        got(rt, text.push_str(&element));
    }
    let last = got(rt, format!(in alloc; "{letter}0])."));
    got(rt, text.push_str(&last));
    text
}

/// More symbols than 16 bits number, and as many variables.
fn are_long(rt: &impl Abort, alloc: Global) {
    for (letter, names, vars) in [("n", COUNT + 8, 0), ("V", 8, COUNT)] {
        let text = list_of(rt, alloc, letter);
        let (program, query) = got(rt, both_of(alloc, ":- chr_constraint p/1.", &text));
        equal(rt, (query.goals.len(), query.var_names.len()), (1, vars));
        equal(rt, program.names().len(), names);
    }
}

/// Bytes of the stack that long terms are dropped on, by recursion along them.
const STACK: usize = 0x1000_0000;

fn are_long_apart<R: Threads + Wait + Abort + Sync>(rt: &R, alloc: Global) {
    thread::scope(thread::scope_env(), rt, |scope| {
        let large = thread::Builder::new().stack_size(STACK);
        let started = large.spawn_scoped(scope, || are_long(rt, alloc));
        got(rt, started).join(rt);
    });
}

#[test]
fn long_texts(rt: HostRuntime) {
    are_long_apart(&rt, rt.alloc());
}
