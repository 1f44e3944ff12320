//! The allocator that refuses.
use super::*;
use std::alloc::AllocError;
use std::sync::{Mutex, Wait};
use std::thread;
use std::thread::Threads;

fn filled<A: Allocator>(alloc: A, count: u64) -> Result<Vec<u64, A>, AllocError> {
    let mut numbers = Vec::new(alloc);
    for number in 0..count {
        numbers.push(number)?;
    }
    Ok(numbers)
}

/// The sum of the lengths that two threads fill.
fn filled_by_two<R: Threads + Wait + Sync>(rt: &R, memory: &Refusing<Global>) -> u64 {
    let all = Mutex::new(0u64);
    let shared = &all;
    thread::scope(thread::scope_env(), rt, |scope| {
        for _ in 0..2 {
            let started = scope.spawn(move || {
                if let Ok(numbers) = filled(memory, 100) {
                    let mut sum = shared.lock(rt);
                    *sum = sum.saturating_add(numbers.len() as u64);
                }
            });
            let _ = started.is_ok();
        }
    });
    all.into_inner()
}

#[test]
fn refuses_each_in_turn(rt: HostRuntime) {
    let memory = Refusing::new(rt.alloc(), 0);
    let refused = refused_in_turn(100, |left| {
        memory.allow(left);
        let is_filled = filled(&memory, 1000).is_ok();
        if !is_filled {
            let counts = (memory.left(), memory.asked());
            equal(&rt, counts, (0, left.saturating_add(1)));
        }
        is_filled
    });
    assert!(rt; refused > 3 && refused < 30, "{refused}");
}

#[test]
fn counts_what_was_asked(rt: HostRuntime) {
    let memory = Refusing::new(rt.alloc(), 100);
    holds(&rt, filled(&memory, 1000).is_ok());
    let growths = memory.asked();
    holds(&rt, growths > 3);
    holds(&rt, growths < 30);
    // A block given back is no growth.
    equal(&rt, memory.left().saturating_add(growths), 100);
    memory.allow(0);
    equal(&rt, memory.asked(), 0);
    holds(&rt, filled(&memory, 1).is_err());
    holds(&rt, filled(&memory, 1).is_err());
    equal(&rt, memory.asked(), 2);
}

#[test]
fn threads_share_it(rt: HostRuntime) {
    let memory = Refusing::new(rt.alloc(), 1000);
    equal(&rt, filled_by_two(&rt, &memory), 200);
    memory.allow(0);
    equal(&rt, filled_by_two(&rt, &memory), 0);
    equal(&rt, memory.asked(), 2);
}
