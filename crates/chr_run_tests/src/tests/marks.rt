//! Marks of how often points were reached, at which threads are held.
use std::sync::atomic::{AtomicU64, Ordering};
use std::thread;

/// The turns that a hold lasts at most.
const TURNS: u32 = 1_000_000;

/// How often something was reached.
#[derive(Drop)]
pub(super) struct Mark {
    count: AtomicU64,
}

impl Mark {
    /// Never so far.
    pub(super) fn new() -> Mark {
        Mark {
            count: AtomicU64::new(0),
        }
    }

    /// Counts once more. The number before.
    pub(super) fn reach(&self) -> u64 {
        self.count.fetch_add(1, Ordering::SeqCst)
    }

    /// How often.
    pub(super) fn count(&self) -> u64 {
        self.count.load(Ordering::SeqCst)
    }

    /// Holds until it was reached `count` times, for `turns` turns at most, and answers whether it was.
    pub(super) fn hold_for(&self, count: u64, turns: u32) -> bool {
        for _ in 0..turns {
            if self.count() >= count {
                return true;
            }
            thread::yield_now();
        }
        false
    }

    /// As `hold_for`, for as many turns as a hold lasts at most.
    pub(super) fn hold(&self, count: u64) -> bool {
        self.hold_for(count, TURNS)
    }

    /// As `hold`, for a hold that may well end by its turns. It gives way to other threads at few of them, so that they are over soon.
    pub(super) fn hold_briefly(&self, count: u64) {
        for turn in 0..TURNS {
            if self.count() >= count {
                return;
            }
            if turn % 128 == 0 {
                thread::yield_now();
            }
        }
    }
}
