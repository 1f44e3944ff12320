//! Runs whose threads are held at points, so that they meet in a certain order.
use super::marks::Mark;
use super::*;
use std::sync::atomic::{AtomicU64, Ordering};

/// The first transition of `speculation` that needs a search.
const FIRST_OWN: u64 = 2;

/// Which transition had the first own point, and how many holds ended by their turns.
#[derive(Drop)]
struct Watch {
    owns: Mark,
    first: AtomicU64,
    overdue: Mark,
}

impl Watch {
    fn new() -> Watch {
        Watch {
            owns: Mark::new(),
            first: AtomicU64::new(0),
            overdue: Mark::new(),
        }
    }

    /// Notes an own point. Whether it is the first.
    fn is_first(&self, number: u64) -> bool {
        let is_first = self.owns.reach() == 0;
        if is_first {
            self.first.store(number, Ordering::SeqCst);
        }
        is_first
    }

    /// Holds until the mark was reached so often.
    fn hold(&self, mark: &Mark, count: u64) {
        if !mark.hold(count) {
            self.overdue.reach();
        }
    }

    /// The first own point was as it should be, and no hold ended by its turns.
    fn assert_kept(&self, rt: &impl Abort) {
        equal(rt, self.first.load(Ordering::SeqCst), FIRST_OWN);
        equal(rt, self.overdue.count(), 0);
    }
}

/// Holds the first two searches, and the first own point, until two searches have begun.
#[derive(Drop)]
struct Meeting {
    begun: Mark,
    watch: Watch,
}

impl Gate for Meeting {
    fn at(&self, point: Point) {
        match point {
            Point::Begins(_) => {
                if self.begun.reach() < 2 {
                    self.watch.hold(&self.begun, 2);
                }
            }
            Point::Posts(_) => {}
            Point::Own(number) => {
                if self.watch.is_first(number) {
                    self.watch.hold(&self.begun, 2);
                }
            }
        }
    }
}

/// Two workers search at one time, while the run stands at its first own point.
#[test]
fn two_searches_meet(rt: HostRuntime) {
    let gate = Meeting {
        begun: Mark::new(),
        watch: Watch::new(),
    };
    let run = run_of(&rt, rt.alloc(), SPECULATION, 2, &gate);
    gate.watch.assert_kept(&rt);
    holds(&rt, gate.begun.count() >= 2);
    assert_replayed(&rt, rt.alloc(), SPECULATION, &run);
}

/// Holds the first own point until the search for the task of serial 1 has begun.
#[derive(Drop)]
struct Second {
    begun: Mark,
    watch: Watch,
}

impl Gate for Second {
    fn at(&self, point: Point) {
        match point {
            Point::Begins(1) => {
                self.begun.reach();
            }
            Point::Begins(_) => {}
            Point::Posts(_) => {}
            Point::Own(number) => {
                if self.watch.is_first(number) {
                    self.watch.hold(&self.begun, 1);
                }
            }
        }
    }
}

/// The place of the Step of that number, counted from 1.
fn place_of_step(events: &[Event], number: u64) -> Option<usize> {
    let mut steps = 0u64;
    for (place, event) in events.iter().enumerate() {
        if *event == Event::Step {
            steps = steps.saturating_add(1);
            if steps == number {
                return Some(place);
            }
        }
    }
    None
}

/// How many answers are used by the first events of a schedule of `speculation`.
fn used_within<A: Allocator + Copy>(
    rt: &(impl Abort + Wait),
    alloc: A,
    events: &[Event],
    count: usize,
) -> u64 {
    let events = &events[..count.min(events.len())];
    counts_of(rt, alloc, SPECULATION, events).used
}

/// The Step of the first own point uses an answer.
fn assert_used<A: Allocator + Copy>(rt: &(impl Abort + Wait), alloc: A, events: &[Event]) {
    let place = place_of_step(events, FIRST_OWN).expect(rt, "a step");
    let before = used_within(rt, alloc, events, place);
    let with = used_within(rt, alloc, events, place.saturating_add(1));
    equal(rt, with, before.saturating_add(1));
}

/// A worker that begins with its second task has posted the answer to the first.
#[test]
fn an_answer_is_used(rt: HostRuntime) {
    let gate = Second {
        begun: Mark::new(),
        watch: Watch::new(),
    };
    let run = run_of(&rt, rt.alloc(), SPECULATION, 1, &gate);
    gate.watch.assert_kept(&rt);
    assert_used(&rt, rt.alloc(), run.schedule.as_slice());
    assert_replayed(&rt, rt.alloc(), SPECULATION, &run);
}

/// Some of the points.
#[derive(Clone, Copy, Drop)]
enum Points {
    Begins,
    Posts,
    PostOf(u64),
    Owns,
}

impl Points {
    /// Whether the point is one of them.
    fn has(self, point: Point) -> bool {
        match (self, point) {
            (Points::Begins, Point::Begins(_)) => true,
            (Points::Posts, Point::Posts(_)) => true,
            (Points::PostOf(wanted), Point::Posts(serial)) => serial == wanted,
            (Points::Owns, Point::Own(_)) => true,
            _ => false,
        }
    }
}

/// Holds some points until one of others was reached. A hold that ends by its turns ends quietly.
#[derive(Drop)]
struct Hold {
    held: Points,
    until: Points,
    reached: Mark,
}

impl Gate for Hold {
    fn at(&self, point: Point) {
        if self.until.has(point) {
            self.reached.reach();
        }
        if self.held.has(point) {
            self.reached.hold_briefly(1);
        }
    }
}

/// With two workers that are held so, the run gives the text of one thread, and its schedule leads to it.
fn assert_gated<A: Allocator + Copy + Send + Sync, R: Threads + Wait + Abort + Sync>(
    rt: &R,
    alloc: A,
    held: Points,
    until: Points,
) {
    let gate = Hold {
        held,
        until,
        reached: Mark::new(),
    };
    let run = run_of(rt, alloc, SPECULATION, 2, &gate);
    assert_replayed(rt, alloc, SPECULATION, &run);
}

#[test]
fn gated_runs_hold_a_post(rt: HostRuntime) {
    assert_gated(&rt, rt.alloc(), Points::PostOf(0), Points::PostOf(1));
}

#[test]
fn gated_runs_hold_searches(rt: HostRuntime) {
    assert_gated(&rt, rt.alloc(), Points::Begins, Points::Owns);
}

#[test]
fn gated_runs_hold_the_run(rt: HostRuntime) {
    assert_gated(&rt, rt.alloc(), Points::Owns, Points::Posts);
}
