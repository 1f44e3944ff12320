//! A desk that threads share.
ghost use Rattle.std.specs.Prelude.{◌≡◌, ◌≤◌, ◌<◌, IfOk, IfSome, OnErr};
ghost use Rattle.chr_shelf.specs.Seat.{index_of, place_of, ticket_of};
ghost use Rattle.chr_board.specs.Drained.{HasMore};
ghost use Rattle.chr_board.specs.OfferedView.{slip_view};

use crate::Memory;
use crate::desk::{Desk, Picked};
use crate::error::BoardError;
use crate::searches::{RoundTask, Searches};
use crate::slip::Slip;
use crate::totals::Totals;
use chr_find::Task;
use chr_shelf::{Answer, RunName};
use std::alloc::{Allocator, Global};
use std::hint::spin_loop;
use std::sync::atomic::{AtomicBool, AtomicU64, Ordering};
use std::sync::{Condvar, Mutex, MutexGuard, Wait};

/// How often a worker that finds no task looks for news before it sleeps: to wake it takes longer than that.
const LOOKS: u32 = 1_000;

/// What a board has behind its lock.
#[derive(Drop)]
struct State<J: RunName, A: Allocator> {
    desk: Desk<J, A>,
    searches: Searches<A>,
    /// How many wait for a task.
    waiting: usize,
}

impl<J: RunName, A: Allocator + Copy> State<J, A> {
    /// Takes in the tasks of a round, which are named.
    fn offer(&mut self, place: usize, tasks: Vec<RoundTask, A>) -> Result<u64, BoardError> {
        let Ok(count) = u32::try_from(tasks.len()) else {
            return Err(BoardError::TooManyTasks);
        };
        self.desk.check(count)?;
        if self.searches.room(tasks.len()).is_err() {
            return Err(BoardError::Memory);
        }
        let first = self.desk.offer(place, count)?;
        self.searches.begin_round(place, tasks);
        Ok(first)
    }

    /// Hands out a task that is worth a search, which begins: its slip, the task itself where it was named, and how many were given up.
    fn take_fresh(&mut self, most: u32) -> (Picked, Option<Task>)
        ensures few { result.0.passed ≤ most }
        ensures taken { IfSome result.0.slip (λ slip. result.0.passed < most) }
    {
        let picked = self.desk.take_fresh(&self.searches, most);
        let task = match &picked.slip {
            None => None,
            Some(slip) => self.searches.task_at(slip.index),
        };
        if let Some(task) = task {
            let _is_noted = self.searches.begin(task).is_ok();
        }
        (picked, task)
    }
}

/// A desk behind a lock, with the searches for its tasks, and a signal for those who wait for a task. Nobody holds the lock while searching.
#[derive(Drop)]
pub struct Board<J: RunName, A: Allocator = Global> {
    state: Mutex<State<J, A>>,
    changed: Condvar,
    /// Counts the offers, and the closing.
    news: AtomicU64,
    /// Whether answers may be posted that were not drained: a drain of nothing needs no lock.
    has_posts: AtomicBool,
    alloc: A,
}

impl<J: RunName, A: Allocator + Copy> Board<J, A> {
    /// An open board without a task.
    pub fn new(alloc: A) -> Board<J, A> {
        Board {
            state: Mutex::new(State {
                desk: Desk::new(alloc),
                searches: Searches::new(alloc),
                waiting: 0,
            }),
            changed: Condvar::new(),
            news: AtomicU64::new(0),
            has_posts: AtomicBool::new(false),
            alloc,
        }
    }

    /// Tells those who look for news that there is some.
    fn tell(&self) {
        let _before = self.news.fetch_add(1, Ordering::SeqCst);
    }

    /// Looks for news for a while.
    fn look_out(&self, seen: u64) {
        for _ in 0..LOOKS {
            if self.news.load(Ordering::SeqCst) != seen {
                return;
            }
            spin_loop();
        }
    }

    /// `Desk::offer`, which wakes those who wait for a task. Nothing is known of the tasks, so that each is worth a search.
    pub fn offer(&self, rt: &impl Wait, place: usize, tasks: u32) -> Result<u64, BoardError> {
        let mut state = self.state.lock(rt);
        let first = state.desk.offer(place, tasks)?;
        state.searches.begin_round(place, Vec::new(self.alloc));
        drop(state);
        self.tell();
        self.changed.notify_all();
        Ok(first)
    }

    /// `Desk::offer` of these tasks, from index 0 on. It wakes as many of those who wait as there are tasks that are worth a search.
    pub fn offer_round(
        &self,
        rt: &impl Wait,
        place: usize,
        tasks: Vec<RoundTask, A>,
    ) -> Result<u64, BoardError> {
        let mut state = self.state.lock(rt);
        let first = state.offer(place, tasks)?;
        let wanted = state.searches.fresh_tasks().min(state.waiting);
        drop(state);
        self.tell();
        for _ in 0..wanted {
            self.changed.notify_one();
        }
        Ok(first)
    }

    /// The lock, once a task waits or the board is closed.
    fn wait<'b>(&'b self, rt: &impl Wait) -> MutexGuard<'b, State<J, A>> {
        let seen = self.news.load(Ordering::SeqCst);
        let state = self.state.lock(rt);
        if !state.desk.is_idle() {
            return state;
        }
        drop(state);
        self.look_out(seen);
        let mut state = self.state.lock(rt);
        state.waiting = state.waiting.saturating_add(1);
        let mut state = self
            .changed
            .wait_while(rt, state, |state| state.desk.is_idle());
        state.waiting = state.waiting.saturating_sub(1);
        state
    }

    /// `Desk::take`, which waits for a task. There is none once the board is closed.
    pub fn take_task(&self, rt: &impl Wait) -> Option<Slip> {
        self.wait(rt).desk.take()
    }

    /// `Desk::take_fresh`, which waits for a task: its slip, and the task itself where it was named. With no slip and none given up, the board
    /// is closed, or `most` is 0.
    pub fn take_fresh(&self, rt: &impl Wait, most: u32) -> (Picked, Option<Task>)
        ensures few { result.0.passed ≤ most }
        ensures taken { IfSome result.0.slip (λ slip. result.0.passed < most) }
    {
        self.wait(rt).take_fresh(most)
    }

    /// `Desk::post`.
    pub fn post(&self, rt: &impl Wait, slip: Slip, answer: Answer<J, A>)
        requires place { place_of (ticket_of answer) ≡ (slip_view slip).place }
        requires index { index_of answer ≡ (slip_view slip).index }
    {
        let mut state = self.state.lock(rt);
        state.desk.post(slip, answer);
        self.has_posts.store(true, Ordering::SeqCst);
    }

    /// `Desk::give_up`.
    pub fn give_up(&self, rt: &impl Wait, slip: Slip) {
        self.state.lock(rt).desk.give_up(slip);
    }

    /// `Desk::give_up` of a task whose search had begun, which may begin again.
    pub fn abandon(&self, rt: &impl Wait, slip: Slip, task: Option<Task>) {
        let mut state = self.state.lock(rt);
        if let Some(task) = task {
            state.searches.end(task);
        }
        state.desk.give_up(slip);
    }

    /// `Desk::drain`. The tasks of the answers may be searched again. After a refusal the list is as before.
    pub fn drain(&self, rt: &impl Wait, into: &mut Vec<Answer<J, A>, A>) -> Result<usize, Memory>
        ensures ok { IfOk result (λ count. HasMore count into.old.items into.new.items) }
        ensures err { OnErr result (into.new.items ≡ into.old.items) }
    {
        if !self.has_posts.load(Ordering::SeqCst) {
            return Ok(0);
        }
        let before = into.len();
        let mut state = self.state.lock(rt);
        let count = state.desk.drain(into)?;
        self.has_posts.store(false, Ordering::SeqCst);
        for answer in into.iter().skip(before) {
            state.searches.end(answer.task());
        }
        Ok(count)
    }

    /// The coordinator begins the search for a task, or has ended its own: a worker begins none for that task meanwhile.
    pub fn set_own(&self, rt: &impl Wait, own: Option<Task>) {
        self.state.lock(rt).searches.set_own(own);
    }

    /// `Desk::close`, which wakes those who wait for a task.
    pub fn close(&self, rt: &impl Wait) {
        self.state.lock(rt).desk.close();
        self.tell();
        self.changed.notify_all();
    }

    /// `Desk::totals`.
    pub fn totals(&self, rt: &impl Wait) -> Totals {
        self.state.lock(rt).desk.totals()
    }
}
