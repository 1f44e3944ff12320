//! A desk: the tasks that a run has offered, and the answers to them.
ghost use Rattle.std.proofs.Props.{props};
ghost use Rattle.std.specs.Prelude.{◌≡◌, ◌≤◌, ◌+◌, ◌++◌, IfErr, IfNone, IfOk, IfSome, None, OnErr, OnOk, Some, ◌<◌, length, map, true, vec_capacity, vec_len};
ghost use Rattle.chr_semantics.specs.Desk.{after_close, after_drain, answers, holds_slip, next_serial, offer_refusal, offered, open_desk, taken, totals, with_post, without_answer};
ghost use Rattle.chr_semantics.specs.declared.limits.TheConstants.{MAX_OFFERED_TASKS};
ghost use Rattle.chr_shelf.specs.Seat.{index_of, place_of, ticket_of};
ghost use Rattle.chr_board.specs.OfferedView.{offered_view, seat_of, slip_view, totals_view};
ghost use Rattle.chr_board.specs.Errors.{refusal_of};
ghost use Rattle.chr_board.specs.IsDesk.{IsDesk};
ghost use Rattle.chr_board.specs.Picking.{IsNext, IsPicked, pick};
ghost use Rattle.chr_board.specs.Searching.{is_fresh};

use crate::Memory;
use crate::error::BoardError;
use crate::offered_task::{OfferedTask, Phase, count, mark_drained, move_to, push_tasks};
use crate::searches::Searches;
use crate::slip::Slip;
use crate::totals::Totals;
use chr_semantics::limits::MAX_OFFERED_TASKS;
use chr_shelf::{Answer, RunName};
use std::alloc::{Allocator, Global};

/// What a desk hands out.
enum Next {
    /// No task waits.
    Nothing,
    /// The task was given up.
    Stale,
    Fresh(Slip),
}

/// A task that was handed out, where one was, and how many were given up before it.
pub struct Picked {
    pub slip: Option<Slip>,
    pub passed: u32,
}

/// The tasks of a run that were offered to workers, each under a serial of its own, with the answers that were not drained yet. There is room
/// for every answer that may still come, so that handing out and answering take no memory.
#[derive(Drop)]
pub struct Desk<J: RunName, A: Allocator = Global> {
    offered: Vec<OfferedTask, A>,
    /// The tasks with lesser serials do not wait, and the others do.
    next: usize,
    /// How many of them may still get an answer.
    owed: usize,
    /// The serials of those that are posted, in the order of their posts.
    serials: Vec<usize, A>,
    /// Their answers.
    posted: Vec<Answer<J, A>, A>,
    closed: bool,
    ghost is_desk: { IsDesk (offered_view offered.items) next owed serials.items (map seat_of posted.items)
        (vec_capacity serials) (vec_capacity posted) } by { Prim.hlevel props },
}

impl<J: RunName, A: Allocator> Desk<J, A> {
    ghost use Rattle.chr_board.specs.DeskView.{desk_view};

    /// Whether that task is out, as the slip says.
    fn holds(&self, slip: &Slip) -> bool
        ensures { result ≡ holds_slip (desk_view self.now) (slip_view slip.now) }
    {
        match self.offered.get(slip.serial) {
            None => false,
            Some(task) => {
                task.phase == Phase::Out && task.place == slip.place && task.index == slip.index
            }
        }
    }

    /// How far all tasks have come, in numbers.
    pub fn totals(&self) -> Totals
        ensures { totals_view result ≡ totals (desk_view self.now) }
    {
        let offered = self.offered.as_slice();
        let (waiting, given_up) = (
            count(offered, Phase::Waiting),
            count(offered, Phase::GivenUp),
        );
        let (left, drained) = (
            count(offered, Phase::Posted),
            count(offered, Phase::Drained),
        );
        let put = offered.len();
        Totals {
            put: put as u64,
            taken: (put - waiting) as u64,
            posted: (left + drained) as u64,
            given_up: given_up as u64,
            drained: drained as u64,
            waiting: waiting as u64,
            left: left as u64,
        }
    }

    /// Whether it is open, and no task waits.
    pub(crate) fn is_idle(&self) -> bool {
        !self.closed && self.next >= self.offered.len()
    }
}

impl<J: RunName, A: Allocator + Copy> Desk<J, A> {
    ghost use Rattle.chr_board.specs.DeskView.{desk_view};

    /// An open desk without a task.
    pub fn new(alloc: A) -> Desk<J, A>
        ensures { desk_view result ≡ open_desk }
    {
        Desk {
            offered: Vec::new(alloc),
            next: 0,
            owed: 0,
            serials: Vec::new(alloc),
            posted: Vec::new(alloc),
            closed: false,
        }
    }

    /// Why tasks are not taken in, whatever memory there is.
    pub(crate) fn check(&self, tasks: u32) -> Result<(), BoardError>
        ensures ok { OnOk result (offer_refusal (desk_view self.now) tasks ≡ None) }
        ensures few { OnOk result (length (desk_view self.now).serials + tasks ≤ MAX_OFFERED_TASKS) }
        ensures why { IfErr result (λ error. offer_refusal (desk_view self.now) tasks ≡ refusal_of error) }
    {
        if self.closed {
            return Err(BoardError::Closed);
        }
        if tasks as usize > MAX_OFFERED_TASKS - self.offered.len() {
            return Err(BoardError::TooManyTasks);
        }
        Ok(())
    }

    /// Makes room for more tasks, and for their answers.
    fn room(&mut self, tasks: usize) -> Result<(), Memory>
        requires { self.old.owed + tasks ≤ 18446744073709551615 }
        ensures same { desk_view self.new ≡ desk_view self.old }
        ensures fields { (self.new.next ≡ self.old.next) × (self.new.owed ≡ self.old.owed) }
        ensures offered { OnOk result (vec_len self.new.offered + tasks ≤ vec_capacity self.new.offered) }
        ensures serials { OnOk result (length self.new.serials.items + (self.new.owed + tasks) ≤ vec_capacity self.new.serials) }
        ensures posted { OnOk result (length self.new.serials.items + (self.new.owed + tasks) ≤ vec_capacity self.new.posted) }
    {
        let answers = self.owed + tasks;
        self.offered.reserve(tasks)?;
        self.serials.reserve(answers)?;
        self.posted.reserve(answers)?;
        Ok(())
    }

    /// Takes in the tasks of the round at a place, from index 0 on, and answers the serial of the first. After a refusal all is as before.
    pub fn offer(&mut self, place: usize, tasks: u32) -> Result<u64, BoardError>
        ensures ok { OnOk result ((offer_refusal (desk_view self.old) tasks ≡ None)
            × (desk_view self.new ≡ offered (desk_view self.old) place tasks)) }
        ensures first { IfOk result (λ first. first ≡ length (desk_view self.old).serials) }
        ensures err { OnErr result (desk_view self.new ≡ desk_view self.old) }
        ensures why { IfErr result (λ error. offer_refusal (desk_view self.old) tasks ≡ refusal_of error) }
    {
        self.check(tasks)?;
        let first = self.offered.len();
        match self.room(tasks as usize) {
            Err(_) => Err(BoardError::Memory),
            Ok(()) => {
                push_tasks(&mut self.offered, place, tasks);
                self.owed += tasks as usize;
                Ok(first as u64)
            }
        }
    }

    /// Hands out the least serial that waits. There is none where the desk is closed, or no task waits.
    pub fn take(&mut self) -> Option<Slip>
        ensures state { desk_view self.new ≡ taken (desk_view self.old) }
        ensures some { IfSome result (λ slip. next_serial (desk_view self.old) ≡ Some slip.serial) }
        ensures slip { IfSome result (λ slip. holds_slip (desk_view self.new) (slip_view slip) ≡ true) }
        ensures none { IfNone result (next_serial (desk_view self.old) ≡ None) }
    {
        if self.closed {
            return None;
        }
        if self.next >= self.offered.len() {
            return None;
        }
        let serial = self.next;
        let OfferedTask { place, index, .. } = self.offered[serial];
        move_to(&mut self.offered, serial, Phase::Out);
        self.next = serial + 1;
        Some(Slip {
            serial,
            place,
            index,
        })
    }

    /// Hands out the next task, or gives it up where a search for it is not worth while.
    fn take_next(&mut self, searches: &Searches<A>) -> Next
        ensures { IsNext (is_fresh searches.now) (desk_view self.old) (desk_view self.new) result }
    {
        let Some(slip) = self.take() else {
            return Next::Nothing;
        };
        if searches.is_fresh(slip.place, slip.index) {
            return Next::Fresh(slip);
        }
        self.give_up(slip);
        Next::Stale
    }

    /// Hands out the next task for which a search is worth while. Those before it are given up, `most` of them at the most.
    pub(crate) fn take_fresh(&mut self, searches: &Searches<A>, most: u32) -> Picked
        ensures picked { IsPicked (pick (is_fresh searches.now) most (desk_view self.old)) (desk_view self.new) result }
        ensures few { result.passed ≤ most }
        ensures taken { IfSome result.slip (λ slip. result.passed < most) }
    {
        for passed in 0..most {
            match self.take_next(searches) {
                Next::Nothing => return Picked { slip: None, passed },
                Next::Stale => {}
                Next::Fresh(slip) => {
                    return Picked {
                        slip: Some(slip),
                        passed,
                    };
                }
            }
        }
        Picked {
            slip: None,
            passed: most,
        }
    }

    /// Takes the answer to a task that was handed out. Nothing changes where the slip is not one of this desk.
    pub fn post(&mut self, slip: Slip, answer: Answer<J, A>)
        requires place { place_of (ticket_of answer) ≡ (slip_view slip).place }
        requires index { index_of answer ≡ (slip_view slip).index }
        ensures { desk_view self.new ≡ with_post (desk_view self.old) (slip_view slip) answer }
    {
        let held = self.holds(&slip);
        let Slip {
            serial,
            place: _,
            index: _,
        } = slip;
        if held {
            move_to(&mut self.offered, serial, Phase::Posted);
            self.owed -= 1;
            self.serials.push_reserved(serial);
            self.posted.push_reserved(answer);
        }
    }

    /// Takes back a task that was handed out and gets no answer. Nothing changes where the slip is not one of this desk.
    pub fn give_up(&mut self, slip: Slip)
        ensures { desk_view self.new ≡ without_answer (desk_view self.old) (slip_view slip) }
    {
        let held = self.holds(&slip);
        let Slip {
            serial,
            place: _,
            index: _,
        } = slip;
        if held {
            move_to(&mut self.offered, serial, Phase::GivenUp);
            self.owed -= 1;
        }
    }

    /// Appends all answers that are posted, in the order of their posts, and answers their number. After a refusal all is as before.
    pub fn drain(&mut self, into: &mut Vec<Answer<J, A>, A>) -> Result<usize, Memory>
        ensures ok { OnOk result ((into.new.items ≡ into.old.items ++ answers (desk_view self.old))
            × (desk_view self.new ≡ after_drain (desk_view self.old))) }
        ensures count { IfOk result (λ count. count ≡ length (desk_view self.old).posts) }
        ensures err { OnErr result ((into.new.items ≡ into.old.items) × (desk_view self.new ≡ desk_view self.old)) }
    {
        let count = self.posted.len();
        into.append(&mut self.posted)?;
        mark_drained(&mut self.offered, self.serials.as_slice());
        self.serials.clear();
        Ok(count)
    }

    /// Closes it: no task is handed out from here on, and none is taken in.
    pub fn close(&mut self)
        ensures { desk_view self.new ≡ after_close (desk_view self.old) }
    {
        self.closed = true;
    }
}
