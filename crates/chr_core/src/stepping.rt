//! Steps.
ghost use Rattle.std.specs.Prelude.{◌≡◌, ◌<◌, IfOk, OnErr, OnOk, vec_capacity, vec_len};
ghost use Rattle.chr_find.specs.SnapshotView.{task_view};
ghost use Rattle.chr_machine.specs.MachineView.{IsDue, Steps};
ghost use Rattle.chr_machine.specs.NeedView.{need_view, plain, search_of};
ghost use Rattle.chr_schedule.specs.EventView.{events_view};
ghost use Rattle.chr_core.specs.CoreView.{stepped_events};
ghost use Rattle.chr_core.specs.Stepping.{steps_in};

use crate::Memory;
use crate::run_core::Core;
use chr_find::Task;
use chr_machine::{Need, Stepped};
use chr_schedule::Event;
use chr_semantics::limits::MAX_TRANSITIONS;
use chr_shelf::RunName;
use std::alloc::Allocator;

/// Appends the event of a step, for which room was made: Ended and Spent are none. How many Steps that makes.
fn note_step<A: Allocator>(events: &mut Vec<Event, A>, stepped: Stepped) -> u64
    requires { vec_len events.old < vec_capacity events.old }
    ensures events { events_view events.new.items ≡ stepped_events stepped (events_view events.old.items) }
    ensures made { result ≡ steps_in stepped }
{
    match stepped {
        Stepped::Moved => {
            events.push_reserved(Event::Step);
            1
        }
        Stepped::Ended | Stepped::Spent => 0,
    }
}

impl<'p, J: RunName, A: Allocator + Copy> Core<'p, J, A> {
    ghost use Rattle.chr_core.specs.CoreView.{IsAsBefore, core_in, events_of, machine_in, places_of, query_of, start_of, stepped_events};
    ghost use Rattle.chr_core.specs.Rooms.{HasEventRoom};
    ghost use Rattle.chr_core.specs.Serving.{NoneServes, ServesAt};
    ghost use Rattle.chr_core.specs.Stepping.{IsReadyFor, IsStep};

    /// Makes room for the event of a step.
    pub(crate) fn room_for_step(&mut self) -> Result<(), Memory>
        ensures same { IsAsBefore self.old self.new }
        ensures ok { OnOk result (HasEventRoom self.new) }
    {
        self.events.reserve(1)?;
        Ok(())
    }

    /// A step without a search.
    fn step_plain(&mut self) -> Result<Stepped, Memory>
        requires { IsReadyFor self.old plain }
        ensures { IsStep self.old self.new result }
    {
        let stepped = self.machine.step_plain()?;
        note_step(&mut self.events, stepped);
        Ok(stepped)
    }

    /// A step that makes its search.
    fn step_own(&mut self, task: Task) -> Result<Stepped, Memory>
        requires ready { IsReadyFor self.old (search_of (task_view task)) }
        requires none { NoneServes J.rules (start_of self.old) (core_in self.old) (task_view task) }
        ensures { IsStep self.old self.new result }
    {
        let stepped = self.machine.step()?;
        self.own += note_step(&mut self.events, stepped);
        Ok(stepped)
    }

    /// A step that uses the answer at a position.
    fn step_used(&mut self, task: Task, position: usize) -> Result<Stepped, Memory>
        requires ready { IsReadyFor self.old (search_of (task_view task)) }
        requires serves { ServesAt J.rules (start_of self.old) (core_in self.old) (task_view task) position }
        ensures { IsStep self.old self.new result }
    {
        let stepped = self.machine.step_answered(self.answers.ids(position))?;
        self.used += note_step(&mut self.events, stepped);
        Ok(stepped)
    }

    /// The step that the machine needs, for which room was made.
    fn step_needed(&mut self, need: Need) -> Result<Stepped, Memory>
        requires { IsReadyFor self.old (need_view need) }
        ensures { IsStep self.old self.new result }
    {
        match need {
            Need::Ended => Ok(Stepped::Ended),
            Need::Plain => self.step_plain(),
            Need::Search(task) => match self.serving(task) {
                None => self.step_own(task),
                Some(position) => self.step_used(task, position),
            },
        }
    }

    /// Makes one transition, as the machine does. Where it needs a search and a kept answer serves, that is used, and no search is made.
    /// Moved is an event. Ended, Spent and Memory, which only a transition that is due can want, leave all as before, but that room may have
    /// been made.
    pub fn step(&mut self) -> Result<Stepped, Memory>
        ensures machine { IfOk result (λ stepped. Steps stepped (machine_in self.old) (machine_in self.new)) }
        ensures events { IfOk result
            (λ stepped. events_of self.new ≡ stepped_events stepped (events_of self.old)) }
        ensures query { query_of self.new ≡ query_of self.old }
        ensures places { places_of self.new ≡ places_of self.old }
        ensures err { OnErr result (IsAsBefore self.old self.new) }
        ensures due { OnErr result (IsDue (machine_in self.old)) }
    {
        let need = self.machine.top();
        if need == Need::Ended {
            return Ok(Stepped::Ended);
        }
        if self.machine.steps() >= MAX_TRANSITIONS {
            return Ok(Stepped::Spent);
        }
        self.room_for_step()?;
        self.step_needed(need)
    }
}
