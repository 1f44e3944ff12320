//! A step, and a run.
ghost use Rattle.std.specs.Prelude.{◌≡◌, IfOk, OnErr};
ghost use Rattle.chr_semantics.specs.Bounds.{IsQueryBounded};
ghost use Rattle.chr_rules.specs.ProgramView.{names_of, rules_of};
ghost use Rattle.chr_rules.specs.RuleView.{query_view};
ghost use Rattle.chr_machine.specs.Answering.{AnswersStep};
ghost use Rattle.chr_machine.specs.MachineView.{IsRefused, Runs, Starts, Steps};
ghost use Rattle.chr_machine.specs.Model.{model_of};
ghost use Rattle.chr_machine.specs.Step.{IsSteady};

use crate::course::Course;
use crate::execution::Execution;
use crate::search_answer::SearchAnswer;
use crate::stack::put_goals;
use crate::stepped::Stepped;
use chr_rules::{Program, Query};
use chr_semantics::limits::MAX_TRANSITIONS;
use chr_term::Memory;
use chr_trace::Status;
use std::alloc::Allocator;

impl<'p, A: Allocator + Copy> Execution<'p, A> {
    /// The state of a query before its first transition.
    pub fn start(
        alloc: A,
        program: &'p Program<A>,
        query: Query<A>,
    ) -> Result<Execution<'p, A>, Memory>
        requires { IsQueryBounded (query_view query) }
        ensures starts { IfOk result (λ execution. Starts (names_of program.now) (rules_of program.now)
            (query_view query) (model_of execution)) }
        ensures steady { IfOk result (λ execution. IsSteady execution) }
    {
        // That its rules are bounded is known by this call.
        let _rules = program.rules();
        let Query { goals, var_names } = query;
        let mut stack = Vec::with_capacity(alloc, goals.len())?;
        put_goals(&mut stack, goals);
        let mut execution = Execution {
            stack,
            status: Status::Running,
            course: Course::new(alloc, program, var_names)?,
        };
        execution.settle();
        Ok(execution)
    }

    /// Makes one transition, or answers that the run has ended or that the limit stands. Where it needs a search, it makes one, unless the
    /// answer is known. Memory, which only a transition that is due can want, leaves everything as before.
    pub fn step(&mut self, answer: &SearchAnswer) -> Result<Stepped, Memory>
        requires steady { IsSteady self.old }
        requires answer { AnswersStep (model_of self.old) answer.now }
        ensures ok { IfOk result (λ stepped. Steps stepped (model_of self.old) (model_of self.new)) }
        ensures err { OnErr result (IsRefused (model_of self.old) (model_of self.new)) }
        ensures steady { IsSteady self.new }
    {
        match self.status {
            Status::Done => Ok(Stepped::Ended),
            Status::Failed => Ok(Stepped::Ended),
            Status::Faulted(_) => Ok(Stepped::Ended),
            Status::Running => {
                if self.course.steps >= MAX_TRANSITIONS {
                    return Ok(Stepped::Spent);
                }
                self.step_top(answer)?;
                Ok(Stepped::Moved)
            }
        }
    }

    /// Makes n transitions, or fewer where the run ends or the limit stands. Memory leaves the whole steps before it.
    pub fn run_alone(&mut self, n: u64) -> Result<Stepped, Memory>
        requires { IsSteady self.old }
        ensures runs { Runs result n (model_of self.old) (model_of self.new) }
        ensures steady { IsSteady self.new }
    {
        let mut made = 0;
        while made < n {
            match self.step(&SearchAnswer::Missing) {
                Err(error) => return Err(error),
                Ok(Stepped::Moved) => made += 1,
                Ok(Stepped::Ended) => return Ok(Stepped::Ended),
                Ok(Stepped::Spent) => return Ok(Stepped::Spent),
            }
        }
        match self.status {
            Status::Running => Ok(Stepped::Moved),
            Status::Done => Ok(Stepped::Ended),
            Status::Failed => Ok(Stepped::Ended),
            Status::Faulted(_) => Ok(Stepped::Ended),
        }
    }
}
