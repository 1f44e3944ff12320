//! The execution state, and its transitions by the top of the stack.
ghost use Rattle.std.specs.Prelude.{◌≡◌, ◌<◌, OnErr, OnOk, drop, vec_len};
ghost use Rattle.chr_semantics.specs.State.{status_at};
ghost use Rattle.chr_trace.specs.State.{stack_view, status_view};
ghost use Rattle.chr_machine.specs.Answering.{AnswersStep};
ghost use Rattle.chr_machine.specs.Ready.{IsOnTop};
ghost use Rattle.chr_machine.specs.Model.{model_of};
ghost use Rattle.chr_machine.specs.Stack.{HasActive, HasBuiltIn};
ghost use Rattle.chr_machine.specs.Step.{CanStep, IsReady, Made};

use crate::course::Course;
use crate::search_answer::SearchAnswer;
use crate::solving::Solved;
use crate::stack::{drop_top, drop_unless, move_to, put_elems, put_goals, replace_top, top_of};
use crate::turning::{ActiveConstraint, Firing, Turn};
use chr_rules::Goal;
use chr_term::Memory;
use chr_trace::{About, Elem, Status};
use std::alloc::Allocator;

/// The execution state, with the trace. The top of the stack is its last element.
#[derive(Drop)]
pub struct Execution<'p, A: Allocator> {
    pub stack: Vec<Elem<A>, A>,
    pub status: Status,
    pub course: Course<'p, A>,
}

impl<'p, A: Allocator + Copy> Execution<'p, A> {
    /// Says how the run stands by its stack.
    pub fn settle(&mut self)
        ensures status { status_view self.new.status ≡ status_at (stack_view self.old.stack.items) }
        ensures stack { self.new.stack ≡ self.old.stack }
        ensures course { self.new.course ≡ self.old.course }
        ensures ready { IsReady self.new }
    {
        if self.stack.len() == 0 {
            self.status = Status::Done;
        } else {
            self.status = Status::Running;
        }
    }

    /// Simplify or Propagate, which is ready for the active constraint on top: the body goes on the stack, above that constraint or in its
    /// place.
    fn fire(&mut self, firing: Firing<'p, A>) -> Result<(), Memory>
        requires can { CanStep (model_of self.old) }
        requires top { IsOnTop firing self.old }
        ensures ok { OnOk result (Made self.old self.new) }
        ensures err { OnErr result (model_of self.new ≡ model_of self.old) }
    {
        self.stack.reserve(firing.goals.len())?;
        self.course.fire(&firing)?;
        let Firing {
            active,
            ids: _,
            goals,
        } = firing;
        drop_unless(&mut self.stack, active.place < active.rule.kept);
        put_goals(&mut self.stack, goals);
        self.settle();
        Ok(())
    }

    /// Solve: the built-in on top gives way to the constraints that wake, or the run ends.
    fn solve(&mut self) -> Result<(), Memory>
        requires can { CanStep (model_of self.old) }
        requires top { HasBuiltIn (stack_view self.old.stack.items) }
        ensures ok { OnOk result (Made self.old self.new) }
        ensures err { OnErr result (model_of self.new ≡ model_of self.old) }
    {
        let waking = self.course.waking()?;
        self.stack.reserve(waking.elems.len())?;
        let (top, _below) = match top_of(self.stack.as_slice()) {
            None => unreachable!(),
            Some(parts) => parts,
        };
        let solved = match top {
            Elem::Goal(goal) => self.course.solve(goal, waking.ids.as_slice())?,
            Elem::Known(_, _, _) => unreachable!(),
            Elem::Active(_, _, _, _) => unreachable!(),
        };
        match solved {
            Solved::Holds => {
                drop_top(&mut self.stack);
                put_elems(&mut self.stack, waking.elems);
                self.settle();
                Ok(())
            }
            Solved::Ends(status) => {
                self.status = status;
                Ok(())
            }
        }
    }

    /// The transition of a constraint that is active on top. Where it needs a search, it makes one, unless the answer is known.
    fn step_active(&mut self, answer: &SearchAnswer) -> Result<(), Memory>
        requires can { CanStep (model_of self.old) }
        requires top { HasActive (stack_view self.old.stack.items) }
        requires answer { AnswersStep (model_of self.old) answer.now }
        ensures ok { OnOk result (Made self.old self.new) }
        ensures err { OnErr result (model_of self.new ≡ model_of self.old) }
    {
        let (top, _below) = match top_of(self.stack.as_slice()) {
            None => unreachable!(),
            Some(parts) => parts,
        };
        let active = match top {
            Elem::Active(id, occurrence, sym, args) => ActiveConstraint {
                id: *id,
                occurrence: *occurrence,
                sym: *sym,
                args,
            },
            Elem::Known(_, _, _) => unreachable!(),
            Elem::Goal(_) => unreachable!(),
        };
        let turn = self.course.turn(&active, answer)?;
        match turn {
            Turn::Drops => {
                drop_top(&mut self.stack);
                self.settle();
                Ok(())
            }
            Turn::Defaults(number) => {
                move_to(&mut self.stack, number);
                Ok(())
            }
            Turn::Fires(firing) => self.fire(firing),
        }
    }

    /// The transition of the top. Where it needs a search, it makes one, unless the answer is known.
    pub fn step_top(&mut self, answer: &SearchAnswer) -> Result<(), Memory>
        requires can { CanStep (model_of self.old) }
        requires some { 0 < vec_len self.old.stack }
        requires answer { AnswersStep (model_of self.old) answer.now }
        ensures ok { OnOk result (Made self.old self.new) }
        ensures err { OnErr result (model_of self.new ≡ model_of self.old) }
    {
        let (top, _below) = match top_of(self.stack.as_slice()) {
            None => unreachable!(),
            Some(parts) => parts,
        };
        match top {
            Elem::Active(_, _, _, _) => self.step_active(answer),
            Elem::Known(id, sym, args) => {
                let next = Elem::Active(*id, 1, *sym, args.share()?);
                self.course.write_line(*id, *sym, args, About::Reactivates)?;
                replace_top(&mut self.stack, next);
                Ok(())
            }
            Elem::Goal(goal) => match goal {
                Goal::Chr(sym, args) => {
                    let shared = args.share()?;
                    let sym = *sym;
                    let id = self.course.activate(sym, args)?;
                    replace_top(&mut self.stack, Elem::Active(id, 1, sym, shared));
                    Ok(())
                }
                Goal::Told(_, _, _) => self.solve(),
                Goal::Fail => self.solve(),
            },
        }
    }
}
