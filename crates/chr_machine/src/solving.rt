//! What a Solve does below the stack: equations are told, values compared, and the run ends.
ghost use Rattle.std.specs.Prelude.{◌≡◌, ◌<◌, IfOk, OnErr, OnOk};
ghost use Rattle.chr_semantics.specs.Bounds.{IsBelow};
ghost use Rattle.chr_semantics.specs.Changes.{woken};
ghost use Rattle.chr_semantics.specs.State.{goal as goal_element};
ghost use Rattle.chr_semantics.specs.Subst.{apply};
ghost use Rattle.chr_semantics.specs.Trace.{solve_line};
ghost use Rattle.chr_semantics.specs.Tree.{Tree};
ghost use Rattle.chr_semantics.specs.Value.{value as value_in};
ghost use Rattle.chr_semantics.specs.declared.limits.TheConstants.{MAX_TRANSITIONS};
ghost use Rattle.chr_bind.specs.Comparison.{comparison_view};
ghost use Rattle.chr_bind.specs.Values.{value_view};
ghost use Rattle.chr_rules.specs.RuleView.{builtin_view, goal_view};
ghost use Rattle.chr_store.specs.Numbers.{numbers};
ghost use Rattle.chr_term.specs.TermView.{view};
ghost use Rattle.chr_trace.specs.State.{status_view};
ghost use Rattle.chr_base.specs.BaseView.{base_view};
ghost use Rattle.chr_base.specs.Told.{IsTold};
ghost use Rattle.chr_machine.specs.Model.{course_of, line_in, logged};
ghost use Rattle.chr_machine.specs.Solving.{AreValues, CanSolve, Compares, Evaluates, SolvesGoal, Tells, kind_view, shown};
ghost use Rattle.chr_machine.specs.Stack.{IsBuiltIn};
ghost use Rattle.chr_machine.specs.Step.{CanMove};

use crate::course::{Course, scribe_of};
use chr_bind::{Comparison, Fault, Unified};
use chr_rules::{Goal, Op};
use chr_store::Id;
use chr_term::{Memory, Term};
use chr_trace::Status;
use std::alloc::Allocator;

/// What came of a Solve: it holds, or the run is to end so.
#[derive(Clone, Copy, Drop)]
pub enum Solved {
    Holds,
    Ends(Status),
}

/// What a built-in does with its sides.
#[derive(Clone, Copy, Drop)]
pub enum Kind {
    Tell,
    Evaluate,
    Compare(Comparison),
}

/// What the built-in of an operator does.
fn kind_of(op: Op) -> Kind
    ensures { (t u : Tree) → builtin_view op t u ≡ kind_view result t u }
{
    match op {
        Op::Unify => Kind::Tell,
        Op::Is => Kind::Evaluate,
        Op::Less => Kind::Compare(Comparison::Less),
        Op::Greater => Kind::Compare(Comparison::Greater),
        Op::AtMost => Kind::Compare(Comparison::AtMost),
        Op::AtLeast => Kind::Compare(Comparison::AtLeast),
        Op::Equals => Kind::Compare(Comparison::Equals),
        Op::Differs => Kind::Compare(Comparison::Differs),
    }
}

impl<'p, A: Allocator + Copy> Course<'p, A> {
    /// Drafts the line of a Solve, by the status that it leads to.
    fn draft_solve(&mut self, goal: &Goal<A>, status: Status) -> Result<(), Memory>
        requires { self.old.steps < MAX_TRANSITIONS }
        ensures same { course_of self.new ≡ course_of self.old }
        ensures base { self.new.base ≡ self.old.base }
        ensures line { OnOk result (self.new.lines.draft ≡ Some (line_in (course_of self.old)
            (solve_line (shown (course_of self.old) (goal_view goal.now)) (status_view status)))) }
    {
        let scribe = scribe_of(&self.base, &self.var_names);
        self.lines
            .draft_solve(&scribe, self.steps + 1, goal, status)
    }

    /// The line of a Solve that changes nothing else below the stack, by the status that it leads to.
    fn write_solve(&mut self, goal: &Goal<A>, status: Status) -> Result<(), Memory>
        requires { self.old.steps < MAX_TRANSITIONS }
        ensures ok { OnOk result (course_of self.new ≡ logged (base_view self.old.base)
            (solve_line (shown (course_of self.old) (goal_view goal.now)) (status_view status)) (course_of self.old)) }
        ensures err { OnErr result (course_of self.new ≡ course_of self.old) }
    {
        self.draft_solve(goal, status)?;
        self.log();
        Ok(())
    }

    /// The line of a Solve that ends the run so.
    fn end(&mut self, goal: &Goal<A>, status: Status) -> Result<Solved, Memory>
        requires { self.old.steps < MAX_TRANSITIONS }
        ensures ends { IfOk result (λ solved. solved ≡ Solved.Ends status) }
        ensures ok { OnOk result (course_of self.new ≡ logged (base_view self.old.base)
            (solve_line (shown (course_of self.old) (goal_view goal.now)) (status_view status)) (course_of self.old)) }
        ensures err { OnErr result (course_of self.new ≡ course_of self.old) }
    {
        self.write_solve(goal, status)?;
        Ok(Solved::Ends(status))
    }

    /// Tells below the stack that two terms are equal. The text that is kept may be another one then.
    fn bind(&mut self, left: &Term<A>, right: &Term<A>, ids: &[Id]) -> Result<Unified, Memory>
        requires can { CanSolve (course_of self.old) (numbers ids.now) }
        requires left { IsBelow (base_view self.old.base).next_var (view left.now) }
        requires right { IsBelow (base_view self.old.base).next_var (view right.now) }
        ensures told { IfOk result
            (λ unified. IsTold (view left.now) (view right.now) (numbers ids.now) unified
            (base_view self.old.base) (base_view self.new.base)) }
        ensures course { course_of self.new ≡ record (course_of self.old) { base = base_view self.new.base } }
        ensures lines { self.new.lines ≡ self.old.lines }
        ensures err { OnErr result (base_view self.new.base ≡ base_view self.old.base) }
    {
        self.shown.is_right = false;
        self.base.tell(left, right, ids)
    }

    /// Tells that two terms are equal, for a goal that says so.
    fn tell(
        &mut self,
        goal: &Goal<A>,
        left: &Term<A>,
        right: &Term<A>,
        ids: &[Id],
    ) -> Result<Solved, Memory>
        requires can { CanSolve (course_of self.old) (numbers ids.now) }
        requires left { IsBelow (base_view self.old.base).next_var (view left.now) }
        requires right { IsBelow (base_view self.old.base).next_var (view right.now) }
        ensures ok { IfOk result (λ solved. Tells (goal_view goal.now) (course_of self.old) solved
            (course_of self.new) (view left.now) (view right.now)) }
        ensures err { OnErr result (course_of self.new ≡ course_of self.old) }
    {
        self.draft_solve(goal, Status::Running)?;
        match self.bind(left, right, ids)? {
            Unified::Clash => self.end(goal, Status::Failed),
            Unified::Same | Unified::Bound => {
                self.log();
                Ok(Solved::Holds)
            }
        }
    }

    /// The value of a term with the bindings applied.
    fn value_of(&self, term: &Term<A>) -> Result<i128, Fault>
        ensures { value_view result
            ≡ value_in (apply (base_view self.now.base).subst (view term.now)) }
    {
        self.base.bindings().value(term)
    }

    /// `is`: the right side is evaluated, and its value told.
    fn evaluate(
        &mut self,
        goal: &Goal<A>,
        left: &Term<A>,
        right: &Term<A>,
        ids: &[Id],
    ) -> Result<Solved, Memory>
        requires can { CanSolve (course_of self.old) (numbers ids.now) }
        requires left { IsBelow (base_view self.old.base).next_var (view left.now) }
        ensures ok { IfOk result (λ solved. Evaluates (goal_view goal.now) (course_of self.old) solved
            (course_of self.new) (view left.now) (view right.now)) }
        ensures err { OnErr result (course_of self.new ≡ course_of self.old) }
    {
        match self.value_of(right) {
            Err(fault) => self.end(goal, Status::Faulted(fault)),
            Ok(number) => {
                let right = Term::Int(number);
                self.tell(goal, left, &right, ids)
            }
        }
    }

    /// The values of both sides, the left one first.
    fn values(&self, left: &Term<A>, right: &Term<A>) -> Result<(i128, i128), Fault>
        ensures { AreValues (base_view self.now.base).subst (view left.now) (view right.now) result }
    {
        match self.value_of(left) {
            Err(fault) => Err(fault),
            Ok(left) => match self.value_of(right) {
                Err(fault) => Err(fault),
                Ok(right) => Ok((left, right)),
            },
        }
    }

    /// A comparison of the values of both sides, which binds nothing.
    fn compare(
        &mut self,
        goal: &Goal<A>,
        comparison: Comparison,
        left: &Term<A>,
        right: &Term<A>,
    ) -> Result<Solved, Memory>
        requires { self.old.steps < MAX_TRANSITIONS }
        ensures ok { IfOk result (λ solved. Compares (goal_view goal.now) (course_of self.old) solved
            (course_of self.new) (comparison_view comparison) (view left.now) (view right.now)) }
        ensures err { OnErr result (course_of self.new ≡ course_of self.old) }
    {
        match self.values(left, right) {
            Err(fault) => self.end(goal, Status::Faulted(fault)),
            Ok((left, right)) => {
                if !comparison.holds(left, right) {
                    return self.end(goal, Status::Failed);
                }
                self.write_solve(goal, Status::Running)?;
                Ok(Solved::Holds)
            }
        }
    }

    /// What comes of the built-in with these sides, which is the goal.
    fn attempt(
        &mut self,
        goal: &Goal<A>,
        op: Op,
        left: &Term<A>,
        right: &Term<A>,
        ids: &[Id],
    ) -> Result<Solved, Memory>
        requires can { CanSolve (course_of self.old) (numbers ids.now) }
        requires left { IsBelow (base_view self.old.base).next_var (view left.now) }
        requires right { IsBelow (base_view self.old.base).next_var (view right.now) }
        requires goal { goal_view goal.now ≡ builtin_view op (view left.now) (view right.now) }
        ensures ok { IfOk result (λ solved. SolvesGoal (goal_view goal.now) (course_of self.old) solved
            (course_of self.new)) }
        ensures err { OnErr result (course_of self.new ≡ course_of self.old) }
    {
        match kind_of(op) {
            Kind::Tell => self.tell(goal, left, right, ids),
            Kind::Evaluate => self.evaluate(goal, left, right, ids),
            Kind::Compare(comparison) => self.compare(goal, comparison, left, right),
        }
    }

    /// Solve: what comes of a built-in, where these constraints have variables still.
    pub fn solve(&mut self, goal: &Goal<A>, ids: &[Id]) -> Result<Solved, Memory>
        requires can { CanMove (course_of self.old) (goal_element (goal_view goal.now)) }
        requires built_in { IsBuiltIn (goal_view goal.now) }
        requires ids { numbers ids.now ≡ woken (base_view self.old.base).store (base_view self.old.base).subst }
        ensures ok { IfOk result (λ solved. SolvesGoal (goal_view goal.now) (course_of self.old) solved
            (course_of self.new)) }
        ensures err { OnErr result (course_of self.new ≡ course_of self.old) }
    {
        match goal {
            Goal::Chr(_, _) => unreachable!(),
            Goal::Told(op, left, right) => self.attempt(goal, *op, left, right, ids),
            Goal::Fail => self.end(goal, Status::Failed),
        }
    }
}
