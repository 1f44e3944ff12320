//! What each transition of a run changes, so that the run can be made again from these alone.
ghost use Rattle.std.specs.Prelude.{◌≡◌, ◌-◌, ◌++◌, ◌∷◌, [], ℕ, IfOk, List, OnOk, Some, cond, length, true};
ghost use Rattle.chr_semantics.specs.Mgu.{vars, vars_of_all};
ghost use Rattle.chr_semantics.specs.Profile.{kind_next, propagate, simplify, solve};
ghost use Rattle.chr_semantics.specs.Program as semantics;
ghost use Rattle.chr_semantics.specs.Effect.{IsEffect, is_held, open_in, sides};
ghost use Rattle.chr_semantics.specs.State.{Element, State, goal, running};
ghost use Rattle.chr_semantics.specs.Step.{step};
ghost use Rattle.chr_semantics.specs.Subst.{IsSolved, apply, binds_var};
ghost use Rattle.chr_term.specs.TermView.{trees_view, view};
ghost use Rattle.chr_rules.specs.RuleView.{goal_view};
ghost use Rattle.chr_trace.specs.State.{elem_view, stack_view};
ghost use Rattle.chr_look.specs.EffectView.{AreNoted, AreOpen, IsBefore, IsReached, IsTold, effect_view, has, values_view};
ghost use Rattle.chr_machine.specs.MachineView.{machine_view};
ghost use Rattle.chr_machine.specs.Model.{state_in};

use crate::Memory;
use crate::kind::Kind;
use crate::log::Sight;
use crate::next::{Next, kind_of, next_of};
use crate::watching::sight_of;
use chr_machine::{Elem, Machine, Status};
use chr_rules::Goal;
use chr_store::Entry;
use chr_term::Term;
use std::alloc::{Allocator, Global};

/// What a transition of a run changed, which stands as it left it.
#[derive(Drop)]
pub enum Effect<'m, A: Allocator = Global> {
    /// The goal on top, a constraint, entered the store and is active.
    Enters,
    /// The constraint on top is active again.
    Wakes,
    /// The active constraint goes on to its next occurrence.
    Passes,
    /// It left the stack.
    Leaves,
    /// A rule fired. The goals of its body stand in the place of the active constraint, or above it where it stays; the last one is topmost.
    Fires {
        entry: &'m Entry<A>,
        goals: &'m [Elem<A>],
        stays: bool,
    },
    /// A built-in holds. Variables got values, and constraints of the store woke, of which the last one is topmost.
    Binds {
        values: Vec<(u64, Term<A>), A>,
        woken: &'m [Elem<A>],
    },
    /// The run ended here.
    Ends(Status),
}

/// Notes the variables of a term, as often as they stand in it.
#[cycle(note)]
fn note_variables<A: Allocator>(term: &Term<A>, found: &mut Vec<u64, A>) -> Result<(), Memory>
    ensures { OnOk result (found.new.items ≡ found.old.items ++ vars (view term.now)) }
{
    match term {
        Term::Var(number) => found.push(*number)?,
        Term::Int(_) => {}
        Term::Node(_, args) => note_all_variables(args.as_slice(), found)?,
    }
    Ok(())
}

#[cycle(note)]
fn note_all_variables<A: Allocator>(
    terms: &[Term<A>],
    found: &mut Vec<u64, A>,
) -> Result<(), Memory>
    ensures { OnOk result (found.new.items ≡ found.old.items ++ vars_of_all (trees_view terms.now)) }
{
    let Some((first, rest)) = terms.split_first() else {
        return Ok(());
    };
    note_variables(first, found)?;
    note_all_variables(rest, found)?;
    Ok(())
}

/// Notes the variables without a value of a term.
fn note_open<A: Allocator + Copy>(
    machine: &Machine<'_, A>,
    term: &Term<A>,
    found: &mut Vec<u64, A>,
) -> Result<(), Memory>
    ensures { OnOk result (found.new.items ≡ found.old.items ++ vars (apply (state_in (machine_view machine.now)).subst (view term.now))) }
{
    let term = machine.bindings().resolve(term)?;
    note_variables(&term, found)?;
    Ok(())
}

/// The variables without a value in both sides of a built-in, in ascending order, as often as they stand there.
fn open_variables<A: Allocator + Copy>(
    alloc: A,
    machine: &Machine<'_, A>,
    left: &Term<A>,
    right: &Term<A>,
) -> Result<Vec<u64, A>, Memory>
    ensures { IfOk result (λ found. (x : ℕ) → has found.items x ≡ has (open_in (state_in (machine_view machine.now)).subst (view left.now ∷ view right.now ∷ [])) x) }
{
    let mut found = Vec::new(alloc);
    note_open(machine, left, &mut found)?;
    note_open(machine, right, &mut found)?;
    found.as_mut_slice().sort(alloc)?;
    Ok(found)
}

/// Those of a goal.
fn open_of_goal<A: Allocator + Copy>(
    alloc: A,
    machine: &Machine<'_, A>,
    goal: &Goal<A>,
) -> Result<Vec<u64, A>, Memory>
    ensures { IfOk result (λ found. (x : ℕ) → has found.items x ≡ has (open_in (state_in (machine_view machine.now)).subst (sides (goal_view goal.now))) x) }
{
    match goal {
        Goal::Told(_, left, right) => open_variables(alloc, machine, left, right),
        Goal::Chr(_, _) => Ok(Vec::new(alloc)),
        Goal::Fail => Ok(Vec::new(alloc)),
    }
}

/// Those of the goal that is an element of a stack.
fn open_of<A: Allocator + Copy>(
    alloc: A,
    machine: &Machine<'_, A>,
    element: &Elem<A>,
) -> Result<Vec<u64, A>, Memory>
    ensures { IfOk result (λ found. (g : semantics.Goal) → elem_view element.now ≡ goal g
        → (x : ℕ) → has found.items x ≡ has (open_in (state_in (machine_view machine.now)).subst (sides g)) x) }
{
    match element {
        Elem::Goal(goal) => open_of_goal(alloc, machine, goal),
        Elem::Known(_, _, _) => Ok(Vec::new(alloc)),
        Elem::Active(_, _, _, _) => Ok(Vec::new(alloc)),
    }
}

/// Those of the goal on top.
fn open_on_top<A: Allocator + Copy>(
    alloc: A,
    machine: &Machine<'_, A>,
) -> Result<Vec<u64, A>, Memory>
    ensures { IfOk result (λ found. (g : semantics.Goal) (rest : List Element) → (state_in (machine_view machine.now)).stack ≡ goal g ∷ rest
        → (x : ℕ) → has found.items x ≡ has (open_in (state_in (machine_view machine.now)).subst (sides g)) x) }
{
    match machine.stack().split_last() {
        None => Ok(Vec::new(alloc)),
        Some((top, _)) => open_of(alloc, machine, top),
    }
}

/// Whether the last value that is noted is that of a variable.
fn is_noted<A: Allocator>(values: &[(u64, Term<A>)], number: u64) -> bool
    ensures { result ≡ true → binds_var (values_view values.now) number ≡ true }
{
    match values.last() {
        None => false,
        Some(last) => last.0 == number,
    }
}

/// Notes the value of a variable, where it has one that is not noted yet.
fn note_value<A: Allocator + Copy>(
    machine: &Machine<'_, A>,
    number: u64,
    values: &mut Vec<(u64, Term<A>), A>,
) -> Result<(), Memory>
    ensures { let s = (state_in (machine_view machine.now)).subst in OnOk result ((seen : List ℕ) → IsSolved s
        → AreNoted s seen (values_view values.old.items) → AreNoted s (seen ++ number ∷ []) (values_view values.new.items)) }
{
    let variable = Term::Var(number);
    if is_noted(values.as_slice(), number) {
        return Ok(());
    }
    if machine.bindings().resolves_to(&variable, &variable) {
        return Ok(());
    }
    values.push((number, machine.bindings().resolve(&variable)?))?;
    Ok(())
}

/// Those of the variables that have a value, each once and with it.
fn values_of<A: Allocator + Copy>(
    alloc: A,
    machine: &Machine<'_, A>,
    numbers: &[u64],
) -> Result<Vec<(u64, Term<A>), A>, Memory>
    ensures { let s = (state_in (machine_view machine.now)).subst in
        IfOk result (λ values. IsSolved s → AreNoted s numbers.now (values_view values.items)) }
{
    let mut values = Vec::new(alloc);
    for number in numbers {
        note_value(machine, *number, &mut values)?;
    }
    Ok(values)
}

/// The elements that stand on a stack above so many.
fn above<A: Allocator>(stack: &[Elem<A>], below: usize) -> &[Elem<A>]
    ensures { (ts rest : List Element) → stack_view stack.now ≡ ts ++ rest → length rest ≡ below → stack_view result.now ≡ ts }
{
    match stack.split_at_checked(below) {
        None => &[],
        Some((_, elements)) => elements,
    }
}

/// How many elements are left of a stack that was so high, where the top stays or not.
fn below(height: usize, stays: bool) -> usize
    ensures { result ≡ cond stays height (height - 1) }
{
    if stays {
        height
    } else {
        height.saturating_sub(1)
    }
}

/// What a firing changed, before which the stack was so high.
fn fired<'m, A: Allocator + Copy>(
    machine: &'m Machine<'_, A>,
    height: usize,
    stays: bool,
) -> Option<Effect<'m, A>>
    ensures { (p : semantics.Program) (s : State) → state_in (machine_view machine.now) ≡ step p s → length s.stack ≡ height
        → kind_next p s ≡ Some (cond stays propagate simplify) → IsTold (λ c. IsEffect p s (effect_view p c)) result }
{
    let goals = above(machine.stack(), below(height, stays));
    match machine.history().list().last() {
        None => None,
        Some(entry) => Some(Effect::Fires {
            entry,
            goals,
            stays,
        }),
    }
}

/// What a built-in changed that holds, before which the stack was so high and these variables had no value.
fn held<'m, A: Allocator + Copy>(
    alloc: A,
    machine: &'m Machine<'_, A>,
    height: usize,
    numbers: &[u64],
) -> Result<Effect<'m, A>, Memory>
    ensures { IfOk result (λ effect. (p : semantics.Program) (s : State) → state_in (machine_view machine.now) ≡ step p s → length s.stack ≡ height
        → IsSolved s.subst → IsSolved (step p s).subst → AreOpen s numbers.now → kind_next p s ≡ Some solve → is_held (step p s).status ≡ true
        → IsEffect p s (effect_view p effect)) }
{
    let woken = above(machine.stack(), below(height, false));
    Ok(Effect::Binds {
        values: values_of(alloc, machine, numbers)?,
        woken,
    })
}

/// What a built-in changed, before which the stack was so high and these variables had no value.
fn told<'m, A: Allocator + Copy>(
    alloc: A,
    machine: &'m Machine<'_, A>,
    height: usize,
    numbers: &[u64],
) -> Result<Effect<'m, A>, Memory>
    ensures { IfOk result (λ effect. (p : semantics.Program) (s : State) → state_in (machine_view machine.now) ≡ step p s → length s.stack ≡ height
        → IsSolved s.subst → IsSolved (step p s).subst → AreOpen s numbers.now → kind_next p s ≡ Some solve → IsEffect p s (effect_view p effect)) }
{
    match machine.status() {
        Status::Failed => Ok(Effect::Ends(Status::Failed)),
        Status::Faulted(fault) => Ok(Effect::Ends(Status::Faulted(fault))),
        Status::Running => held(alloc, machine, height, numbers),
        Status::Done => held(alloc, machine, height, numbers),
    }
}

/// What is seen of a run before a transition, by which is told afterwards what that changed.
#[derive(Drop)]
pub struct Before<A: Allocator = Global> {
    next: Option<Next>,
    sight: Sight,
    /// The variables without a value in the built-in on top, if one is.
    numbers: Vec<u64, A>,
}

impl<A: Allocator + Copy> Before<A> {
    /// Before the next transition of a run. The only error is want of memory.
    pub fn of(alloc: A, machine: &Machine<'_, A>) -> Result<Before<A>, Memory>
        ensures { let m = machine_view machine.now in IfOk result (IsBefore m.rules (state_in m)) }
    {
        Ok(Before {
            next: next_of(machine),
            sight: sight_of(machine),
            numbers: open_on_top(alloc, machine)?,
        })
    }

    /// What the transition changed that was made since, of a run that went on. The only error is want of memory.
    pub fn effect<'m>(
        &self,
        alloc: A,
        machine: &'m Machine<'_, A>,
    ) -> Result<Option<Effect<'m, A>>, Memory>
        ensures { IfOk result (λ effect. (p : semantics.Program) (s : State) → IsReached p s → s.status ≡ running → IsBefore p s self.now
            → state_in (machine_view machine.now) ≡ step p s → IsTold (λ c. IsEffect p s (effect_view p c)) effect) }
    {
        let fires = self.sight.entries < machine.history().list().len();
        let Some(kind) = kind_of(self.next, fires) else {
            return Ok(None);
        };
        match kind {
            Kind::Activate => Ok(Some(Effect::Enters)),
            Kind::Reactivate => Ok(Some(Effect::Wakes)),
            Kind::Default => Ok(Some(Effect::Passes)),
            Kind::Drop => Ok(Some(Effect::Leaves)),
            Kind::Propagate => Ok(fired(machine, self.sight.height, true)),
            Kind::Simplify => Ok(fired(machine, self.sight.height, false)),
            Kind::Solve => {
                let numbers = self.numbers.as_slice();
                Ok(Some(told(alloc, machine, self.sight.height, numbers)?))
            }
        }
    }
}
