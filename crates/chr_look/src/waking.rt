//! When a constraint of a run was made active again.
ghost use Rattle.std.specs.Prelude.{◌≡◌, ◌++◌, ◌∷◌, [], List, IfOk, None, OnOk, cond, option_map};
ghost use Rattle.chr_semantics.specs.Bounds.{IsQueryBounded};
ghost use Rattle.chr_semantics.specs.Life.{wakes, wakes_on_top, woken as woken_by};
ghost use Rattle.chr_semantics.specs.Program as semantics;
ghost use Rattle.chr_semantics.specs.State.{Element, start};
ghost use Rattle.chr_semantics.specs.Step as steps;
ghost use Rattle.chr_rules.specs.ProgramView.{names_of, rules_of};
ghost use Rattle.chr_rules.specs.RuleView.{query_view};
ghost use Rattle.chr_trace.specs.State.{elem_view};
ghost use Rattle.chr_machine.specs.MachineView.{Steps, machine_view};
ghost use Rattle.chr_machine.specs.Model.{state_in};
ghost use Rattle.chr_look.specs.Watching.{IsRunOf, IsWatched, machine_in};

use crate::looking::is_running;
use crate::notes::{Notes, go_on};
use crate::watching::Watched;
use chr_machine::{Id, Machine, Stepped};
use chr_rules::{Program, Query};
use chr_term::Memory;
use chr_trace::Elem;
use std::alloc::{Allocator, Global};

/// The constraint that the element on top makes active again, if it does.
fn woken_on_top<A: Allocator>(top: &Elem<A>) -> Option<Id>
    ensures { (below : List Element) → option_map (λ i. i.0) result ≡ wakes_on_top (elem_view top.now ∷ below) }
{
    match top {
        Elem::Goal(_) => None,
        Elem::Known(id, _, _) => Some(*id),
        Elem::Active(_, _, _, _) => None,
    }
}

/// The constraint that the next transition makes active again, if it does.
fn woken_next<A: Allocator + Copy>(machine: &Machine<'_, A>) -> Option<Id>
    ensures { let s = state_in (machine_view machine.now) in
        option_map (λ i. i.0) result ≡ cond (steps.is_running s.status) (wakes_on_top s.stack) None }
{
    if !is_running(machine.status()) {
        return None;
    }
    let (top, _) = machine.stack().split_last()?;
    woken_on_top(top)
}

/// Whether the next transition makes the constraint of an identity active again.
fn is_woken_next<A: Allocator + Copy>(machine: &Machine<'_, A>, id: Id) -> bool
    ensures { result ≡ wakes (state_in (machine_view machine.now)) id.0 }
{
    match woken_next(machine) {
        None => false,
        Some(other) => other.0 == id.0,
    }
}

/// At which transitions a constraint was made active again.
#[derive(Drop)]
pub(crate) struct Wakings<A: Allocator> {
    at: Vec<u64, A>,
}

impl<A: Allocator + Copy> Wakings<A> {
    /// Notes a transition, where it made the constraint active again.
    fn note(&mut self, is_woken: bool, at: u64) -> Result<(), Memory>
        ensures { OnOk result (self.new.at.items ≡ self.old.at.items ++ cond is_woken (at ∷ []) []) }
    {
        if is_woken {
            self.at.push(at)?;
        }
        Ok(())
    }
}

impl<A: Allocator + Copy> Notes<A> for Wakings<A> {
    type Subject = Id;

    ghost are_of = { λ id wakings p q n. wakings.at.items ≡ woken_by p (start q) n id.0 };

    fn step(&mut self, id: &Id, watched: &mut Watched<'_, A>) -> Result<Stepped, Memory> {
        let is_woken = is_woken_next(watched.machine(), *id);
        match watched.step()? {
            Stepped::Moved => {
                self.note(is_woken, watched.machine().steps())?;
                Ok(Stepped::Moved)
            }
            Stepped::Ended => Ok(Stepped::Ended),
            Stepped::Spent => Ok(Stepped::Spent),
        }
    }
}

/// `watch`, with the transitions that made the constraint of an identity active again. The only error is want of memory.
pub fn watch_life<'p, A: Allocator + Copy>(
    alloc: A,
    program: &'p Program<A>,
    query: Query<A>,
    n: u64,
    id: Id,
) -> Result<(Watched<'p, A>, Vec<u64, A>), Memory>
    requires { IsQueryBounded (query_view query) }
    ensures run { IfOk result (λ both. IsRunOf (names_of program.now) (rules_of program.now) (query_view query) n (machine_in both.0)) }
    ensures watched { IfOk result (λ both. IsWatched (rules_of program.now) (query_view query) both.0) }
    ensures woken { IfOk result (λ both. both.1.items
        ≡ woken_by (rules_of program.now) (start (query_view query)) (machine_in both.0).steps id.0) }
{
    let mut watched = Watched::start(alloc, program, query)?;
    let mut wakings = Wakings {
        at: Vec::new(alloc),
    };
    go_on(&mut watched, &id, &mut wakings, n)?;
    Ok((watched, wakings.at))
}
