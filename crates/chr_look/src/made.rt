//! What a transition of a run was.
ghost use Rattle.std.specs.Prelude.{◌≡◌, ◌+◌, ◌-◌, ℕ, IfOk, cond, length};
ghost use Rattle.chr_semantics.specs.Program as semantics;
ghost use Rattle.chr_semantics.specs.State.{State, start};
ghost use Rattle.chr_semantics.specs.Step as steps;
ghost use Rattle.chr_semantics.specs.Step.{after, step};
ghost use Rattle.chr_machine.specs.MachineView.{machine_view};
ghost use Rattle.chr_machine.specs.Model.{state_in};
ghost use Rattle.chr_look.specs.Making.{IsMade, IsSeen};
ghost use Rattle.chr_look.specs.Watching.{IsWatched, machine_in};

use crate::kind::Kind;
use crate::log::Sight;
use crate::looking::is_running;
use crate::next::{Next, kind_of, next_of, place_of};
use crate::watching::{Watched, sight_of};
use chr_machine::{Machine, Tried};
use chr_rules::Occurrence;
use chr_term::Memory;
use std::alloc::Allocator;

/// What is seen of a run before a transition.
#[derive(Clone, Copy, Drop)]
pub(crate) struct Seen {
    /// What the transition does.
    next: Option<Next>,
    /// What its search looks at.
    tried: Tried,
    sight: Sight,
    /// The rule whose firing put the top on the stack, where one did.
    rule: Option<usize>,
}

/// What a transition was.
#[derive(Clone, Copy, Drop)]
pub(crate) struct Made {
    pub(crate) kind: Option<Kind>,
    /// Where it searched.
    pub(crate) place: Option<Occurrence>,
    /// Whether a rule fired.
    pub(crate) fires: bool,
    /// What its search looked at.
    pub(crate) tried: Tried,
    /// How high the stack was before it.
    pub(crate) height: usize,
    /// The rule whose firing put the goal on the stack, where one did.
    pub(crate) rule: Option<usize>,
    /// How many elements it put in the place of the top.
    pub(crate) put: u64,
}

/// How many elements a transition put in the place of the top of a stack that was so high, where the run goes on.
fn put<A: Allocator + Copy>(machine: &Machine<'_, A>, height: usize) -> u64
    ensures { let s = state_in (machine_view machine.now) in result ≡ cond (steps.is_running s.status) (length s.stack + 1 - height) 0 }
{
    if is_running(machine.status()) {
        (machine.stack().len() + 1).saturating_sub(height) as u64
    } else {
        0
    }
}

impl Seen {
    /// What is seen of a watched run before the next transition.
    pub(crate) fn of<A: Allocator + Copy>(watched: &mut Watched<'_, A>) -> Result<Seen, Memory>
        ensures same { machine_in watched.new ≡ machine_in watched.old }
        ensures watched { (p : semantics.Program) (q : semantics.Query) → IsWatched p q watched.old → IsWatched p q watched.new }
        ensures seen { IfOk result (λ seen. (p : semantics.Program) (q : semantics.Query)
            → IsWatched p q watched.old → IsSeen p (start q) (machine_in watched.old).steps seen) }
    {
        let tried = watched.tries()?;
        Ok(Seen {
            next: next_of(watched.machine()),
            tried,
            sight: sight_of(watched.machine()),
            rule: watched.goal_rule(),
        })
    }

    /// What the transition was, by the run after it.
    pub(crate) fn made<A: Allocator + Copy>(self, machine: &Machine<'_, A>) -> Made
        ensures { (p : semantics.Program) (s : State) (n : ℕ) → IsSeen p s n self
            → state_in (machine_view machine.now) ≡ step p (after p s n) → IsMade p s n result }
    {
        let fires = self.sight.entries < sight_of(machine).entries;
        Made {
            kind: kind_of(self.next, fires),
            place: place_of(self.next),
            fires,
            tried: self.tried,
            height: self.sight.height,
            rule: self.rule,
            put: put(machine, self.sight.height),
        }
    }
}
