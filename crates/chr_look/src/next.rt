//! What the next transition of a run does.
ghost use Rattle.std.specs.Prelude.{◌≡◌, ◌∷◌, List, Some, option_and_then, option_map};
ghost use Rattle.chr_semantics.specs.State.{Element, State, running};
ghost use Rattle.chr_rules.specs.Index.{pair_view};
ghost use Rattle.chr_rules.specs.ProgramView.{rules_of};
ghost use Rattle.chr_trace.specs.State.{elem_view};
ghost use Rattle.chr_machine.specs.MachineView.{machine_view};
ghost use Rattle.chr_machine.specs.Model.{state_in};
ghost use Rattle.chr_look.specs.KindView.{kind_view};
ghost use Rattle.chr_look.specs.NextView.{IsNext, kind_by, place_in};

use crate::kind::Kind;
use crate::looking::is_running;
use chr_machine::Machine;
use chr_rules::{Occurrence, Program};
use chr_trace::Elem;
use std::alloc::Allocator;

/// What the next transition does, as far as is known before a search.
#[derive(Clone, Copy, Drop)]
pub(crate) enum Next {
    /// It makes no search, and is of this kind.
    Plain(Kind),
    /// It searches at a head of a rule, which keeps the constraint there, or does not.
    Search(Occurrence, bool),
}

impl Next {
    /// Of which kind it is, by whether a rule fires.
    fn kind(self, fires: bool) -> Kind
        ensures { kind_view result ≡ kind_by self fires }
    {
        match self {
            Next::Plain(kind) => kind,
            Next::Search(_, is_kept) => {
                if !fires {
                    Kind::Default
                } else if is_kept {
                    Kind::Propagate
                } else {
                    Kind::Simplify
                }
            }
        }
    }

    /// Where it searches.
    fn place(self) -> Option<Occurrence>
        ensures { option_map pair_view result ≡ place_in self }
    {
        match self {
            Next::Plain(_) => None,
            Next::Search(at, _) => Some(at),
        }
    }
}

/// Of which kind the next transition is, by whether a rule fires.
pub(crate) fn kind_of(next: Option<Next>, fires: bool) -> Option<Kind>
    ensures { option_map kind_view result ≡ option_map (λ n. kind_by n fires) next }
{
    Some(next?.kind(fires))
}

/// Where it searches.
pub(crate) fn place_of(next: Option<Next>) -> Option<Occurrence>
    ensures { option_map pair_view result ≡ option_and_then place_in next }
{
    next?.place()
}

/// What the transition does that takes the element on top.
fn next_on_top<A: Allocator>(program: &Program<A>, top: &Elem<A>) -> Next
    ensures { (s : State) (below : List Element) → s.status ≡ running → s.stack ≡ elem_view top.now ∷ below
        → IsNext (rules_of program.now) s (Some result) }
{
    match top {
        Elem::Goal(goal) => Next::Plain(Kind::of_goal(goal)),
        Elem::Known(_, _, _) => Next::Plain(Kind::Reactivate),
        Elem::Active(_, number, sym, _) => match program.occurrence(*sym, *number) {
            None => Next::Plain(Kind::Drop),
            Some(at) => Next::Search(at, at.place < program.rule(at.rule).kept),
        },
    }
}

/// What the next transition does, where the run goes on.
pub(crate) fn next_of<A: Allocator + Copy>(machine: &Machine<'_, A>) -> Option<Next>
    ensures { let m = machine_view machine.now in IsNext m.rules (state_in m) result }
{
    if !is_running(machine.status()) {
        return None;
    }
    let (top, _) = machine.stack().split_last()?;
    Some(next_on_top(machine.program(), top))
}
