//! How many lists the search of the next transition looks at.
ghost use Rattle.std.specs.Prelude.{◌≡◌, IfOk, option_map};
ghost use Rattle.chr_semantics.specs.Profile.{counted_at, counted_next};
ghost use Rattle.chr_semantics.specs.Program.{occurrence};
ghost use Rattle.chr_rules.specs.ProgramView.{rules_of};
ghost use Rattle.chr_trace.specs.State.{stack_view};
ghost use Rattle.chr_find.specs.TriedView.{AreTried};
ghost use Rattle.chr_base.specs.BaseView.{program_of};
ghost use Rattle.chr_base.specs.Model.{rows_of};
ghost use Rattle.chr_machine.specs.Model.{course_of, model_of, state_in};
ghost use Rattle.chr_machine.specs.Step.{IsSteady};
ghost use Rattle.chr_machine.specs.Trying.{counted_by, searching};

use crate::course::Course;
use crate::execution::Execution;
use crate::stack::top_of;
use chr_find::{Active, Tried};
use chr_store::Id;
use chr_term::{Memory, Sym};
use chr_trace::{Elem, Status};
use std::alloc::Allocator;

/// The constraint that is active on top of a stack, its symbol, and the number of its occurrence.
fn searching<A: Allocator>(stack: &[Elem<A>]) -> Option<(Id, Sym, u32)>
    ensures { option_map (λ w. (w.0.0, w.1.0, w.2)) result ≡ searching (stack_view stack.now) }
{
    let (top, _below) = top_of(stack)?;
    match top {
        Elem::Active(id, number, sym, _) => Some((*id, *sym, *number)),
        Elem::Known(_, _, _) | Elem::Goal(_) => None,
    }
}

impl<'p, A: Allocator + Copy> Course<'p, A> {
    /// How many lists a search for a constraint looks at, at the occurrence of its symbol that has this number.
    fn tries(&mut self, id: Id, sym: Sym, number: u32) -> Result<Tried, Memory>
        ensures same { course_of self.new ≡ course_of self.old }
        ensures tries { let c = course_of self.old in IfOk result
            (AreTried (λ f. counted_at f (rows_of c.base) c.base.entries.list id.0 (occurrence c.rules sym.0 number))) }
    {
        let program = self.base.program();
        match program.occurrence(sym, number) {
            None => Ok(Tried::nothing()),
            Some(found) => {
                let at = Active::at(program, found, id);
                self.base.tries(&at)
            }
        }
    }
}

impl<'p, A: Allocator + Copy> Execution<'p, A> {
    /// How many lists the search of a constraint that is active on top looks at.
    fn tries_on_top(&mut self) -> Result<Tried, Memory>
        ensures same { model_of self.new ≡ model_of self.old }
        ensures steady { IsSteady self.old → IsSteady self.new }
        ensures tries { let m = model_of self.old in IfOk result
            (AreTried (λ f. counted_by f m.rules (state_in m) (searching m.stack))) }
    {
        match searching(self.stack.as_slice()) {
            None => Ok(Tried::nothing()),
            Some((id, sym, number)) => self.course.tries(id, sym, number),
        }
    }

    /// How many lists the search of the next transition looks at; none where it makes no search.
    pub fn tries(&mut self) -> Result<Tried, Memory>
        ensures same { model_of self.new ≡ model_of self.old }
        ensures steady { IsSteady self.old → IsSteady self.new }
        ensures tries { let m = model_of self.old in IfOk result (AreTried (λ f. counted_next f m.rules (state_in m))) }
    {
        match self.status {
            Status::Running => self.tries_on_top(),
            Status::Done | Status::Failed | Status::Faulted(_) => Ok(Tried::nothing()),
        }
    }
}
