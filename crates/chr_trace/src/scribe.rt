//! What the lines of a trace are written with, and the lines of Solves, without their line feeds.
ghost use Rattle.std.specs.Prelude.{◌≡◌, ◌++◌, codes, OnOk};
ghost use Rattle.chr_semantics.specs.Text.{fault_text};
ghost use Rattle.chr_semantics.specs.Trace.{solve_line};
ghost use Rattle.chr_bind.specs.Values.{fault_view};
ghost use Rattle.chr_term.specs.Extension.{IsExtension};
ghost use Rattle.chr_trace.specs.ScribeView.{about_line, goal_by, line_by, shown_goal};
ghost use Rattle.chr_trace.specs.State.{status_view};

use crate::about::write_start;
use crate::state::Status;
use chr_bind::{Bindings, Fault};
use chr_rules::Goal;
use chr_term::{Memory, Names, VarNames, write_text};
use std::alloc::{Allocator, Global};

/// What the lines of a trace are written with: names, and the bindings, which are applied to goals and terms.
#[derive(Drop)]
pub struct Scribe<'a, A: Allocator = Global> {
    pub names: &'a Names<A>,
    pub var_names: &'a VarNames<A>,
    pub bindings: &'a Bindings<A>,
}

impl<'a, A: Allocator + Copy> Scribe<'a, A> {
    /// Writes the line of a Solve of the goal, by the status that it leads to.
    pub(crate) fn write_solve(
        &self,
        number: u64,
        goal: &Goal<A>,
        status: Status,
        out: &mut Vec<u8, A>,
    ) -> Result<(), Memory>
        ensures ok { OnOk result (out.new.items ≡ out.old.items
            ++ line_by self.now number (solve_line (shown_goal self.now goal.now) (status_view status))) }
        ensures kept { IsExtension out.old.items out.new.items }
    {
        self.write_attempt(number, goal, out)?;
        match status {
            Status::Running | Status::Done => Ok(()),
            Status::Failed => write_text(" fails", out),
            Status::Faulted(fault) => write_fault(fault, out),
        }
    }

    /// Writes the number of a transition, which is a Solve, and its goal.
    fn write_attempt(&self, number: u64, goal: &Goal<A>, out: &mut Vec<u8, A>) -> Result<(), Memory>
        ensures ok { OnOk result (out.new.items ≡ out.old.items
            ++ about_line number (codes " solve ") (goal_by self.now (shown_goal self.now goal.now))) }
        ensures kept { IsExtension out.old.items out.new.items }
    {
        write_start(number, " solve ", out)?;
        self.write_goal(goal, out)
    }
}

/// Writes how a Solve ends in a fault.
fn write_fault<A: Allocator>(fault: Fault, out: &mut Vec<u8, A>) -> Result<(), Memory>
    ensures ok { OnOk result
        (out.new.items ≡ out.old.items ++ (codes " fault " ++ fault_text (fault_view fault))) }
    ensures kept { IsExtension out.old.items out.new.items }
{
    write_text(" fault ", out)?;
    write_text(fault.word(), out)
}
