//! The state as it is handed out to be searched elsewhere.
ghost use Rattle.std.specs.Prelude.{◌≡◌, IfOk, OnOk};
ghost use Rattle.chr_semantics.specs.Snapshot.{snapshot_of};
ghost use Rattle.chr_rules.specs.ProgramView.{rules_of};
ghost use Rattle.chr_find.specs.SnapshotView.{IsSnapshot};
ghost use Rattle.chr_base.specs.BaseView.{program_of};
ghost use Rattle.chr_base.specs.Sharing.{IsShareable};
ghost use Rattle.chr_machine.specs.Model.{course_of, model_of, state_in};
ghost use Rattle.chr_machine.specs.Step.{IsSteady};

use crate::course::Course;
use crate::execution::Execution;
use chr_find::Snapshot;
use chr_term::Memory;
use std::alloc::Allocator;

impl<'p, A: Allocator + Copy> Course<'p, A> {
    /// Makes what is below the stack ready to be shared. Contracts see the same course, after a refusal too.
    fn begin_sharing(&mut self) -> Result<(), Memory>
        ensures same { course_of self.new ≡ course_of self.old }
        ensures ok { OnOk result (IsShareable self.new.base) }
    {
        self.base.begin_sharing()
    }
}

impl<'p, A: Allocator + Copy> Execution<'p, A> {
    /// A snapshot of the state, with its tasks and its guest.
    pub fn snapshot(&mut self) -> Result<Snapshot<A>, Memory>
        ensures same { model_of self.new ≡ model_of self.old }
        ensures steady { IsSteady self.old → IsSteady self.new }
        ensures shown { IfOk result (λ shared. IsSnapshot shared
            (snapshot_of (rules_of (program_of self.old.course.base)) (state_in (model_of self.old)))) }
    {
        self.course.begin_sharing()?;
        let tasks = self.tasks()?;
        self.course.base.snapshot(tasks, self.guest())
    }
}
