//! What a run hands out in the end.
ghost use Rattle.std.specs.Prelude.{◌≡◌, ◌++◌, OnErr, OnOk};
ghost use Rattle.chr_semantics.specs.Outcome.{outcome_of};
ghost use Rattle.chr_semantics.specs.Text.{lines_text, outcome};
ghost use Rattle.chr_rules.specs.ProgramView.{names_of, rules_of};
ghost use Rattle.chr_store.specs.HistoryView.{entries_view};
ghost use Rattle.chr_store.specs.StoreView.{store_view};
ghost use Rattle.chr_machine.specs.Model.{model_of, state_in};
ghost use Rattle.chr_machine.specs.OutcomeView.{ended_in, outcome_view};

use crate::course::Course;
use crate::execution::Execution;
use chr_bind::Bindings;
use chr_rules::Program;
use chr_store::{History, Store};
use chr_term::{Memory, VarNames};
use chr_trace::{Elem, Ending, Lines, Status};
use std::alloc::{Allocator, Global};

/// Where a run stands, with its trace: its state in parts, the number of its transitions, their lines, and the names of the query's
/// variables.
#[derive(Drop)]
pub struct Outcome<A: Allocator = Global> {
    pub status: Status,
    pub steps: u64,
    /// The goal stack, its top last.
    pub stack: Vec<Elem<A>, A>,
    pub store: Store<A>,
    pub bindings: Bindings<A>,
    pub history: History<A>,
    /// Each without its line feed.
    pub lines: Lines<A>,
    pub var_names: VarNames<A>,
}

impl<A: Allocator + Copy> Outcome<A> {
    /// Appends the lines that say how the run stands. Where memory is refused, the text is as before.
    fn write_ending(&self, program: &Program<A>, out: &mut Vec<u8, A>) -> Result<(), Memory>
        ensures ok { OnOk result (out.new.items ≡ out.old.items ++ lines_text (outcome
            (names_of program.now) self.now.var_names (rules_of program.now) (ended_in self.now))) }
        ensures err { OnErr result (out.new.items ≡ out.old.items) }
    {
        let ending = Ending {
            program,
            var_names: &self.var_names,
            status: self.status,
            stack: self.stack.as_slice(),
            store: &self.store,
            bindings: &self.bindings,
            history: self.history.list(),
        };
        ending.write(out)
    }

    /// Appends the text of the run under its program: the lines of the trace, and those that say how it stands. Where memory is refused,
    /// the text is as before.
    #[tactic(auto, using(chr_term::proofs::Extensions::extended_on, chr_term::proofs::Extensions::taken_back))]
    pub fn text(&self, program: &Program<A>, out: &mut Vec<u8, A>) -> Result<(), Memory>
        ensures ok { OnOk result (out.new.items ≡ out.old.items ++ lines_text (self.now.lines.made
            ++ outcome (names_of program.now) self.now.var_names (rules_of program.now) (ended_in self.now))) }
        ensures err { OnErr result (out.new.items ≡ out.old.items) }
    {
        let len = out.len();
        out.extend_from_slice(self.lines.text_from(0))?;
        match self.write_ending(program, out) {
            Ok(()) => Ok(()),
            Err(error) => {
                out.truncate(len);
                Err(error)
            }
        }
    }
}

impl<'p, A: Allocator + Copy> Execution<'p, A> {
    /// What the run has come to.
    pub fn finish(self) -> Outcome<A>
        ensures outcome { let m = model_of self.entry in
            outcome_view result ≡ outcome_of (state_in m) m.steps m.lines m.var_names }
        ensures store { store_view result.store ≡ (model_of self.entry).base.store }
        ensures history { entries_view result.history ≡ (model_of self.entry).base.entries }
    {
        let Execution {
            stack,
            status,
            course,
        } = self;
        let Course {
            base,
            var_names,
            steps,
            lines,
            shown: _,
            alloc: _,
        } = course;
        let (store, bindings, history) = base.into_parts();
        Outcome {
            status,
            steps,
            stack,
            store,
            bindings,
            history,
            lines,
            var_names,
        }
    }
}
