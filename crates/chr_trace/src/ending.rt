//! The text of a run after its trace: how it stands, its stack, its store, its bindings and its history.
ghost use Rattle.std.specs.Prelude.{◌≡◌, ◌++◌, OnErr, OnOk};
ghost use Rattle.chr_semantics.specs.Text.{lines_text, outcome};
ghost use Rattle.chr_rules.specs.ProgramView.{names_of, rules_of};
ghost use Rattle.chr_term.specs.Extension.{IsExtension};
ghost use Rattle.chr_trace.specs.EndingView.{ended_state};

use crate::parts::{write_end, write_history};
use crate::scribe::Scribe;
use crate::state::{Elem, Status};
use chr_bind::Bindings;
use chr_rules::Program;
use chr_store::{Entry, Store};
use chr_term::{Memory, VarNames, all_or_nothing};
use std::alloc::{Allocator, Global};

/// Where a run stands: the parts of its state, its program, and the names of the query's variables.
#[derive(Drop)]
pub struct Ending<'a, A: Allocator = Global> {
    pub program: &'a Program<A>,
    pub var_names: &'a VarNames<A>,
    pub status: Status,
    /// The top is the last element.
    pub stack: &'a [Elem<A>],
    pub store: &'a Store<A>,
    pub bindings: &'a Bindings<A>,
    /// What has fired, in the order in which it was entered.
    pub history: &'a [Entry<A>],
}

impl<'a, A: Allocator + Copy> Ending<'a, A> {
    /// Appends the lines that stand after the trace, each with its line feed. Goals and terms are printed with the bindings applied; of the
    /// bindings those stand there whose variable prints by its name. Where memory is refused, the text is as before.
    pub fn write(&self, out: &mut Vec<u8, A>) -> Result<(), Memory>
        ensures ok { OnOk result (out.new.items ≡ out.old.items
            ++ lines_text (outcome (names_of self.now.program.now) self.now.var_names.now
            (rules_of self.now.program.now) (ended_state self.now))) }
        ensures err { OnErr result (out.new.items ≡ out.old.items) }
    {
        let len = out.len();
        let written = self.write_parts(out);
        all_or_nothing(written, len, out)
    }

    /// Writes the line that says how the run stands, and the parts after it.
    fn write_parts(&self, out: &mut Vec<u8, A>) -> Result<(), Memory>
        ensures ok { OnOk result (out.new.items ≡ out.old.items
            ++ lines_text (outcome (names_of self.now.program.now) self.now.var_names.now
            (rules_of self.now.program.now) (ended_state self.now))) }
        ensures kept { IsExtension out.old.items out.new.items }
    {
        let scribe = Scribe {
            names: self.program.names(),
            var_names: self.var_names,
            bindings: self.bindings,
        };
        write_end(self.status, out)?;
        scribe.write_stack(self.stack, out)?;
        scribe.write_store(self.store, out)?;
        scribe.write_bindings(out)?;
        write_history(self.program, self.history, out)
    }
}
