//! The parts of the text of a run after its trace. Where memory is refused, the text begins with what it was before.
ghost use Rattle.std.specs.Prelude.{◌≡◌, ◌++◌, ◌∷◌, [], codes, length, map, option_copied, OnOk, slice_get};
ghost use Rattle.std.specs.Fmt.{decimal};
ghost use Rattle.chr_semantics.specs.Subst.{binds_var};
ghost use Rattle.chr_semantics.specs.Text.{entry_text, label_of, lines_text, part, status_text};
ghost use Rattle.chr_rules.specs.ProgramView.{rules_of};
ghost use Rattle.chr_store.specs.HistoryView.{fired_view, firings_view};
ghost use Rattle.chr_store.specs.StoreView.{store_view};
ghost use Rattle.chr_term.specs.Extension.{IsExtension};
ghost use Rattle.chr_trace.specs.ScribeView.{binding_by, bindings_by, bound_name, element_by, rows_by};
ghost use Rattle.chr_trace.specs.State.{stack_view, status_view};
ghost use Rattle.chr_trace.specs.Texts.{body};

use crate::scribe::Scribe;
use crate::state::{Elem, Status};
use chr_rules::Program;
use chr_store::{Entry, Store};
use chr_term::{Memory, Term, print_numbers, write_byte, write_number, write_text};
use std::alloc::Allocator;

#[tactic(auto, using(chr_term::proofs::Extensions::extended_on), unfolding(crate::specs::Texts::body))]
/// Writes the head of a part: its word and the number of its lines.
fn write_head<A: Allocator>(word: &str, count: usize, out: &mut Vec<u8, A>) -> Result<(), Memory>
    ensures ok { OnOk result
        (out.new.items ≡ out.old.items ++ body ((word.now ++ decimal count) ∷ [])) }
    ensures kept { IsExtension out.old.items out.new.items }
{
    write_text(word, out)?;
    write_number(count as u64, out)?;
    write_byte(b'\n', out)
}

/// Writes how a run stands, in a word or two.
fn write_status<A: Allocator>(status: Status, out: &mut Vec<u8, A>) -> Result<(), Memory>
    ensures ok { OnOk result (out.new.items ≡ out.old.items ++ status_text (status_view status)) }
    ensures kept { IsExtension out.old.items out.new.items }
{
    match status {
        Status::Running => write_text("budget", out),
        Status::Done => write_text("done", out),
        Status::Failed => write_text("failed", out),
        Status::Faulted(fault) => {
            write_text("fault ", out)?;
            write_text(fault.word(), out)
        }
    }
}

#[tactic(auto, using(chr_term::proofs::Extensions::extended_on), unfolding(crate::specs::Texts::body))]
/// Writes the line that says how the run stands.
pub(crate) fn write_end<A: Allocator>(status: Status, out: &mut Vec<u8, A>) -> Result<(), Memory>
    ensures ok { OnOk result (out.new.items ≡ out.old.items
        ++ body ((codes "end " ++ status_text (status_view status)) ∷ [])) }
    ensures kept { IsExtension out.old.items out.new.items }
{
    write_text("end ", out)?;
    write_status(status, out)?;
    write_byte(b'\n', out)
}

impl<'a, A: Allocator + Copy> Scribe<'a, A> {
    /// Writes the part of a stack, of which the last element is the top.
    pub(crate) fn write_stack(&self, stack: &[Elem<A>], out: &mut Vec<u8, A>) -> Result<(), Memory>
        ensures ok { OnOk result (out.new.items ≡ out.old.items
            ++ body (part (codes "stack ") (map (element_by self.now) (stack_view stack.now)))) }
        ensures kept { IsExtension out.old.items out.new.items }
    {
        write_head("stack ", stack.len(), out)?;
        self.write_elems(stack, out)
    }

    /// Writes the elements of a stack from its top, a line each.
    fn write_elems(&self, stack: &[Elem<A>], out: &mut Vec<u8, A>) -> Result<(), Memory>
        ensures ok { OnOk result (out.new.items ≡ out.old.items
            ++ lines_text (map (element_by self.now) (stack_view stack.now))) }
        ensures kept { IsExtension out.old.items out.new.items }
    {
        for k in (0..stack.len()).rev() {
            self.write_elem(&stack[k], out)?;
            write_byte(b'\n', out)?;
        }
        Ok(())
    }

    /// Writes the part of a store.
    pub(crate) fn write_store(&self, store: &Store<A>, out: &mut Vec<u8, A>) -> Result<(), Memory>
        ensures ok { OnOk result (out.new.items ≡ out.old.items
            ++ body (part (codes "store ") (rows_by self.now (store_view store.now).rows))) }
        ensures kept { IsExtension out.old.items out.new.items }
    {
        write_head("store ", count_rows(store), out)?;
        self.write_rows(store, out)
    }

    /// Writes the constraints of a store by ascending identity, a line each.
    fn write_rows(&self, store: &Store<A>, out: &mut Vec<u8, A>) -> Result<(), Memory>
        ensures ok { OnOk result (out.new.items ≡ out.old.items
            ++ lines_text (rows_by self.now (store_view store.now).rows)) }
        ensures kept { IsExtension out.old.items out.new.items }
    {
        for (id, row) in store.rows() {
            self.write_known(row.sym, &row.args, id, out)?;
            write_byte(b'\n', out)?;
        }
        Ok(())
    }

    /// Writes the part of the bindings: of the variables that print by their names and are bound.
    pub(crate) fn write_bindings(&self, out: &mut Vec<u8, A>) -> Result<(), Memory>
        ensures ok { OnOk result (out.new.items ≡ out.old.items
            ++ body (part (codes "bindings ") (bindings_by self.now 0 (length self.now.var_names.now)))) }
        ensures kept { IsExtension out.old.items out.new.items }
    {
        write_head("bindings ", self.count_bound(), out)?;
        self.write_bound(out)
    }

    /// How many variables print by their names and are bound.
    fn count_bound(&self) -> usize
        ensures { result ≡ length (bindings_by self.now 0 (length self.now.var_names.now)) }
    {
        let mut count = 0;
        for k in 0..self.var_names.len() {
            if self.bound_name(k).is_some() {
                count += 1;
            }
        }
        count
    }

    /// Writes a line for each variable that prints by its name and is bound.
    fn write_bound(&self, out: &mut Vec<u8, A>) -> Result<(), Memory>
        ensures ok { OnOk result (out.new.items ≡ out.old.items
            ++ lines_text (bindings_by self.now 0 (length self.now.var_names.now))) }
        ensures kept { IsExtension out.old.items out.new.items }
    {
        for k in 0..self.var_names.len() {
            self.write_binding(k, out)?;
        }
        Ok(())
    }

    /// Writes the line of a variable, where it prints by its name and is bound.
    fn write_binding(&self, var: usize, out: &mut Vec<u8, A>) -> Result<(), Memory>
        ensures ok { OnOk result (out.new.items ≡ out.old.items
            ++ lines_text (binding_by self.now var)) }
        ensures kept { IsExtension out.old.items out.new.items }
    {
        match self.bound_name(var) {
            None => Ok(()),
            Some(name) => {
                write_text(name, out)?;
                write_text(" = ", out)?;
                self.write_term(&Term::Var(var as u64), out)?;
                write_byte(b'\n', out)
            }
        }
    }

    /// The name of a variable, where it prints by it and is bound.
    fn bound_name(&self, var: usize) -> Option<&str>
        ensures { option_copied result ≡ bound_name self.now var }
    {
        let name = self.var_names.name(var)?;
        if self.is_bound(var as u64) {
            Some(name)
        } else {
            None
        }
    }

    /// Whether a variable is bound.
    fn is_bound(&self, var: u64) -> bool
        ensures { result ≡ binds_var self.now.bindings.now.subst var }
    {
        // `len` says that what the bindings show is solved: so a variable is free exactly where it stands for itself.
        let _ = self.bindings.len();
        let term = Term::Var(var);
        !self.bindings.resolves_to(&term, &term)
    }
}

/// How many constraints a store has.
fn count_rows<A: Allocator>(store: &Store<A>) -> usize
    ensures { result ≡ length (store_view store.now).rows }
{
    store.rows().count()
}

/// Writes the label of a rule, which is none where the program has no such rule.
fn write_label<A: Allocator>(
    program: &Program<A>,
    rule: usize,
    out: &mut Vec<u8, A>,
) -> Result<(), Memory>
    ensures ok { OnOk result (out.new.items ≡ out.old.items
        ++ label_of (slice_get (rules_of program.now) rule)) }
    ensures kept { IsExtension out.old.items out.new.items }
{
    if rule < program.rules() {
        write_text(program.rule(rule).label.as_str(), out)
    } else {
        Ok(())
    }
}

/// Writes an entry: the label of its rule, and the identities.
fn write_entry<A: Allocator>(
    program: &Program<A>,
    entry: &Entry<A>,
    out: &mut Vec<u8, A>,
) -> Result<(), Memory>
    ensures ok { OnOk result (out.new.items ≡ out.old.items
        ++ entry_text (rules_of program.now) (fired_view entry.now)) }
    ensures kept { IsExtension out.old.items out.new.items }
{
    write_label(program, entry.rule(), out)?;
    write_byte(b' ', out)?;
    print_numbers(entry.ids(), out)
}

/// Writes the entries of a history, a line each.
fn write_entries<A: Allocator>(
    program: &Program<A>,
    history: &[Entry<A>],
    out: &mut Vec<u8, A>,
) -> Result<(), Memory>
    ensures ok { OnOk result (out.new.items ≡ out.old.items
        ++ lines_text (map (entry_text (rules_of program.now)) (firings_view history.now))) }
    ensures kept { IsExtension out.old.items out.new.items }
{
    for entry in history {
        write_entry(program, entry, out)?;
        write_byte(b'\n', out)?;
    }
    Ok(())
}

/// Writes the part of a history.
pub(crate) fn write_history<A: Allocator>(
    program: &Program<A>,
    history: &[Entry<A>],
    out: &mut Vec<u8, A>,
) -> Result<(), Memory>
    ensures ok { OnOk result (out.new.items ≡ out.old.items ++ body
        (part (codes "history ") (map (entry_text (rules_of program.now)) (firings_view history.now)))) }
    ensures kept { IsExtension out.old.items out.new.items }
{
    write_head("history ", history.len(), out)?;
    write_entries(program, history, out)
}
