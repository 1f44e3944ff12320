//! Writing with the bindings applied. Where memory is refused, the text begins with what it was before.
ghost use Rattle.std.specs.Prelude.{◌≡◌, ◌++◌, ◌∷◌, OnOk};
ghost use Rattle.std.specs.Fmt.{decimal};
ghost use Rattle.std.specs.Str.{byte};
ghost use Rattle.chr_semantics.specs.Subst.{apply};
ghost use Rattle.chr_store.specs.Rows.{row_atom};
ghost use Rattle.chr_term.specs.Extension.{IsExtension};
ghost use Rattle.chr_term.specs.TermView.{view};
ghost use Rattle.chr_trace.specs.ScribeView.{active_by, atom_by, element_by, goal_by, known_by, shown_atom, shown_goal, term_by};
ghost use Rattle.chr_trace.specs.State.{elem_view};

use crate::scribe::Scribe;
use crate::state::Elem;
use chr_rules::Goal;
use chr_store::{Id, Row};
use chr_term::{Args, Memory, Sym, Term, print, print_atom, write_byte, write_number, write_text};
use std::alloc::Allocator;

impl<'a, A: Allocator + Copy> Scribe<'a, A> {
    /// Writes a term.
    pub(crate) fn write_term(&self, term: &Term<A>, out: &mut Vec<u8, A>) -> Result<(), Memory>
        ensures ok { OnOk result (out.new.items ≡ out.old.items
            ++ term_by self.now (apply self.now.bindings.now.subst (view term.now))) }
        ensures kept { IsExtension out.old.items out.new.items }
    {
        let resolved = self.bindings.resolve(term)?;
        print(self.names, self.var_names, &resolved, out)
    }

    /// Writes a symbol over arguments.
    pub(crate) fn write_atom(
        &self,
        sym: Sym,
        args: &Args<A>,
        out: &mut Vec<u8, A>,
    ) -> Result<(), Memory>
        ensures ok { OnOk result (out.new.items ≡ out.old.items
            ++ atom_by self.now (shown_atom self.now sym args.now)) }
        ensures kept { IsExtension out.old.items out.new.items }
    {
        let resolved = self.bindings.resolve_args(args)?;
        print_atom(self.names, self.var_names, sym, resolved.as_slice(), out)
    }

    /// Writes a goal.
    pub(crate) fn write_goal(&self, goal: &Goal<A>, out: &mut Vec<u8, A>) -> Result<(), Memory>
        ensures ok { OnOk result (out.new.items ≡ out.old.items
            ++ goal_by self.now (shown_goal self.now goal.now)) }
        ensures kept { IsExtension out.old.items out.new.items }
    {
        match goal {
            Goal::Chr(sym, args) => self.write_atom(*sym, args, out),
            Goal::Told(op, left, right) => {
                self.write_term(left, out)?;
                write_text(op.sign(), out)?;
                self.write_term(right, out)
            }
            Goal::Fail => write_text("fail", out),
        }
    }

    /// Writes a constraint with its identity.
    pub fn write_known(
        &self,
        sym: Sym,
        args: &Args<A>,
        id: Id,
        out: &mut Vec<u8, A>,
    ) -> Result<(), Memory>
        ensures ok { OnOk result (out.new.items ≡ out.old.items
            ++ known_by self.now (shown_atom self.now sym args.now) id.0) }
        ensures kept { IsExtension out.old.items out.new.items }
    {
        self.write_atom(sym, args, out)?;
        write_identity(id, out)
    }

    /// Writes a constraint, as its row stands, with its identity: the bindings are applied to the row already.
    pub fn write_row(&self, row: &Row<A>, id: Id, out: &mut Vec<u8, A>) -> Result<(), Memory>
        ensures ok { OnOk result
            (out.new.items ≡ out.old.items ++ known_by self.now (row_atom row.now) id.0) }
        ensures kept { IsExtension out.old.items out.new.items }
    {
        print_atom(
            self.names,
            self.var_names,
            row.sym,
            row.args.as_slice(),
            out,
        )?;
        write_identity(id, out)
    }

    /// Writes an active constraint with its identity and its occurrence.
    pub(crate) fn write_active(
        &self,
        sym: Sym,
        args: &Args<A>,
        id: Id,
        occurrence: u32,
        out: &mut Vec<u8, A>,
    ) -> Result<(), Memory>
        ensures ok { OnOk result (out.new.items ≡ out.old.items
            ++ active_by self.now (shown_atom self.now sym args.now) id.0 occurrence) }
        ensures kept { IsExtension out.old.items out.new.items }
    {
        self.write_known(sym, args, id, out)?;
        write_byte(b':', out)?;
        write_number(u64::from(occurrence), out)
    }

    /// Writes an element of the stack.
    pub(crate) fn write_elem(&self, elem: &Elem<A>, out: &mut Vec<u8, A>) -> Result<(), Memory>
        ensures ok { OnOk result (out.new.items ≡ out.old.items
            ++ element_by self.now (elem_view elem.now)) }
        ensures kept { IsExtension out.old.items out.new.items }
    {
        match elem {
            Elem::Goal(goal) => self.write_goal(goal, out),
            Elem::Known(id, sym, args) => self.write_known(*sym, args, *id, out),
            Elem::Active(id, occurrence, sym, args) => {
                self.write_active(*sym, args, *id, *occurrence, out)
            }
        }
    }
}

/// Writes the identity of a constraint, behind it.
fn write_identity<A: Allocator>(id: Id, out: &mut Vec<u8, A>) -> Result<(), Memory>
    ensures ok { OnOk result (out.new.items ≡ out.old.items ++ (byte "#" ∷ decimal id.0)) }
    ensures kept { IsExtension out.old.items out.new.items }
{
    write_byte(b'#', out)?;
    write_number(id.0, out)
}
