//! What is below the stack of a run, and its trace.
ghost use Rattle.std.specs.Prelude.{◌≡◌, ℕ, ◌<◌, IfOk, List, OnErr, OnOk, Some, is_some, true};
ghost use Rattle.chr_rules.specs.ProgramView.{names_of, rules_of};
ghost use Rattle.chr_semantics.specs.Changes.{added};
ghost use Rattle.chr_semantics.specs.Program.{Atom, constraint};
ghost use Rattle.chr_semantics.specs.Search.{atom_of};
ghost use Rattle.chr_semantics.specs.State.{goal, resolved_atom};
ghost use Rattle.chr_semantics.specs.Text.{known_text};
ghost use Rattle.chr_semantics.specs.Trace.{Line, activates};
ghost use Rattle.chr_semantics.specs.declared.limits.TheConstants.{MAX_TRANSITIONS};
ghost use Rattle.chr_store.specs.Rows.{row_atom};
ghost use Rattle.chr_term.specs.TermView.{atom_over};
ghost use Rattle.chr_trace.specs.About.{line_about};
ghost use Rattle.chr_base.specs.BaseView.{base_view, program_of};
ghost use Rattle.chr_machine.specs.Shown.{IsOf, IsResolvedOf, IsShownIn};

use chr_base::Base;
use chr_rules::Program;
use chr_store::{Id, Row};
use chr_term::{Args, Memory, Sym, VarNames};
use chr_trace::{About, Lines, Scribe};
use std::alloc::Allocator;

/// The text of a constraint with its identity, which the next line about it can have again.
#[derive(Drop)]
pub struct Shown<A: Allocator> {
    pub id: Id,
    pub text: Vec<u8, A>,
    /// Whether it is right, where the constraint lives: a binding may change it.
    pub is_right: bool,
}

/// The course of a run: what is below its stack, and the trace of the transitions that led there.
#[derive(Drop)]
pub struct Course<'p, A: Allocator> {
    pub base: Base<'p, A>,
    pub var_names: VarNames<A>,
    /// The number of transitions.
    pub steps: u64,
    pub lines: Lines<A>,
    pub shown: Shown<A>,
    pub alloc: A,
    ghost shows: { shown.is_right ≡ true → IsShownIn (names_of (program_of base)) var_names (base_view base)
        shown.id.0 shown.text.items },
}

/// What the lines of the trace are written with.
pub fn scribe_of<'s, A: Allocator + Copy>(
    base: &'s Base<'_, A>,
    var_names: &'s VarNames<A>,
) -> Scribe<'s, A>
    ensures names { result.names.now ≡ names_of (program_of base.now) }
    ensures var_names { result.var_names.now ≡ var_names.now }
    ensures subst { result.bindings.now.subst ≡ (base_view base.now).subst }
{
    Scribe {
        names: base.program().names(),
        var_names,
        bindings: base.bindings(),
    }
}

impl<'p, A: Allocator + Copy> Course<'p, A> {
    ghost use Rattle.chr_machine.specs.Model.{course_of, first_course, line_in, logged};
    ghost use Rattle.chr_machine.specs.Step.{CanMove};

    /// The course of a run of this program before its first transition, with the names of its query's variables.
    pub fn new(
        alloc: A,
        program: &'p Program<A>,
        var_names: VarNames<A>,
    ) -> Result<Course<'p, A>, Memory>
        ensures { IfOk result (λ course. course_of course
            ≡ first_course (names_of program.now) (rules_of program.now) var_names) }
    {
        let base = Base::new(alloc, program, var_names.len())?;
        Ok(Course {
            base,
            var_names,
            steps: 0,
            lines: Lines::new(alloc),
            shown: Shown {
                id: Id(0),
                text: Vec::new(alloc),
                is_right: false,
            },
            alloc,
        })
    }

    /// Whether the text that is kept is that of the constraint, which lives.
    fn is_shown(&self, id: Id) -> bool
        ensures right { result ≡ true → self.now.shown.is_right ≡ true }
        ensures id { result ≡ true → self.now.shown.id.0 ≡ id.0 }
        ensures lives { result ≡ true → is_some (atom_of (base_view self.now.base).store.rows id.0) ≡ true }
    {
        self.shown.is_right && self.shown.id == id && self.base.store().alive(id)
    }

    /// Makes the text of a constraint with its identity, in place of the one that is kept, by its row to which the bindings are applied.
    fn write_shown(&mut self, id: Id, row: &Row<A>) -> Result<(), Memory>
        requires { IsResolvedOf (base_view self.old.base) id.0 (row_atom row.now) }
        ensures same { course_of self.new ≡ course_of self.old }
        ensures base { self.new.base ≡ self.old.base }
        ensures lines { self.new.lines ≡ self.old.lines }
        ensures id { OnOk result (self.new.shown.id.0 ≡ id.0) }
        ensures text { OnOk result (self.new.shown.text.items
            ≡ known_text (names_of (program_of self.old.base)) self.old.var_names (row_atom row.now) id.0) }
    {
        self.shown.is_right = false;
        self.shown.text.clear();
        let scribe = scribe_of(&self.base, &self.var_names);
        scribe.write_row(row, id, &mut self.shown.text)?;
        self.shown.id = id;
        self.shown.is_right = true;
        Ok(())
    }

    /// Makes the text of a constraint with its identity, unless it is kept.
    fn show(&mut self, id: Id, sym: Sym, args: &Args<A>) -> Result<(), Memory>
        requires { IsOf (base_view self.old.base).store.rows id.0 (atom_over sym args.now) }
        ensures same { course_of self.new ≡ course_of self.old }
        ensures base { self.new.base ≡ self.old.base }
        ensures lines { self.new.lines ≡ self.old.lines }
        ensures id { OnOk result (self.new.shown.id.0 ≡ id.0) }
        ensures text { OnOk result (self.new.shown.text.items ≡ known_text (names_of (program_of self.old.base))
            self.old.var_names (resolved_atom (base_view self.old.base).subst (atom_over sym args.now)) id.0) }
    {
        if self.is_shown(id) {
            return Ok(());
        }
        let row = self.base.resolved_row(sym, args)?;
        self.write_shown(id, &row)
    }

    /// Drafts the line of the next transition about the constraint whose text is kept.
    fn draft_shown(&mut self, about: About<'_>) -> Result<(), Memory>
        requires few { self.old.steps < MAX_TRANSITIONS }
        ensures same { course_of self.new ≡ course_of self.old }
        ensures base { self.new.base ≡ self.old.base }
        ensures shown { self.new.shown ≡ self.old.shown }
        ensures line { (a : Atom) (i : ℕ) →
            self.old.shown.text.items ≡ known_text (names_of (program_of self.old.base)) self.old.var_names a i →
            OnOk result (self.new.lines.draft ≡ Some (line_in (course_of self.old) (line_about about.entry a i))) }
    {
        let known = self.shown.text.as_slice();
        self.lines.draft(self.steps + 1, known, about)
    }

    /// Drafts the line of the next transition about a constraint.
    pub fn draft(
        &mut self,
        id: Id,
        sym: Sym,
        args: &Args<A>,
        about: About<'_>,
    ) -> Result<(), Memory>
        requires few { self.old.steps < MAX_TRANSITIONS }
        requires is_of { IsOf (base_view self.old.base).store.rows id.0 (atom_over sym args.now) }
        ensures same { course_of self.new ≡ course_of self.old }
        ensures base { self.new.base ≡ self.old.base }
        ensures id { OnOk result (self.new.shown.id.0 ≡ id.0) }
        ensures text { OnOk result (self.new.shown.text.items ≡ known_text (names_of (program_of self.old.base))
            self.old.var_names (resolved_atom (base_view self.old.base).subst (atom_over sym args.now)) id.0) }
        ensures line { OnOk result (self.new.lines.draft ≡ Some (line_in (course_of self.old)
            (line_about about.entry (resolved_atom (base_view self.old.base).subst (atom_over sym args.now)) id.0))) }
    {
        self.show(id, sym, args)?;
        self.draft_shown(about)
    }

    /// Keeps the line that was drafted for the transition.
    pub fn log(&mut self)
        requires few { self.old.steps < MAX_TRANSITIONS }
        requires drafted { is_some self.old.lines.draft ≡ true }
        ensures { (l : Line) → self.old.lines.draft ≡ Some (line_in (course_of self.old) l) →
            course_of self.new ≡ logged (base_view self.old.base) l (course_of self.old) }
    {
        self.lines.keep();
        self.steps += 1;
    }

    /// A transition that writes a line about a constraint, and changes nothing else below the stack.
    pub fn write_line(
        &mut self,
        id: Id,
        sym: Sym,
        args: &Args<A>,
        about: About<'_>,
    ) -> Result<(), Memory>
        requires few { self.old.steps < MAX_TRANSITIONS }
        requires is_of { IsOf (base_view self.old.base).store.rows id.0 (atom_over sym args.now) }
        ensures ok { OnOk result (course_of self.new ≡ logged (base_view self.old.base)
            (line_about about.entry (resolved_atom (base_view self.old.base).subst (atom_over sym args.now)) id.0)
            (course_of self.old)) }
        ensures err { OnErr result (course_of self.new ≡ course_of self.old) }
    {
        self.draft(id, sym, args, about)?;
        self.log();
        Ok(())
    }

    /// Activate: the constraint enters the store under the next identity.
    pub fn activate(&mut self, sym: Sym, args: &Args<A>) -> Result<Id, Memory>
        requires { CanMove (course_of self.old) (goal (constraint (atom_over sym args.now))) }
        ensures ok { OnOk result (let c = course_of self.old in let a = atom_over sym args.now in
            course_of self.new ≡ logged (record c.base { store = added c.base.store a })
            (activates (resolved_atom c.base.subst a) c.base.store.next_id) c) }
        ensures id { IfOk result (λ id. id.0 ≡ (base_view self.old.base).store.next_id) }
        ensures err { OnErr result (course_of self.new ≡ course_of self.old) }
    {
        let next = self.base.store().next();
        let row = self.base.resolved_row(sym, args)?;
        self.write_shown(next, &row)?;
        self.draft_shown(About::Activates)?;
        let id = self.base.add(sym, args, row)?;
        self.log();
        Ok(id)
    }
}
