//! What comes of the constraint that is active on top of the stack.
ghost use Rattle.std.specs.Prelude.{◌≡◌, IfOk, OnErr, OnOk, Some, slice_get};
ghost use Rattle.chr_semantics.specs.Search.{ids_found};
ghost use Rattle.chr_rules.specs.ProgramView.{rules_of};
ghost use Rattle.chr_rules.specs.RuleView.{rule_view};
ghost use Rattle.chr_base.specs.BaseView.{base_view, program_of};
ghost use Rattle.chr_base.specs.Searching.{FindsFirst};
ghost use Rattle.chr_machine.specs.Answering.{AnswersSearch};
ghost use Rattle.chr_machine.specs.Ready.{CanFire};
ghost use Rattle.chr_machine.specs.Firing.{AreFired, IsAt, IsFiring, IsPrepared, Turns, atom_at, search_in, top_at};
ghost use Rattle.chr_machine.specs.Model.{course_of};
ghost use Rattle.chr_machine.specs.Step.{CanMove};

use crate::course::Course;
use crate::search_answer::SearchAnswer;
use chr_find::Active;
use chr_rules::Goal;
use chr_store::{HeadIds, Id};
use chr_term::{Args, Memory, Sym};
use chr_trace::About;
use std::alloc::Allocator;

/// A constraint that is active on top of the stack.
#[derive(Clone, Copy, Drop)]
pub struct ActiveConstraint<'s, A: Allocator> {
    pub id: Id,
    /// The number of its occurrence, from 1.
    pub occurrence: u32,
    pub sym: Sym,
    pub args: &'s Args<A>,
}

/// A rule that is to fire for the active constraint with these identities, and the goals of its body. Its line is drafted.
#[derive(Drop)]
pub struct Firing<'p, A: Allocator> {
    pub active: Active<'p, A>,
    pub ids: HeadIds,
    pub goals: Vec<Goal<A>, A>,
}

/// What comes of an active constraint.
#[derive(Drop)]
pub enum Turn<'p, A: Allocator> {
    /// It has no such occurrence, and leaves the stack.
    Drops,
    /// It is active at its next occurrence, of this number.
    Defaults(u32),
    /// A rule is to fire.
    Fires(Firing<'p, A>),
}

impl<'p, A: Allocator + Copy> Course<'p, A> {
    /// The identities with which the rule can fire first, in head order, by a search.
    fn search(&mut self, at: &Active<'p, A>) -> Result<Option<HeadIds>, Memory>
        requires of_program { slice_get (rules_of (program_of self.old.base)) at.now.number
            ≡ Some (rule_view at.now.rule.now) }
        ensures same { course_of self.new ≡ course_of self.old }
        ensures found { IfOk result (FindsFirst (base_view self.old.base) at.now) }
    {
        // No step with an answer makes this growth: by it a test tells the two apart.
        let _room: Vec<Id, A> = Vec::with_capacity(self.alloc, at.rule.heads.len())?;
        self.base.first(at)
    }

    /// The identities with which the rule can fire first, by a search unless its answer is known. A constraint that does not live fires nothing.
    fn found(
        &mut self,
        at: &Active<'p, A>,
        active: &ActiveConstraint<'_, A>,
        answer: &SearchAnswer,
    ) -> Result<Option<HeadIds>, Memory>
        requires at { IsAt (course_of self.old) at.now active.now }
        requires answer { AnswersSearch (course_of self.old) active.now answer.now }
        ensures same { course_of self.new ≡ course_of self.old }
        ensures found { IfOk result (λ found. found ≡ ids_found
            (search_in (course_of self.old) at.now.id.0 active.now.occurrence (atom_at active.now))) }
    {
        if !self.base.store().alive(at.id) {
            self.base.end_search(at.id);
            return Ok(None);
        }
        match answer {
            SearchAnswer::Missing => self.search(at),
            SearchAnswer::Found(found) => Ok(*found),
        }
    }

    /// Makes ready that the rule fires with these identities.
    fn prepare(
        &mut self,
        at: Active<'p, A>,
        active: &ActiveConstraint<'_, A>,
        ids: &HeadIds,
    ) -> Result<Firing<'p, A>, Memory>
        requires can { CanMove (course_of self.old) (top_at active.now) }
        requires id { at.id.0 ≡ active.now.id.0 }
        requires is { IsFiring (course_of self.old) at active.now.occurrence (atom_at active.now) ids.now }
        ensures same { course_of self.new ≡ course_of self.old }
        ensures ok { IfOk result (λ firing. IsPrepared active.now firing self.new) }
    {
        let rule = at.rule;
        let keeps = at.place < rule.kept;
        let about = About::Fires(
            active.occurrence,
            keeps,
            rule.label.as_str(),
            ids.as_slice(),
        );
        self.base.freshen()?;
        self.draft(active.id, active.sym, active.args, about)?;
        let goals = self.base.body(rule, ids)?;
        Ok(Firing {
            active: at,
            ids: *ids,
            goals,
        })
    }

    /// Drop and Default, and Simplify and Propagate as far as they are made ready. Where a search is asked for, it is made, unless its
    /// answer is known.
    pub fn turn(
        &mut self,
        active: &ActiveConstraint<'_, A>,
        answer: &SearchAnswer,
    ) -> Result<Turn<'p, A>, Memory>
        requires can { CanMove (course_of self.old) (top_at active.now) }
        requires answer { AnswersSearch (course_of self.old) active.now answer.now }
        ensures ok { IfOk result (λ turn. Turns (course_of self.old) active.now turn self.new) }
        ensures err { OnErr result (course_of self.new ≡ course_of self.old) }
    {
        let ActiveConstraint {
            id,
            occurrence,
            sym,
            args,
        } = *active;
        let program = self.base.program();
        let Some(found) = program.occurrence(sym, occurrence) else {
            self.write_line(id, sym, args, About::Drops(occurrence))?;
            return Ok(Turn::Drops);
        };
        let at = Active::at(program, found, id);
        let ids = self.found(&at, active, answer)?;
        match ids {
            None => {
                self.write_line(id, sym, args, About::Defaults(occurrence))?;
                Ok(Turn::Defaults(occurrence + 1))
            }
            Some(ids) => Ok(Turn::Fires(self.prepare(at, active, &ids)?)),
        }
    }

    /// Simplify or Propagate: what a firing that is ready changes below the stack.
    pub fn fire(&mut self, firing: &Firing<'p, A>) -> Result<(), Memory>
        requires { CanFire firing.now self.old }
        ensures ok { OnOk result (AreFired firing.now self.old (course_of self.new)) }
        ensures err { OnErr result (course_of self.new ≡ course_of self.old) }
    {
        let rule = firing.active.rule;
        let variables = rule.vars - rule.head_vars();
        self.base.fire(&firing.active, &firing.ids, variables)?;
        self.log();
        Ok(())
    }
}
