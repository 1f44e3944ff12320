//! The search for partners, which goes on where the last one for the same constraint at the same head ended.
ghost use Rattle.std.specs.Prelude.{◌≡◌, ◌<◌, IfOk, None, OnOk, Some, map, option_map, slice_get, vec_capacity, vec_len};
ghost use Rattle.chr_semantics.specs.Bounds.{IsBounded};
ghost use Rattle.chr_semantics.specs.Search.{atom_of};
ghost use Rattle.chr_semantics.specs.State.{goal};
ghost use Rattle.chr_rules.specs.ProgramView.{rules_of};
ghost use Rattle.chr_rules.specs.RuleView.{goal_view, rule_view};
ghost use Rattle.chr_store.specs.Rows.{row_atom};
ghost use Rattle.chr_find.specs.TableView.{IsFor, atom_at};

use crate::Memory;
use crate::base::Base;
use crate::heads::build_fired;
use chr_find::{Active, Cursor, Tried};
use chr_rules::{Goal, Rule};
use chr_store::{HeadIds, Id, Row};
use std::alloc::Allocator;

impl<'p, A: Allocator + Copy> Base<'p, A> {
    ghost use Rattle.chr_base.specs.BaseView.{IsFresh, IsSameBase, base_view, program_of};
    ghost use Rattle.chr_base.specs.Bookmarks.{GoesOn};
    ghost use Rattle.chr_base.specs.Searching.{FindsFirst, IsBodyFor, IsTried};

    /// Makes the table ready to be searched. Contracts see the same base, after a refusal too.
    pub fn freshen(&mut self) -> Result<(), Memory>
        ensures same { base_view self.new ≡ base_view self.old }
        ensures fresh { OnOk result (IsFresh self.new) }
        ensures program { program_of self.new ≡ program_of self.old }
    {
        if self.is_stale {
            self.refresh()?;
            Ok(())
        } else {
            self.table.settle()
        }
    }

    /// Makes the table ready to be searched for a constraint.
    fn ready(&mut self, id: Id) -> Result<(), Memory>
        ensures same { base_view self.new ≡ base_view self.old }
        ensures fresh { OnOk result (IsFresh self.new) }
        ensures own { OnOk result (IsFor id.0 self.new.table) }
        ensures program { program_of self.new ≡ program_of self.old }
    {
        self.freshen()?;
        self.table.settle_for(id)
    }

    /// Where the search for the active constraint goes on, if the last bookmark says so.
    fn cursor(&self, active: &Active<'_, A>) -> Option<Cursor>
        ensures { GoesOn (rules_of (program_of self.now)) (base_view self.now) active.now result }
    {
        match self.bookmarks.as_slice().last() {
            None => None,
            Some(bookmark) => {
                if bookmark.is_of(active) {
                    Some(bookmark.cursor)
                } else {
                    None
                }
            }
        }
    }

    /// Drops the last bookmark, where it is one of this constraint.
    pub(crate) fn forget(&mut self, id: Id)
        ensures same { IsSameBase self.old self.new }
        ensures room { vec_len self.old.bookmarks < vec_capacity self.old.bookmarks →
            vec_len self.new.bookmarks < vec_capacity self.new.bookmarks }
    {
        let is_of = match self.bookmarks.as_slice().last() {
            None => false,
            Some(bookmark) => bookmark.id == id,
        };
        if is_of {
            let _bookmark = self.bookmarks.pop();
        }
    }

    /// Lets go of where the search for a constraint goes on, for one that is not searched for any more. Contracts see the same base.
    pub fn end_search(&mut self, id: Id)
        ensures same { base_view self.new ≡ base_view self.old }
        ensures program { program_of self.new ≡ program_of self.old }
    {
        self.forget(id);
    }

    /// The row of a constraint with the bindings applied. That of one that was stored without variables stands in the store as it is.
    pub(crate) fn row(&self, id: Id) -> Option<&Row<A>>
        requires { IsFresh self.now }
        ensures { option_map (λ row. row_atom row.now) result ≡ atom_at self.now.table id.0 }
    {
        if let Some(row) = self.store.row(id) {
            if row.args.is_ground() {
                return Some(row);
            }
        }
        self.table.row(id)
    }

    /// What the search finds in a table that is ready for the active constraint.
    fn found(&self, active: &Active<'_, A>) -> Result<Option<HeadIds>, Memory>
        requires of_program { slice_get (rules_of (program_of self.now)) active.now.number
            ≡ Some (rule_view active.now.rule.now) }
        requires fresh { IsFresh self.now }
        requires own { IsFor active.now.id.0 self.now.table }
        ensures found { IfOk result (FindsFirst (base_view self.now) active.now) }
        ensures dead { atom_of (base_view self.now).store.rows active.now.id.0 ≡ None →
            IfOk result (λ found. found ≡ None) }
    {
        let row = match self.row(active.id) {
            None => return Ok(None),
            Some(row) => row,
        };
        let mut tried = Tried::nothing();
        match self.cursor(active) {
            None => self.table.first(active, row, &self.history, &mut tried),
            Some(cursor) => self
                .table
                .next(active, row, &self.history, &cursor, &mut tried),
        }
    }

    /// The identities of the first constraints with which the rule can fire, in head order. Contracts see the same base, after a refusal
    /// too.
    pub fn first(&mut self, active: &Active<'_, A>) -> Result<Option<HeadIds>, Memory>
        requires of_program { slice_get (rules_of (program_of self.old)) active.now.number
            ≡ Some (rule_view active.now.rule.now) }
        ensures same { base_view self.new ≡ base_view self.old }
        ensures fresh { OnOk result (IsFresh self.new) }
        ensures found { IfOk result (FindsFirst (base_view self.old) active.now) }
        ensures dead { atom_of (base_view self.old).store.rows active.now.id.0 ≡ None →
            IfOk result (λ found. found ≡ None) }
        ensures program { program_of self.new ≡ program_of self.old }
    {
        self.ready(active.id)?;
        let found = self.found(active)?;
        if found.is_none() {
            self.forget(active.id);
        }
        Ok(found)
    }

    /// How many lists a search of a table looks at that is ready for the active constraint.
    fn tried(&self, active: &Active<'_, A>) -> Result<Tried, Memory>
        requires fresh { IsFresh self.now }
        requires own { IsFor active.now.id.0 self.now.table }
        ensures { IfOk result (IsTried (base_view self.now) active.now) }
    {
        let row = match self.row(active.id) {
            None => return Ok(Tried::nothing()),
            Some(row) => row,
        };
        self.table.tried(active, row, &self.history)
    }

    /// How many lists a search for the active constraint looks at that begins anew: the complete ones up to and with the first with which the
    /// rule can fire, and the partial ones up to it; no more than 64 bits count. Contracts see the same base, after a refusal too.
    pub fn tries(&mut self, active: &Active<'_, A>) -> Result<Tried, Memory>
        ensures same { base_view self.new ≡ base_view self.old }
        ensures fresh { OnOk result (IsFresh self.new) }
        ensures tries { IfOk result (IsTried (base_view self.old) active.now) }
        ensures program { program_of self.new ≡ program_of self.old }
    {
        self.ready(active.id)?;
        self.tried(active)
    }

    /// The goals of the body of a rule that fires with constraints, given in head order, whose heads fit them.
    pub fn body(&self, rule: &Rule<A>, ids: &HeadIds) -> Result<Vec<Goal<A>, A>, Memory>
        requires fresh { IsFresh self.now }
        requires bounded { IsBounded (rule_view rule.now) }
        ensures { IfOk result (λ built. IsBodyFor (base_view self.now) (rule_view rule.now) ids.now (map (λ g. goal (goal_view g)) built.items)) }
    {
        let next = self.bindings.len();
        build_fired(self.alloc, self, rule, ids.as_slice(), next)
    }
}
