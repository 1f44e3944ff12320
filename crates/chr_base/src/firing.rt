//! What a firing changes.
ghost use Rattle.std.specs.Prelude.{◌≡◌, ◌≢◌, ◌≤◌, ◌<◌, ◌+◌, AllPairs, IfOk, ℕ, OnErr, OnOk, Some, drop, false, length, reverse, slice_get, true, vec_capacity, vec_len};
ghost use Rattle.std.specs.List.{fold, list_all};
ghost use Rattle.chr_semantics.specs.Changes.{entered, removed};
ghost use Rattle.chr_semantics.specs.Search.{has_number};
ghost use Rattle.chr_semantics.specs.declared.limits.TheConstants.{MAX_CHANGES, MAX_HEADS};
ghost use Rattle.chr_store.specs.Rows.{row_atom};
ghost use Rattle.chr_store.specs.StoreView.{store_view};
ghost use Rattle.chr_rules.specs.ProgramView.{rules_of};
ghost use Rattle.chr_rules.specs.RuleView.{rule_view};
ghost use Rattle.chr_find.specs.TableView.{HasRoom, IsSettled, atom_at, atoms_with};
ghost use Rattle.chr_base.specs.Agreement.{is_alive};
ghost use Rattle.chr_base.specs.Bookmarks.{IsAhead};
ghost use Rattle.chr_base.specs.Entering.{CanEnter};
ghost use Rattle.chr_base.specs.Leaving.{AreStanding, leaving_ids};
ghost use Rattle.chr_base.specs.Lending.{HasPlace};
ghost use Rattle.chr_base.specs.Searching.{FindsFirst};

use crate::Memory;
use crate::base::Base;
use crate::bookmark::Bookmark;
use crate::sharing::{note, room_to_note};
use chr_find::{Active, Cursor};
use chr_map::Share;
use chr_store::{Fired, HeadIds, Id, Row};
use std::alloc::Allocator;

/// A constraint that is to be removed, with its row of the table.
#[derive(Drop)]
pub(crate) struct Leaving<A: Allocator> {
    pub(crate) id: Id,
    pub(crate) row: Row<A>,
}

impl<'p, A: Allocator + Copy> Base<'p, A> {
    ghost use Rattle.chr_base.specs.BaseView.{base_view, program_of};

    /// The constraints that leave, those behind the first `kept`, with their rows, the last one first.
    fn leaving(&self, ids: &HeadIds, kept: usize) -> Result<Vec<Leaving<A>, A>, Memory>
        requires settled { IsSettled self.now.table }
        requires alive { list_all (is_alive (store_view self.now.store)) ids.now ≡ true }
        ensures ids { IfOk result (λ leaving. leaving_ids leaving.items ≡ drop kept ids.now) }
        ensures there { IfOk result
            (λ leaving. AreStanding (atom_at self.now.table) (reverse leaving.items)) }
        ensures few { IfOk result (λ leaving. length leaving.items ≤ MAX_HEADS) }
    {
        let mut left = ids.len();
        let mut leaving = Vec::with_capacity(self.alloc, left.saturating_sub(kept))?;
        while left > kept {
            left -= 1;
            if let Some(id) = ids.get(left) {
                if let Some(row) = self.table.row(id) {
                    let row = row.share()?;
                    leaving.push(Leaving { id, row })?;
                }
            }
        }
        Ok(leaving)
    }

    /// Removes a constraint that stands in the table.
    fn take_out(&mut self, leaving: Leaving<A>)
        requires few { (base_view self.old).store.changes < MAX_CHANGES }
        requires room { HasRoom 1 self.old.table }
        requires there { atom_at self.old.table leaving.id.0 ≡ Some (row_atom leaving.row) }
        ensures base { base_view self.new
            ≡ record (base_view self.old) { store = removed (base_view self.old).store leaving.id.0 } }
        ensures atoms { (i : ℕ) → atom_at self.new.table i
            ≡ atoms_with (atom_at self.old.table) leaving.id.0 None i }
        ensures room { (n : ℕ) → HasRoom (n + 1) self.old.table → HasRoom n self.new.table }
        ensures program { program_of self.new ≡ program_of self.old }
        ensures bookmarks { self.new.bookmarks ≡ self.old.bookmarks }
    {
        let Leaving { id, row } = leaving;
        self.store.remove(id);
        self.table.remove(id, row);
    }

    /// Removes constraints that stand in the table, the last one first.
    fn take_out_all(&mut self, mut leaving: Vec<Leaving<A>, A>)
        requires few { (base_view self.old).store.changes + length leaving.items ≤ MAX_CHANGES }
        requires room { HasRoom (length leaving.items) self.old.table }
        requires there { AreStanding (atom_at self.old.table) (reverse leaving.items) }
        requires different { AllPairs (λ i j. i ≢ j) (leaving_ids leaving.items) }
        ensures base { base_view self.new
            ≡ record (base_view self.old) {
              store = fold removed (base_view self.old).store
                  (leaving_ids leaving.items);
            } }
        ensures program { program_of self.new ≡ program_of self.old }
        ensures bookmarks { self.new.bookmarks ≡ self.old.bookmarks }
    {
        while let Some(next) = leaving.pop() {
            self.take_out(next);
        }
    }

    /// Enters a firing, and makes new variables, for which there is room.
    fn enter(&mut self, fired: &Fired, variables: usize) -> Result<(), Memory>
        requires can { CanEnter (base_view self.old) fired.now }
        requires spare { variables ≤ self.old.bindings.spare }
        requires place { HasPlace self.old.firings }
        ensures ok { OnOk result (base_view self.new
            ≡ record (base_view self.old) {
              entries = entered (base_view self.old).entries fired.now.rule fired.now.ids;
              next_var = (base_view self.old).next_var + variables;
            }) }
        ensures err { OnErr result (base_view self.new ≡ base_view self.old) }
        ensures program { program_of self.new ≡ program_of self.old }
        ensures bookmarks { self.new.bookmarks ≡ self.old.bookmarks }
    {
        self.history.put(*fired)?;
        match self.bindings.fresh(variables) {
            Ok(_) => {}
            Err(_) => unreachable!(),
        }
        note(&mut self.firings, fired);
        Ok(())
    }

    /// Enters a firing that removes one of its constraints: no snapshot asks for what fired with that, so it is never noted.
    fn enter_without(
        &mut self,
        fired: &Fired,
        variables: usize,
        leaving: Leaving<A>,
    ) -> Result<(), Memory>
        requires can { CanEnter (base_view self.old) fired.now }
        requires spare { variables ≤ self.old.bindings.spare }
        requires few { (base_view self.old).store.changes < MAX_CHANGES }
        requires room { HasRoom 1 self.old.table }
        requires there { atom_at self.old.table leaving.id.0 ≡ Some (row_atom leaving.row) }
        requires among { has_number fired.now.ids leaving.id.0 ≡ true }
        ensures ok { OnOk result (base_view self.new
            ≡ record (base_view self.old) {
              store = removed (base_view self.old).store leaving.id.0;
              entries = entered (base_view self.old).entries fired.now.rule fired.now.ids;
              next_var = (base_view self.old).next_var + variables;
            }) }
        ensures err { OnErr result (base_view self.new ≡ base_view self.old) }
        ensures atoms { OnOk result ((i : ℕ) → atom_at self.new.table i
            ≡ atoms_with (atom_at self.old.table) leaving.id.0 None i) }
        ensures room { OnOk result ((n : ℕ) → HasRoom (n + 1) self.old.table → HasRoom n self.new.table) }
        ensures program { program_of self.new ≡ program_of self.old }
        ensures bookmarks { self.new.bookmarks ≡ self.old.bookmarks }
    {
        self.history.put(*fired)?;
        match self.bindings.fresh(variables) {
            Ok(_) => {}
            Err(_) => unreachable!(),
        }
        let Leaving { id, row } = leaving;
        self.store.remove(id);
        self.table.remove(id, row);
        Ok(())
    }

    /// Enters a firing, makes new variables, and removes those of its constraints that leave, the last one first, with room for all.
    fn enter_all(
        &mut self,
        fired: &Fired,
        variables: usize,
        mut leaving: Vec<Leaving<A>, A>,
    ) -> Result<(), Memory>
        requires can { CanEnter (base_view self.old) fired.now }
        requires spare { variables ≤ self.old.bindings.spare }
        requires few { (base_view self.old).store.changes + length leaving.items ≤ MAX_CHANGES }
        requires room { HasRoom (length leaving.items) self.old.table }
        requires place { HasPlace self.old.firings }
        requires there { AreStanding (atom_at self.old.table) (reverse leaving.items) }
        requires different { AllPairs (λ i j. i ≢ j) (leaving_ids leaving.items) }
        requires among { list_all (has_number fired.now.ids) (leaving_ids leaving.items) ≡ true }
        ensures ok { OnOk result (base_view self.new
            ≡ record (base_view self.old) {
              store = fold removed (base_view self.old).store (leaving_ids leaving.items);
              entries = entered (base_view self.old).entries fired.now.rule fired.now.ids;
              next_var = (base_view self.old).next_var + variables;
            }) }
        ensures err { OnErr result (base_view self.new ≡ base_view self.old) }
        ensures program { program_of self.new ≡ program_of self.old }
        ensures bookmarks { self.new.bookmarks ≡ self.old.bookmarks }
    {
        match leaving.pop() {
            None => self.enter(fired, variables),
            Some(first) => {
                self.enter_without(fired, variables, first)?;
                self.take_out_all(leaving);
                Ok(())
            }
        }
    }

    /// Enters a firing of which the first `kept` constraints stay and the others are removed, and makes new variables. Where memory is
    /// refused, nothing changes.
    fn settle_fired(&mut self, fired: &Fired, kept: usize, variables: usize) -> Result<(), Memory>
        requires can { CanEnter (base_view self.old) fired.now }
        requires changes { (base_view self.old).store.changes + MAX_HEADS ≤ MAX_CHANGES }
        ensures ok { OnOk result (base_view self.new
            ≡ record (base_view self.old) {
              store = fold removed (base_view self.old).store (drop kept fired.now.ids);
              entries = entered (base_view self.old).entries fired.now.rule fired.now.ids;
              next_var = (base_view self.old).next_var + variables;
            }) }
        ensures err { OnErr result (base_view self.new ≡ base_view self.old) }
        ensures program { program_of self.new ≡ program_of self.old }
        ensures bookmarks { self.new.bookmarks ≡ self.old.bookmarks }
    {
        self.table.settle()?;
        let leaving = self.leaving(&fired.ids, kept)?;
        self.table.room(leaving.len())?;
        room_to_note(&mut self.firings)?;
        self.bindings.room(variables)?;
        self.enter_all(fired, variables, leaving)
    }

    /// Takes a bookmark in, in place of the last one where that is of the same constraint. There is room for it.
    fn put(&mut self, bookmark: Bookmark)
        requires room { vec_len self.old.bookmarks < vec_capacity self.old.bookmarks }
        requires ahead { IsAhead (rules_of (program_of self.old)) (base_view self.old) bookmark }
        ensures base { base_view self.new ≡ base_view self.old }
        ensures program { program_of self.new ≡ program_of self.old }
    {
        self.forget(bookmark.id);
        self.bookmarks.push_reserved(bookmark);
    }

    /// The rule fires with the constraints that were found first for the active one, given in head order. Those behind the rule's kept
    /// heads are removed; `variables` is how many new ones the body has. Where memory is refused, nothing changes.
    pub fn fire(
        &mut self,
        active: &Active<'_, A>,
        ids: &HeadIds,
        variables: usize,
    ) -> Result<(), Memory>
        requires changes { (base_view self.old).store.changes + MAX_HEADS ≤ MAX_CHANGES }
        requires of_program { slice_get (rules_of (program_of self.old)) active.now.number
            ≡ Some (rule_view active.now.rule.now) }
        requires lives { is_alive (base_view self.old).store active.now.id.0 ≡ true }
        requires found { FindsFirst (base_view self.old) active.now (Some ids.now) }
        ensures ok { OnOk result (base_view self.new
            ≡ record (base_view self.old) {
              store = fold removed (base_view self.old).store (drop active.now.rule.now.kept ids.now);
              entries = entered (base_view self.old).entries active.now.number ids.now;
              next_var = (base_view self.old).next_var + variables;
            }) }
        ensures err { OnErr result (base_view self.new ≡ base_view self.old) }
        ensures program { program_of self.new ≡ program_of self.old }
    {
        let fired = Fired {
            rule: active.number,
            ids: *ids,
        };
        let kept = active.rule.kept;
        if active.place >= kept {
            return self.settle_fired(&fired, kept, variables);
        }
        self.bookmarks.reserve(1)?;
        let bookmark = Bookmark {
            id: active.id,
            number: active.number,
            place: active.place,
            cursor: Cursor {
                after: *ids,
                from: self.store.next().0,
            },
        };
        self.settle_fired(&fired, kept, variables)?;
        self.put(bookmark);
        Ok(())
    }
}
