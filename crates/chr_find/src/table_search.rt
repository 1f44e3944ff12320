//! The search of a table.
ghost use Rattle.std.specs.Prelude.{◌≡◌, IfOk, Some, true};
ghost use Rattle.chr_find.specs.Finding.{FindsFirst, FindsJoined, FindsNext, FitsJoined, HasTried};
ghost use Rattle.chr_store.specs.Rows.{row_atom};
ghost use Rattle.chr_find.specs.CursorStateView.{threshold_of};
ghost use Rattle.chr_find.specs.Threshold.{free};
ghost use Rattle.chr_find.specs.TableView.{IsFor, IsSettled, atom_at};

use crate::Memory;
use crate::active::{Active, Cursor};
use crate::cursor_state::CursorState;
use crate::firing_history::FiringHistory;
use crate::new_partners::quiet_from;
use crate::search::Search;
use crate::table::Table;
use crate::tried::Tried;
use chr_store::{HeadIds, Row};
use std::alloc::Allocator;

impl<A: Allocator + Copy> Table<A> {
    /// The first list of partners, after a list or from the beginning, where no constraint for a head from `quiet` on is new.
    fn found<P: FiringHistory>(
        &self,
        active: &Active<'_, A>,
        own: &Row<A>,
        past: &P,
        mode: CursorState,
        after: &HeadIds,
        from: u64,
        quiet: usize,
        counts: bool,
        tried: &mut Tried,
    ) -> Result<Option<HeadIds>, Memory>
        requires settled { IsSettled self.now }
        requires row { atom_at self.now active.now.id.0 ≡ Some (row_atom own.now) }
        ensures finds { IfOk result (λ found. FindsJoined (P.history past.now) self.now active.now from quiet
            (threshold_of mode after.now) found tried.old.lists tried.new.lists) }
        ensures counts { IfOk result (λ found. counts ≡ true → threshold_of mode after.now ≡ free →
            FitsJoined (P.history past.now) self.now active.now found tried.old.partial tried.new.partial) }
    {
        let search = Search {
            alloc: self.alloc,
            plan: self.index.plan.value(),
            rows: &self.index.rows,
            past,
            rule: active.rule,
            number: active.number,
            place: active.place,
            own: active.id,
            after,
            from,
            quiet,
            counts,
        };
        search.first(own, mode, tried)
    }

    /// The first list of partners with which the rule can fire, and one try more for each complete list that was looked at: of partial
    /// lists, no more are looked at than that takes. The active constraint has this row, and the table is ready to be searched for it.
    pub fn first<P: FiringHistory>(
        &self,
        active: &Active<'_, A>,
        own: &Row<A>,
        past: &P,
        tried: &mut Tried,
    ) -> Result<Option<HeadIds>, Memory>
        requires settled { IsSettled self.now }
        requires own { IsFor active.now.id.0 self.now }
        requires row { atom_at self.now active.now.id.0 ≡ Some (row_atom own.now) }
        ensures { IfOk result (λ found. FindsFirst (P.history past.now) self.now active.now found tried.old.lists
            tried.new.lists) }
    {
        let quiet = active.rule.heads.len();
        let after = HeadIds::new();
        self.found(
            active,
            own,
            past,
            CursorState::Free,
            &after,
            0,
            quiet,
            false,
            tried,
        )
    }

    /// As `first`, where each list that can fire is ahead of the cursor: no other is looked at.
    pub fn next<P: FiringHistory>(
        &self,
        active: &Active<'_, A>,
        own: &Row<A>,
        past: &P,
        cursor: &Cursor,
        tried: &mut Tried,
    ) -> Result<Option<HeadIds>, Memory>
        requires settled { IsSettled self.now }
        requires own { IsFor active.now.id.0 self.now }
        requires row { atom_at self.now active.now.id.0 ≡ Some (row_atom own.now) }
        ensures { IfOk result (λ found. FindsNext (P.history past.now) self.now active.now cursor.now found) }
    {
        let (plan, rows) = (self.index.plan.value(), &self.index.rows);
        let from = cursor.from;
        let quiet = quiet_from(plan, rows, active.rule, active.place, active.id.0, from);
        self.found(
            active,
            own,
            past,
            CursorState::On,
            &cursor.after,
            from,
            quiet,
            false,
            tried,
        )
    }

    /// What a search looks at that begins anew: the complete lists, up to and with the first with which the rule can fire, and the partial
    /// ones up to it. The active constraint has this row, and the table is ready to be searched for it.
    pub fn tried<P: FiringHistory>(
        &self,
        active: &Active<'_, A>,
        own: &Row<A>,
        past: &P,
    ) -> Result<Tried, Memory>
        requires settled { IsSettled self.now }
        requires own { IsFor active.now.id.0 self.now }
        requires row { atom_at self.now active.now.id.0 ≡ Some (row_atom own.now) }
        ensures { IfOk result (HasTried (P.history past.now) self.now active.now) }
    {
        let quiet = active.rule.heads.len();
        let after = HeadIds::new();
        let mut tried = Tried::nothing();
        let _found = self.found(
            active,
            own,
            past,
            CursorState::Free,
            &after,
            0,
            quiet,
            true,
            &mut tried,
        )?;
        Ok(tried)
    }
}
