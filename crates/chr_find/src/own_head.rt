//! The whole search of a rule: the own head first, and then the join.
ghost use Rattle.std.specs.Prelude.{◌≡◌, ◌<◌, IfOk, Some, slice_get, true, vec_len};
ghost use Rattle.chr_rules.specs.RuleView.{rule_view};
ghost use Rattle.chr_store.specs.Rows.{row_atom};
ghost use Rattle.chr_semantics.specs.Program.{Head};
ghost use Rattle.chr_find.specs.Barren.{IsBarren, LacksPartner};
ghost use Rattle.chr_find.specs.PlanView.{lookups_of};
ghost use Rattle.chr_find.specs.SearchIs.{OwnCounts, OwnFinds};
ghost use Rattle.chr_find.specs.Shown.{ForRows};

use crate::Memory;
use crate::candidates::{fits, some_bucket_for};
use crate::cursor_state::CursorState;
use crate::firing_history::FiringHistory;
use crate::new_partners::has_new;
use crate::search::{Prefix, Reached, Search};
use crate::tried::Tried;
use chr_bind::Match;
use chr_store::{HeadIds, Row};
use std::alloc::Allocator;

impl<'a, P: FiringHistory, A: Allocator + Copy> Search<'a, P, A> {
    /// Whether no constraint can stand at the head of the level under the match.
    fn is_barren(&self, level: usize, matching: &Match<'a, A>) -> bool
        requires { level < vec_len self.now.rule.now.heads }
        ensures { result ≡ true → (x : Head) → slice_get (rule_view self.now.rule.now).heads level ≡ Some x →
            ForRows (lookups_of self.now.plan.now) self.now.rows.now (λ rows. IsBarren rows matching.now x) }
    {
        let (sym, args) = &self.rule.heads[level];
        let bucket = some_bucket_for(self.plan, *sym, args.as_slice(), matching);
        !has_new(self.rows.rows(&bucket), 0)
    }

    /// Whether that is so of some head but the own one, which tells at once that nothing is found. The first partner is not asked for: the join
    /// looks at its bucket at once.
    fn lacks_partner(&self, matching: &Match<'a, A>) -> bool
        ensures { result ≡ true → ForRows (lookups_of self.now.plan.now) self.now.rows.now
            (λ rows. LacksPartner rows matching.now (rule_view self.now.rule.now).heads self.now.place) }
    {
        let first = if self.place == 0 { 1 } else { 0 };
        for level in 0..self.rule.heads.len() {
            if level != self.place && level != first && self.is_barren(level, matching) {
                return true;
            }
        }
        false
    }

    /// The first list with the own constraint in its place that may fire, and what was tried beside.
    pub(crate) fn first(
        &self,
        row: &'a Row<A>,
        mode: CursorState,
        tried: &mut Tried,
    ) -> Result<Option<HeadIds>, Memory>
        ensures finds { IfOk result (λ found. OwnFinds (P.history self.now.past.now) self.now
            (row_atom row.now) mode found tried.old.lists tried.new.lists) }
        ensures counts { IfOk result (λ found. self.now.counts ≡ true → OwnCounts (P.history self.now.past.now) self.now
            (row_atom row.now) mode found tried.old.partial tried.new.partial) }
    {
        // For the proof: that the counts have 64 bits is known once they are read.
        let _lists = tried.lists;
        let _partial = tried.partial;
        let mut matching = Match::new();
        if !fits(&self.rule.heads[self.place], row, &mut matching) {
            return Ok(None);
        }
        // With one partner there is no other to ask for.
        if self.rule.heads.len() > 2 && !self.counts && self.lacks_partner(&matching) {
            return Ok(None);
        }
        let start = Prefix {
            partners: HeadIds::new(),
            mode,
        };
        let mut reached = Reached {
            partners: HeadIds::new(),
            tried: *tried,
        };
        let is_found = self.join(&start, &mut matching, &mut reached)?;
        *tried = reached.tried;
        if is_found {
            Ok(Some(reached.partners))
        } else {
            Ok(None)
        }
    }
}
