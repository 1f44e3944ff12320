//! The join: the lists of partners for the heads of a rule, in order.
ghost use Rattle.std.specs.Prelude.{◌≡◌, ◌+◌, ◌<◌, ◌≤◌, ◌^◌, ◌∷◌, ◌++◌, [], IfOk, drop, length, vec_len};
ghost use Rattle.chr_semantics.specs.declared.limits.TheConstants.{MAX_HEADS};
ghost use Rattle.chr_store.specs.Rows.{row_atom};
ghost use Rattle.chr_find.specs.Threshold.{threshold_bound, next_threshold};
ghost use Rattle.chr_find.specs.CursorStateView.{threshold_of};
ghost use Rattle.chr_find.specs.SearchIs.{JoinLeads, RowLeads, WalkLeads, threshold_at};
ghost use Rattle.chr_find.specs.IdRows.{id_rows};
ghost use Rattle.chr_find.specs.RowSpans.{span_rows};

use crate::Memory;
use crate::bucket_rows::RowSpan;
use crate::candidates::{bucket_for, takes};
use crate::firing_history::FiringHistory;
use crate::search::{Prefix, Reached, Search};
use chr_bind::{Match, guard_holds};
use chr_map::Span;
use chr_store::{Id, Row};
use std::alloc::Allocator;

impl<'a, P: FiringHistory, A: Allocator + Copy> Search<'a, P, A> {
    /// With one more partner.
    fn longer(&self, prefix: &Prefix, id: Id) -> Prefix
        requires { length prefix.now.partners < MAX_HEADS }
        ensures partners { result.partners ≡ prefix.now.partners ++ id.0 ∷ [] }
        ensures threshold { threshold_of result.mode (drop (length prefix.now.partners + 1) self.now.after.now)
            ≡ next_threshold self.now.from (threshold_at (P.history self.now.past.now) self.now prefix.now) id.0 }
    {
        let level = prefix.partners.len();
        let mut partners = prefix.partners;
        partners.push(id);
        Prefix {
            partners,
            mode: prefix.mode.next(self.after, level, self.from, id.0),
        }
    }

    /// Rows with lesser identities may be passed over for the next head.
    fn least(&self, prefix: &Prefix) -> u64
        ensures bound { result ≤ threshold_bound self.now.from
            (threshold_at (P.history self.now.past.now) self.now prefix.now) }
        ensures quiet { 0 < result → self.now.quiet < length prefix.now.partners + 2 }
    {
        let level = prefix.partners.len();
        if self.quiet <= level + 1 {
            prefix.mode.bound(self.after, level, self.from)
        } else {
            0
        }
    }

    /// The first list that begins with the partners so far, fits and may fire, with one try more for each complete list, and one partial
    /// list more each time a partner is looked for. Where none is found, the match is as before.
    #[cycle(join)]
    pub(crate) fn join(
        &self,
        prefix: &Prefix,
        matching: &mut Match<'a, A>,
        reached: &mut Reached,
    ) -> Result<bool, Memory>
        requires { length prefix.now.partners ≤ vec_len self.now.rule.now.heads }
        ensures { IfOk result (JoinLeads (P.history self.now.past.now) self.now prefix.now
            matching.old matching.new reached.old reached.new) }
    {
        let level = prefix.partners.len();
        if level >= self.rule.heads.len() {
            return self.try_list(prefix, matching, reached);
        }
        if level == self.place {
            return self.join(&self.longer(prefix, self.own), matching, reached);
        }
        reached.tried.partial = reached.tried.partial.saturating_add(1);
        let (sym, args) = &self.rule.heads[level];
        let bucket = bucket_for(self.plan, self.rows, *sym, args.as_slice(), matching);
        let least = self.least(prefix);
        self.visit_bucket(self.rows.rows(&bucket), least, prefix, matching, reached)
    }

    /// As `join`, where the next partner is one of these rows, and its identity is not below `least`.
    #[cycle(join)]
    fn visit_bucket(
        &self,
        rows: RowSpan<'a, A>,
        least: u64,
        prefix: &Prefix,
        matching: &mut Match<'a, A>,
        reached: &mut Reached,
    ) -> Result<bool, Memory>
        requires inside { length prefix.now.partners < vec_len self.now.rule.now.heads }
        requires bound { least ≤ threshold_bound self.now.from
            (threshold_at (P.history self.now.past.now) self.now prefix.now) }
        requires quiet { 0 < least → self.now.quiet < length prefix.now.partners + 2 }
        ensures { IfOk result (WalkLeads (P.history self.now.past.now) self.now prefix.now
            (span_rows rows.entry) matching.old matching.new reached.old reached.new) }
    {
        // For the proof: that the counts have 64 bits is known once they are read.
        let _lists = reached.tried.lists;
        let _partial = reached.tried.partial;
        match rows {
            RowSpan::Empty => Ok(false),
            RowSpan::One(id, row) => {
                if id.0 < least {
                    Ok(false)
                } else {
                    self.try_row(id, row, prefix, matching, reached)
                }
            }
            RowSpan::Many(span) => self.visit(span, least, prefix, matching, reached),
        }
    }

    /// As `join`, where the next partner is a row of a span, and its identity is not below `least`.
    #[cycle(join)]
    fn visit(
        &self,
        span: Span<'a, Id, Row<A>, A>,
        least: u64,
        prefix: &Prefix,
        matching: &mut Match<'a, A>,
        reached: &mut Reached,
    ) -> Result<bool, Memory>
        requires inside { length prefix.now.partners < vec_len self.now.rule.now.heads }
        requires bound { least ≤ threshold_bound self.now.from
            (threshold_at (P.history self.now.past.now) self.now prefix.now) }
        requires quiet { 0 < least → self.now.quiet < length prefix.now.partners + 2 }
        ensures { IfOk result (WalkLeads (P.history self.now.past.now) self.now prefix.now
            (id_rows span.entry) matching.old matching.new reached.old reached.new) }
    {
        // For the proof: that the counts have 64 bits is known once they are read.
        let _lists = reached.tried.lists;
        let _partial = reached.tried.partial;
        if least == 0 {
            return self.walk(span, prefix, matching, reached);
        }
        let middle = match span.middle() {
            None => return Ok(false),
            Some(middle) => middle,
        };
        if middle.key.0 < least {
            return self.visit(middle.after, least, prefix, matching, reached);
        }
        if self.visit_some(middle.before, least, prefix, matching, reached)? {
            return Ok(true);
        }
        if self.try_row(*middle.key, middle.value, prefix, matching, reached)? {
            return Ok(true);
        }
        self.walk(middle.after, prefix, matching, reached)
    }

    /// As `visit`, of which an empty span is spared.
    #[cycle(join)]
    fn visit_some(
        &self,
        span: Span<'a, Id, Row<A>, A>,
        least: u64,
        prefix: &Prefix,
        matching: &mut Match<'a, A>,
        reached: &mut Reached,
    ) -> Result<bool, Memory>
        requires inside { length prefix.now.partners < vec_len self.now.rule.now.heads }
        requires bound { least ≤ threshold_bound self.now.from
            (threshold_at (P.history self.now.past.now) self.now prefix.now) }
        requires quiet { 0 < least → self.now.quiet < length prefix.now.partners + 2 }
        ensures { IfOk result (WalkLeads (P.history self.now.past.now) self.now prefix.now
            (id_rows span.entry) matching.old matching.new reached.old reached.new) }
    {
        // For the proof: that the counts have 64 bits is known once they are read.
        let _lists = reached.tried.lists;
        let _partial = reached.tried.partial;
        if span.is_empty() {
            return Ok(false);
        }
        self.visit(span, least, prefix, matching, reached)
    }

    /// As `join`, where the next partner is a row of a span: one row after another.
    #[cycle(join)]
    fn walk(
        &self,
        span: Span<'a, Id, Row<A>, A>,
        prefix: &Prefix,
        matching: &mut Match<'a, A>,
        reached: &mut Reached,
    ) -> Result<bool, Memory>
        requires { length prefix.now.partners < vec_len self.now.rule.now.heads }
        ensures { IfOk result (WalkLeads (P.history self.now.past.now) self.now prefix.now
            (id_rows span.entry) matching.old matching.new reached.old reached.new) }
    {
        // For the proof: that the counts have 64 bits is known once they are read.
        let _lists = reached.tried.lists;
        let _partial = reached.tried.partial;
        let mut left = span;
        while let Some(middle) = left.leading() {
            if self.walk_some(middle.before, prefix, matching, reached)? {
                return Ok(true);
            }
            if self.try_row(*middle.key, middle.value, prefix, matching, reached)? {
                return Ok(true);
            }
            left = middle.after;
        }
        Ok(false)
    }

    /// As `walk`, of which an empty span is spared.
    #[cycle(join)]
    fn walk_some(
        &self,
        span: Span<'a, Id, Row<A>, A>,
        prefix: &Prefix,
        matching: &mut Match<'a, A>,
        reached: &mut Reached,
    ) -> Result<bool, Memory>
        requires { length prefix.now.partners < vec_len self.now.rule.now.heads }
        ensures { IfOk result (WalkLeads (P.history self.now.past.now) self.now prefix.now
            (id_rows span.entry) matching.old matching.new reached.old reached.new) }
    {
        // For the proof: that the counts have 64 bits is known once they are read.
        let _lists = reached.tried.lists;
        let _partial = reached.tried.partial;
        if span.is_empty() {
            return Ok(false);
        }
        self.walk(span, prefix, matching, reached)
    }

    /// As `join`, where the next partner is this row.
    #[cycle(join)]
    fn try_row(
        &self,
        id: Id,
        row: &'a Row<A>,
        prefix: &Prefix,
        matching: &mut Match<'a, A>,
        reached: &mut Reached,
    ) -> Result<bool, Memory>
        requires { length prefix.now.partners < vec_len self.now.rule.now.heads }
        ensures { IfOk result (WalkLeads (P.history self.now.past.now) self.now prefix.now
            ((id.0, row_atom row.now) ∷ []) matching.old matching.new reached.old reached.new) }
    {
        let marks = matching.marks();
        if self.join_row(id, row, prefix, matching, reached)? {
            return Ok(true);
        }
        matching.back_to(&marks);
        Ok(false)
    }

    /// As `try_row`, but where nothing is found, some variables more may be matched.
    #[cycle(join)]
    fn join_row(
        &self,
        id: Id,
        row: &'a Row<A>,
        prefix: &Prefix,
        matching: &mut Match<'a, A>,
        reached: &mut Reached,
    ) -> Result<bool, Memory>
        requires { length prefix.now.partners < vec_len self.now.rule.now.heads }
        ensures { IfOk result (RowLeads (P.history self.now.past.now) self.now prefix.now
            (id.0, row_atom row.now) matching.old matching.new reached.old reached.new) }
    {
        // For the proof: that the counts have 64 bits is known once they are read.
        let _lists = reached.tried.lists;
        let _partial = reached.tried.partial;
        let head = &self.rule.heads[prefix.partners.len()];
        if takes(self.own, &prefix.partners, head, id, row, matching) {
            self.join(&self.longer(prefix, id), matching, reached)
        } else {
            Ok(false)
        }
    }

    /// The list of all partners, if it may fire.
    fn try_list(
        &self,
        prefix: &Prefix,
        matching: &Match<'a, A>,
        reached: &mut Reached,
    ) -> Result<bool, Memory>
        requires { length prefix.now.partners ≡ vec_len self.now.rule.now.heads }
        ensures { IfOk result (JoinLeads (P.history self.now.past.now) self.now prefix.now
            matching.now matching.now reached.old reached.new) }
    {
        // For the proof: that the counts have 64 bits is known once they are read.
        let _lists = reached.tried.lists;
        let _partial = reached.tried.partial;
        if !prefix.mode.is_free() {
            return Ok(false);
        }
        reached.tried.lists = reached.tried.lists.saturating_add(1);
        if self.past.was_fired(self.number, &prefix.partners) {
            return Ok(false);
        }
        if guard_holds(self.alloc, self.rule.guard.as_slice(), matching)? {
            reached.partners = prefix.partners;
            return Ok(true);
        }
        Ok(false)
    }
}
