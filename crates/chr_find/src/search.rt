//! What a search goes by, and what it comes to.
ghost use Rattle.chr_rules.specs.Bounds.{bounds};
ghost use Rattle.chr_find.specs.SearchView.{IsSearchable};

use crate::cursor_state::CursorState;
use crate::index::Index;
use crate::plan::Plan;
use crate::tried::Tried;
use chr_rules::Rule;
use chr_store::{HeadIds, Id};
use std::alloc::Allocator;

/// What stays the same in a search.
#[derive(Drop)]
pub(crate) struct Search<'a, P, A: Allocator> {
    pub(crate) alloc: A,
    pub(crate) plan: &'a Plan<A>,
    pub(crate) rows: &'a Index<A>,
    pub(crate) past: &'a P,
    pub(crate) rule: &'a Rule<A>,
    /// The number of the rule, from 0.
    pub(crate) number: usize,
    /// The head that the own constraint stands at, from 0.
    pub(crate) place: usize,
    /// The identity of the own constraint.
    pub(crate) own: Id,
    /// The list after which the search goes on.
    pub(crate) after: &'a HeadIds,
    /// From this identity on constraints are new.
    pub(crate) from: u64,
    /// From this head on, counted from 0, no constraint for a head is new.
    pub(crate) quiet: usize,
    /// Whether each partial list counts, so that none is left out.
    pub(crate) counts: bool,
    ghost searchable: { IsSearchable rule.now place } by { Prim.hlevel bounds },
}

/// The partners so far: the next one is for the head of that number.
#[derive(Clone, Copy, Drop)]
pub(crate) struct Prefix {
    pub(crate) partners: HeadIds,
    pub(crate) mode: CursorState,
}

/// What a search has come to.
#[derive(Clone, Copy, Drop)]
pub(crate) struct Reached {
    /// The partners, where they are found.
    pub(crate) partners: HeadIds,
    pub(crate) tried: Tried,
}
