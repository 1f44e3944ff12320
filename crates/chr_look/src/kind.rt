//! The kinds of transitions, and how many there are of each.
ghost use Rattle.std.specs.Prelude.{◌≡◌, ◌+◌, ◌<◌, cond, option_map};
ghost use Rattle.chr_semantics.specs.Profile as semantics;
ghost use Rattle.chr_semantics.specs.Profile.{is_firing as is_firing_of, is_kind as is_kind_of, kind_of_goal, rank};
ghost use Rattle.chr_semantics.specs.Tries.{capped};
ghost use Rattle.chr_rules.specs.RuleView.{goal_view};
ghost use Rattle.chr_look.specs.KindView.{count_in, kind_view};

use chr_rules::Goal;
use std::alloc::Allocator;

/// A kind of transition.
#[derive(Clone, Copy, PartialEq, Eq, Debug, Drop)]
pub enum Kind {
    /// A built-in was told.
    Solve,
    /// A constraint entered the store.
    Activate,
    /// A constraint of the store was made active again.
    Reactivate,
    /// An active constraint had no occurrence left.
    Drop,
    /// A rule fired, and removed the active constraint.
    Simplify,
    /// A rule fired, and kept the active constraint.
    Propagate,
    /// A rule did not fire with the active constraint.
    Default,
}

impl Kind {
    /// All kinds, in their order.
    pub const ALL: [Kind; 7] = [
        Kind::Activate,
        Kind::Reactivate,
        Kind::Drop,
        Kind::Default,
        Kind::Simplify,
        Kind::Propagate,
        Kind::Solve,
    ];

    /// The number of the kind, from 0.
    fn rank(self) -> usize
        ensures is { result ≡ rank (kind_view self) }
        ensures few { result < 7 }
    {
        match self {
            Kind::Solve => 0,
            Kind::Activate => 1,
            Kind::Reactivate => 2,
            Kind::Drop => 3,
            Kind::Simplify => 4,
            Kind::Propagate => 5,
            Kind::Default => 6,
        }
    }

    /// The kind of the transition that takes a goal off the stack.
    pub(crate) fn of_goal<A: Allocator>(goal: &Goal<A>) -> Kind
        ensures { kind_view result ≡ kind_of_goal (goal_view goal.now) }
    {
        match goal {
            Goal::Chr(_, _) => Kind::Activate,
            Goal::Told(_, _, _) => Kind::Solve,
            Goal::Fail => Kind::Solve,
        }
    }
}

/// Whether a transition is of a kind.
pub(crate) fn is_kind(kind: Option<Kind>, other: Kind) -> bool
    ensures { result ≡ is_kind_of (kind_view other) (option_map kind_view kind) }
{
    match kind {
        None => false,
        Some(kind) => other.rank() == kind.rank(),
    }
}

/// Whether a rule fires in it.
pub(crate) fn is_firing(kind: Option<Kind>) -> bool
    ensures { result ≡ is_firing_of (option_map kind_view kind) }
{
    is_kind(kind, Kind::Simplify) || is_kind(kind, Kind::Propagate)
}

/// How many transitions there are of each kind.
#[derive(Clone, Copy, Drop)]
pub struct KindCounts {
    counts: [u64; 7],
}

impl KindCounts {
    /// None of any kind.
    pub(crate) fn new() -> KindCounts
        ensures { (k : semantics.Kind) → count_in result k ≡ 0 }
    {
        KindCounts { counts: [0; 7] }
    }

    /// One more of a kind, where there is one.
    pub(crate) fn note(&mut self, kind: Option<Kind>)
        ensures { (k : semantics.Kind) → count_in self.new k
            ≡ cond (is_kind_of k (option_map kind_view kind)) (capped (count_in self.old k + 1)) (count_in self.old k) }
    {
        if let Some(kind) = kind {
            let rank = kind.rank();
            self.counts[rank] = self.counts[rank].saturating_add(1);
        }
    }

    /// How many there are of a kind.
    pub fn of(&self, kind: Kind) -> u64
        ensures { result ≡ count_in self.now (kind_view kind) }
    {
        self.counts[kind.rank()]
    }
}
