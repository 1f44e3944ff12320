//! Why a rule does not fire with a list of constraints, or that it could.
ghost use Rattle.std.specs.Prelude.{◌≡◌, ◌<◌};
ghost use Rattle.chr_semantics.specs.Lists.{detail as detail_of};
ghost use Rattle.chr_semantics.specs.Verdict.{stage as stage_of};
ghost use Rattle.chr_look.specs.VerdictView.{verdict_view};

use crate::joining::Parting;
use chr_bind::Lack;
use chr_store::Id;
use std::alloc::{Allocator, Global};

/// What stands in the way of a firing, of which the first counts. Heads, arguments and tests are numbered from 1.
#[derive(Drop)]
pub enum Verdict<A: Allocator = Global> {
    /// The rule has fired with the list.
    Fired,
    /// The constraint of an identity has not come yet.
    NotYetThere(Id),
    /// The constraint of an identity has gone.
    Removed(Id),
    /// An identity stands for two heads.
    Twice(Id),
    /// The constraint for a head has another symbol.
    OtherSymbol(usize),
    /// No binding makes the heads the constraints: the way to where they part, by the number of the head and those of arguments, with both terms
    /// as they stand there. The variables of the rule have the numbers past those of the constraints.
    Unlike(Vec<usize, A>, Parting<A>),
    /// A binding would: the head, and a variable of its constraint that this binds.
    Waits(usize, u64),
    /// A test of the guard is not entailed.
    Guard(usize, Lack),
    /// Nothing.
    CouldFire,
}

impl<A: Allocator> Verdict<A> {
    /// Its place among the kinds of verdicts, from 1, in the order in which they count.
    pub(crate) fn stage(&self) -> usize
        ensures is { result ≡ stage_of (verdict_view self.now) }
        ensures few { result < 9 }
    {
        match self {
            Verdict::Fired => 1,
            Verdict::NotYetThere(_) => 2,
            Verdict::Removed(_) => 2,
            Verdict::Twice(_) => 3,
            Verdict::OtherSymbol(_) => 4,
            Verdict::Unlike(_, _) => 5,
            Verdict::Waits(_, _) => 6,
            Verdict::Guard(_, _) => 7,
            Verdict::CouldFire => 8,
        }
    }

    /// The number of the head that is unlike or waits, or of the test that lacks something; 0 where there is none.
    pub(crate) fn detail(&self) -> usize
        ensures { result ≡ detail_of (verdict_view self.now) }
    {
        match self {
            Verdict::Fired => 0,
            Verdict::NotYetThere(_) => 0,
            Verdict::Removed(_) => 0,
            Verdict::Twice(_) => 0,
            Verdict::OtherSymbol(_) => 0,
            Verdict::Unlike(way, _) => match way.first() {
                None => 0,
                Some(head) => *head,
            },
            Verdict::Waits(head, _) => *head,
            Verdict::Guard(test, _) => *test,
            Verdict::CouldFire => 0,
        }
    }
}
