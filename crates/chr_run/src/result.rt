//! What a run has come to.
ghost use Rattle.chr_run.specs.Headline.{IsOf};

use chr_board::{Tally, Totals};
use chr_core::{Counts, Event, Outcome};
use chr_policy::Made;
use std::alloc::{Allocator, Global};

/// What a run has come to: its outcome; its schedule and the counts of that; how far the tasks came that it offered; what its workers did,
/// added up; and how many calls for a round were refused.
#[derive(Drop)]
pub struct Run<A: Allocator = Global> {
    pub outcome: Outcome<A>,
    pub counts: Counts,
    pub schedule: Vec<Event, A>,
    pub totals: Totals,
    pub tally: Tally,
    pub skipped: u64,
}

/// What a coordinator has made, with what its board and its workers say.
pub(crate) fn with_workers<A: Allocator>(made: Made<A>, totals: Totals, tally: Tally) -> Run<A>
    ensures { IsOf made result }
{
    let Made {
        outcome,
        counts,
        schedule,
        skipped,
    } = made;
    Run {
        outcome,
        counts,
        schedule,
        totals,
        tally,
        skipped,
    }
}
