//! What the tests share.
ghost use Rattle.chr_rules.specs.RuleView.{query_view};
ghost use Rattle.chr_semantics.specs.Bounds.{IsQueryBounded};

use chr_core::*;
use chr_rules::{Program, Query};
use chr_schedule::read_schedule;
use chr_texts::{SPECULATION, both_of};
use refusing_alloc::{Refusing, Turn, refused_in_turn};
use std::alloc::{Allocator, Global};
use std::process::Abort;
use std::sync::Wait;

mod calls;
mod checks;
mod replays;

use checks::{equal, got, holds};

/// More than can be refused in turn.
const MOST: u64 = 1_000;

/// An allocator, and the turn in which its growths are refused.
#[derive(Drop)]
struct Scene<'m, A> {
    alloc: A,
    turn: Turn<'m, Global>,
}

/// `speculation` and its query.
fn both<A: Allocator + Copy>(rt: &impl Abort, alloc: A) -> (Program<A>, Query<A>)
    ensures { IsQueryBounded (query_view result.1) }
{
    match both_of(alloc, SPECULATION.program, SPECULATION.query) {
        Ok(both) => both,
        Err(mistake) => panic!(rt; "refused: {mistake:?}"),
    }
}

/// The same query once more.
fn copied<A: Allocator + Copy>(rt: &impl Abort, query: &Query<A>) -> Query<A>
    requires { IsQueryBounded (query_view query.now) }
    ensures { IsQueryBounded (query_view result) }
{
    match query.copy() {
        Ok(copy) => return copy,
        Err(error) => panic!(rt; "refused: {error:?}"),
    }
}

/// The numbers of kept, late, double, used and own events.
fn counts((kept, late, double): (u64, u64, u64), (used, own): (u64, u64)) -> Counts {
    Counts {
        kept,
        late,
        double,
        used,
        own,
    }
}
