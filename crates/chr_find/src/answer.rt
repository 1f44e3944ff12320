//! The search of a snapshot.
ghost use Rattle.std.specs.Prelude.{◌≡◌, IfOk, option_map};
ghost use Rattle.chr_semantics.specs.Snapshot as semantics;
ghost use Rattle.chr_semantics.specs.Snapshot.{found_in, tries_in};
ghost use Rattle.chr_rules.specs.ProgramView.{rules_of};
ghost use Rattle.chr_store.specs.Numbers.{numbers};
ghost use Rattle.chr_find.specs.AnswerView.{IsAnswer};
ghost use Rattle.chr_find.specs.SnapshotView.{IsSnapshot};

use crate::Memory;
use crate::snapshot::{Snapshot, Task};
use chr_rules::Program;
use chr_store::{HeadIds, Id};
use smallvec::SmallVec;
use std::alloc::Allocator;

/// What a search found.
#[derive(Drop)]
pub struct Found<S = SmallVec<Id, 8>> {
    /// The identities with which the rule can fire first, in head order.
    pub ids: Option<S>,
    /// How many complete lists were tried; the greatest number stands for all greater ones.
    pub tries: u64,
}

impl Found<HeadIds> {
    ghost use Rattle.std.specs.Prelude.{◌≡◌, None};

    /// Nothing, without a try.
    pub(crate) fn nothing() -> Found<HeadIds>
        ensures ids { result.ids ≡ None }
        ensures tries { result.tries ≡ 0 }
    {
        Found {
            ids: None,
            tries: 0,
        }
    }
}

/// A firing's identities as the list that `find` hands out.
fn list_of<A: Allocator + Copy>(alloc: A, found: &HeadIds) -> Result<SmallVec<Id, 8, A>, Memory>
    ensures { IfOk result (λ ids. numbers ids.items ≡ found.now) }
{
    let mut ids = SmallVec::new(alloc);
    for id in found.as_slice() {
        ids.push(*id)?;
    }
    Ok(ids)
}

/// What `Snapshot::find` finds, with the identities in a list.
pub fn find<A: Allocator + Copy>(
    program: &Program<A>,
    snapshot: &Snapshot<A>,
    task: Task,
) -> Result<Found<SmallVec<Id, 8, A>>, Memory>
    ensures { IfOk result (λ found. (q : semantics.Snapshot) → IsSnapshot snapshot.now q →
        IsAnswer (found_in (rules_of program.now) q (task.goal.0, task.occurrence))
        (tries_in (rules_of program.now) q (task.goal.0, task.occurrence))
        (option_map (λ ids. numbers ids.items) found.ids) found.tries) }
{
    let found = snapshot.find(program, task)?;
    let ids = match &found.ids {
        None => None,
        Some(ids) => Some(list_of(snapshot.table.alloc, ids)?),
    };
    Ok(Found {
        ids,
        tries: found.tries,
    })
}
