//! The shelf of a run, and the tickets of what stands on it.
ghost use Rattle.std.specs.Prelude.{◌≡◌, IfErr, IfOk, IfSome};
ghost use Rattle.boxcar.specs.Table.{Shelves, Shows, shelves_coded};

use crate::run::RunName;
use boxcar::Pushed;
use chr_find::Snapshot;
use chr_term::Memory;
use std::alloc::{Allocator, Global};
use std::marker::{Model, PhantomData};
use std::sync::Wait;

/// The snapshots of a run. They are only added, and each stays as it is where it stands, so any thread reads them without a lock.
#[derive(Drop)]
pub struct Shelf<A: Allocator = Global> {
    snapshots: boxcar::Vec<Snapshot<A>, A>,
}

impl<A: Allocator> Model for Shelf<A> {
    ghost Value = { Shelves };

    ghost coded = { shelves_coded };

    ghost view = { λ shelf. shelf.snapshots };
}

/// What shows that the shelf of a run has a snapshot at a place. It keeps nothing of the snapshot.
#[derive(Drop)]
pub struct Ticket<J: RunName, A: Allocator = Global> {
    pushed: Pushed<Snapshot<A>, A>,
    of: PhantomData<J>,
    ghost shows: { Shows J.shelf pushed },
}

impl<J: RunName, A: Allocator> Ticket<J, A> {
    ghost use Rattle.chr_shelf.specs.Seat.{place_of, shot_of};

    /// The place on the shelf, which no other snapshot has.
    pub fn place(&self) -> usize
        ensures { result ≡ place_of self.now }
    {
        self.pushed.index()
    }

    /// A second ticket to the same snapshot.
    pub fn again(&self) -> Ticket<J, A>
        ensures place { place_of result ≡ place_of self.now }
        ensures shot { shot_of result ≡ shot_of self.now }
    {
        Ticket {
            pushed: self.pushed.again(),
            of: PhantomData,
        }
    }
}

impl<A: Allocator + Copy> Shelf<A> {
    ghost use Rattle.chr_shelf.specs.Seat.{place_of, shot_of};

    /// A shelf with nothing on it.
    pub fn new(alloc: A) -> Result<Shelf<A>, Memory> {
        Ok(Shelf {
            snapshots: boxcar::Vec::new(alloc)?,
        })
    }

    /// Puts a snapshot on the shelf, for good. Where memory is refused, the snapshot comes back.
    pub fn put<J: RunName>(
        &self,
        rt: &impl Wait,
        snapshot: Snapshot<A>,
    ) -> Result<Ticket<J, A>, (Snapshot<A>, Memory)>
        requires name { self.now ≡ J.shelf }
        ensures shown { IfOk result (λ ticket. shot_of ticket ≡ snapshot) }
        ensures back { IfErr result (λ refused. refused.0 ≡ snapshot) }
    {
        match self.snapshots.push_shown(rt, snapshot) {
            Ok(pushed) => Ok(Ticket {
                pushed,
                of: PhantomData,
            }),
            Err(snapshot) => Err((snapshot, Memory)),
        }
    }

    /// The ticket of what stands at a place.
    pub fn ticket<J: RunName>(&self, place: usize) -> Option<Ticket<J, A>>
        requires name { self.now ≡ J.shelf }
        ensures { IfSome result (λ ticket. place_of ticket ≡ place) }
    {
        let pushed = self.snapshots.witness(place)?;
        Some(Ticket {
            pushed,
            of: PhantomData,
        })
    }

    /// The snapshot of a ticket. It waits for nothing.
    pub fn see<'a, J: RunName>(&'a self, ticket: &Ticket<J, A>) -> &'a Snapshot<A>
        requires name { self.now ≡ J.shelf }
        ensures { result.now ≡ shot_of ticket.now }
    {
        self.snapshots.value(&ticket.pushed)
    }

    /// Shows that two tickets of one place have one snapshot.
    pub fn agree<J: RunName>(&self, one: &Ticket<J, A>, other: &Ticket<J, A>)
        requires name { self.now ≡ J.shelf }
        requires place { place_of one.now ≡ place_of other.now }
        ensures { shot_of one.now ≡ shot_of other.now }
    {
        self.snapshots.agrees(&one.pushed, &other.pushed);
    }
}
