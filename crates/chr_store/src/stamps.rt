//! Stamps: how many calls have touched each symbol, or each rule.
ghost use Rattle.std.specs.Prelude.{◌≡◌, ◌+◌, ◌==◌, ◌&&◌, ℕ, true, cond, nat_lt, OnOk};
ghost use Rattle.chr_store.specs.Counts.{AreCounted, AreUpTo, count_at, has_stamp, last_at};

use chr_term::Memory;
use std::alloc::{AllocError, Allocator};

/// How many calls raised a stamp, and the number of the last of them, from 1.
#[derive(Clone, Copy, Drop)]
pub(crate) struct Stamp {
    count: u64,
    last: u64,
}

/// The stamps of numbered things, by number. One that no call has raised is 0.
#[derive(Drop)]
pub(crate) struct Stamps<A: Allocator> {
    stamps: Vec<Stamp, A>,
    ghost counted: { AreCounted stamps.items },
}

impl<A: Allocator + Copy> Stamps<A> {
    /// All are 0.
    pub(crate) fn new(alloc: A) -> Stamps<A>
        ensures counts { (n : ℕ) → count_at result.stamps.items n ≡ 0 }
        ensures up_to { AreUpTo result.stamps.items 0 }
    {
        Stamps {
            stamps: Vec::new(alloc),
        }
    }
}

impl<A: Allocator> Stamps<A> {
    /// The stamp of a number.
    pub(crate) fn of(&self, number: u64) -> u64
        ensures { result ≡ count_at self.now.stamps.items number }
    {
        match self.stamps.get(number as usize) {
            Some(stamp) => stamp.count,
            None => 0,
        }
    }

    /// Makes room for the stamp of a number, and changes nothing else.
    pub(crate) fn room(&mut self, number: u64) -> Result<(), Memory>
        ensures counts { (n : ℕ) → count_at self.new.stamps.items n ≡ count_at self.old.stamps.items n }
        ensures lasts { (n : ℕ) → last_at self.new.stamps.items n ≡ last_at self.old.stamps.items n }
        ensures kept { (n : ℕ) → has_stamp self.old.stamps.items n ≡ true → has_stamp self.new.stamps.items n ≡ true }
        ensures room { OnOk result (has_stamp self.new.stamps.items number ≡ true) }
    {
        let place = number as usize;
        if place < self.stamps.len() {
            return Ok(());
        }
        match place.checked_add(1) {
            Some(len) => self.stamps.resize(len, Stamp { count: 0, last: 0 }),
            None => Err(AllocError),
        }
    }

    /// Raises the stamp of a number for a call, once however often it is asked. The call is the last one so far.
    pub(crate) fn raise(&mut self, number: u64, call: u64)
        requires room { has_stamp self.old.stamps.items number ≡ true }
        ensures counts { (n : ℕ) → count_at self.new.stamps.items n ≡ count_at self.old.stamps.items n
            + cond (number == n && nat_lt (last_at self.old.stamps.items n) call) 1 0 }
        ensures lasts { (n : ℕ) → last_at self.new.stamps.items n
            ≡ cond (number == n && nat_lt (last_at self.old.stamps.items n) call) call (last_at self.old.stamps.items n) }
        ensures kept { (n : ℕ) → has_stamp self.new.stamps.items n ≡ has_stamp self.old.stamps.items n }
    {
        let stamp = &mut self.stamps[number as usize];
        if stamp.last < call {
            stamp.count += 1;
            stamp.last = call;
        }
    }
}
