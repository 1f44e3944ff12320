//! Numbers by place.
ghost use Rattle.std.specs.Prelude.{◌≡◌, ◌<◌, ◌==◌, ℕ, None, OnOk};

use chr_term::FoldState;
use indexmap::IndexMap;
use std::alloc::{AllocError, Allocator};

/// The first number that was put at each place.
#[derive(Drop)]
pub(crate) struct ByPlace<A: Allocator> {
    numbers: IndexMap<usize, u32, FoldState, A>,
}

impl<A: Allocator + Copy> ByPlace<A> {
    ghost use Rattle.chr_core.specs.PlaceView.{number_at};

    /// No place has a number.
    pub(crate) fn new(alloc: A) -> ByPlace<A>
        ensures { (y : ℕ) → number_at result y ≡ None }
    {
        ByPlace {
            numbers: IndexMap::new(alloc),
        }
    }
}

impl<A: Allocator> ByPlace<A> {
    ghost use Rattle.chr_core.specs.PlaceView.{number_at, or_number, room_in};

    /// The number at a place.
    pub(crate) fn get(&self, place: usize) -> Option<u32>
        ensures { result ≡ number_at self.now place }
    {
        self.numbers.get(&place).copied()
    }

    /// Makes room for one more place, and changes nothing else.
    pub(crate) fn room(&mut self) -> Result<(), AllocError>
        ensures same { (y : ℕ) → number_at self.new y ≡ number_at self.old y }
        ensures ok { OnOk result (0 < room_in self.new) }
    {
        self.numbers.reserve(1)?;
        Ok(())
    }

    /// Puts a number at a place that has none, for which room was made; a place that has one keeps it.
    pub(crate) fn put_reserved(&mut self, place: usize, number: u32)
        requires { 0 < room_in self.old }
        ensures { (y : ℕ) → number_at self.new y ≡ or_number (number_at self.old y) (place == y) number }
    {
        if self.numbers.contains_key(&place) {
            return;
        }
        match self.numbers.insert(place, number) {
            Ok(_) => {}
            Err(_) => {}
        }
    }
}
