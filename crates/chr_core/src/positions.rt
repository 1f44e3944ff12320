//! The positions of the answers to one task.
ghost use Rattle.std.specs.Prelude.{◌≡◌, ◌<◌, ◌++◌, ◌∷◌, [], None, OnErr, OnOk, Some};

use std::alloc::{AllocError, Allocator};
use std::marker::Model;

/// The position of an answer from the newest round, among those to a stored constraint's task, and the positions of those to a guest's task.
#[derive(Drop)]
pub(crate) struct Positions<A: Allocator> {
    row: Option<usize>,
    guests: Vec<usize, A>,
}

impl<A: Allocator> Model for Positions<A> {
    ghost use Rattle.chr_core.specs.PositionsValue.{PositionsValue, positions_code};

    ghost Value = { PositionsValue };

    ghost coded = { positions_code };

    ghost use Rattle.std.specs.Prelude.{◌-◌, vec_capacity, vec_len};

    ghost view = { λ p. record {
      row = p.row;
      guests = p.guests.items;
      spare = vec_capacity p.guests - vec_len p.guests;
    } };
}

impl<A: Allocator> Positions<A> {
    /// No answer.
    pub(crate) fn new(alloc: A) -> Positions<A>
        ensures row { result.row ≡ None }
        ensures guests { result.guests ≡ [] }
    {
        Positions {
            row: None,
            guests: Vec::new(alloc),
        }
    }

    pub(crate) fn row(&self) -> Option<usize>
        ensures { result ≡ self.now.row }
    {
        self.row
    }

    pub(crate) fn guests(&self) -> &[usize]
        ensures { result.now ≡ self.now.guests }
    {
        self.guests.as_slice()
    }

    /// Makes room for one more position.
    pub(crate) fn room(&mut self) -> Result<(), AllocError>
        ensures row { self.new.row ≡ self.old.row }
        ensures guests { self.new.guests ≡ self.old.guests }
        ensures ok { OnOk result (0 < self.new.spare) }
    {
        self.guests.reserve(1)?;
        Ok(())
    }

    pub(crate) fn set_row(&mut self, position: usize)
        ensures row { self.new.row ≡ Some position }
        ensures guests { self.new.guests ≡ self.old.guests }
    {
        self.row = Some(position);
    }

    pub(crate) fn push_guest(&mut self, position: usize)
        requires { 0 < self.old.spare }
        ensures row { self.new.row ≡ self.old.row }
        ensures guests { self.new.guests ≡ self.old.guests ++ position ∷ [] }
    {
        self.guests.push_reserved(position);
    }
}
