//! Tasks as they are handed out.

/// A task that was taken. It can't be dropped: it is posted with its answer, or given up.
#[derive(Debug)]
pub struct Slip {
    pub(crate) serial: usize,
    pub(crate) place: usize,
    pub(crate) index: u32,
}

impl Slip {
    ghost use Rattle.std.specs.Prelude.{◌≡◌};
    ghost use Rattle.chr_board.specs.OfferedView.{slip_view};

    /// Its number, from 0 in the order of the offers.
    pub fn serial(&self) -> u64
        ensures { result ≡ (slip_view self.now).serial }
    {
        self.serial as u64
    }

    /// The place of its round on the shelf.
    pub fn place(&self) -> usize
        ensures { result ≡ (slip_view self.now).place }
    {
        self.place
    }

    /// Its index there.
    pub fn index(&self) -> u32
        ensures { result ≡ (slip_view self.now).index }
    {
        self.index
    }
}
