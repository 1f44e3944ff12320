//! The walk over lines.
ghost use Rattle.std.specs.Prelude.{◌≡◌};
ghost use Rattle.std.specs.Iterator.{YieldsFirstBy, item_count};

use crate::lines::Lines;
use std::alloc::Allocator;

/// The lines that are left of a walk.
#[derive(Drop)]
pub struct LineIter<'a, A: Allocator> {
    pub(crate) lines: &'a Lines<A>,
    /// The number of the next line.
    pub(crate) next: usize,
}

impl<'a, A: Allocator> Iterator for LineIter<'a, A> {
    ghost use Rattle.chr_trace.specs.LinesLeft.{lines_left, shown_line};

    type Item = &'a [u8];

    ghost next_gives = { YieldsFirstBy shown_line lines_left };

    ghost remaining = { item_count lines_left };

    fn next(&mut self) -> Option<&'a [u8]> {
        if self.next >= self.lines.len() {
            return None;
        }
        let line = self.lines.get(self.next);
        self.next += 1;
        line
    }
}
