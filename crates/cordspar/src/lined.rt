//! A text in lines.
ghost use Rattle.std.specs.Prelude.{◌≡◌, ◌-◌, ◌≤◌, drop, length, take, IfOk};
ghost use Rattle.chr_trace.specs.Lined.{end_from, ends_of};
ghost use Rattle.cordspar.specs.Lines.{lines_in};

use chr_term::Memory;
use std::alloc::Global;
use std::marker::Model;

/// A text, with the places where its lines end.
#[derive(Drop)]
pub struct Lined {
    text: Vec<u8>,
    /// Where each line ends, behind its line feed.
    ends: Vec<usize>,
}

impl Model for Lined {
    ghost use Rattle.std.specs.Prelude.{ℕ, List};

    ghost Value = { List ℕ };

    ghost view = { λ lined. lined.text.items };

    ghost use Rattle.std.specs.Prelude.{◌≡◌};
    ghost use Rattle.chr_trace.specs.Lined.{ends_of};
    ghost use Rattle.cordspar.specs.Lines.{lines_in};

    ghost invariant = { λ lined. lined.ends.items ≡ ends_of 0 (lines_in lined.text.items) };
}

/// Where each line of a text ends, behind its line feed.
fn ends_in(alloc: Global, text: &[u8]) -> Result<Vec<usize>, Memory>
    ensures { IfOk result (λ ends. ends.items ≡ ends_of 0 (lines_in text.now)) }
{
    let mut ends = Vec::new(alloc);
    for k in 0..text.len() {
        if text[k] == b'\n' {
            ends.push(k + 1)?;
        }
    }
    Ok(ends)
}

/// Where the line with this number begins, or where all end.
fn start_of(ends: &[usize], number: usize) -> usize
    requires { number ≤ length ends.now }
    ensures { result ≡ end_from 0 (take number ends.now) }
{
    if number == 0 { 0 } else { ends[number - 1] }
}

/// A part of a text.
fn part(text: &[u8], start: usize, end: usize) -> &[u8]
    requires order { start ≤ end }
    requires within { end ≤ length text.now }
    ensures { result.now ≡ take (end - start) (drop start text.now) }
{
    &text[start..end]
}

impl Lined {
    ghost use Rattle.std.specs.Prelude.{◌≡◌, length, option_copied, slice_get, IfOk};
    ghost use Rattle.cordspar.specs.Lines.{lines_in};

    /// The text in lines.
    pub fn new(alloc: Global, text: Vec<u8>) -> Result<Lined, Memory>
        ensures { IfOk result (λ lined. lined ≡ text.items) }
    {
        let ends = ends_in(alloc, text.as_slice())?;
        Ok(Lined { text, ends })
    }

    /// The text.
    pub fn text(&self) -> &[u8]
        ensures { result.now ≡ self.now }
    {
        self.text.as_slice()
    }

    /// How many lines it has.
    pub fn len(&self) -> usize
        ensures { result ≡ length (lines_in self.now) }
    {
        self.ends.len()
    }

    /// The line with this number, from 0, without its line feed.
    pub fn line(&self, number: usize) -> Option<&[u8]>
        ensures { option_copied result ≡ slice_get (lines_in self.now) number }
    {
        if number >= self.ends.len() {
            return None;
        }
        let ends = self.ends.as_slice();
        let end = start_of(ends, number + 1) - 1;
        Some(part(self.text.as_slice(), start_of(ends, number), end))
    }
}
