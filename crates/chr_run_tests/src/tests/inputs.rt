//! Inputs that are read whole, and what `command` writes.
ghost use Rattle.std.specs.Prelude.{None};

use super::*;
use chr_words::{Creates, Opens, read_file};
use std::io::Read;

/// Gives the spaces that are left, one at a call.
#[derive(Drop)]
struct Spaces {
    left: u64,
}

impl Read for Spaces {
    fn read(&mut self, buf: &mut [u8]) -> std::io::Result<usize> {
        let count = buf.len().min(1).min(self.left as usize);
        buf[..count].fill(b' ');
        self.left = self.left.saturating_sub(count as u64);
        Ok(count)
    }
}

/// A folder in which each path has this number of spaces.
#[derive(Drop)]
struct SpacesOf(u64);

impl Opens for SpacesOf {
    type File = Spaces;

    ghost bytes_of = { λ _ _. None };

    fn open(&self, _path: &str) -> std::io::Result<Spaces> {
        Ok(Spaces { left: self.0 })
    }
}

impl Creates for SpacesOf {
    type Sink = Sink;

    ghost fresh = { λ _ _. None };

    fn create(&self, _path: &str) -> std::io::Result<Sink> {
        Err(Error::from(ErrorKind::PermissionDenied))
    }
}

/// An input is read by at most a million calls, of which the last one sees its end.
#[test]
fn a_million_calls(rt: HostRuntime) {
    for (bytes, is_read) in [(999_999, true), (1_000_000, false)] {
        let read = read_file(rt.alloc(), &SpacesOf(bytes), "spaces");
        let is_whole = read.is_some_and(|text| text.len() as u64 == bytes);
        equal(&rt, is_whole, is_read);
    }
}

/// The program `chr` with no words, and these as its input.
fn chr<R: Threads + Wait + Sync>(
    rt: &R,
    alloc: Global,
    mut input: &[u8],
    output: &mut Sink,
    error: &mut Sink,
) -> u8 {
    let words: &[String] = &[];
    command(rt, alloc, words, &SpacesOf(0), &mut input, output, error)
}

/// Over 1,000 lines of a run go out by at most 20 writes.
#[test]
fn lines_go_out_together(rt: HostRuntime) {
    let mut input = Vec::new(rt.alloc());
    got(&rt, input.extend_from_slice(b"gcd(1), gcd(500).\n"));
    got(&rt, input.extend_from_slice(GCD.program.as_bytes()));
    let mut output = Sink::new(rt.alloc(), usize::MAX, 20);
    let mut error = Sink::new(rt.alloc(), usize::MAX, 0);
    let status = chr(&rt, rt.alloc(), input.as_slice(), &mut output, &mut error);
    equal(&rt, status, 0);
    let lines = output.text.iter().filter(|byte| **byte == b'\n').count();
    holds(&rt, lines > 1_000);
}
