//! A line of a text, with a mark under a part of it.

use crate::page::Page;
use chr_term::Memory;
use std::alloc::Global;

/// How many characters of a line stand before the mark at most.
const BEFORE: usize = 100;

/// How many characters of a line are shown at most.
const SHOWN: usize = 160;

/// The characters of a text; none where it is not UTF-8.
pub(crate) fn characters(alloc: Global, text: &[u8]) -> Result<Vec<char>, Memory> {
    match str::from_utf8(text) {
        Ok(text) => text.chars().collect(alloc),
        Err(_) => Ok(Vec::new(alloc)),
    }
}

/// A part of a text, in its line.
#[derive(Clone, Copy, Drop)]
pub(crate) struct Excerpt<'a> {
    /// The number of the line, from 1.
    line: u64,
    /// What stands in the line before the part.
    before: &'a [char],
    /// The part, and what stands behind it in the line.
    rest: &'a [char],
    /// The number of the characters of the part.
    width: usize,
}

/// Writes a character, and a blank in the place of one that moves what stands behind it.
fn write_character(c: char, page: &mut Page) {
    if c != '\t' && (c as u32) < 0x20 {
        return page.byte(b' ');
    }
    let mut units = [0; 4];
    for byte in c.encode_utf8(&mut units).as_bytes() {
        page.byte(*byte);
    }
}

/// The front of a text up to the end of its first line.
fn first_line(text: &[char]) -> &[char] {
    for k in 0..text.len() {
        if text[k] == '\n' {
            return &text[..k];
        }
    }
    text
}

/// The number of lines of a text that end, and what stands in its last one.
fn last_line(text: &[char]) -> (u64, &[char]) {
    let mut count = 0_u64;
    let mut line = text;
    for k in 0..text.len() {
        if text[k] == '\n' {
            count = count.saturating_add(1);
            line = &text[k + 1..];
        }
    }
    (count, line)
}

impl<'a> Excerpt<'a> {
    /// The part that begins behind so many characters of a text, in its line.
    pub(crate) fn of(text: &'a [char], begin: usize, width: usize) -> Excerpt<'a> {
        let (before, rest) = text.split_at_checked(begin).unwrap_or((text, &[]));
        let (count, before) = last_line(before);
        Excerpt {
            line: count.saturating_add(1),
            before,
            rest: first_line(rest),
            width,
        }
    }

    /// Writes `:LINE:COLUMN`.
    pub(crate) fn write_place(self, page: &mut Page) {
        page.byte(b':');
        page.number(self.line);
        page.byte(b':');
        page.number(self.before.len() as u64 + 1);
    }

    /// Writes the part.
    pub(crate) fn write_marked(self, page: &mut Page) {
        for c in self.rest.iter().take(self.width) {
            write_character(*c, page);
        }
    }

    /// Writes the line, and below it the mark. Of a long line only what stands around the mark is written.
    pub(crate) fn write_lines(self, page: &mut Page) {
        let hidden = self.before.len().saturating_sub(BEFORE);
        let (_, before) = self
            .before
            .split_at_checked(hidden)
            .unwrap_or((&[], self.before));
        let room = SHOWN - BEFORE;
        write_indent(page);
        for c in before {
            write_character(*c, page);
        }
        for c in self.rest.iter().take(room) {
            write_character(*c, page);
        }
        page.byte(b'\n');
        write_indent(page);
        for c in before {
            page.byte(if *c == '\t' { b'\t' } else { b' ' });
        }
        for _ in 0..self.width.min(self.rest.len()).min(room).max(1) {
            page.byte(b'^');
        }
        page.byte(b'\n');
    }
}

/// Writes what stands before each line.
fn write_indent(page: &mut Page) {
    for _ in 0..4 {
        page.byte(b' ');
    }
}

/// Writes a part of a text in one line, with a blank for each run of white space.
pub(crate) fn write_flat(text: &[char], begin: usize, width: usize, page: &mut Page) {
    let (_, rest) = text.split_at_checked(begin).unwrap_or((text, &[]));
    let mut is_behind_space = false;
    for c in rest.iter().take(width) {
        let is_space = c.is_whitespace();
        if !is_space {
            write_character(*c, page);
        } else if !is_behind_space {
            page.byte(b' ');
        }
        is_behind_space = is_space;
    }
}
