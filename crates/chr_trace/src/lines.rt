//! The lines of a trace, in one text.
ghost use Rattle.std.specs.Prelude.{◌≡◌, ℕ, ◌-◌, ◌<◌, ◌≤◌, ◌++◌, ◌∷◌, [], ◌↔◌, IsTrue, List, OnOk, Some, drop, is_some, length, option_copied, slice_get, take, true, vec_capacity, vec_len};
ghost use Rattle.chr_semantics.specs.Names.{Names, VarNames};
ghost use Rattle.chr_semantics.specs.Program.{Atom};
ghost use Rattle.chr_semantics.specs.Text.{known_text, line_text, lines_text};
ghost use Rattle.chr_semantics.specs.Trace.{solve_line};
ghost use Rattle.chr_term.specs.Extension.{IsExtension};
ghost use Rattle.chr_trace.specs.About.{line_about};
ghost use Rattle.chr_trace.specs.Lined.{end_from};
ghost use Rattle.chr_trace.specs.LinesLeft.{lines_left};
ghost use Rattle.chr_trace.specs.ScribeView.{line_by, shown_goal};
ghost use Rattle.chr_trace.specs.State.{status_view};

use crate::about::About;
use crate::line_iter::LineIter;
use crate::scribe::Scribe;
use crate::state::Status;
use chr_rules::Goal;
use chr_term::{Memory, write_byte};
use std::alloc::{Allocator, Global};
use std::marker::Model;

/// Lines, one behind the other in one text, each without its line feed. The next one is drafted, which can want memory, and then kept, which
/// takes none: so a transition has its line ready before it changes anything.
#[derive(Drop)]
pub struct Lines<A: Allocator = Global> {
    /// The lines, each with its line feed, and what is drafted.
    text: Vec<u8, A>,
    /// Where each line ends, behind its line feed.
    ends: Vec<usize, A>,
    /// Whether what is drafted is whole, and has room for its end.
    is_drafted: bool,
}

impl<A: Allocator> Model for Lines<A> {
    ghost use Rattle.chr_trace.specs.Lined.{LinesValue, lines_code};

    ghost Value = { LinesValue };

    ghost coded = { lines_code };

    ghost use Rattle.std.specs.Prelude.{◌≡◌, ◌<◌, drop, true, vec_capacity, vec_len};
    ghost use Rattle.chr_trace.specs.Lined.{IsLined, IsWhole, cut_at, drafted, end_from};

    ghost view = { λ lines. record {
      made = cut_at lines.text.items 0 lines.ends.items;
      draft = drafted lines.is_drafted (drop (end_from 0 lines.ends.items) lines.text.items);
    } };

    ghost invariant = { λ lines. IsLined lines.text.items lines.ends.items
        × (lines.is_drafted ≡ true → IsWhole (drop (end_from 0 lines.ends.items) lines.text.items)
        × (vec_len lines.ends < vec_capacity lines.ends)) };
}

impl<A: Allocator> Lines<A> {
    /// How many lines there are.
    pub fn len(&self) -> usize
        ensures { result ≡ length self.now.made }
    {
        self.ends.len()
    }

    /// Whether there is no line.
    pub fn is_empty(&self) -> bool
        ensures { IsTrue result ↔ (self.now.made ≡ []) }
    {
        self.len() == 0
    }

    /// The line with this number, from 0.
    pub fn get(&self, number: usize) -> Option<&[u8]>
        ensures { option_copied result ≡ slice_get self.now.made number }
    {
        if number >= self.ends.len() {
            return None;
        }
        let ends = self.ends.as_slice();
        let end = start_of(ends, number + 1) - 1;
        Some(part(self.text.as_slice(), start_of(ends, number), end))
    }

    /// The text of the lines from this one on, each with its line feed.
    pub fn text_from(&self, number: usize) -> &[u8]
        requires { number ≤ length self.now.made }
        ensures { result.now ≡ lines_text (drop number self.now.made) }
    {
        let ends = self.ends.as_slice();
        let end = start_of(ends, ends.len());
        part(self.text.as_slice(), start_of(ends, number), end)
    }

    /// The lines in their order.
    pub fn iter(&self) -> LineIter<'_, A>
        ensures { lines_left result ≡ self.now.made }
    {
        LineIter {
            lines: self,
            next: 0,
        }
    }

    /// Drafts the line of a transition about the constraint with this text, which has its identity. What was drafted before is dropped.
    pub fn draft(&mut self, number: u64, known: &[u8], about: About<'_>) -> Result<(), Memory>
        ensures made { self.new.made ≡ self.old.made }
        ensures ok { (names : Names) (vars : VarNames) (a : Atom) (i : ℕ) →
            known.now ≡ known_text names vars a i →
            OnOk result (self.new.draft ≡ Some (line_text names vars number (line_about about.entry a i))) }
    {
        self.is_drafted = false;
        drop_draft(&mut self.text, &self.ends);
        about.write(number, known, &mut self.text)?;
        end_draft(&mut self.text, &mut self.ends)?;
        self.is_drafted = true;
        Ok(())
    }

    /// Keeps the line that is drafted.
    pub fn keep(&mut self)
        requires { is_some self.old.draft ≡ true }
        ensures { (line : List ℕ) → self.old.draft ≡ Some line → self.new.made ≡ self.old.made ++ line ∷ [] }
    {
        self.ends.push_reserved(self.text.len());
        self.is_drafted = false;
    }
}

impl<A: Allocator + Copy> Lines<A> {
    /// No line.
    pub fn new(alloc: A) -> Lines<A>
        ensures { result.made ≡ [] }
    {
        Lines {
            text: Vec::new(alloc),
            ends: Vec::new(alloc),
            is_drafted: false,
        }
    }

    /// Drafts the line of a Solve of the goal, by the status that it leads to. What was drafted before is dropped.
    pub fn draft_solve(
        &mut self,
        scribe: &Scribe<'_, A>,
        number: u64,
        goal: &Goal<A>,
        status: Status,
    ) -> Result<(), Memory>
        ensures made { self.new.made ≡ self.old.made }
        ensures ok { OnOk result (self.new.draft ≡ Some (line_by scribe.now number
            (solve_line (shown_goal scribe.now goal.now) (status_view status)))) }
    {
        self.is_drafted = false;
        drop_draft(&mut self.text, &self.ends);
        scribe.write_solve(number, goal, status, &mut self.text)?;
        end_draft(&mut self.text, &mut self.ends)?;
        self.is_drafted = true;
        Ok(())
    }
}

/// Where the line with this number begins, or where all end.
fn start_of(ends: &[usize], number: usize) -> usize
    requires { number ≤ length ends.now }
    ensures { result ≡ end_from 0 (take number ends.now) }
{
    if number == 0 { 0 } else { ends[number - 1] }
}

/// Takes away what is drafted.
fn drop_draft<A: Allocator>(text: &mut Vec<u8, A>, ends: &Vec<usize, A>)
    ensures { text.new.items ≡ take (end_from 0 ends.now.items) text.old.items }
{
    text.truncate(start_of(ends.as_slice(), ends.len()));
}

/// Writes the line feed of a draft, and makes room for its end.
fn end_draft<A: Allocator>(text: &mut Vec<u8, A>, ends: &mut Vec<usize, A>) -> Result<(), Memory>
    ensures ok { OnOk result (text.new.items ≡ text.old.items ++ 10 ∷ []) }
    ensures kept { IsExtension text.old.items text.new.items }
    ensures room { OnOk result (vec_len ends.new < vec_capacity ends.new) }
    ensures ends { ends.new.items ≡ ends.old.items }
{
    write_byte(b'\n', text)?;
    ends.reserve(1)?;
    Ok(())
}

/// A part of a text.
fn part(text: &[u8], start: usize, end: usize) -> &[u8]
    requires order { start ≤ end }
    requires within { end ≤ length text.now }
    ensures { result.now ≡ take (end - start) (drop start text.now) }
{
    &text[start..end]
}
