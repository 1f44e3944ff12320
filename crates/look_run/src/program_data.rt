//! A program as data: its text, with where the heads of its rules stand, and what each head cost.

use crate::heads::Heads;
use crate::json::{arity_of, name_of, write_characters, write_member, write_string};
use crate::page::Page;
use crate::reading::Texts;
use crate::standing::{occurrence_of, rule_at};
use chr_check::{RuleSpans, Span};
use chr_look::Profile;
use chr_rules::Program;
use chr_term::Sym;

impl Heads {
    /// The characters from one place to another.
    fn part(&self, begin: usize, end: usize) -> &[char] {
        match self.characters.as_slice().get(begin..end) {
            None => &[],
            Some(part) => part,
        }
    }

    /// Writes the text from a place up to the end of the last head of a rule, and answers where that is.
    fn write_heads(&self, spans: &[Span], rule: usize, begin: usize, page: &mut Page) -> usize {
        let mut done = begin;
        for head in 0..spans.len() {
            let span = spans[head];
            let end = span.begin.saturating_add(span.width);
            write_characters(self.part(done, span.begin), page);
            page.text(",[");
            page.number(rule as u64);
            page.byte(b',');
            page.number(head as u64);
            page.byte(b',');
            write_characters(self.part(span.begin, end), page);
            page.text("],");
            done = end;
        }
        done
    }

    /// Writes the text in pieces: those of heads are told apart.
    pub(crate) fn write_pieces(&self, page: &mut Page) {
        let mut done = 0;
        page.byte(b'[');
        for rule in 0..self.rules.len() {
            done = self.write_heads(self.rules[rule].heads.as_slice(), rule, done, page);
        }
        write_characters(self.part(done, self.characters.len()), page);
        page.byte(b']');
    }
}

/// A place in a text, and its line, from 1.
#[derive(Clone, Copy, Drop)]
struct Line {
    place: usize,
    number: u64,
}

impl Line {
    /// Goes on to a place that lies behind, and answers its line.
    fn go_on(&mut self, heads: &Heads, place: usize) -> u64 {
        for c in heads.part(self.place, place) {
            if *c == '\n' {
                self.number = self.number.saturating_add(1);
            }
        }
        self.place = place;
        self.number
    }

    /// Goes over the next rule, and writes its first and its last line.
    fn write_lines(&mut self, heads: &Heads, rule: usize, page: &mut Page) {
        let Some(RuleSpans { whole, heads: _ }) = heads.rules.get(rule) else {
            return;
        };
        let end = whole.begin.saturating_add(whole.width);
        write_count("line", self.go_on(heads, whole.begin), page);
        write_count("last", self.go_on(heads, end), page);
    }
}

/// Writes whether something is so.
fn write_flag(name: &str, is_so: bool, page: &mut Page) {
    write_member(name, page);
    page.text(if is_so { "true," } else { "false," });
}

/// Writes a count.
fn write_count(name: &str, count: u64, page: &mut Page) {
    write_member(name, page);
    page.number(count);
    page.byte(b',');
}

/// Writes the name and the arity of a symbol.
fn write_symbol(program: &Program, sym: Sym, page: &mut Page) {
    write_member("symbol", page);
    page.byte(b'"');
    page.text(name_of(program.names(), sym));
    page.byte(b'/');
    page.number(arity_of(program.names(), sym) as u64);
    page.text("\",");
}

/// Writes a head of a rule, with what it cost.
fn write_head(program: &Program, profile: &Profile, rule: usize, head: usize, page: &mut Page) {
    let Some(of) = rule_at(program, rule) else {
        return;
    };
    page.byte(b'{');
    if let Some((sym, _)) = of.heads.get(head) {
        write_symbol(program, *sym, page);
    }
    write_flag("removed", head >= of.kept, page);
    write_flag("passive", of.passive.get(head) == Some(&true), page);
    write_member("occurrence", page);
    match occurrence_of(program, rule, head) {
        None => page.text("null"),
        Some(number) => page.number(number as u64),
    }
    page.byte(b',');
    let cost = profile.head(rule, head);
    write_count("searches", cost.searches, page);
    write_count("fired", cost.finds, page);
    write_count("defaults", cost.searches.saturating_sub(cost.finds), page);
    write_count("partial", cost.partial, page);
    write_member("tried", page);
    page.number(cost.tries);
    page.byte(b'}');
}

/// Writes the rules of a program.
pub(crate) fn write_rules(texts: &Texts, heads: &Heads, profile: &Profile, page: &mut Page) {
    let mut line = Line {
        place: 0,
        number: 1,
    };
    page.byte(b'[');
    for rule in 0..texts.program.rules() {
        if rule > 0 {
            page.text(",\n");
        }
        page.byte(b'{');
        write_member("name", page);
        write_string(texts.program.rule(rule).label.as_str().as_bytes(), page);
        page.byte(b',');
        line.write_lines(heads, rule, page);
        write_member("heads", page);
        page.byte(b'[');
        for head in 0..texts.program.rule(rule).heads.len() {
            if head > 0 {
                page.byte(b',');
            }
            write_head(&texts.program, profile, rule, head, page);
        }
        page.text("]}");
    }
    page.byte(b']');
}
