//! What a run cost: its searches by heads, its firings by rules, its transitions by kinds, and what woke.

use crate::heads::Heads;
use crate::page::Page;
use crate::standing::{occurrence_of, rule_at};
use crate::teller::Teller;
use chr_look::{HeadCost, Kind, Profile};
use chr_rules::Program;
use chr_term::Memory;
use std::alloc::Global;

/// How wide a column of numbers is.
const WIDTH: usize = 11;

/// What was done at a head of a rule.
#[derive(Clone, Copy, Drop)]
struct HeadRow {
    rule: usize,
    head: usize,
    cost: HeadCost,
}

/// How often a rule fired.
#[derive(Clone, Copy, Drop)]
struct RuleRow {
    rule: usize,
    firings: u64,
}

impl HeadRow {
    /// What it cost: a search costs something even where it tries no list.
    fn dearness(self) -> u64 {
        let HeadCost {
            searches,
            partial,
            tries,
            ..
        } = self.cost;
        searches.saturating_add(partial).saturating_add(tries)
    }
}

/// The heads of the rules with what was done there, the dearest first.
fn head_rows(alloc: Global, program: &Program, profile: &Profile) -> Result<Vec<HeadRow>, Memory> {
    let mut rows: Vec<HeadRow> = Vec::new(alloc);
    for rule in 0..program.rules() {
        for head in 0..program.rule(rule).heads.len() {
            rows.push(HeadRow {
                rule,
                head,
                cost: profile.head(rule, head),
            })?;
        }
    }
    rows.as_mut_slice()
        .sort_by_key(alloc, |row| u64::MAX - row.dearness())?;
    Ok(rows)
}

/// How often a rule fired: as often as a search at one of its heads found something.
fn firings_of(program: &Program, profile: &Profile, rule: usize) -> u64 {
    let heads = rule_at(program, rule).map_or(0, |rule| rule.heads.len());
    let mut firings = 0_u64;
    for head in 0..heads {
        firings = firings.saturating_add(profile.head(rule, head).finds);
    }
    firings
}

/// The rules with how often each fired, the one that fired most first.
fn rule_rows(alloc: Global, program: &Program, profile: &Profile) -> Result<Vec<RuleRow>, Memory> {
    let mut rows: Vec<RuleRow> = Vec::new(alloc);
    for rule in 0..program.rules() {
        rows.push(RuleRow {
            rule,
            firings: firings_of(program, profile, rule),
        })?;
    }
    rows.as_mut_slice()
        .sort_by_key(alloc, |row| u64::MAX - row.firings)?;
    Ok(rows)
}

/// Writes blanks and a text up to the end of a column.
fn write_right(text: &[u8], page: &mut Page) {
    for _ in text.len()..WIDTH {
        page.byte(b' ');
    }
    page.bytes(text);
}

/// Writes a number in a column.
fn write_count(alloc: Global, number: u64, page: &mut Page) {
    let mut digits = Page::new(alloc);
    digits.number(number);
    if let Some(text) = page.made(digits.whole()) {
        write_right(text, page);
    }
}

/// Writes what columns are called, and what stands behind them.
fn write_heading(columns: &[&str], behind: &str, page: &mut Page) {
    for column in columns {
        write_right(column.as_bytes(), page);
    }
    page.text("  ");
    page.text(behind);
    page.byte(b'\n');
}

/// Writes columns of numbers.
fn write_counts(alloc: Global, numbers: &[u64], page: &mut Page) {
    for number in numbers {
        write_count(alloc, *number, page);
    }
    page.text("  ");
}

/// Writes what was done at a head of a rule.
fn write_head(teller: &Teller<'_, '_>, heads: &Heads, row: HeadRow, page: &mut Page) {
    let HeadCost {
        searches,
        finds,
        tries,
        partial,
    } = row.cost;
    let defaults = searches.saturating_sub(finds);
    let counts = [searches, finds, defaults, partial, tries];
    write_counts(teller.alloc, &counts, page);
    teller.write_rule(row.rule, page);
    match occurrence_of(teller.watched.machine().program(), row.rule, row.head) {
        Some(number) => {
            page.text(", occurrence ");
            page.number(number as u64);
        }
        None => page.text(", passive"),
    }
    page.text(": ");
    heads.write(row.rule, row.head, page);
    page.byte(b'\n');
}

/// Writes the searches, by the heads at which they were.
fn write_heads(teller: &Teller<'_, '_>, program: &[u8], profile: &Profile, page: &mut Page) {
    let Some(texts) = page.made(Heads::of(teller.alloc, program)) else {
        return;
    };
    let columns = ["searches", "fired", "default", "partial", "tried"];
    write_heading(&columns, "head", page);
    let program = teller.watched.machine().program();
    let Some(rows) = page.made(head_rows(teller.alloc, program, profile)) else {
        return;
    };
    for row in rows {
        write_head(teller, &texts, row, page);
    }
}

/// Writes the firings, by rules.
fn write_rules(teller: &Teller<'_, '_>, profile: &Profile, page: &mut Page) {
    write_heading(&["firings"], "rule", page);
    let program = teller.watched.machine().program();
    let Some(rows) = page.made(rule_rows(teller.alloc, program, profile)) else {
        return;
    };
    for row in rows {
        write_counts(teller.alloc, &[row.firings], page);
        teller.write_rule(row.rule, page);
        page.byte(b'\n');
    }
}

/// What a kind of transition is called.
fn kind_word(kind: Kind) -> &'static str {
    match kind {
        Kind::Solve => "solve",
        Kind::Activate => "activate",
        Kind::Reactivate => "reactivate",
        Kind::Drop => "drop",
        Kind::Simplify => "simplify",
        Kind::Propagate => "propagate",
        Kind::Default => "default",
    }
}

/// Writes the transitions, by kinds.
fn write_kinds(alloc: Global, profile: &Profile, page: &mut Page) {
    write_heading(&["transitions"], "kind", page);
    for kind in Kind::ALL {
        write_counts(alloc, &[profile.of_kind(kind)], page);
        page.text(kind_word(kind));
        page.byte(b'\n');
    }
}

/// Writes what the built-ins woke of the body of a rule, or of the query.
fn write_solves(teller: &Teller<'_, '_>, profile: &Profile, rule: Option<usize>, page: &mut Page) {
    let cost = profile.solves(rule);
    if cost.solves == 0 {
        return;
    }
    write_counts(teller.alloc, &[cost.solves, cost.wakes], page);
    match rule {
        None => page.text("the query"),
        Some(rule) => teller.write_rule(rule, page),
    }
    page.byte(b'\n');
}

/// Writes what woke.
fn write_wakings(teller: &Teller<'_, '_>, profile: &Profile, page: &mut Page) {
    if profile.of_kind(Kind::Solve) == 0 {
        return;
    }
    write_heading(&["solves", "woke"], "of", page);
    write_solves(teller, profile, None, page);
    for rule in 0..teller.watched.machine().program().rules() {
        write_solves(teller, profile, Some(rule), page);
    }
    page.text("made active again ");
    page.number(profile.of_kind(Kind::Reactivate));
    page.text(", of which fired ");
    page.number(profile.woken_fire());
    page.byte(b'\n');
}

/// Writes what a run cost of a program with this text.
pub(crate) fn write_profile(
    teller: &Teller<'_, '_>,
    program: &[u8],
    profile: &Profile,
    page: &mut Page,
) {
    write_heads(teller, program, profile, page);
    write_rules(teller, profile, page);
    write_kinds(teller.alloc, profile, page);
    write_wakings(teller, profile, page);
}
