//! Why a rule does not fire, by all lists of the store's constraints.

use crate::heads::Heads;
use crate::judged::{judge_listed, verdict_word, write_detail, write_numbered};
use crate::page::Page;
use crate::standing::rule_at;
use crate::teller::Teller;
use chr_look::{Fronts, MOST_FRONTS, Verdict, look_at_lists};
use chr_machine::Id;
use chr_rules::Goal;
use chr_term::Sym;
use chr_trace::Elem;

/// The kinds of verdicts that lists of living constraints have, by their places among all, and what they are called.
const KINDS: [(usize, &str); 5] = [
    (1, "fired"),
    (5, "unlike"),
    (6, "waits"),
    (7, "guard"),
    (8, "could fire"),
];

/// How many goals of a symbol wait on a goal stack.
fn goals_of(stack: &[Elem], sym: Sym) -> u64 {
    let mut goals = 0_u64;
    for elem in stack {
        if let Elem::Goal(Goal::Chr(other, _)) = elem {
            if *other == sym {
                goals = goals.saturating_add(1);
            }
        }
    }
    goals
}

/// The last constraint of a symbol that came.
fn last_of(teller: &Teller<'_, '_>, sym: Sym) -> Option<Id> {
    let next = teller.watched.machine().store().next();
    for id in (1..next.0).rev() {
        if let Some(birth) = teller.watched.birth(Id(id)) {
            if birth.sym == sym {
                return Some(Id(id));
            }
        }
    }
    None
}

/// Writes the last constraint of a symbol, and what became of it.
fn write_last(teller: &Teller<'_, '_>, sym: Sym, page: &mut Page) {
    let Some(id) = last_of(teller, sym) else {
        return page.text("    none ever came\n");
    };
    page.text("    the last one was ");
    teller.write_constraint(id, page);
    page.text(", ");
    let Some(removals) = page.made(teller.watched.removals(teller.alloc)) else {
        return;
    };
    teller.write_fate(&removals, id, &[], page);
    page.byte(b'\n');
}

/// Writes how many fronts are like the heads up to one, and says whether there are any.
fn write_head(
    teller: &Teller<'_, '_>,
    heads: &Heads,
    fronts: &Fronts,
    rule: usize,
    head: usize,
    page: &mut Page,
) -> bool {
    let Some((sym, _)) = rule_at(teller.watched.machine().program(), rule).and_then(|rule| rule
        .heads
        .get(head)) else {
        return false;
    };
    let like = fronts.like(head.saturating_add(1));
    write_numbered("  head ", head.saturating_add(1) as u64, page);
    page.text(", ");
    heads.write(rule, head, page);
    write_numbered(": ", like, page);
    page.text(if like == 1 { " fits" } else { " fit" });
    let goals = goals_of(teller.watched.machine().stack(), *sym);
    if goals > 0 {
        write_numbered(", and ", goals, page);
        page.text(" on the stack");
    }
    page.byte(b'\n');
    if like == 0 {
        write_last(teller, *sym, page);
    }
    like > 0
}

/// Writes how many lists have each kind of verdict.
fn write_kinds(fronts: &Fronts, page: &mut Page) {
    let mut is_first = true;
    for (stage, word) in KINDS {
        let lists = fronts.of_stage(stage);
        if lists > 0 {
            write_numbered(if is_first { "  lists: " } else { ", " }, lists, page);
            page.byte(b' ');
            page.text(word);
            is_first = false;
        }
    }
    if !is_first {
        page.byte(b'\n');
    }
}

/// Writes the lists that came furthest, with their verdicts.
fn write_furthest(teller: &Teller<'_, '_>, rule: usize, fronts: &Fronts, page: &mut Page) {
    for front in fronts.furthest() {
        let Some(judged) = judge_listed(teller, rule, front.ids, page) else {
            return;
        };
        page.text("  ");
        page.numbers(front.ids.as_slice());
        page.text(": ");
        page.text(verdict_word(&judged.verdict));
        page.byte(b'\n');
        if let Verdict::CouldFire = judged.verdict {
            continue;
        }
        page.text("  ");
        write_detail(teller, &judged, page);
    }
}

/// What comes of the lists for a rule of the program where the run stands.
fn fronts_of(teller: &Teller<'_, '_>, rule: usize, page: &mut Page) -> Option<Fronts> {
    let machine = teller.watched.machine();
    if rule >= machine.program().rules() {
        return None;
    }
    page.made(look_at_lists(teller.alloc, machine, rule))
}

/// Writes why a rule does not fire with the constraints of the store where the run stands, of a program with this text.
pub(crate) fn write_lists(teller: &Teller<'_, '_>, text: &[u8], rule: usize, page: &mut Page) {
    let Some(fronts) = fronts_of(teller, rule, page) else {
        return;
    };
    let Some(heads) = page.made(Heads::of(teller.alloc, text)) else {
        return;
    };
    teller.write_rule(rule, page);
    page.byte(b'\n');
    let count = rule_at(teller.watched.machine().program(), rule).map_or(
        0,
        |rule| rule.heads.len(),
    );
    for head in 0..count {
        if !write_head(teller, &heads, &fronts, rule, head, page) {
            break;
        }
    }
    write_kinds(&fronts, page);
    write_furthest(teller, rule, &fronts, page);
    if fronts.is_cut() {
        write_numbered("  only the first ", MOST_FRONTS, page);
        page.text(" fronts were looked at\n");
    }
}
