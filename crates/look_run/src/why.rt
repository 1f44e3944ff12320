//! Why a rule does not fire with a list of constraints.
ghost use Rattle.std.specs.Prelude.{◌<◌, IfSome, length};
ghost use Rattle.chr_rules.specs.ProgramView.{rules_of};

use crate::again::Again;
use crate::column::Column;
use crate::judged::{judge_listed, verdict_word, write_detail, write_numbered};
use crate::page::Page;
use crate::refusal::Refusal;
use crate::standing::rule_at;
use crate::teller::Teller;
use crate::unsought::Listed;
use chr_look::{ListLog, Removals, Verdict};
use chr_machine::Id;
use chr_rules::Program;
use chr_semantics::limits::MAX_HEADS;
use chr_store::HeadIds;
use std::alloc::Global;

/// The number of the rule, from 0, with this label, or with the number k from 1 where it is `#k`.
pub(crate) fn rule_of(program: &Program, label: &str) -> Option<usize>
    ensures { IfSome result (λ rule. rule < length (rules_of program.now)) }
{
    for rule in 0..program.rules() {
        if program.rule(rule).label.as_str() == label {
            return Some(rule);
        }
    }
    let number: usize = label.strip_prefix('#')?.parse().ok()?;
    let rule = number.checked_sub(1)?;
    if rule < program.rules() {
        Some(rule)
    } else {
        None
    }
}

/// The identities for the heads of a rule.
pub(crate) fn ids_of(
    alloc: Global,
    program: &Program,
    rule: usize,
    numbers: &[u64],
) -> Result<HeadIds, Refusal> {
    let heads = rule_at(program, rule).map_or(0, |rule| rule.heads.len());
    let mut ids = Vec::new(alloc);
    for number in numbers {
        ids.push(Id(*number))?;
    }
    if ids.len() != heads || ids.len() > MAX_HEADS {
        return Err(Refusal::WrongNumber(heads));
    }
    Ok(HeadIds::of(ids.as_slice()))
}

/// Writes the constraints of a list, a line each, with when they came and went.
fn write_constraints(teller: &Teller<'_, '_>, removals: &Removals, ids: &[Id], page: &mut Page) {
    let Some(column) = page.made(Column::of(teller, ids)) else {
        return;
    };
    for place in 0..ids.len() {
        page.text("  ");
        column.write(place, page);
        page.text("  ");
        teller.write_fate(removals, ids[place], &[], page);
        teller.write_standing(ids[place], page);
        page.byte(b'\n');
    }
}

/// Writes the searches for the rule with the list, a line each; for one that found a lesser list, which that was.
fn write_searches(list: &ListLog, ids: HeadIds, again: &Again<'_>, page: &mut Page) {
    let searches = list.searches.as_slice();
    for k in 0..searches.len() {
        let Some(search) = searches.get(k) else {
            return;
        };
        write_numbered("  looked for at ", search.at, page);
        write_numbered(", by ", search.active.0, page);
        page.text(": ");
        page.text(verdict_word(&search.verdict));
        if let (Verdict::CouldFire, Some(first)) = (&search.verdict, again.fired(k)) {
            if first != ids {
                page.text("; ");
                page.numbers(first.as_slice());
                page.text(" went first");
            }
        }
        page.byte(b'\n');
    }
}

/// The transition by which the rule fired with the list, where it did: the last search that could find it.
fn fired_at(list: &ListLog) -> u64 {
    let mut last = 0;
    for search in list.searches.as_slice() {
        if let Verdict::CouldFire = search.verdict {
            last = search.at;
        }
    }
    last
}

/// Writes why the rule does not fire with the list where the run stands, and what the run did with them.
pub(crate) fn write_why(
    teller: &Teller<'_, '_>,
    list: &ListLog,
    again: &Again<'_>,
    listed: Listed,
    page: &mut Page,
) {
    let Listed { rule, ids, at } = listed;
    let Some(judged) = judge_listed(teller, rule, ids, page) else {
        return;
    };
    teller.write_rule(rule, page);
    page.byte(b' ');
    page.numbers(ids.as_slice());
    if let Some(at) = at {
        write_numbered(" after ", at, page);
    }
    page.text(": ");
    page.text(verdict_word(&judged.verdict));
    if let Verdict::Fired = judged.verdict {
        write_numbered(" at ", fired_at(list), page);
    }
    page.byte(b'\n');
    let Some(removals) = page.made(teller.watched.removals(teller.alloc)) else {
        return;
    };
    write_constraints(teller, &removals, ids.as_slice(), page);
    write_detail(teller, &judged, page);
    write_could_fire(teller, &removals, list, again, listed, page);
    write_searches(list, ids, again, page);
}

/// Writes from when on the list could fire the rule, and why it was not looked for, if it was not.
fn write_could_fire(
    teller: &Teller<'_, '_>,
    removals: &Removals,
    list: &ListLog,
    again: &Again<'_>,
    listed: Listed,
    page: &mut Page,
) {
    let Some(at) = list.could_from else {
        return;
    };
    write_numbered("  could fire after ", at, page);
    match again {
        Again::Then(then) => listed.write_unsought(teller, removals, then.machine(), page),
        Again::Nothing | Again::Fired(_) => page.byte(b'\n'),
    }
}
