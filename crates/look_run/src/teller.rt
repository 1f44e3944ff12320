//! How rules, constraints and firings are named.

use crate::page::Page;
use crate::reading::Texts;
use crate::standing::{rule_at, standing_on, write_ordinal};
use chr_look::{Removals, Watched};
use chr_machine::{Id, Status};
use chr_store::Entry;
use chr_term::Term;
use std::alloc::Global;

/// A run, and the lines of its program's rules.
#[derive(Drop)]
pub(crate) struct Teller<'a, 'p> {
    pub(crate) alloc: Global,
    pub(crate) watched: &'a Watched<'p>,
    pub(crate) lines: &'a [u64],
}

/// How many transitions are written one by one.
const FEW: usize = 5;

/// Writes at which transitions a constraint was made active again, if it was.
fn write_woken(woken: &[u64], page: &mut Page) {
    let (Some(first), Some(last)) = (woken.first(), woken.last()) else {
        return;
    };
    page.text(", woken ");
    if woken.len() > FEW {
        page.number(woken.len() as u64);
        page.text(" times, from ");
        page.number(*first);
        page.text(" to ");
        return page.number(*last);
    }
    page.text("at ");
    for k in 0..woken.len() {
        if k > 0 {
            page.text(", ");
        }
        page.number(woken[k]);
    }
}

impl<'a, 'p> Teller<'a, 'p> {
    /// What tells of a run of texts.
    pub(crate) fn new(alloc: Global, watched: &'a Watched<'p>, texts: &'a Texts) -> Teller<'a, 'p> {
        Teller {
            alloc,
            watched,
            lines: texts.lines.as_slice(),
        }
    }
}

impl Teller<'_, '_> {
    /// Writes the label of a rule.
    pub(crate) fn write_label(&self, rule: usize, page: &mut Page) {
        match rule_at(self.watched.machine().program(), rule) {
            Some(rule) => page.text(rule.label.as_str()),
            None => {}
        }
    }

    /// Writes the label of a rule, and the line where it begins.
    pub(crate) fn write_rule(&self, rule: usize, page: &mut Page) {
        self.write_label(rule, page);
        match self.lines.get(rule) {
            None => {}
            Some(line) => {
                page.text(" (line ");
                page.number(*line);
                page.byte(b')');
            }
        }
    }

    /// Writes a firing: the label of its rule and the identities.
    pub(crate) fn write_entry(&self, entry: &Entry, page: &mut Page) {
        self.write_label(entry.rule(), page);
        page.byte(b' ');
        page.numbers(entry.ids());
    }

    /// Writes a constraint with its identity, as the bindings show it.
    pub(crate) fn write_constraint(&self, id: Id, page: &mut Page) {
        page.number(id.0);
        let Some(birth) = self.watched.birth(id) else {
            return;
        };
        let machine = self.watched.machine();
        let Some(args) = page.made(machine.bindings().resolve_args(&birth.args)) else {
            return;
        };
        page.byte(b' ');
        page.atom(
            machine.program().names(),
            machine.var_names(),
            birth.sym,
            args.as_slice(),
        );
    }

    /// Writes the number of an occurrence of a constraint, and which rule that is.
    pub(crate) fn write_occurrence(&self, id: Id, number: u32, page: &mut Page) {
        page.number(number as u64);
        let Some(birth) = self.watched.birth(id) else {
            return;
        };
        let program = self.watched.machine().program();
        match program.occurrence(birth.sym, number) {
            None => page.text(", behind the last one"),
            Some(occurrence) => {
                page.text(", ");
                self.write_rule(occurrence.rule, page);
            }
        }
    }

    /// Writes where a constraint stands on the goal stack, if it does.
    pub(crate) fn write_standing(&self, id: Id, page: &mut Page) {
        let Some(place) = standing_on(self.watched.machine().stack(), id) else {
            return;
        };
        page.text(", ");
        write_ordinal(place.depth, page);
        page.text(" on the stack");
        match place.occurrence {
            None => {}
            Some(number) => {
                page.text(" at occurrence ");
                self.write_occurrence(id, number, page);
            }
        }
    }

    /// Writes a term as it stands.
    pub(crate) fn write_term(&self, term: &Term, page: &mut Page) {
        let machine = self.watched.machine();
        page.term(machine.program().names(), machine.var_names(), term);
    }

    /// Writes when a constraint came and went, by the run's removals, and at which transitions it was made active again.
    pub(crate) fn write_fate(&self, removals: &Removals, id: Id, woken: &[u64], page: &mut Page) {
        let Some(birth) = self.watched.birth(id) else {
            return page.text("has not come");
        };
        page.text("came at ");
        page.number(birth.at);
        write_woken(woken, page);
        let (Some(at), Some(entry)) = (
            self.watched.departure(removals, id),
            self.watched.remover(removals, id),
        ) else {
            return page.text(", lives");
        };
        page.text(", removed at ");
        page.number(at);
        page.text(" by ");
        self.write_entry(entry, page);
    }

    /// Writes the line that says how the run stands, and after how many transitions.
    pub(crate) fn write_end(&self, page: &mut Page) {
        let machine = self.watched.machine();
        page.text("end ");
        match machine.status() {
            Status::Running => page.text("budget"),
            Status::Done => page.text("done"),
            Status::Failed => page.text("failed"),
            Status::Faulted(fault) => {
                page.text("fault ");
                page.text(fault.word());
            }
        }
        page.text(" after ");
        page.number(machine.steps());
        page.byte(b'\n');
    }
}
