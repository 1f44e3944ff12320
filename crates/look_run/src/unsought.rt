//! Why a list that could fire a rule was not looked for.

use crate::page::Page;
use crate::standing::{occurrence_of, standing_on};
use crate::teller::Teller;
use chr_look::{ListLog, Removals, Watched};
use chr_machine::{Id, Machine};
use chr_store::HeadIds;
use chr_trace::Elem;

/// Whether a list was looked for after so many transitions.
pub(crate) fn is_sought_after(list: &ListLog, at: u64) -> bool {
    list.searches.as_slice().iter().any(|search| search.at > at)
}

/// The first transition, if any, by which one of some constraints left.
fn first_departure(watched: &Watched<'_>, removals: &Removals, ids: &[Id]) -> Option<u64> {
    let mut first: Option<u64> = None;
    for id in ids {
        first = match (first, watched.departure(removals, *id)) {
            (Some(one), Some(other)) => Some(one.min(other)),
            (None, at) => at,
            (at, None) => at,
        };
    }
    first
}

/// A rule with a list of constraints that is asked about.
#[derive(Clone, Copy, Drop)]
pub(crate) struct Listed {
    /// The number of the rule, from 0.
    pub(crate) rule: usize,
    /// The constraints, in the order of the heads.
    pub(crate) ids: HeadIds,
    /// After how many transitions, where not at the end of the run.
    pub(crate) at: Option<u64>,
}

impl Listed {
    /// Which occurrence of its constraint a head is; none where it is passive.
    fn occurrence(self, machine: &Machine<'_>, head: usize) -> Option<usize> {
        occurrence_of(machine.program(), self.rule, head)
    }

    /// Writes which occurrence of the constraint for a head the rule is, or that the head is passive.
    fn write_occurrence(self, teller: &Teller<'_, '_>, head: usize, page: &mut Page) {
        match self.occurrence(teller.watched.machine(), head) {
            Some(number) => {
                page.text("occurrence ");
                page.number(number as u64);
            }
            None => page.text("passive"),
        }
    }

    /// Writes which occurrences of its constraints the rule is.
    fn write_occurrences(self, teller: &Teller<'_, '_>, page: &mut Page) {
        page.text("    ");
        teller.write_label(self.rule, page);
        page.text(" is ");
        for head in 0..self.ids.as_slice().len() {
            if head > 0 {
                page.text(", ");
            }
            let is_passive = self.occurrence(teller.watched.machine(), head).is_none();
            self.write_occurrence(teller, head, page);
            page.text(if is_passive { " at " } else { " of " });
            page.number(self.ids.as_slice().get(head).map_or(0, |id| id.0));
        }
        page.byte(b'\n');
    }

    /// Writes where the constraint for a head stood on a stack, if it did.
    fn write_place(self, teller: &Teller<'_, '_>, stack: &[Elem], head: usize, page: &mut Page) {
        let Some(id) = self.ids.as_slice().get(head) else {
            return;
        };
        let Some(place) = standing_on(stack, *id) else {
            return;
        };
        page.text("    ");
        page.number(id.0);
        match place.occurrence {
            Some(number) => {
                page.text(" was at its occurrence ");
                teller.write_occurrence(*id, number, page);
            }
            None => page.text(" was still to be looked at"),
        }
        page.text("; ");
        teller.write_label(self.rule, page);
        page.text(" is its ");
        self.write_occurrence(teller, head, page);
        page.byte(b'\n');
    }

    /// Whether all heads of the rule are passive.
    fn is_passive(self, machine: &Machine<'_>) -> bool {
        let mut heads = 0..self.ids.as_slice().len();
        heads.all(|head| self.occurrence(machine, head).is_none())
    }

    /// Writes until when the list was not looked for, which could fire in the state `then`, and why it was not.
    pub(crate) fn write_unsought(
        self,
        teller: &Teller<'_, '_>,
        removals: &Removals,
        then: &Machine<'_>,
        page: &mut Page,
    ) {
        let departure = first_departure(teller.watched, removals, self.ids.as_slice());
        match departure {
            Some(at) => {
                page.text("; not looked for before ");
                page.number(at);
            }
            None => {
                page.text("; not looked for up to ");
                page.text(if self.at.is_some() { "then" } else { "the end" });
            }
        }
        page.text(":\n");
        if self.is_passive(then) {
            page.text("    all heads of ");
            teller.write_label(self.rule, page);
            return page.text(" are passive\n");
        }
        if departure.is_none() {
            return self.write_occurrences(teller, page);
        }
        for head in 0..self.ids.as_slice().len() {
            self.write_place(teller, then.stack(), head, page);
        }
    }
}
