//! Where constraints stand: on the goal stack, and at the heads of a rule.

use crate::page::Page;
use chr_machine::Id;
use chr_rules::{Program, Rule};
use chr_trace::Elem;

/// Where a constraint stands on a goal stack.
#[derive(Clone, Copy, Drop)]
pub(crate) struct Standing {
    /// Its place from the top on, from 1.
    pub(crate) depth: u64,
    /// The number of the occurrence at which it is active, from 1; none where it waits.
    pub(crate) occurrence: Option<u32>,
}

/// Where a constraint stands highest on a goal stack, whose top is its last element.
pub(crate) fn standing_on(stack: &[Elem], id: Id) -> Option<Standing> {
    let mut depth = 0_u64;
    for elem in stack.iter().rev() {
        depth = depth.saturating_add(1);
        let found = match elem {
            Elem::Goal(_) => None,
            Elem::Known(other, _, _) => Some((*other, None)),
            Elem::Active(other, number, _, _) => Some((*other, Some(*number))),
        };
        if let Some((other, occurrence)) = found {
            if other == id {
                return Some(Standing { depth, occurrence });
            }
        }
    }
    None
}

/// The rule with a number from 0.
pub(crate) fn rule_at(program: &Program, rule: usize) -> Option<&Rule> {
    if rule < program.rules() {
        Some(program.rule(rule))
    } else {
        None
    }
}

/// The number, from 1, of the occurrence that a head of a rule is, counted from 0; none where it is passive.
pub(crate) fn occurrence_of(program: &Program, rule: usize, head: usize) -> Option<usize> {
    let (sym, _) = rule_at(program, rule)?.heads.get(head)?;
    let occurrences = program.occurrences(*sym);
    let place = occurrences
        .iter()
        .position(|other| other.rule == rule && other.place == head)?;
    place.checked_add(1)
}

/// Writes a number as the place that it is: 1st, 2nd, 3rd, 4th.
pub(crate) fn write_ordinal(number: u64, page: &mut Page) {
    page.number(number);
    let is_teen = number / 10 % 10 == 1;
    page.text(match number % 10 {
        1 if !is_teen => "st",
        2 if !is_teen => "nd",
        3 if !is_teen => "rd",
        _ => "th",
    })
}
