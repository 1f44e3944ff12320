//! A plain search, written from the definition: it looks at all lists of rows in lexicographic order, and takes the first that can fire.
use super::checks::got;
use chr_bind::{Match, are_below, fit, guard_holds};
use chr_rules::Rule;
use chr_semantics::limits::MAX_RULE_VARIABLES;
use chr_store::{Entry, Id, Row};
use std::alloc::Global;
use std::process::Abort;

/// The constraints that live, by ascending identity.
pub(super) type Rows = Vec<(Id, Row)>;

/// A rule, its number, and the head that the own constraint stands at.
#[derive(Clone, Copy)]
pub(super) struct Sought<'a> {
    pub rule: &'a Rule,
    pub number: usize,
    pub place: usize,
    pub own: Id,
}

/// Whether the rule has fired with these constraints.
fn was_fired(history: &[Entry], number: usize, ids: &[Id]) -> bool {
    for entry in history {
        if entry.rule() == number && entry.ids() == ids {
            return true;
        }
    }
    false
}

/// Adds a row to those that fit the heads before it, if it is another one than these and fits the next head.
fn fits_next<'a>(
    rt: &impl Abort,
    sought: Sought<'_>,
    (id, row): (Id, &'a Row),
    ids: &mut Vec<Id>,
    matching: &mut Match<'a>,
) -> bool {
    let (sym, args) = match sought.rule.heads.get(ids.len()) {
        None => return false,
        Some((sym, args)) => (*sym, args.as_slice()),
    };
    if ids.contains(&id) || sym != row.sym || !are_below(MAX_RULE_VARIABLES as u64, args) {
        return false;
    }
    got(rt, ids.push(id));
    fit(args, row.args.as_slice(), matching)
}

/// The identities of the list of rows, given by their places among the rows, if it fits the heads and the guard holds.
fn fitting(
    rt: &impl Abort,
    alloc: Global,
    rows: &[(Id, Row)],
    sought: Sought<'_>,
    list: &[usize],
) -> Option<Vec<Id>> {
    let mut matching = Match::new();
    let mut ids = Vec::new(alloc);
    for place in list {
        let fits = match rows.get(*place) {
            None => false,
            Some((id, row)) => fits_next(rt, sought, (*id, row), &mut ids, &mut matching),
        };
        if !fits {
            return None;
        }
    }
    if got(
        rt,
        guard_holds(alloc, sought.rule.guard.as_slice(), &matching),
    ) {
        Some(ids)
    } else {
        None
    }
}

/// The next list of places in lexicographic order, or none after the last.
fn next(list: &mut [usize], count: usize) -> bool {
    for place in list.iter_mut().rev() {
        if *place < count.saturating_sub(1) {
            *place += 1;
            return true;
        }
        *place = 0;
    }
    false
}

/// Whether the own constraint stands at its head.
fn is_own(sought: Sought<'_>, ids: &[Id]) -> bool {
    ids.get(sought.place) == Some(&sought.own)
}

/// A list of the first row for each head.
fn first_list(rt: &impl Abort, alloc: Global, heads: usize) -> Vec<usize> {
    let mut list = Vec::new(alloc);
    for _ in 0..heads {
        got(rt, list.push(0));
    }
    list
}

/// The first list of rows with the own constraint at its head that can fire.
pub(super) fn plain_first(
    rt: &impl Abort,
    alloc: Global,
    rows: &[(Id, Row)],
    history: &[Entry],
    sought: Sought<'_>,
) -> Option<Vec<Id>> {
    let mut list = first_list(rt, alloc, sought.rule.heads.len());
    for _ in 0..1_000_000u64 {
        if let Some(ids) = fitting(rt, alloc, rows, sought, list.as_slice()) {
            if is_own(sought, ids.as_slice())
                && !was_fired(history, sought.number, ids.as_slice())
            {
                return Some(ids);
            }
        }
        if !next(list.as_mut_slice(), rows.len()) {
            return None;
        }
    }
    None
}
