//! How a constraint came and went, and what it came from.

use crate::column::Column;
use crate::page::Page;
use crate::refusal::Refusal;
use crate::teller::Teller;
use chr_look::Watched;
use chr_machine::Id;
use chr_term::Memory;
use std::alloc::Global;

/// Marks the constraints that the firing had which made one.
fn mark_sources(watched: &Watched<'_>, id: Id, marks: &mut Vec<bool>) {
    let Some(entry) = watched.maker(id) else {
        return;
    };
    for source in entry.ids() {
        if let Some(mark) = marks.get_mut(source.0 as usize) {
            *mark = true;
        }
    }
}

/// The identity of a constraint, and those of all that it came from, the greatest first.
fn sources(alloc: Global, watched: &Watched<'_>, id: Id) -> Result<Vec<Id>, Memory> {
    let mut marks = Vec::new(alloc);
    for place in 0..=id.0 {
        marks.push(place == id.0)?;
    }
    let mut ids = Vec::new(alloc);
    for place in (1..=id.0).rev() {
        if marks.get(place as usize) == Some(&true) {
            ids.push(Id(place))?;
            mark_sources(watched, Id(place), &mut marks);
        }
    }
    Ok(ids)
}

/// Writes how a constraint was made.
fn write_origin(teller: &Teller<'_, '_>, id: Id, page: &mut Page) {
    match teller.watched.maker(id) {
        None => page.text(", a goal of the query"),
        Some(entry) => {
            page.text(", made by ");
            teller.write_entry(entry, page);
        }
    }
}

/// Writes how the constraint of an identity came, was made active again and went, and how all that it came from came and went.
pub(crate) fn write_life(
    teller: &Teller<'_, '_>,
    id: u64,
    woken: &[u64],
    page: &mut Page,
) -> Result<(), Refusal> {
    if teller.watched.birth(Id(id)).is_none() {
        return Err(Refusal::UnknownConstraint(id));
    }
    let ids = sources(teller.alloc, teller.watched, Id(id))?;
    let removals = teller.watched.removals(teller.alloc)?;
    let column = Column::of(teller, ids.as_slice())?;
    for place in 0..ids.len() {
        column.write(place, page);
        page.text("  ");
        let woken = if place == 0 { woken } else { &[] };
        teller.write_fate(&removals, ids[place], woken, page);
        write_origin(teller, ids[place], page);
        page.byte(b'\n');
    }
    Ok(())
}
