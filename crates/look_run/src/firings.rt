//! The firings of a run.

use crate::page::Page;
use crate::reading::Texts;
use crate::refusal::Refusal;
use crate::standing::rule_at;
use crate::teller::Teller;
use chr_look::Watched;
use chr_machine::{Id, Stepped};
use chr_store::Entry;
use std::alloc::Global;
use std::io::Write;

/// How many bytes go out by one write.
const PORTION: usize = 0x2000;

/// Writes a constraint at a head of a rule that fired, and whether the rule kept it.
fn write_head(teller: &Teller<'_, '_>, is_kept: bool, id: Id, page: &mut Page) {
    page.text(if is_kept { "  keeps " } else { "  removes " });
    teller.write_constraint(id, page);
    page.byte(b'\n');
}

/// Writes a firing, with its constraints.
fn write_firing(teller: &Teller<'_, '_>, at: u64, entry: &Entry, page: &mut Page) {
    page.number(at);
    page.byte(b' ');
    teller.write_rule(entry.rule(), page);
    page.byte(b'\n');
    let program = teller.watched.machine().program();
    let kept = rule_at(program, entry.rule()).map_or(0, |rule| rule.kept);
    let ids = entry.ids();
    for k in 0..ids.len() {
        write_head(teller, k < kept, ids[k], page);
    }
}

/// Writes the firings of a run while it makes n transitions or ends. They go out in portions, but for the last lines.
pub(crate) fn write_firings<W: Write>(
    alloc: Global,
    texts: &Texts,
    watched: &mut Watched<'_>,
    n: u64,
    output: &mut W,
    page: &mut Page,
) -> Result<(), Refusal> {
    for _ in 0..n {
        let before = watched.machine().history().list().len();
        match watched.step()? {
            Stepped::Moved => {}
            Stepped::Ended | Stepped::Spent => return Ok(()),
        }
        let teller = Teller::new(alloc, &*watched, texts);
        let machine = teller.watched.machine();
        if let Some(entry) = machine.history().list().get(before) {
            write_firing(&teller, machine.steps(), entry, page);
        }
        if page.len()? >= PORTION {
            page.send(output)?;
        }
    }
    Ok(())
}
