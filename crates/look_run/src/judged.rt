//! What is said of a verdict on a rule and a list of constraints.

use crate::guarding::write_lack;
use crate::page::Page;
use crate::teller::Teller;
use chr_bind::{Lack, Test};
use chr_look::{Verdict, guard_test, judge};
use chr_store::HeadIds;
use chr_term::Term;

/// What a lack is called.
fn lack_word(lack: Lack) -> &'static str {
    match lack {
        Lack::Untrue => "guard, false",
        Lack::Undecided => "guard, not yet",
        Lack::Never => "guard, never",
    }
}

/// What a verdict is called.
pub(crate) fn verdict_word(verdict: &Verdict) -> &'static str {
    match verdict {
        Verdict::Fired => "fired",
        Verdict::NotYetThere(_) => "not yet there",
        Verdict::Removed(_) => "removed",
        Verdict::Twice(_) => "twice",
        Verdict::OtherSymbol(_) => "other symbol",
        Verdict::Unlike(_, _) => "unlike",
        Verdict::Waits(_, _) => "waits",
        Verdict::Guard(_, lack) => lack_word(*lack),
        Verdict::CouldFire => "could fire",
    }
}

/// Writes a word and a number behind it.
pub(crate) fn write_numbered(word: &str, number: u64, page: &mut Page) {
    page.text(word);
    page.number(number);
}

/// Writes where a head and a constraint part: the head, and the arguments that lead there.
fn write_way(way: &[usize], page: &mut Page) {
    for k in 0..way.len() {
        let word = match k {
            0 => "  head ",
            1 => ", argument ",
            _ => " of ",
        };
        write_numbered(word, way[k] as u64, page);
    }
}

/// A verdict, and the test that it is about.
#[derive(Drop)]
pub(crate) struct Judged {
    pub(crate) verdict: Verdict,
    test: Option<Test>,
}

/// The verdict on a rule of the program and a list where a run stands, and the test that it is about, as it stands.
pub(crate) fn judge_listed(
    teller: &Teller<'_, '_>,
    rule: usize,
    ids: HeadIds,
    page: &mut Page,
) -> Option<Judged> {
    let machine = teller.watched.machine();
    if rule >= machine.program().rules() {
        return None;
    }
    let verdict = page.made(judge(teller.alloc, machine, rule, ids))?;
    let test = match &verdict {
        Verdict::Guard(k, _) => page.made(guard_test(teller.alloc, machine, rule, ids, *k))?,
        _ => None,
    };
    Some(Judged { verdict, test })
}

/// Writes the line that says more of a verdict, where there is more.
pub(crate) fn write_detail(teller: &Teller<'_, '_>, judged: &Judged, page: &mut Page) {
    match &judged.verdict {
        Verdict::Fired | Verdict::NotYetThere(_) | Verdict::Removed(_) | Verdict::CouldFire =>
            return,
        Verdict::Twice(id) => write_numbered("  two heads have ", id.0, page),
        Verdict::OtherSymbol(head) => {
            write_numbered("  head ", *head as u64, page);
            page.text(" has another symbol");
        }
        Verdict::Unlike(way, parting) => {
            write_way(way.as_slice(), page);
            page.text(": the rule has ");
            teller.write_term(&parting.left, page);
            page.text(", the constraint ");
            teller.write_term(&parting.right, page);
        }
        Verdict::Waits(head, variable) => {
            write_numbered("  head ", *head as u64, page);
            page.text(": ");
            teller.write_term(&Term::Var(*variable), page);
            page.text(" has no value yet");
        }
        Verdict::Guard(k, lack) => match &judged.test {
            Some(test) => write_lack(teller, test, *lack, page),
            None => write_numbered("  test ", *k as u64, page),
        },
    }
    page.byte(b'\n');
}
