//! What looks wrong in a program that is accepted, each place with its line and a mark under its token.

use crate::excerpt::{Excerpt, characters};
use crate::page::Page;
use chr_check::{Doubt, Suspicion};
use std::alloc::Global;

/// What a suspicion is called.
fn doubt_word(doubt: Doubt) -> &'static str {
    match doubt {
        Doubt::LoneVariable => "LoneVariable",
        Doubt::UnusedSymbol => "UnusedSymbol",
        Doubt::UnmadeHead => "UnmadeHead",
        Doubt::PassiveRule => "PassiveRule",
        Doubt::TakenBefore(_) => "TakenBefore",
        Doubt::LateDuplicates(_) => "LateDuplicates",
        Doubt::MadeAgain => "MadeAgain",
        Doubt::Unevaluated => "Unevaluated",
        Doubt::HopelessTest => "HopelessTest",
    }
}

/// Writes a line number between two texts.
fn write_around(front: &str, line: u64, behind: &str, page: &mut Page) {
    page.text(front);
    page.number(line);
    page.text(behind);
}

/// Writes what is said of a suspicion.
fn write_doubt(doubt: Doubt, page: &mut Page) {
    let text = match doubt {
        Doubt::LoneVariable => "it stands once in the rule; where that is meant, begin it with `_`",
        Doubt::UnusedSymbol => "no rule has it, and no query that is given",
        Doubt::UnmadeHead => "no body makes such a constraint, and the query has none",
        Doubt::PassiveRule => "all its heads are passive, so it never fires",
        Doubt::TakenBefore(line) => {
            let behind = " takes constraints of this one first, wherever both could fire";
            return write_around("the rule in line ", line, behind, page);
        }
        Doubt::LateDuplicates(line) => {
            let behind = " looks for the duplicates before this one drops them";
            return write_around("the rule in line ", line, behind, page);
        }
        Doubt::MadeAgain => "the rule removes it and makes the same again",
        Doubt::Unevaluated => "nothing is evaluated in a constraint: let X is E stand before it",
        Doubt::HopelessTest => "it holds for no values, so the rule never fires",
    };
    page.text(text);
}

/// Writes a suspicion by the name of the text, its place, what it is, and the line with a mark under the token.
fn write_suspicion(name: &str, text: &[char], suspicion: Suspicion, page: &mut Page) {
    let excerpt = Excerpt::of(text, suspicion.begin, suspicion.width);
    page.text(name);
    excerpt.write_place(page);
    page.text(": ");
    page.text(doubt_word(suspicion.doubt));
    page.text(": ");
    write_doubt(suspicion.doubt, page);
    page.byte(b'\n');
    excerpt.write_lines(page);
}

/// Writes suspicions of a text.
pub(crate) fn write_suspicions(
    alloc: Global,
    name: &str,
    text: &[u8],
    suspicions: &[Suspicion],
    page: &mut Page,
) {
    let Some(text) = page.made(characters(alloc, text)) else {
        return;
    };
    for suspicion in suspicions {
        write_suspicion(name, text.as_slice(), *suspicion, page);
    }
}
