//! Mistakes of a text, each with its line and a mark under its token.

use crate::excerpt::{Excerpt, characters};
use crate::page::Page;
use chr_check::{Candidate, Detail, Kind, Mistake};
use chr_read::ReadErrorKind;
use chr_rules::RuleErrorKind;
use chr_term::Memory;
use std::alloc::Global;

/// What is said of a text that is not read.
fn reading_text(kind: ReadErrorKind) -> &'static str {
    match kind {
        ReadErrorKind::NotUtf8 => "the text is not UTF-8",
        ReadErrorKind::TooLong => "the text has more than 1048576 bytes",
        ReadErrorKind::BadChar => "no token begins so",
        ReadErrorKind::UnclosedComment => "nothing closes it",
        ReadErrorKind::NumberTooLarge =>
            "the greatest number is 170141183460469231731687303715884105727",
        ReadErrorKind::Expected => "no token may stand here",
        ReadErrorKind::TooDeep => "256 brackets are open",
        ReadErrorKind::Memory => "memory is refused",
    }
}

/// What is said of a text that is read, and breaks a rule of the language.
fn rule_text(kind: RuleErrorKind) -> &'static str {
    match kind {
        RuleErrorKind::Undeclared => "no directive declares it",
        RuleErrorKind::BuiltinInHead => "it is built in",
        RuleErrorKind::NotAGoal => "it is neither a constraint nor built in",
        RuleErrorKind::NotATest => "a guard has tests alone",
        RuleErrorKind::GuardVariable => "it is in no head",
        RuleErrorKind::GuardOnly => "only a guard has it",
        RuleErrorKind::DuplicateName => "an earlier rule has the name",
        RuleErrorKind::TooManyHeads => "a rule has at most 8 heads",
        RuleErrorKind::ArityTooLarge => "a name has at most 16 arguments",
        RuleErrorKind::TooManyRules => "a program has at most 1024 rules",
        RuleErrorKind::BackslashInPropagation => "a rule with `\\` has `<=>`",
        RuleErrorKind::TooManyVariables => "a rule has at most 64 variables",
        RuleErrorKind::Memory => "memory is refused",
    }
}

/// Writes the name of a mistake and what is said of it in general.
fn write_kind(kind: Kind, page: &mut Page) {
    match kind {
        Kind::Read(kind) => write_named(kind.word(), reading_text(kind), page),
        Kind::Rule(kind) => write_named(kind.word(), rule_text(kind), page),
    }
}

/// Writes a name and what is said of it.
fn write_named(name: &str, text: &str, page: &mut Page) {
    page.text(name);
    page.text(": ");
    page.text(text);
}

/// Writes candidates with commas between them.
fn write_listed(candidates: &[Candidate], page: &mut Page) {
    for k in 0..candidates.len() {
        if k > 0 {
            page.text(", ");
        }
        page.text(candidates[k].word());
    }
}

/// Writes a name with the number of its arguments.
fn write_symbol(name: &str, arity: u128, page: &mut Page) {
    page.text(name);
    page.byte(b'/');
    page.number(arity.min(u64::MAX as u128) as u64);
}

/// Writes what is wrong, in a line.
fn write_what(excerpt: Excerpt<'_>, mistake: &Mistake, page: &mut Page) {
    match &mistake.detail {
        Detail::Expected(candidates) if !candidates.is_empty() => {
            page.text("Expected: here may stand ");
            write_listed(candidates.as_slice(), page);
        }
        Detail::Undeclared(arity, near) => {
            page.text("Undeclared: no directive declares ");
            excerpt.write_marked(page);
            page.byte(b'/');
            page.number((*arity).min(u64::MAX as u128) as u64);
            if let Some(near) = near {
                page.text("; one declares ");
                write_symbol(near.name.as_str(), near.arity, page);
            }
        }
        Detail::NamedBefore(line) => {
            page.text("DuplicateName: the rule in line ");
            page.number(*line);
            page.text(" has it");
        }
        _ => write_kind(mistake.kind, page),
    }
}

/// Writes a mistake of a text by the name of that text, its place, what is wrong, the line with a mark under the token, and a hint.
fn write_mistake(name: &str, text: &[char], mistake: &Mistake, page: &mut Page) {
    let excerpt = Excerpt::of(text, mistake.begin, mistake.width);
    page.text(name);
    if mistake.width > 0 {
        excerpt.write_place(page);
    }
    page.text(": ");
    write_what(excerpt, mistake, page);
    page.byte(b'\n');
    if mistake.width > 0 {
        excerpt.write_lines(page);
    }
    if let Some(hint) = mistake.hint {
        page.text("  hint: ");
        page.text(hint.word());
        page.byte(b'\n');
    }
}

/// Writes mistakes of a text.
pub(crate) fn write_mistakes(
    alloc: Global,
    name: &str,
    text: &[u8],
    mistakes: &[Mistake],
    page: &mut Page,
) {
    let Some(text) = page.made(characters(alloc, text)) else {
        return;
    };
    for mistake in mistakes {
        write_mistake(name, text.as_slice(), mistake, page);
    }
}
