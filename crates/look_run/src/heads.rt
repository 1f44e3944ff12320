//! The heads of rules, as they stand in the text of a program.

use crate::excerpt::{characters, write_flat};
use crate::page::Page;
use chr_check::{RuleSpans, rule_spans};
use chr_term::Memory;
use std::alloc::Global;

/// The text of a program, and where its rules and their heads stand in it.
#[derive(Drop)]
pub(crate) struct Heads {
    pub(crate) characters: Vec<char>,
    pub(crate) rules: Vec<RuleSpans>,
}

impl Heads {
    /// Those of a program that is accepted.
    pub(crate) fn of(alloc: Global, program: &[u8]) -> Result<Heads, Memory> {
        Ok(Heads {
            characters: characters(alloc, program)?,
            rules: rule_spans(alloc, program)?,
        })
    }

    /// Writes a head of a rule, both counted from 0, in one line.
    pub(crate) fn write(&self, rule: usize, head: usize, page: &mut Page) {
        let Some(rule) = self.rules.get(rule) else {
            return;
        };
        match rule.heads.get(head) {
            None => {}
            Some(span) => write_flat(self.characters.as_slice(), span.begin, span.width, page),
        }
    }
}
