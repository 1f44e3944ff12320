//! Mistakes, and where they stand.

use crate::candidate::Candidate;
use crate::hints::Hint;
use chr_read::ReadErrorKind;
use chr_rules::RuleErrorKind;
use std::alloc::{Allocator, Global};

/// What `chr` calls a mistake.
#[derive(Clone, Copy, PartialEq, Eq, Debug, Drop)]
pub enum Kind {
    /// The text is not read.
    Read(ReadErrorKind),
    /// The text is read, and breaks a rule of the language.
    Rule(RuleErrorKind),
}

/// A declared symbol.
#[derive(Drop)]
pub struct Declared<A: Allocator = Global> {
    /// Its name.
    pub name: String<A>,
    /// How many arguments it has.
    pub arity: u128,
}

/// What more is to be said of a mistake.
#[derive(Drop)]
pub enum Detail<A: Allocator = Global> {
    /// Nothing.
    Nothing,
    /// What could stand there.
    Expected(Vec<Candidate, A>),
    /// The number of arguments of the symbol that is not declared, and the declared symbol that comes nearest to it, where one does.
    Undeclared(u128, Option<Declared<A>>),
    /// The line, from 1, of the rule that has the name already.
    NamedBefore(u64),
}

/// A mistake in a text.
#[derive(Drop)]
pub struct Mistake<A: Allocator = Global> {
    /// What it is.
    pub kind: Kind,
    /// The number of characters before the token that it stands at.
    pub begin: usize,
    /// The number of that token's characters; 0 where the text is refused as a whole.
    pub width: usize,
    /// What more is to be said.
    pub detail: Detail<A>,
    /// What was meant, perhaps.
    pub hint: Option<Hint>,
}

impl<A: Allocator> Mistake<A> {
    /// A mistake of which no more is to be said, at characters of a text.
    pub(crate) fn at(kind: Kind, begin: usize, width: usize) -> Mistake<A> {
        Mistake {
            kind,
            begin,
            width,
            detail: Detail::Nothing,
            hint: None,
        }
    }
}
