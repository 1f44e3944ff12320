//! Symbols that are declared, and those that are built in.

use crate::mistake::Declared;
use crate::spots::Spot;
use chr_term::Memory;
use chr_tokens::{Sign, Token};
use std::alloc::Allocator;

/// A symbol: a name, by its characters, and how many arguments it has.
#[derive(Clone, Copy, PartialEq, Eq, Drop)]
pub(crate) struct Symbol<'a> {
    pub(crate) name: &'a [char],
    pub(crate) arity: u128,
}

impl Symbol<'_> {
    /// The same, as it is told.
    pub(crate) fn told<A: Allocator + Copy>(self, alloc: A) -> Result<Declared<A>, Memory> {
        let mut name = String::new(alloc);
        for c in self.name {
            name.push(*c)?;
        }
        Ok(Declared {
            name,
            arity: self.arity,
        })
    }
}

/// Whether a name with so many arguments is built in.
pub(crate) fn is_built_in(symbol: Symbol<'_>) -> bool {
    match symbol.arity {
        0 => is_word(symbol.name, "true") || is_word(symbol.name, "fail"),
        1 => is_test_of_one(symbol.name),
        _ => false,
    }
}

/// Whether a name is that of a built-in test of one argument.
pub(crate) fn is_test_of_one(name: &[char]) -> bool {
    is_word(name, "integer") || is_word(name, "ground")
}

/// Whether characters are those of a word.
pub(crate) fn is_word(characters: &[char], word: &str) -> bool {
    let mut rest = characters;
    for c in word.chars() {
        match rest {
            [first, others @ ..] if *first == c => rest = others,
            _ => return false,
        }
    }
    rest.is_empty()
}

/// A symbol with the token of its name.
#[derive(Clone, Copy, Drop)]
pub(crate) struct Named<'a> {
    pub(crate) symbol: Symbol<'a>,
    pub(crate) spot: Spot<'a>,
}

/// The symbols that the tokens of a directive declare, `NAME / NUMBER`.
pub(crate) fn declared<'a, A: Allocator + Copy>(
    alloc: A,
    tokens: &[Spot<'a>],
) -> Result<Vec<Named<'a>, A>, Memory> {
    let mut found = Vec::new(alloc);
    for k in 0..tokens.len() {
        if let [name, slash, number, ..] = &tokens[k..] {
            if let (
                Token::Name(word),
                Token::Sign(Sign::Slash),
                Token::Number { signed: _, value },
            ) = (name.token, slash.token, number.token)
            {
                found.push(Named {
                    symbol: Symbol {
                        name: word,
                        arity: value,
                    },
                    spot: *name,
                })?;
            }
        }
    }
    Ok(found)
}
