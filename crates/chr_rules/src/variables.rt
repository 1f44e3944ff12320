//! The variables of a rule or a query.
ghost use Rattle.std.specs.Prelude.{◌≡◌, ◌++◌, ◌∷◌, [], IfOk, None, OnOk, length};
ghost use Rattle.chr_term.specs.Texts.{texts_of};
ghost use Rattle.chr_rules.specs.Words.{words_of};
ghost use Rattle.chr_semantics.specs.Meaning.{is_anonymous, variable_in, variable_of, with_variable};

use chr_term::{FoldState, Memory, VarNames};
use indexmap::IndexMap;
use std::alloc::Allocator;
use std::marker::Model;

/// The words of the variables that were met, each at the place that is its number. `_` is a new variable each time.
#[derive(Drop)]
pub(crate) struct Variables<'s, A: Allocator> {
    words: Vec<&'s str, A>,
    /// The number of each word but `_`.
    numbers: IndexMap<&'s str, u64, FoldState, A>,
}

impl<'s, A: Allocator> Model for Variables<'s, A> {
    ghost use Rattle.std.specs.Prelude.{List, ℕ};

    ghost Value = { List (List ℕ) };

    ghost use Rattle.chr_rules.specs.Words.{AreNumbered, words_of};

    ghost view = { λ variables. words_of variables.words.items };

    ghost invariant = { λ variables. AreNumbered (words_of variables.words.items) variables.numbers };
}

impl<'s, A: Allocator + Copy> Variables<'s, A> {
    /// No variables.
    pub(crate) fn new(alloc: A) -> Variables<'s, A>
        ensures { result ≡ [] }
    {
        Variables {
            words: Vec::new(alloc),
            numbers: IndexMap::new(alloc),
        }
    }

    /// How many there are.
    pub(crate) fn len(&self) -> usize
        ensures { result ≡ length self.now }
    {
        self.words.len()
    }

    /// The number of a word, if it was met; `_` is always new.
    pub(crate) fn number(&self, word: &str) -> Option<u64>
        ensures { result ≡ variable_of self.now word.now }
    {
        if is_anonymous(word) {
            return None;
        }
        self.numbers.get(word).copied()
    }

    /// The number of a word, which is new or was met.
    pub(crate) fn meet(&mut self, word: &'s str) -> Result<u64, Memory>
        ensures met { OnOk result (self.new ≡ with_variable self.old word.now) }
        ensures number { IfOk result (λ number. number ≡ variable_in self.old word.now) }
    {
        match self.number(word) {
            Some(number) => Ok(number),
            None => self.append(word),
        }
    }
}

impl<'s, A: Allocator + Copy> Variables<'s, A> {
    /// Gives a word that is new the next number.
    fn append(&mut self, word: &'s str) -> Result<u64, Memory>
        requires { variable_of self.old word.now ≡ None }
        ensures appended { OnOk result (self.new ≡ self.old ++ word.now ∷ []) }
        ensures number { IfOk result (λ number. number ≡ length self.old) }
    {
        let number = self.words.len() as u64;
        self.words.push(word)?;
        if is_anonymous(word) {
            return Ok(number);
        }
        match self.numbers.insert(word, number) {
            Ok(_) => Ok(number),
            Err(refused) => {
                self.words.pop();
                Err(refused.into())
            }
        }
    }

    /// The words as the names of a query's variables.
    pub(crate) fn names(&self, alloc: A) -> Result<VarNames<A>, Memory>
        ensures { IfOk result (λ names. names ≡ self.now) }
    {
        let names = copied(alloc, self.words.as_slice())?;
        Ok(VarNames::new(names))
    }
}

/// Words in memory of their own.
fn copied<A: Allocator + Copy>(alloc: A, words: &[&str]) -> Result<Vec<String<A>, A>, Memory>
    ensures { IfOk result (λ copied. texts_of copied.items ≡ words_of words.now) }
{
    let mut copied = Vec::with_capacity(alloc, words.len())?;
    for place in 0..words.len() {
        let word = words[place];
        copied.push(String::from_str(alloc, word)?)?;
    }
    Ok(copied)
}

/// Whether a word is `_`.
fn is_anonymous(word: &str) -> bool
    ensures { result ≡ is_anonymous word.now }
{
    word == "_"
}
