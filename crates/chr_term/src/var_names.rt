ghost use Rattle.std.specs.Prelude.{◌≡◌, ◌↔◌, [], length, map, IfOk, IsTrue, Some, option_copied, string_bytes};
ghost use Rattle.chr_semantics.specs.Names.{if_capital, var_name};
ghost use Rattle.chr_term.specs.Texts.{texts_of};

use crate::Memory;
use std::alloc::{Allocator, Global};
use std::marker::Model;

/// The names of the variables of a query, by their numbers.
#[derive(Drop)]
pub struct VarNames<A: Allocator = Global> {
    names: Vec<String<A>, A>,
}

impl<A: Allocator> Model for VarNames<A> {
    ghost use Rattle.std.specs.Prelude.{List, ℕ};

    ghost Value = { List (List ℕ) };

    ghost use Rattle.chr_term.specs.Texts.{texts_of};

    ghost view = { λ vars. texts_of vars.names.items };
}

impl<A: Allocator> VarNames<A> {
    /// The names, that of variable 0 first.
    pub fn new(names: Vec<String<A>, A>) -> VarNames<A>
        ensures { result ≡ map string_bytes names.items }
    {
        VarNames { names }
    }

    /// How many variables have a name.
    pub fn len(&self) -> usize
        ensures { result ≡ length self.now }
    {
        self.names.len()
    }

    /// Whether no variable has a name.
    pub fn is_empty(&self) -> bool
        ensures { IsTrue result ↔ (self.now ≡ []) }
    {
        self.len() == 0
    }

    /// The name that a variable prints as: one that begins with an ASCII capital.
    pub fn name(&self, number: usize) -> Option<&str>
        ensures { option_copied result ≡ var_name self.now number }
    {
        if number >= self.names.len() {
            return None;
        }
        let name = self.names[number].as_str();
        if begins_with_capital(name) {
            Some(name)
        } else {
            None
        }
    }
}

impl<A: Allocator + Copy> VarNames<A> {
    /// Equal names, in memory of their own.
    pub fn copy(&self) -> Result<VarNames<A>, Memory>
        ensures { IfOk result (λ copied. copied ≡ self.now) }
    {
        let names = copy_texts(*self.names.allocator(), self.names.as_slice())?;
        Ok(VarNames { names })
    }
}

/// Equal texts.
fn copy_texts<A: Allocator + Copy>(
    alloc: A,
    texts: &[String<A>],
) -> Result<Vec<String<A>, A>, Memory>
    ensures { IfOk result (λ copied. texts_of copied.items ≡ texts_of texts.now) }
{
    let mut copied = Vec::with_capacity(alloc, texts.len())?;
    for text in texts {
        copied.push(String::from_str(alloc, text.as_str())?)?;
    }
    Ok(copied)
}

fn begins_with_capital(name: &str) -> bool
    ensures { IsTrue result ↔ (if_capital name.now ≡ Some name.now) }
{
    match name.as_bytes() {
        [first, ..] => first.is_ascii_uppercase(),
        [] => false,
    }
}
