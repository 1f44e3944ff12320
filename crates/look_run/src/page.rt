//! Texts that are being written.

use crate::refusal::Refusal;
use chr_term::{
    Memory, Names, Numbered, Sym, Term, VarNames, print, print_atom, print_numbers, write_byte,
    write_bytes, write_number, write_text,
};
use chr_trace::Ending;
use chr_words::files::write_all;
use std::alloc::{AllocError, Global};
use std::io::Write;

/// A text that is being written. Once memory is refused it takes nothing more, and is never read.
#[derive(Drop)]
pub(crate) struct Page {
    text: Vec<u8>,
    is_refused: bool,
}

impl Page {
    /// With nothing on it.
    pub(crate) fn new(alloc: Global) -> Page {
        Page {
            text: Vec::new(alloc),
            is_refused: false,
        }
    }

    /// Notes whether something could be written.
    fn note(&mut self, written: Result<(), Memory>) {
        if written.is_err() {
            self.is_refused = true;
        }
    }

    /// Writes a byte.
    pub(crate) fn byte(&mut self, byte: u8) {
        let written = write_byte(byte, &mut self.text);
        self.note(written);
    }

    /// Writes bytes.
    pub(crate) fn bytes(&mut self, bytes: &[u8]) {
        let written = write_bytes(bytes, &mut self.text);
        self.note(written);
    }

    /// Writes a text.
    pub(crate) fn text(&mut self, text: &str) {
        let written = write_text(text, &mut self.text);
        self.note(written);
    }

    /// Writes a number.
    pub(crate) fn number(&mut self, number: u64) {
        let written = write_number(number, &mut self.text);
        self.note(written);
    }

    /// Writes numbers with commas between them.
    pub(crate) fn numbers<I: Numbered>(&mut self, numbers: &[I]) {
        let written = print_numbers(numbers, &mut self.text);
        self.note(written);
    }

    /// Writes a term.
    pub(crate) fn term(&mut self, names: &Names, vars: &VarNames, term: &Term) {
        let written = print(names, vars, term, &mut self.text);
        self.note(written);
    }

    /// Writes a constraint.
    pub(crate) fn atom(&mut self, names: &Names, vars: &VarNames, sym: Sym, args: &[Term]) {
        let written = print_atom(names, vars, sym, args, &mut self.text);
        self.note(written);
    }

    /// Writes how a run ended.
    pub(crate) fn ending(&mut self, ending: &Ending<'_>) {
        let written = ending.write(&mut self.text);
        self.note(written);
    }

    /// What was made for the text, unless memory was refused for it.
    pub(crate) fn made<T>(&mut self, made: Result<T, Memory>) -> Option<T> {
        match made {
            Ok(value) => Some(value),
            Err(_) => {
                self.is_refused = true;
                None
            }
        }
    }

    /// The whole text, where no memory was refused.
    pub(crate) fn whole(&self) -> Result<&[u8], Memory> {
        if self.is_refused {
            return Err(AllocError);
        }
        Ok(self.text.as_slice())
    }

    /// How long the text is, where no memory was refused.
    pub(crate) fn len(&self) -> Result<usize, Memory> {
        Ok(self.whole()?.len())
    }

    /// Sends the text out, so that nothing is left on the page.
    pub(crate) fn send<W: Write>(&mut self, output: &mut W) -> Result<(), Refusal> {
        write_all(output, self.whole()?).ok_or(Refusal::Write)?;
        self.text.clear();
        Ok(())
    }
}
