//! Texts under one another, each as wide as the widest.

use crate::page::Page;
use crate::teller::Teller;
use chr_machine::Id;
use chr_term::Memory;
use std::alloc::Global;

/// Texts that stand under one another.
#[derive(Drop)]
pub(crate) struct Column {
    texts: Vec<Page>,
    width: usize,
}

/// How many characters a text in UTF-8 has.
fn width_of(text: &[u8]) -> usize {
    let mut width = 0;
    for k in 0..text.len() {
        if text[k] & 0xC0 != 0x80 {
            width += 1;
        }
    }
    width
}

impl Column {
    fn new(alloc: Global) -> Column {
        Column {
            texts: Vec::new(alloc),
            width: 0,
        }
    }

    /// Puts a text below the others.
    fn push(&mut self, page: Page) -> Result<(), Memory> {
        self.width = self.width.max(width_of(page.whole()?));
        self.texts.push(page)?;
        Ok(())
    }

    /// The constraints of identities.
    pub(crate) fn of(teller: &Teller<'_, '_>, ids: &[Id]) -> Result<Column, Memory> {
        let mut column = Column::new(teller.alloc);
        for id in ids {
            let mut page = Page::new(teller.alloc);
            teller.write_constraint(*id, &mut page);
            column.push(page)?;
        }
        Ok(column)
    }

    /// Writes the text at a place, from 0, and spaces up to the end of the widest one.
    pub(crate) fn write(&self, place: usize, page: &mut Page) {
        let Some(entry) = self.texts.get(place) else {
            return;
        };
        let Some(text) = page.made(entry.whole()) else {
            return;
        };
        page.bytes(text);
        for _ in width_of(text)..self.width {
            page.byte(b' ');
        }
    }
}
