//! What is wrong with a program, and with a query over it, and what looks wrong where nothing is.

use crate::doubts::write_suspicions;
use crate::mistakes::write_mistakes;
use crate::page::Page;
use chr_check::{mistakes, query_mistakes, suspicions};
use chr_term::Memory;
use std::alloc::Global;

/// A text, and what it is called.
#[derive(Clone, Copy, Drop)]
pub(crate) struct Source<'a> {
    /// What it is called.
    pub(crate) name: &'a str,
    /// The text.
    pub(crate) text: &'a [u8],
}

/// Writes all that is wrong with the text of a program, and with that of a query where there is one, and says whether something is.
fn write_wrong(
    alloc: Global,
    program: Source<'_>,
    query: Option<&str>,
    page: &mut Page,
) -> Result<bool, Memory> {
    let found = mistakes(alloc, program.text)?;
    write_mistakes(alloc, program.name, program.text, found.as_slice(), page);
    let Some(query) = query else {
        return Ok(!found.is_empty());
    };
    let of_query = query_mistakes(alloc, program.text, query.as_bytes())?;
    write_mistakes(alloc, "query", query.as_bytes(), of_query.as_slice(), page);
    Ok(!found.is_empty() || !of_query.is_empty())
}

/// Writes all that is wrong with a program and a query, or else what looks wrong in the program; and says whether something is wrong.
pub(crate) fn write_checked(
    alloc: Global,
    program: Source<'_>,
    query: Option<&str>,
    page: &mut Page,
) -> Result<bool, Memory> {
    if write_wrong(alloc, program, query, page)? {
        return Ok(true);
    }
    let query = match query {
        Some(query) => Some(query.as_bytes()),
        None => None,
    };
    let found = suspicions(alloc, program.text, query)?;
    write_suspicions(alloc, program.name, program.text, found.as_slice(), page);
    Ok(false)
}
